//! Why a text is no model.
use json::Error as JsonError;
use std::alloc::{AllocError, AllocFailed};
use thiserror::Error;

/// Why a text is no model. The text is the id of a shape of the model. `Display` writes the variant's name.
#[derive(Clone, Copy, Debug, Drop, PartialEq, Eq, Error)]
pub enum ModelFault<'a> {
    /// The text is no JSON, or nests deeper than 128.
    #[error("NotJson")]
    NotJson,
    /// An object has a name twice, as where two shapes have one id.
    #[error("NameTwice")]
    NameTwice,
    /// It is JSON, and neither a Smithy 2.0 model nor a `service-2.json`.
    #[error("NotAModel")]
    NotAModel,
    /// A shape whose parts aren't as its type asks: no type, an unknown type, a part without a target.
    #[error("BadShape")]
    BadShape(&'a str),
    /// A target that the model doesn't have.
    #[error("UnknownTarget")]
    UnknownTarget(&'a str),
    /// A shape that takes in itself as a mixin, or a mixin that the model doesn't have, or whose members of one name have different
    /// targets.
    #[error("BadMixin")]
    BadMixin(&'a str),
    /// Traits that are applied from outside of the shape (`apply`).
    #[error("Applied")]
    Applied(&'a str),
    /// An allocation was refused.
    #[error("NoMemory")]
    NoMemory,
}

impl<'a> From<AllocError> for ModelFault<'a> {
    ghost use Rattle.std.specs.Prelude.{◌≡◌};
    ghost use Rattle.smithy_model.specs.declared.fault.ModelFault.TheVariants.{NoMemory};

    ghost from_gives = { λ _ fault. fault ≡ NoMemory };

    fn from(_error: AllocError) -> ModelFault<'a> {
        ModelFault::NoMemory
    }
}

impl<'a, T: Drop> From<AllocFailed<T>> for ModelFault<'a> {
    ghost use Rattle.std.specs.Prelude.{◌≡◌};
    ghost use Rattle.smithy_model.specs.declared.fault.ModelFault.TheVariants.{NoMemory};

    ghost from_gives = { λ _ fault. fault ≡ NoMemory };

    fn from(_error: AllocFailed<T>) -> ModelFault<'a> {
        ModelFault::NoMemory
    }
}

impl<'a> From<JsonError> for ModelFault<'a> {
    ghost use Rattle.std.specs.Prelude.{◌≡◌};
    ghost use Rattle.smithy_model.specs.Faults.{fault_of_json};

    ghost from_gives = { λ error fault. fault ≡ fault_of_json error };

    fn from(error: JsonError) -> ModelFault<'a> {
        match error {
            JsonError::OutOfMemory => ModelFault::NoMemory,
            JsonError::DuplicateKey => ModelFault::NameTwice,
            _ => ModelFault::NotJson,
        }
    }
}
