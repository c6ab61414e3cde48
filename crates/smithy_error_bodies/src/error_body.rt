//! What a body says, and why nothing can be read.
ghost use Rattle.std.specs.Prelude.{◌≡◌, ◌≢◌, ◌↔◌};
ghost use Rattle.smithy_cbor.specs.declared.error.DecodeKind.TheVariants as cbor;
ghost use Rattle.smithy_json_tokens.specs.declared.error.DeserializeErrorKind.TheVariants as json;
ghost use Rattle.smithy_error_bodies.specs.declared.error_body.ErrorBodyFault.TheVariants.{InvalidInput, NoMemory};

use smithy_cbor::{DecodeKind, DeserializeError as DecodeError};
use smithy_json_tokens::{DeserializeError, DeserializeErrorKind};
use std::alloc::{AllocError, AllocFailed};
use thiserror::Error;

/// The code and the message that a body has. The code is as it stands there, with a namespace and an address.
#[derive(Debug, Drop)]
pub struct ErrorBody {
    pub code: Option<String>,
    pub message: Option<String>,
}

impl ErrorBody {
    ghost use Rattle.std.specs.Prelude.{◌≡◌};
    ghost use Rattle.smithy_error_bodies.specs.Said.{said_by, nothing_said};

    // Neither a code nor a message.
    pub(crate) fn nothing() -> ErrorBody
        ensures { said_by result ≡ nothing_said }
    {
        ErrorBody {
            code: None,
            message: None,
        }
    }
}

/// Why nothing can be read from a body. `Display` writes the variant's name.
#[derive(Clone, Copy, Debug, Drop, PartialEq, Eq, Error)]
pub enum ErrorBodyFault {
    /// The body isn't of the form of its wire, nests too deep, or a string that is looked at can't be read.
    #[error("InvalidInput")]
    InvalidInput,
    /// An allocation was refused.
    #[error("NoMemory")]
    NoMemory,
}

impl From<AllocError> for ErrorBodyFault {
    ghost from_gives = { λ _ e. e ≡ NoMemory };

    fn from(_error: AllocError) -> ErrorBodyFault {
        ErrorBodyFault::NoMemory
    }
}

impl<T: Drop> From<AllocFailed<T>> for ErrorBodyFault {
    ghost from_gives = { λ _ e. e ≡ NoMemory };

    fn from(_error: AllocFailed<T>) -> ErrorBodyFault {
        ErrorBodyFault::NoMemory
    }
}

impl From<DeserializeError> for ErrorBodyFault {
    ghost from_gives = { λ error e. (e ≡ InvalidInput) ↔ (error.kind ≢ json.NoMemory) };

    fn from(error: DeserializeError) -> ErrorBodyFault {
        if matches!(error.kind, DeserializeErrorKind::NoMemory) {
            return ErrorBodyFault::NoMemory;
        }
        ErrorBodyFault::InvalidInput
    }
}

impl From<DecodeError> for ErrorBodyFault {
    ghost from_gives = { λ error e. (e ≡ InvalidInput) ↔ (error.kind ≢ cbor.NoMemory) };

    fn from(error: DecodeError) -> ErrorBodyFault {
        if matches!(error.kind, DecodeKind::NoMemory) {
            return ErrorBodyFault::NoMemory;
        }
        ErrorBodyFault::InvalidInput
    }
}
