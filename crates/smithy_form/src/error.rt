//! Why a form is refused.
ghost use Rattle.std.specs.Prelude.{◌≡◌};
ghost use Rattle.smithy_form.specs.declared.error.FormError.TheVariants.{NoMemory};

use std::alloc::{AllocError, AllocFailed};
use thiserror::Error;

/// Why a form is refused. `Display` writes the variant's name.
#[derive(Clone, Copy, Debug, Drop, PartialEq, Eq, Error)]
pub enum FormError {
    /// The pair of this number, from 1, is the first that has no `=`, a `%` without two hexadecimal digits after it, or a side that
    /// isn't UTF-8 once it is decoded.
    #[error("BadPair")]
    BadPair(u64),
    /// There are fewer than two pairs, or the first isn't named `Action` or the second isn't named `Version`.
    #[error("NotForm")]
    NotForm,
    /// The pair of this number, from 3 on, is the first with the name of an earlier one from 3 on.
    #[error("Repeated")]
    Repeated(u64),
    /// The pairs after the first two aren't the leaves of a value.
    #[error("NoValue")]
    NoValue,
    /// An allocation was refused.
    #[error("NoMemory")]
    NoMemory,
}

impl From<AllocError> for FormError {
    ghost from_gives = { λ _ e. e ≡ NoMemory };

    fn from(_error: AllocError) -> FormError {
        FormError::NoMemory
    }
}

impl<T: Drop> From<AllocFailed<T>> for FormError {
    ghost from_gives = { λ _ e. e ≡ NoMemory };

    fn from(_error: AllocFailed<T>) -> FormError {
        FormError::NoMemory
    }
}
