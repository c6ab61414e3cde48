//! Why an item could not be read.

ghost use Rattle.std.specs.Prelude.{◌≡◌};
ghost use Rattle.cbor_item.specs.declared.error.ItemError.TheVariants.{NoMemory};

use std::alloc::{AllocError, AllocFailed};
use thiserror::Error;

/// What is wrong with the bytes, at the first fault from the left.
#[derive(Clone, Copy, Debug, PartialEq, Eq, Error)]
pub enum ItemError {
    /// The head, or what it announces, passes the end of the input.
    #[error("Truncated")]
    Truncated,
    /// A rule of RFC 8949, section 3, is broken.
    #[error("NotWellFormed")]
    NotWellFormed,
    /// An item of another kind than the wanted one begins here.
    #[error("WrongType")]
    WrongType,
    /// A chunk of a text string is not UTF-8.
    #[error("InvalidUtf8")]
    InvalidUtf8,
    /// An allocation was refused.
    #[error("NoMemory")]
    NoMemory,
}

impl From<AllocError> for ItemError {
    ghost from_gives = { λ _ e. e ≡ NoMemory };

    fn from(_e: AllocError) -> ItemError {
        ItemError::NoMemory
    }
}

impl<T: Drop> From<AllocFailed<T>> for ItemError {
    ghost from_gives = { λ _ e. e ≡ NoMemory };

    fn from(_e: AllocFailed<T>) -> ItemError {
        ItemError::NoMemory
    }
}
