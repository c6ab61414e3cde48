//! Why a read or a write is refused.
ghost use Rattle.std.specs.Prelude.{◌≡◌};
ghost use Rattle.smithy_schema.specs.declared.error.SerdeError.TheVariants.{NoMemory};

use std::alloc::{AllocError, AllocFailed};
use thiserror::Error;

/// Why a read or a write was refused. `Display` writes the variant's name.
#[derive(Clone, Copy, Debug, Drop, PartialEq, Eq, Error)]
pub enum SerdeError {
    /// No value of the wanted kind stands here, no value is due, or one was left unread.
    #[error("InvalidInput")]
    InvalidInput,
    /// What comes here doesn't begin as a value of the wanted kind does. Only JSON tells it, of integers only where reading is lenient,
    /// and never of documents.
    #[error("TypeMismatch")]
    TypeMismatch,
    /// The call opens one container more than the codec's depth allows, or reads a document that nests deeper.
    #[error("TooDeep")]
    TooDeep,
    /// A big number stands here that leaves the limits of its kind, or is to be written and leaves those of the wire.
    #[error("TooWide")]
    TooWide,
    /// What stands here is a number that a timestamp or a document doesn't carry, as a float or a part of a nanosecond, or it
    /// is a document where the wire carries none.
    #[error("NotCarried")]
    NotCarried,
    /// The wire writes no documents.
    #[error("Unsupported")]
    Unsupported,
    /// The value or the state of the writer is one that the wire can't write.
    #[error("Unwritable")]
    Unwritable,
    /// The operation or the version is absent in a request of AWS Query.
    #[error("Missing")]
    Missing,
    /// An earlier call was refused, or was `fail`.
    #[error("Failed")]
    Failed,
    /// An allocation was refused.
    #[error("NoMemory")]
    NoMemory,
}

impl From<AllocError> for SerdeError {
    ghost from_gives = { λ _ e. e ≡ NoMemory };

    fn from(_error: AllocError) -> SerdeError {
        SerdeError::NoMemory
    }
}

impl<T: Drop> From<AllocFailed<T>> for SerdeError {
    ghost from_gives = { λ _ e. e ≡ NoMemory };

    fn from(_error: AllocFailed<T>) -> SerdeError {
        SerdeError::NoMemory
    }
}
