//! Why a document doesn't stand for a value.
ghost use Rattle.std.specs.Prelude.{◌≡◌};
ghost use Rattle.smithy_types.specs.declared.document_error.DocumentError.TheVariants.{NoMemory};

use std::alloc::AllocError;
use std::borrow::CowStr;
use thiserror::Error;

/// Why a document doesn't stand for a value. `Display` writes the variant's name.
#[derive(Debug, Drop, Error)]
pub enum DocumentError {
    /// The document is of another type than the wanted one.
    #[error("TypeMismatch")]
    TypeMismatch {
        /// What is wrong.
        message: CowStr<'static>,
    },
    /// A number leaves the type that it is wanted as.
    #[error("NumericCoercionOverflow")]
    NumericCoercionOverflow {
        /// The wanted type.
        target: CowStr<'static>,
        /// The number.
        value: CowStr<'static>,
    },
    /// A text or a number stands for no value of the wanted type.
    #[error("InvalidInput")]
    InvalidInput {
        /// What is wrong.
        message: CowStr<'static>,
    },
    /// A fault that the caller states.
    #[error("Custom")]
    Custom {
        /// What is wrong.
        message: CowStr<'static>,
    },
    /// The settings don't say what the document stands for.
    #[error("UnsupportedOperation")]
    UnsupportedOperation {
        /// What is wrong.
        message: CowStr<'static>,
    },
    /// There is no memory left.
    #[error("NoMemory")]
    NoMemory,
}

impl From<AllocError> for DocumentError {
    ghost from_gives = { λ _ e. e ≡ NoMemory };

    fn from(_error: AllocError) -> DocumentError {
        DocumentError::NoMemory
    }
}

impl DocumentError {
    ghost use Rattle.smithy_types.specs.declared.document_error.DocumentError.TheVariants.{TypeMismatch, NumericCoercionOverflow, InvalidInput, Custom, UnsupportedOperation};

    /// The document is of another type than the wanted one.
    pub fn type_mismatch(message: CowStr<'static>) -> DocumentError
        ensures { result ≡ TypeMismatch message.entry }
    {
        DocumentError::TypeMismatch { message }
    }

    /// A number leaves the type that it is wanted as.
    pub fn numeric_coercion_overflow(
        target: CowStr<'static>,
        value: CowStr<'static>,
    ) -> DocumentError
        ensures { result ≡ NumericCoercionOverflow target.entry value.entry }
    {
        DocumentError::NumericCoercionOverflow { target, value }
    }

    /// A text or a number stands for no value of the wanted type.
    pub fn invalid_input(message: CowStr<'static>) -> DocumentError
        ensures { result ≡ InvalidInput message.entry }
    {
        DocumentError::InvalidInput { message }
    }

    /// A fault that the caller states.
    pub fn custom(message: CowStr<'static>) -> DocumentError
        ensures { result ≡ Custom message.entry }
    {
        DocumentError::Custom { message }
    }

    /// The settings don't say what the document stands for.
    pub fn unsupported(message: CowStr<'static>) -> DocumentError
        ensures { result ≡ UnsupportedOperation message.entry }
    {
        DocumentError::UnsupportedOperation { message }
    }
}
