//! Why a table is refused.
ghost use Rattle.std.specs.Prelude.{◌≡◌};
ghost use Rattle.smithy_declarations.specs.declared.fault.TableFault.TheVariants.{NoMemory};

use std::alloc::{AllocError, AllocFailed};
use thiserror::Error;

/// Why a table is refused, with the number of the line or the declaration, from 1.
/// `Display` writes the variant's name.
#[derive(Clone, Copy, Debug, Drop, PartialEq, Eq, Error)]
pub enum TableFault {
    /// The line is of no form, or a `member` line without a structure or a union before it.
    #[error("BadLine")]
    BadLine(u64),
    /// A target is `float` or `double`.
    #[error("FloatShape")]
    FloatShape(u64),
    /// A target is neither a scalar, nor `document`, nor a declared name.
    #[error("UnknownTarget")]
    UnknownTarget(u64),
    /// A `time` is none of the three time forms.
    #[error("UnknownTimeFormat")]
    UnknownTimeFormat(u64),
    /// The name is that of an earlier declaration, of a scalar, or `document`, `float` or `double`.
    #[error("DuplicateShape")]
    DuplicateShape(u64),
    /// Two members have equal names, equal JSON names or equal names in a form.
    #[error("NameClash")]
    NameClash(u64),
    /// The name of a member, an element, a key or a value can't stand in the path of a form.
    #[error("QueryName")]
    QueryName(u64),
    /// The keys and the values of a map have one name in a form.
    #[error("KeyValueName")]
    KeyValueName(u64),
    /// A sparse list or map has the target `document`.
    #[error("SparseDocument")]
    SparseDocument(u64),
    /// The declaration has more than 65,535 members, or is number 65,536.
    #[error("TooMany")]
    TooMany(u64),
    /// An allocation was refused.
    #[error("NoMemory")]
    NoMemory,
}

impl From<AllocError> for TableFault {
    ghost from_gives = { λ _ e. e ≡ NoMemory };

    fn from(_error: AllocError) -> TableFault {
        TableFault::NoMemory
    }
}

impl<T: Drop> From<AllocFailed<T>> for TableFault {
    ghost from_gives = { λ _ e. e ≡ NoMemory };

    fn from(_error: AllocFailed<T>) -> TableFault {
        TableFault::NoMemory
    }
}
