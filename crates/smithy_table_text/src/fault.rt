//! Why declarations have no text.
use smithy_shapes::TableFault;
use std::alloc::{AllocError, AllocFailed};
use thiserror::Error;

/// Why declarations have no text that is a table and reads as them. `Display` writes the variant's name.
#[derive(Clone, Copy, Debug, Drop, PartialEq, Eq, Error)]
pub enum TextFault {
    /// The text is longer than 1 MiB.
    #[error("TooLong")]
    TooLong,
    /// It doesn't read as the declarations, as where a name has a blank.
    #[error("Unwritable")]
    Unwritable,
    /// The table is refused.
    #[error("Refused")]
    Refused(TableFault),
    /// An allocation was refused.
    #[error("NoMemory")]
    NoMemory,
}

impl From<AllocError> for TextFault {
    ghost use Rattle.std.specs.Prelude.{◌≡◌};
    ghost use Rattle.smithy_table_text.specs.declared.fault.TextFault.TheVariants.{NoMemory};

    ghost from_gives = { λ _ e. e ≡ NoMemory };

    fn from(_error: AllocError) -> TextFault {
        TextFault::NoMemory
    }
}

impl<T: Drop> From<AllocFailed<T>> for TextFault {
    ghost use Rattle.std.specs.Prelude.{◌≡◌};
    ghost use Rattle.smithy_table_text.specs.declared.fault.TextFault.TheVariants.{NoMemory};

    ghost from_gives = { λ _ e. e ≡ NoMemory };

    fn from(_error: AllocFailed<T>) -> TextFault {
        TextFault::NoMemory
    }
}

impl From<TableFault> for TextFault {
    ghost use Rattle.std.specs.Prelude.{◌≡◌};
    ghost use Rattle.smithy_table_text.specs.Writable.{fault_of_table};

    ghost from_gives = { λ fault told. told ≡ fault_of_table fault };

    fn from(fault: TableFault) -> TextFault {
        match fault {
            TableFault::NoMemory => TextFault::NoMemory,
            fault => TextFault::Refused(fault),
        }
    }
}
