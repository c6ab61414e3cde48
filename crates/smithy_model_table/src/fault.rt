//! Why a part of a model is no table.
use smithy_shapes::TableFault;
use smithy_table_text::TextFault;
use std::alloc::{AllocError, AllocFailed};
use thiserror::Error;

/// Why a part of a model is no table. `Display` writes the variant's name.
#[derive(Clone, Copy, Debug, Drop, PartialEq, Eq, Error)]
pub enum WantedFault {
    /// The model has no such operation or shape, or several of that name.
    #[error("NoSuchName")]
    NoSuchName,
    /// No declaration stands for what is wanted: a body that is no structure, a shape that is a scalar or holds only floats.
    #[error("NoDeclaration")]
    NoDeclaration,
    /// The table is longer than 1 MiB, or the model has more than 65,535 shapes.
    #[error("TooLong")]
    TooLong,
    /// The table is refused.
    #[error("TableRefused")]
    TableRefused(TableFault),
    /// The text isn't read as the declarations, as where a name has a blank.
    #[error("Unwritable")]
    Unwritable,
    /// An allocation was refused.
    #[error("NoMemory")]
    NoMemory,
}

impl From<AllocError> for WantedFault {
    ghost use Rattle.std.specs.Prelude.{◌≡◌};
    ghost use Rattle.smithy_model_table.specs.declared.fault.WantedFault.TheVariants.{NoMemory};

    ghost from_gives = { λ _ e. e ≡ NoMemory };

    fn from(_error: AllocError) -> WantedFault {
        WantedFault::NoMemory
    }
}

impl<T: Drop> From<AllocFailed<T>> for WantedFault {
    ghost use Rattle.std.specs.Prelude.{◌≡◌};
    ghost use Rattle.smithy_model_table.specs.declared.fault.WantedFault.TheVariants.{NoMemory};

    ghost from_gives = { λ _ e. e ≡ NoMemory };

    fn from(_error: AllocFailed<T>) -> WantedFault {
        WantedFault::NoMemory
    }
}

impl From<TextFault> for WantedFault {
    ghost use Rattle.std.specs.Prelude.{◌≡◌};
    ghost use Rattle.smithy_model_table.specs.Refusals.{fault_of_text};

    ghost from_gives = { λ fault wanted. wanted ≡ fault_of_text fault };

    fn from(fault: TextFault) -> WantedFault {
        match fault {
            TextFault::TooLong => WantedFault::TooLong,
            TextFault::Unwritable => WantedFault::Unwritable,
            TextFault::Refused(fault) => WantedFault::TableRefused(fault),
            TextFault::NoMemory => WantedFault::NoMemory,
        }
    }
}
