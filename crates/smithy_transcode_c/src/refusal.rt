//! Why a call has nothing to transcode. Why a body is refused is a `TranscodeError`.
ghost use Rattle.std.specs.Prelude.{◌≡◌};
ghost use Rattle.smithy_transcode_c.specs.Refusals.{refusal_number, refusal_of_table_fault};

use smithy_shapes::TableFault;
use std::alloc::AllocError;

/// Why a call has nothing to transcode.
#[derive(Clone, Copy)]
pub enum Refusal {
    /// A wire that is none, a form whose action or version is no text, or a body of many that has no place.
    Usage,
    /// Want of memory.
    OutOfMemory,
    /// The text is no table.
    TableRefused,
    /// The table declares no such root.
    NoSuchShape,
    /// The root is no structure.
    NotAStructure,
}

impl Refusal {
    /// The number that a call answers.
    pub(crate) fn number(self) -> u8
        ensures { result ≡ refusal_number self }
    {
        match self {
            Refusal::Usage => 2,
            Refusal::OutOfMemory => 8,
            Refusal::TableRefused => 20,
            Refusal::NoSuchShape => 21,
            Refusal::NotAStructure => 22,
        }
    }
}

impl From<AllocError> for Refusal {
    ghost use Rattle.smithy_transcode_c.specs.declared.refusal.Refusal.TheVariants.{OutOfMemory};

    ghost from_gives = { λ error refusal. refusal ≡ OutOfMemory };

    fn from(_error: AllocError) -> Self {
        Refusal::OutOfMemory
    }
}

impl From<TableFault> for Refusal {
    ghost from_gives = { λ fault refusal. refusal ≡ refusal_of_table_fault fault };

    fn from(fault: TableFault) -> Self {
        match fault {
            TableFault::NoMemory => Refusal::OutOfMemory,
            _ => Refusal::TableRefused,
        }
    }
}
