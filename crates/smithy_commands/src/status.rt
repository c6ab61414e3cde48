//! How the program ends.
ghost use Rattle.std.specs.Prelude.{◌≡◌};
ghost use Rattle.smithy_commands.specs.Status.{status_code, is_answer, status_of_load_fault, status_of_table_fault, status_of_error};

use smithy_outside::LoadFault;
use smithy_shapes::TableFault;
use smithy_transcode::{TranscodeError, Unfit};
use std::alloc::AllocError;

/// How a run of the program ended.
#[derive(Clone, Copy, Debug, PartialEq, Eq)]
pub enum Status {
    /// All is written: a body, a line, or that two bodies spell one value.
    Done,
    /// The words are no command.
    Usage,
    /// The table, the input or a file of a body wasn't read.
    ReadFailed,
    /// The output wasn't written whole.
    WriteFailed,
    /// Want of memory.
    OutOfMemory,
    /// The input spells no value of the root.
    InvalidInput,
    /// The input nests too deep.
    TooDeep,
    /// A big number of the input leaves the limits of its kind.
    TooWide,
    /// The input holds a number of seconds that isn't carried as an instant, or what isn't carried as a document.
    NotCarried,
    /// The input spells a value that the wanted wire can't express.
    Inexpressible(Unfit),
    /// The table is refused, by this fault.
    TableRefused(TableFault),
    /// The table declares no such root.
    NoSuchShape,
    /// The root is no structure.
    NotAStructure,
    /// The table, the input or a file of a body is longer than its limit.
    TooLong,
    /// Two bodies spell two values, and the output tells where these differ.
    Differs,
    /// The second of two bodies spells no value of the root.
    SecondInvalidInput,
    /// The second of two bodies nests too deep.
    SecondTooDeep,
    /// A big number of the second of two bodies leaves the limits of its kind.
    SecondTooWide,
    /// The second of two bodies holds a number of seconds that isn't carried as an instant, or what isn't carried as a document.
    SecondNotCarried,
    /// The output took an answer to each line of the input, and some lines were refused.
    LinesRefused,
    /// The output took a line for each finding of the input.
    FindingsTold,
    /// The input is no text of its wire.
    NotWellFormed,
    /// More than 512 containers of the input nest.
    TooNested,
    /// The pair of this number, from 1, is no pair of a form.
    BadPair(u64),
    /// The input doesn't begin with an action and a version.
    NotForm,
    /// The pair of this number has the name of an earlier one.
    Repeated(u64),
    /// The pairs of the input are the leaves of no value of the root.
    NoValue,
}

impl Status {
    /// The number that the program ends with.
    pub fn code(self) -> u8
        ensures { result ≡ status_code self }
    {
        match self {
            Status::Done => 0,
            Status::Usage => 2,
            Status::ReadFailed => 6,
            Status::WriteFailed => 7,
            Status::OutOfMemory => 8,
            Status::InvalidInput => TranscodeError::InvalidInput.number(),
            Status::TooDeep => TranscodeError::TooDeep.number(),
            Status::TooWide => TranscodeError::TooWide.number(),
            Status::NotCarried => TranscodeError::NotCarried.number(),
            Status::Inexpressible(unfit) => TranscodeError::Inexpressible(unfit).number(),
            Status::TableRefused(_) => 20,
            Status::NoSuchShape => 21,
            Status::NotAStructure => 22,
            Status::TooLong => 23,
            Status::Differs => 40,
            Status::SecondInvalidInput => 41,
            Status::SecondTooDeep => 42,
            Status::SecondTooWide => 43,
            Status::SecondNotCarried => 44,
            Status::LinesRefused => 50,
            Status::FindingsTold => 60,
            Status::NotWellFormed => 61,
            Status::TooNested => 62,
            Status::BadPair(_) => 70,
            Status::NotForm => 71,
            Status::Repeated(_) => 72,
            Status::NoValue => 73,
        }
    }

    /// The output tells what was asked for. With any other status standard error tells why it doesn't.
    pub fn is_answer(self) -> bool
        ensures { result ≡ is_answer self }
    {
        matches!(self, Status::Done | Status::Differs | Status::FindingsTold)
    }
}

impl From<AllocError> for Status {
    ghost use Rattle.smithy_commands.specs.declared.status.Status.TheVariants.{OutOfMemory};

    ghost from_gives = { λ error status. status ≡ OutOfMemory };

    fn from(_error: AllocError) -> Self {
        Status::OutOfMemory
    }
}

impl From<LoadFault> for Status {
    ghost from_gives = { λ fault status. status ≡ status_of_load_fault fault };

    fn from(fault: LoadFault) -> Self {
        match fault {
            LoadFault::Failed => Status::ReadFailed,
            LoadFault::TooLong => Status::TooLong,
            LoadFault::NoMemory => Status::OutOfMemory,
        }
    }
}

impl From<TableFault> for Status {
    ghost from_gives = { λ fault status. status ≡ status_of_table_fault fault };

    fn from(fault: TableFault) -> Self {
        match fault {
            TableFault::NoMemory => Status::OutOfMemory,
            fault => Status::TableRefused(fault),
        }
    }
}

impl From<TranscodeError> for Status {
    ghost from_gives = { λ error status. status ≡ status_of_error error };

    fn from(error: TranscodeError) -> Self {
        match error {
            TranscodeError::InvalidInput => Status::InvalidInput,
            TranscodeError::TooDeep => Status::TooDeep,
            TranscodeError::TooWide => Status::TooWide,
            TranscodeError::NotCarried => Status::NotCarried,
            TranscodeError::Inexpressible(unfit) => Status::Inexpressible(unfit),
            TranscodeError::NoMemory => Status::OutOfMemory,
        }
    }
}
