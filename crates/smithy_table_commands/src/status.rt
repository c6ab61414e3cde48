//! How the program ends.
ghost use Rattle.std.specs.Prelude.{◌≡◌};
ghost use Rattle.smithy_table_commands.specs.Status.{status_code, status_of_load_fault, status_of_model_fault, status_of_wanted_fault};

use smithy_model::ModelFault;
use smithy_model_table::WantedFault;
use smithy_outside::LoadFault;
use smithy_shapes::TableFault;

/// How a run of the program ended. A text is the id of a shape of the model.
#[derive(Clone, Copy)]
pub enum Status<'a> {
    /// The table is written.
    Done,
    /// The words are no command.
    Usage,
    /// The model wasn't read.
    ReadFailed,
    /// The table wasn't written whole.
    WriteFailed,
    /// Want of memory.
    OutOfMemory,
    /// The table is refused, by this fault.
    TableRefused(TableFault),
    /// The model has no such operation or shape, or several of that name.
    NoSuchName,
    /// No declaration stands for what is wanted.
    NoDeclaration,
    /// The model is longer than 64 MiB, the table longer than 1 MiB, or the model has more than 65,535 shapes.
    TooLong,
    /// The model is no JSON.
    NotJson,
    /// It is JSON, and no model.
    NotAModel,
    /// A shape isn't as its type asks.
    BadShape(&'a str),
    /// A member's target isn't there.
    UnknownTarget(&'a str),
    /// A shape takes in itself as a mixin, or a mixin that isn't there, or has members of one name with different targets.
    BadMixin(&'a str),
    /// Traits are applied from outside of this shape or member.
    Applied(&'a str),
    /// A name of the model can't stand in a table.
    Unwritable,
    /// Members that a body may have are left out, and the words don't allow it.
    LeftOut,
    /// An object of the model has a name twice.
    NameTwice,
}

impl<'a> Status<'a> {
    /// The number that the program ends with.
    pub fn code(self) -> u8
        ensures { result ≡ status_code self.entry }
    {
        match self {
            Status::Done => 0,
            Status::Usage => 2,
            Status::ReadFailed => 6,
            Status::WriteFailed => 7,
            Status::OutOfMemory => 8,
            Status::TableRefused(_) => 20,
            Status::NoSuchName => 21,
            Status::NoDeclaration => 22,
            Status::TooLong => 23,
            Status::NotJson => 30,
            Status::NotAModel => 31,
            Status::BadShape(_) => 32,
            Status::UnknownTarget(_) => 33,
            Status::BadMixin(_) => 34,
            Status::Applied(_) => 35,
            Status::Unwritable => 36,
            Status::LeftOut => 37,
            Status::NameTwice => 38,
        }
    }
}

impl<'a> From<LoadFault> for Status<'a> {
    ghost from_gives = { λ fault status. status ≡ status_of_load_fault fault };

    fn from(fault: LoadFault) -> Status<'a> {
        match fault {
            LoadFault::Failed => Status::ReadFailed,
            LoadFault::TooLong => Status::TooLong,
            LoadFault::NoMemory => Status::OutOfMemory,
        }
    }
}

impl<'a> From<ModelFault<'a>> for Status<'a> {
    ghost from_gives = { λ fault status. status ≡ status_of_model_fault fault };

    fn from(fault: ModelFault<'a>) -> Status<'a> {
        match fault {
            ModelFault::NotJson => Status::NotJson,
            ModelFault::NameTwice => Status::NameTwice,
            ModelFault::NotAModel => Status::NotAModel,
            ModelFault::BadShape(id) => Status::BadShape(id),
            ModelFault::UnknownTarget(id) => Status::UnknownTarget(id),
            ModelFault::BadMixin(id) => Status::BadMixin(id),
            ModelFault::Applied(id) => Status::Applied(id),
            ModelFault::NoMemory => Status::OutOfMemory,
        }
    }
}

impl<'a> From<WantedFault> for Status<'a> {
    ghost from_gives = { λ fault status. status ≡ status_of_wanted_fault fault };

    fn from(fault: WantedFault) -> Status<'a> {
        match fault {
            WantedFault::NoSuchName => Status::NoSuchName,
            WantedFault::NoDeclaration => Status::NoDeclaration,
            WantedFault::TooLong => Status::TooLong,
            WantedFault::TableRefused(fault) => Status::TableRefused(fault),
            WantedFault::Unwritable => Status::Unwritable,
            WantedFault::NoMemory => Status::OutOfMemory,
        }
    }
}
