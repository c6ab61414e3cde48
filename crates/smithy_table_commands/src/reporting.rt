//! What the line on standard error says of each status. Writing it takes no memory.
ghost use Rattle.std.specs.Prelude.{◌≡◌, ◌++◌, true, false, codes, OnOk};
ghost use Rattle.smithy_outside.specs.Outside.{IsWritten, TookLine};
ghost use Rattle.smithy_table_commands.specs.Status.{is_answer, fault_text, text_of, line_of, last_line};

use crate::status::Status;
use smithy_outside::{Failed, RunStatus, Sink, write_all, write_bytes, write_fault, write_line};
use smithy_shapes::TableFault;

// Writes what refuses a table.
fn write_refusal<E: Sink>(err: &mut E, fault: TableFault) -> Result<(), Failed>
    ensures { IsWritten (fault_text fault) result (E.told err.old) (E.told err.new) }
{
    match fault {
        TableFault::BadLine(n) => write_fault(err, b"BadLine", n),
        TableFault::FloatShape(n) => write_fault(err, b"FloatShape", n),
        TableFault::UnknownTarget(n) => write_fault(err, b"UnknownTarget", n),
        TableFault::UnknownTimeFormat(n) => write_fault(err, b"UnknownTimeFormat", n),
        TableFault::DuplicateShape(n) => write_fault(err, b"DuplicateShape", n),
        TableFault::NameClash(n) => write_fault(err, b"NameClash", n),
        TableFault::QueryName(n) => write_fault(err, b"QueryName", n),
        TableFault::KeyValueName(n) => write_fault(err, b"KeyValueName", n),
        TableFault::SparseDocument(n) => write_fault(err, b"SparseDocument", n),
        TableFault::TooMany(n) => write_fault(err, b"TooMany", n),
        TableFault::NoMemory => Ok(()),
    }
}

// Writes what the line of a refused table says.
fn write_table_refused<E: Sink>(err: &mut E, fault: TableFault) -> Result<(), Failed>
    ensures { IsWritten (codes "table refused: " ++ fault_text fault) result (E.told err.old) (E.told err.new) }
{
    write_bytes(err, b"table refused: ")?;
    write_refusal(err, fault)
}

/// Writes two texts.
pub(crate) fn write_two<E: Sink>(err: &mut E, text: &[u8], id: &str) -> Result<(), Failed>
    ensures { IsWritten (text.now ++ id.now) result (E.told err.old) (E.told err.new) }
{
    write_bytes(err, text)?;
    write_bytes(err, id.as_bytes())
}

impl RunStatus for Status<'_> {
    ghost silent = { is_answer };

    ghost says = { text_of };

    fn is_silent(self) -> bool {
        matches!(self, Status::Done)
    }

    fn write_text<E: Sink>(self, err: &mut E) -> Result<(), Failed> {
        match self {
            Status::Done => Ok(()),
            Status::Usage => write_bytes(err, b"usage"),
            Status::ReadFailed => write_bytes(err, b"read failed"),
            Status::WriteFailed => write_bytes(err, b"write failed"),
            Status::OutOfMemory => write_bytes(err, b"out of memory"),
            Status::TableRefused(fault) => write_table_refused(err, fault),
            Status::NoSuchName => write_bytes(err, b"no such name, or several"),
            Status::NoDeclaration => write_bytes(err, b"nothing that a table declares"),
            Status::TooLong => write_bytes(err, b"too long"),
            Status::NotJson => write_bytes(err, b"no JSON"),
            Status::NotAModel => write_bytes(err, b"no model"),
            Status::BadShape(id) => write_two(err, b"a part is wrong or missing: ", id),
            Status::UnknownTarget(id) => write_two(err, b"unknown target: ", id),
            Status::BadMixin(id) => write_two(err, b"wrong mixins: ", id),
            Status::Applied(id) => write_two(err, b"applied traits: ", id),
            Status::Unwritable => write_bytes(err, b"a name that no table can have"),
            Status::LeftOut => write_bytes(err, b"members left out; the word `partial` allows it"),
            Status::NameTwice => write_bytes(err, b"a name twice in an object"),
        }
    }
}

/// Writes the last line, and then what is held back: with 0 there is none.
pub(crate) fn write_last<E: Sink>(err: &mut E, status: Status<'_>) -> Result<(), Failed>
    ensures written { IsWritten (last_line status.entry) result (E.told err.old) (E.told err.new) }
    ensures passed_on { OnOk result (E.holds_back err.new ≡ false) }
{
    match status {
        Status::Done => write_all(err, b""),
        _ => write_line(err, b"smithy_table", status),
    }
}

/// Says how a run ended, unless the table is written. That standard error fails is said nowhere.
pub fn report<E: Sink>(err: &mut E, status: Status<'_>)
    ensures untouched { is_answer status.entry ≡ true → (E.told err.new ≡ E.told err.old) × (E.holds_back err.new ≡ E.holds_back err.old) }
    ensures line { is_answer status.entry ≡ false → TookLine (line_of status.entry) (E.told err.old) (E.told err.new) (E.holds_back err.new) }
{
    smithy_outside::report(err, b"smithy_table", status);
}
