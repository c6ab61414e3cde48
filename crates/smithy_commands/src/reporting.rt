//! What the line on standard error says of each status. Writing it takes no memory.
ghost use Rattle.std.specs.Prelude.{◌≡◌, true, false, []};
ghost use Rattle.std.specs.Option.{option_map_or};
ghost use Rattle.smithy_outside.specs.Outside.{IsWritten, TookLine};
ghost use Rattle.smithy_commands.specs.Status.{is_answer, refusal_of, refusal_text, text_of, line_of};

use crate::status::Status;
use smithy_outside::{Failed, RunStatus, Sink, write_bytes, write_fault};
use smithy_shapes::TableFault;
use smithy_transcode::Unfit;

// Writes what refuses a table.
fn write_refusal<E: Sink>(err: &mut E, fault: TableFault) -> Result<(), Failed>
    ensures { IsWritten (option_map_or refusal_text (refusal_of fault) []) result (E.told err.old) (E.told err.new) }
{
    match fault {
        TableFault::BadLine(n) => write_fault(err, b"BadLine", n),
        TableFault::FloatShape(n) => write_fault(err, b"FloatShape", n),
        TableFault::UnknownTarget(n) => write_fault(err, b"UnknownTarget", n),
        TableFault::UnknownTimeFormat(n) => write_fault(err, b"UnknownTimeFormat", n),
        TableFault::DuplicateShape(n) => write_fault(err, b"DuplicateShape", n),
        TableFault::NameClash(n) => write_fault(err, b"NameClash", n),
        TableFault::QueryName(n) => write_fault(err, b"QueryName", n),
        TableFault::KeyValueName(n) => write_fault(err, b"KeyValueName", n),
        TableFault::SparseDocument(n) => write_fault(err, b"SparseDocument", n),
        TableFault::TooMany(n) => write_fault(err, b"TooMany", n),
        TableFault::NoMemory => Ok(()),
    }
}

// Writes what the line of a refused table says.
fn write_table_refused<E: Sink>(err: &mut E, fault: TableFault) -> Result<(), Failed>
    ensures { IsWritten (text_of (Status.TableRefused fault)) result (E.told err.old) (E.told err.new) }
{
    write_bytes(err, b"table refused: ")?;
    write_refusal(err, fault)
}

impl RunStatus for Status {
    ghost silent = { is_answer };

    ghost says = { text_of };

    fn is_silent(self) -> bool {
        self.is_answer()
    }

    fn write_text<E: Sink>(self, err: &mut E) -> Result<(), Failed> {
        match self {
            Status::Done | Status::Differs | Status::FindingsTold => Ok(()),
            Status::Usage => write_bytes(err, b"usage"),
            Status::ReadFailed => write_bytes(err, b"read failed"),
            Status::WriteFailed => write_bytes(err, b"write failed"),
            Status::OutOfMemory => write_bytes(err, b"out of memory"),
            Status::InvalidInput | Status::SecondInvalidInput => write_bytes(err, b"invalid input"),
            Status::TooDeep | Status::SecondTooDeep => write_bytes(err, b"too deep"),
            Status::TooWide | Status::SecondTooWide => write_bytes(err, b"number too wide"),
            Status::NotCarried | Status::SecondNotCarried => write_bytes(err, b"not carried"),
            Status::Inexpressible(Unfit::Document) => write_bytes(err, b"document not expressible"),
            Status::Inexpressible(Unfit::Null) => write_bytes(err, b"null not expressible"),
            Status::Inexpressible(Unfit::Instant) => write_bytes(err, b"instant not expressible"),
            Status::TableRefused(fault) => write_table_refused(err, fault),
            Status::NoSuchShape => write_bytes(err, b"no such shape"),
            Status::NotAStructure => write_bytes(err, b"not a structure"),
            Status::TooLong => write_bytes(err, b"too long"),
            Status::LinesRefused => write_bytes(err, b"lines refused"),
            Status::NotWellFormed => write_bytes(err, b"not well formed"),
            Status::TooNested => write_bytes(err, b"too nested"),
            Status::BadPair(number) => write_fault(err, b"bad pair", number),
            Status::NotForm => write_bytes(err, b"not a form"),
            Status::Repeated(number) => write_fault(err, b"repeated path", number),
            Status::NoValue => write_bytes(err, b"no value"),
        }
    }
}

/// Says how a run ended, unless the output tells it. That standard error fails is said nowhere.
pub fn report<E: Sink>(err: &mut E, status: Status)
    ensures untouched { is_answer status ≡ true → (E.told err.new ≡ E.told err.old) × (E.holds_back err.new ≡ E.holds_back err.old) }
    ensures line { is_answer status ≡ false → TookLine (line_of status) (E.told err.old) (E.told err.new) (E.holds_back err.new) }
{
    smithy_outside::report(err, b"smithy_transcode", status);
}
