//! The line on standard error that tells how a run of a program ended. Writing it takes no memory.
ghost use Rattle.std.specs.Prelude.{◌≡◌, true, false, List, ℕ, Bool, OnOk};
ghost use Rattle.smithy_outside.specs.Outside.{IsWritten, TookLine};
ghost use Rattle.smithy_outside.specs.Report.{numbered, report_line};

use crate::outside::{Failed, Sink};
use crate::streams::{write_all, write_bytes};
use itoa::Buffer;

/// How a run of a program ended, as its line on standard error says.
pub trait RunStatus: Copy {
    /// No line says it: the output has an answer.
    ghost silent: { Self → Bool };

    /// What the line says.
    ghost says: { Self → List ℕ };

    /// Whether no line says it.
    fn is_silent(self) -> bool
        ensures { result ≡ silent self };

    /// Writes what the line says.
    fn write_text<E: Sink>(self, err: &mut E) -> Result<(), Failed>
        ensures { IsWritten (says self) result (E.told err.old) (E.told err.new) };
}

/// Writes the name of a fault, a space and its number.
pub fn write_fault<E: Sink>(err: &mut E, name: &[u8], number: u64) -> Result<(), Failed>
    ensures { IsWritten (numbered name.now number) result (E.told err.old) (E.told err.new) }
{
    write_bytes(err, name)?;
    write_bytes(err, b" ")?;
    write_bytes(err, Buffer::new().format(number).as_bytes())
}

/// Writes the line of a status of this program, up to the first fault, and then what the sink holds back.
pub fn write_line<T: RunStatus, E: Sink>(
    err: &mut E,
    program: &[u8],
    status: T,
) -> Result<(), Failed>
    ensures written { IsWritten (report_line program.now (T.says status)) result (E.told err.old) (E.told err.new) }
    ensures passed_on { OnOk result (E.holds_back err.new ≡ false) }
{
    write_bytes(err, program)?;
    write_bytes(err, b": ")?;
    status.write_text(err)?;
    write_all(err, b"\n")
}

/// Says how a run of this program ended, unless the output tells it. That standard error fails is said nowhere.
pub fn report<T: RunStatus, E: Sink>(err: &mut E, program: &[u8], status: T)
    ensures untouched { T.silent status ≡ true → (E.told err.new ≡ E.told err.old) × (E.holds_back err.new ≡ E.holds_back err.old) }
    ensures line { T.silent status ≡ false → TookLine (report_line program.now (T.says status)) (E.told err.old) (E.told err.new) (E.holds_back err.new) }
{
    if status.is_silent() {
        return;
    }
    let _ = write_line(err, program, status);
}
