//! The lines on standard error for the members that a table leaves out.
ghost use Rattle.std.specs.Prelude.{◌≡◌, false, map, flat_map, OnOk};
ghost use Rattle.smithy_outside.specs.Outside.{IsWritten, TookLine};
ghost use Rattle.smithy_model_table.specs.Views.{reason_view, left_view};
ghost use Rattle.smithy_table_commands.specs.Status.{reason_text, left_line, said};
ghost use Rattle.smithy_table_commands.specs.RunAnswer.{is_lost, loses_data, is_forbidden};

use crate::reporting::{write_last, write_two};
use crate::status::Status;
use smithy_model_table::{Left, Reason};
use smithy_outside::{Failed, Sink, write_all};

// What a line says of a reason.
fn reason_text(reason: Reason) -> &'static str
    ensures { result.now ≡ reason_text (reason_view reason) }
{
    match reason {
        Reason::Float => "a float",
        Reason::EventStream => "an event stream",
        Reason::Outside => "outside of the body",
        Reason::Clash => "a name that is taken",
    }
}

// Writes the line of a member that is left out.
fn write_left<E: Sink>(err: &mut E, left: &Left<'_>) -> Result<(), Failed>
    ensures { IsWritten (left_line (left_view left.now)) result (E.told err.old) (E.told err.new) }
{
    write_two(err, b"smithy_table: left out: ", left.shape)?;
    write_two(err, b"$", left.member)?;
    write_two(err, b": ", reason_text(left.reason))?;
    write_all(err, b"\n")
}

// Writes a line for each member that is left out.
fn tell_left<E: Sink>(err: &mut E, left: &[Left<'_>]) -> Result<(), Failed>
    ensures { IsWritten (flat_map (λ l. left_line (left_view l)) left.now) result (E.told err.old) (E.told err.new) }
{
    for one in left {
        write_left(err, one)?;
    }
    Ok(())
}

// Writes all that is said where there is a table, up to the first fault.
fn write_said<E: Sink>(err: &mut E, left: &[Left<'_>], status: Status<'_>) -> Result<(), Failed>
    ensures written { IsWritten (said (map left_view left.now) status.entry) result (E.told err.old) (E.told err.new) }
    ensures passed_on { OnOk result (E.holds_back err.new ≡ false) }
{
    tell_left(err, left)?;
    write_last(err, status)
}

/// Says what a table leaves out, and how the run ended. That standard error fails is said nowhere.
pub(crate) fn say<E: Sink>(err: &mut E, left: &[Left<'_>], status: Status<'_>)
    ensures { TookLine (said (map left_view left.now) status.entry) (E.told err.old) (E.told err.new) (E.holds_back err.new) }
{
    let _ = write_said(err, left, status);
}

// Whether a body may have such a member.
fn is_lost(reason: Reason) -> bool
    ensures { result ≡ is_lost (reason_view reason) }
{
    match reason {
        Reason::Outside => false,
        Reason::Float => true,
        Reason::EventStream => true,
        Reason::Clash => true,
    }
}

// Whether a body may have some of these members: it has none that travels outside of it.
fn loses_data(left: &[Left<'_>]) -> bool
    ensures { result ≡ loses_data (map left_view left.now) }
{
    for one in left {
        if is_lost(one.reason) {
            return true;
        }
    }
    false
}

/// Whether a table without these members may not be written: it loses data, and the words don't allow it.
pub(crate) fn is_forbidden(left: &[Left<'_>], is_partial: bool) -> bool
    ensures { result ≡ is_forbidden (map left_view left.now) is_partial }
{
    loses_data(left) && !is_partial
}
