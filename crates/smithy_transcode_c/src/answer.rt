//! One body: what a call answers.
ghost use Rattle.std.specs.Prelude.{◌≡◌, ◌≤◌, ◌<◌, ◌++◌, length, drop};
ghost use Rattle.smithy_declarations.specs.Table.{IsStructure, kind_of, shape_place};
ghost use Rattle.smithy_transcode.specs.Transcoding.{Answer, Transcodes};
ghost use Rattle.smithy_transcode.specs.Wires.{wire_of};
ghost use Rattle.smithy_transcode_c.specs.Calls.{CallAnswer, IsHandedOut, IsPassedOn};
ghost use Rattle.smithy_transcode_c.specs.Views.{asked_of};

use crate::asked::{Asked, Meant};
use smithy_shapes::Shapes;
use smithy_transcode::transcode;
use std::alloc::Global;

/// The number of a call whose room is too short.
pub(crate) const NO_ROOM: u8 = 24;

/// Puts bytes to the front of the room, and answers `done` if they have room.
pub(crate) fn hand_out(done: u8, bytes: &[u8], out: &mut [u8]) -> u8
    ensures { IsHandedOut done bytes.now out.old result out.new }
{
    let count = bytes.len();
    if out.len() < count {
        return NO_ROOM;
    }
    out[..count].copy_from_slice(bytes);
    done
}

/// Transcodes one body into the caller's memory, as is meant.
pub(crate) fn transcode_out(
    alloc: Global,
    table: &Shapes,
    meant: &Meant,
    input: &[u8],
    out: &mut [u8],
    len: &mut usize,
) -> u8
    requires structure { IsStructure (kind_of table.now (shape_place meant.now.root.0)) }
    ensures { (answer : Answer) × Transcodes table.now meant.now.root.0 (wire_of meant.now.from) input.now (wire_of meant.now.to) answer
        × IsPassedOn answer out.old result len.new out.new }
{
    *len = 0;
    match transcode(alloc, table, meant.root, &meant.from, input, &meant.to) {
        Ok(body) => {
            *len = body.len();
            hand_out(0, &body, out)
        }
        Err(error) => error.number(),
    }
}

/// Transcodes one body into the caller's memory.
pub(crate) fn answer(
    alloc: Global,
    table: &Shapes,
    asked: &Asked<'_>,
    input: &[u8],
    out: &mut [u8],
    len: &mut usize,
) -> u8
    ensures { CallAnswer table.now (asked_of asked.now) input.now out.old result len.new out.new }
{
    *len = 0;
    match asked.meant(alloc, table) {
        Ok(meant) => transcode_out(alloc, table, &meant, input, out, len),
        Err(refusal) => refusal.number(),
    }
}
