//! Many bodies: what a call over them answers.
ghost use Rattle.std.specs.Prelude.{◌≡◌, ◌≤◌, ◌<◌, ◌+◌, ◌++◌, ℕ, List, drop, length, take, MatchOption};
ghost use Rattle.smithy_declarations.specs.Table.{IsStructure, kind_of, shape_place};
ghost use Rattle.smithy_transcode.specs.Wires.{wire_of};
ghost use Rattle.smithy_transcode_c.specs.Bodies.{BodiesAnswer, IsAnswered};
ghost use Rattle.smithy_transcode_c.specs.Views.{asked_of};

use crate::answer::NO_ROOM;
use crate::asked::{Asked, Meant};
use crate::refusal::Refusal;
use smithy_shapes::Shapes;
use smithy_transcode::transcode;
use std::alloc::Global;

// Puts the body of an input behind those that are there, if there is room: where it ends, and its status.
fn put_next(
    alloc: Global,
    table: &Shapes,
    meant: &Meant,
    input: &[u8],
    out: &mut [u8],
    at: usize,
) -> Option<(usize, u8)>
    requires within { at ≤ length out.old }
    requires structure { IsStructure (kind_of table.now (shape_place meant.now.root.0)) }
    ensures put { MatchOption result
        ((status : ℕ) × (body : List ℕ)
        × IsAnswered table.now meant.now.root.0 (wire_of meant.now.from) (wire_of meant.now.to) input.now status body
        × (length out.old < at + length body) × (out.new ≡ out.old))
        (λ next. (body : List ℕ)
        × IsAnswered table.now meant.now.root.0 (wire_of meant.now.from) (wire_of meant.now.to) input.now next.1 body
        × (next.0 ≡ at + length body) × (next.0 ≤ length out.old)
        × (out.new ≡ take at out.old ++ (body ++ drop next.0 out.old))) }
{
    match transcode(alloc, table, meant.root, &meant.from, input, &meant.to) {
        Ok(body) => {
            let count = body.len();
            if out.len() - at < count {
                return None;
            }
            out[at..at + count].copy_from_slice(&body);
            Some((at + count, 0))
        }
        Err(error) => Some((at, error.number())),
    }
}

/// What the caller gives for many bodies.
#[derive(Clone, Copy)]
pub(crate) struct Inputs<'a> {
    /// Before which byte each body ends.
    pub(crate) ends: &'a [usize],
    /// The bodies, one behind another.
    pub(crate) bytes: &'a [u8],
}

/// Transcodes bodies until there is no room for the next, and says in `done` how many.
pub(crate) fn answer_each(
    alloc: Global,
    table: &Shapes,
    asked: &Asked<'_>,
    inputs: &Inputs<'_>,
    out: &mut [u8],
    out_ends: &mut [usize],
    statuses: &mut [u8],
    done: &mut usize,
) -> u8
    ensures { BodiesAnswer table.now (asked_of asked.now) (record { ends = inputs.now.ends.now; bytes = inputs.now.bytes.now })
        (record { out_ends = out_ends.old; statuses = statuses.old; out = out.old })
        (record { out_ends = out_ends.new; statuses = statuses.new; out = out.new })
        result done.new }
{
    *done = 0;
    let meant = match asked.meant(alloc, table) {
        Ok(meant) => meant,
        Err(refusal) => return refusal.number(),
    };
    let (mut start, mut at) = (0, 0);
    for i in 0..inputs.ends.len() {
        let end = inputs.ends[i];
        if end < start || inputs.bytes.len() < end || out_ends.len() <= i || statuses.len() <= i {
            return Refusal::Usage.number();
        }
        let input = &inputs.bytes[start..end];
        let Some((next, status)) = put_next(alloc, table, &meant, input, out, at) else {
            return NO_ROOM;
        };
        (start, at) = (end, next);
        out_ends[i] = at;
        statuses[i] = status;
        *done = i + 1;
    }
    0
}
