//! Bodies from wire to wire in process, for C and for what calls C: a table is accepted once, and each call transcodes one body,
//! or many, into the caller's memory. `smithy_transcode.h` declares the functions, and says what they trust their caller with.
#![tactic(auto)]

ghost use Rattle.std.specs.Prelude.{◌≡◌, ◌≢◌, [], Some, IfOk, IfErr};
ghost use Rattle.smithy_transcode_c.specs.Refusals.{refusal_number};
ghost use Rattle.smithy_declarations.specs.Acceptance.{accepted, table_of};
ghost use Rattle.smithy_transcode_c.specs.declared.kept.Kept.{Kept};
ghost use Rattle.smithy_transcode_c.specs.Bodies.{BodiesAnswer};
ghost use Rattle.smithy_transcode_c.specs.Calls.{CallAnswer, RefusesTable, source_wire, target_wire};
ghost use Rattle.smithy_transcode_c.specs.Comparing.{CompareAnswer};
ghost use Rattle.smithy_transcode_c.specs.Finding.{FindingsAnswer};
ghost use Rattle.smithy_transcode_c.specs.Reading.{FormAnswer};
ghost use Rattle.smithy_transcode_c.specs.Tasks.{PrepareAnswer, TaskAnswer};

mod answer;
mod asked;
mod bodies;
mod comparing;
mod finding;
mod handle;
mod kept;
mod numbers;
mod reading;
mod refusal;
mod tasks;

use crate::answer::answer;
use crate::asked::Asked;
use crate::bodies::{Inputs, answer_each};
use crate::comparing::{Comparison, answer_comparison};
use crate::finding::answer_findings;
use crate::handle::{Handle, Place};
use crate::kept::Kept;
use crate::reading::{FormTold, answer_form};
use crate::refusal::Refusal;
use crate::tasks::answer_task;
use smithy_shapes::{Shapes, TableText};
use std::alloc::Global;

// The table that a text is.
fn accept(alloc: Global, text: &[u8]) -> Result<Box<Kept>, Refusal>
    ensures table { IfOk result (λ kept. table_of text.now ≡ accepted kept.value.shapes) }
    ensures tasks { IfOk result (λ kept. kept.value.tasks.items ≡ []) }
    ensures refused { IfErr result (RefusesTable text.now) }
{
    let declarations = TableText::read(alloc, text)?;
    let table = Shapes::build(alloc, declarations)?;
    match Box::new(alloc, Kept::new(alloc, table)) {
        Ok(kept) => Ok(kept),
        Err(_) => Err(Refusal::OutOfMemory),
    }
}

/// Accepts a table, which C keeps: puts it into `place`, and answers 0 or a status.
#[unsafe(no_mangle)]
pub extern "C" fn smithy_transcode_accept(alloc: Global, text: &[u8], place: &mut Place) -> u8
    ensures accepted { result ≡ 0 → (kept : Kept) × (table_of text.now ≡ accepted kept.shapes) × (kept.tasks.items ≡ []) × (place.new.kept ≡ Some kept) }
    ensures refused { result ≢ 0 → ((refusal : Refusal) × RefusesTable text.now refusal × (result ≡ refusal_number refusal)) × (place.new ≡ place.old) }
{
    match accept(alloc, text) {
        Ok(kept) => {
            *place = Place::of(kept);
            0
        }
        Err(refusal) => refusal.number(),
    }
}

/// Gives up a table.
#[unsafe(no_mangle)]
pub extern "C" fn smithy_transcode_free(table: Handle) {
    let _table = table.into_box();
}

/// One body: writes its canonical body in the wanted wire to the front of `out` and its length to `body_len`, and answers 0, a
/// status, or 24 where `out` is shorter than `body_len`. C gives the table and has it back in `place`.
#[unsafe(no_mangle)]
pub extern "C" fn smithy_transcode_body(
    alloc: Global,
    table: Handle,
    place: &mut Place,
    root: &[u8],
    from: u32,
    to: u32,
    action: &[u8],
    version: &[u8],
    input: &[u8],
    out: &mut [u8],
    body_len: &mut usize,
) -> u8
    ensures answer { CallAnswer table.kept.shapes
        (record { root_name = root.now; from = from; to = to; action = action.now; version = version.now })
        input.now out.old result body_len.new out.new }
    ensures back { place.new.kept ≡ Some table.kept }
{
    let asked = Asked {
        root,
        from,
        to,
        action,
        version,
    };
    let table = table.into_box();
    let number = answer(alloc, &table.shapes, &asked, input, out, body_len);
    *place = Place::of(table);
    number
}

/// Prepares a task, which the table keeps from then on: looks up its root and its wires, and answers 0, with its number in `task`, or a
/// status.
#[unsafe(no_mangle)]
pub extern "C" fn smithy_transcode_prepare(
    alloc: Global,
    table: Handle,
    place: &mut Place,
    root: &[u8],
    from: u32,
    to: u32,
    action: &[u8],
    version: &[u8],
    task: &mut usize,
) -> u8
    ensures { PrepareAnswer (record { root_name = root.now; from = from; to = to; action = action.now; version = version.now })
        table.kept place.new.kept result task.old task.new }
{
    let asked = Asked {
        root,
        from,
        to,
        action,
        version,
    };
    let mut kept = table.into_box();
    let prepared = kept.prepare(alloc, &asked);
    *place = Place::of(kept);
    match prepared {
        Ok(number) => {
            *task = number;
            0
        }
        Err(refusal) => refusal.number(),
    }
}

/// One body, as `smithy_transcode_body`, by the number of a task that this table prepared. It answers 2 where there is no such task.
#[unsafe(no_mangle)]
pub extern "C" fn smithy_transcode_task(
    alloc: Global,
    table: Handle,
    place: &mut Place,
    task: usize,
    input: &[u8],
    out: &mut [u8],
    body_len: &mut usize,
) -> u8
    ensures answer { TaskAnswer table.kept task input.now out.old result body_len.new out.new }
    ensures back { place.new.kept ≡ Some table.kept }
{
    let kept = table.into_box();
    let number = answer_task(alloc, &kept, task, input, out, body_len);
    *place = Place::of(kept);
    number
}

/// Many bodies of one root, which stand one behind another in `input`, each before its place in `ends`: writes their canonical bodies
/// one behind another to the front of `out`, where each ends to `out_ends`, and 0 or the status of each to `statuses`. `done` is how
/// many it did: all, where it answers 0; those before the one for which there was no more room (24) or no place (2).
#[unsafe(no_mangle)]
pub extern "C" fn smithy_transcode_bodies(
    alloc: Global,
    table: Handle,
    place: &mut Place,
    root: &[u8],
    from: u32,
    to: u32,
    action: &[u8],
    version: &[u8],
    ends: &[usize],
    input: &[u8],
    out: &mut [u8],
    out_ends: &mut [usize],
    statuses: &mut [u8],
    done: &mut usize,
) -> u8
    ensures answer { BodiesAnswer table.kept.shapes
        (record { root_name = root.now; from = from; to = to; action = action.now; version = version.now })
        (record { ends = ends.now; bytes = input.now })
        (record { out_ends = out_ends.old; statuses = statuses.old; out = out.old })
        (record { out_ends = out_ends.new; statuses = statuses.new; out = out.new })
        result done.new }
    ensures back { place.new.kept ≡ Some table.kept }
{
    let asked = Asked {
        root,
        from,
        to,
        action,
        version,
    };
    let inputs = Inputs { ends, bytes: input };
    let table = table.into_box();
    let number = answer_each(
        alloc,
        &table.shapes,
        &asked,
        &inputs,
        out,
        out_ends,
        statuses,
        done,
    );
    *place = Place::of(table);
    number
}

/// Whether two bodies of one root, each in its wire, spell one value: 0, or 40 with the first path at which their values differ, whose text
/// is written to the front of `out` and its length to `path_len`; or a status, or 24 where `out` is shorter than `path_len`.
#[unsafe(no_mangle)]
pub extern "C" fn smithy_transcode_compare(
    alloc: Global,
    table: Handle,
    place: &mut Place,
    root: &[u8],
    first_wire: u32,
    first: &[u8],
    second_wire: u32,
    second: &[u8],
    out: &mut [u8],
    path_len: &mut usize,
) -> u8
    ensures answer { CompareAnswer table.kept.shapes (record { root_name = root.now; first = first_wire; second = second_wire })
        first.now second.now out.old result path_len.new out.new }
    ensures back { place.new.kept ≡ Some table.kept }
{
    let asked = Comparison {
        root,
        first: first_wire,
        second: second_wire,
    };
    let table = table.into_box();
    let number = answer_comparison(alloc, &table.shapes, &asked, first, second, out, path_len);
    *place = Place::of(table);
    number
}

/// What is found in a body: 0 where that is nothing, or 60 with all findings, in the order of the body: the text of each path, one behind
/// another, at the front of `out`, its length in `lens`, and its kind in `kinds`. Or a status, or 24 where some of it has no room; `count`
/// and `len` say then too how many findings there are, and how long the texts are together.
#[unsafe(no_mangle)]
pub extern "C" fn smithy_transcode_findings(
    alloc: Global,
    table: Handle,
    place: &mut Place,
    root: &[u8],
    from: u32,
    input: &[u8],
    lens: &mut [usize],
    kinds: &mut [u8],
    out: &mut [u8],
    count: &mut usize,
    len: &mut usize,
) -> u8
    ensures answer { FindingsAnswer table.kept.shapes root.now (source_wire from) input.now (record { lens = lens.old; kinds = kinds.old; out = out.old })
        result count.new len.new (record { lens = lens.new; kinds = kinds.new; out = out.new }) }
    ensures back { place.new.kept ≡ Some table.kept }
{
    let table = table.into_box();
    let number = answer_findings(
        alloc,
        &table.shapes,
        root,
        from,
        input,
        lens,
        kinds,
        out,
        count,
        len,
    );
    *place = Place::of(table);
    number
}

/// Reads a form: writes its action, its version and the canonical body of its value in the wanted wire, one behind another, to the front
/// of `out`, and their lengths to `told`, and answers 0; or a status, or 24 where `out` is too short for them.
#[unsafe(no_mangle)]
pub extern "C" fn smithy_transcode_form(
    alloc: Global,
    table: Handle,
    place: &mut Place,
    root: &[u8],
    to: u32,
    action: &[u8],
    version: &[u8],
    input: &[u8],
    out: &mut [u8],
    told: &mut FormTold,
) -> u8
    ensures answer { FormAnswer table.kept.shapes root.now
        (target_wire (record { root_name = root.now; from = 0; to = to; action = action.now; version = version.now }))
        input.now out.old result told.new out.new }
    ensures back { place.new.kept ≡ Some table.kept }
{
    let asked = Asked {
        root,
        from: 0,
        to,
        action,
        version,
    };
    let table = table.into_box();
    let number = answer_form(alloc, &table.shapes, &asked, input, out, told);
    *place = Place::of(table);
    number
}
