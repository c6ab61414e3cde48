//! One body: what a call that lints it answers.
ghost use Rattle.std.specs.Prelude.{◌≡◌, ◌<◌, length, map as mapped, IfOk};
ghost use Rattle.smithy_lint.specs.View.{found_of};
ghost use Rattle.smithy_transcode_c.specs.Calls.{source_wire};
ghost use Rattle.smithy_transcode_c.specs.Finding.{FindingsAnswer, IsHandedOutWhole, found_number, told};

use crate::answer::NO_ROOM;
use crate::asked::{find_root, source_wire};
use crate::numbers::{kind_number, lint_number};
use crate::refusal::Refusal;
use smithy_compare::path_text;
use smithy_lint::{Finding, lint};
use smithy_shapes::{ShapeRef, Shapes};
use std::alloc::{AllocError, Global};

/// The number of a call over a body in which something was found.
const FOUND: u8 = 60;

// What is told of findings.
#[derive(Drop)]
struct Told {
    // The length of each path's text.
    lens: Vec<usize>,
    kinds: Vec<u8>,
    // The texts of the paths, one behind another.
    texts: Vec<u8>,
}

// What is told of these findings.
fn told_of(
    alloc: Global,
    table: &Shapes,
    root: ShapeRef,
    findings: &[Finding],
) -> Result<Told, AllocError>
    requires root { root.0 < length table.now }
    ensures lens { IfOk result (λ t. t.lens.items ≡ (told table.now root.0 (mapped found_of findings.now)).lens) }
    ensures kinds { IfOk result (λ t. t.kinds.items ≡ (told table.now root.0 (mapped found_of findings.now)).kinds) }
    ensures texts { IfOk result (λ t. t.texts.items ≡ (told table.now root.0 (mapped found_of findings.now)).out) }
{
    let mut all = Told {
        lens: Vec::new(alloc),
        kinds: Vec::new(alloc),
        texts: Vec::new(alloc),
    };
    for finding in findings {
        let path = path_text(alloc, table, root, &finding.path)?;
        all.lens.push(path.len())?;
        all.kinds.push(kind_number(finding.kind))?;
        all.texts.extend_from_slice(path.as_bytes())?;
    }
    Ok(all)
}

// By whether anything was found.
fn found_number(findings: &[Finding]) -> u8
    ensures { result ≡ found_number (mapped found_of findings.now) }
{
    match findings {
        [] => 0,
        _ => FOUND,
    }
}

// Puts what is told to the front of the caller's memory, and answers `done` if all of it has room.
fn hand_out_all(done: u8, told: &Told, lens: &mut [usize], kinds: &mut [u8], out: &mut [u8]) -> u8
    ensures { IsHandedOutWhole done (record { lens = told.now.lens.items; kinds = told.now.kinds.items; out = told.now.texts.items })
        (record { lens = lens.old; kinds = kinds.old; out = out.old }) result
        (record { lens = lens.new; kinds = kinds.new; out = out.new }) }
{
    let (lens_len, kinds_len, out_len) = (told.lens.len(), told.kinds.len(), told.texts.len());
    if lens.len() < lens_len {
        return NO_ROOM;
    }
    if kinds.len() < kinds_len {
        return NO_ROOM;
    }
    if out.len() < out_len {
        return NO_ROOM;
    }
    lens[..lens_len].copy_from_slice(&told.lens);
    kinds[..kinds_len].copy_from_slice(&told.kinds);
    out[..out_len].copy_from_slice(&told.texts);
    done
}

/// Lints a body, and tells its findings in the caller's memory, where `count` and `len` say how many they are and how long their texts.
pub(crate) fn answer_findings(
    alloc: Global,
    table: &Shapes,
    root: &[u8],
    from: u32,
    input: &[u8],
    lens: &mut [usize],
    kinds: &mut [u8],
    out: &mut [u8],
    count: &mut usize,
    len: &mut usize,
) -> u8
    ensures { FindingsAnswer table.now root.now (source_wire from) input.now (record { lens = lens.old; kinds = kinds.old; out = out.old })
        result count.new len.new (record { lens = lens.new; kinds = kinds.new; out = out.new }) }
{
    *count = 0;
    *len = 0;
    let Some(wire) = source_wire(from) else {
        return Refusal::Usage.number();
    };
    let root = match find_root(table, root) {
        Ok(root) => root,
        Err(refusal) => return refusal.number(),
    };
    let findings = match lint(alloc, table, root, &wire, input) {
        Ok(findings) => findings,
        Err(error) => return lint_number(error),
    };
    let told = match told_of(alloc, table, root, &findings) {
        Ok(told) => told,
        Err(_) => return Refusal::OutOfMemory.number(),
    };
    *count = findings.len();
    *len = told.texts.len();
    hand_out_all(found_number(&findings), &told, lens, kinds, out)
}
