//! Two bodies: what a call that compares them answers.
ghost use Rattle.std.specs.Prelude.{IfOk, IfErr};
ghost use Rattle.smithy_transcode.specs.Wires.{wire_of};
ghost use Rattle.smithy_transcode_c.specs.Comparing.{AreMeant, CompareAnswer, RefusesToCompare};
ghost use Rattle.smithy_transcode_c.specs.Views.{comparison_of};

use crate::answer::hand_out;
use crate::asked::{Meant, find_root, source_wire};
use crate::numbers::compare_number;
use crate::refusal::Refusal;
use smithy_compare::{Compared, compare, path_text};
use smithy_shapes::Shapes;
use std::alloc::Global;

/// The number of a call over two bodies that spell two values.
const DIFFERS: u8 = 40;

/// What a call that compares asks for, as C says it.
#[derive(Clone, Copy)]
pub(crate) struct Comparison<'a> {
    /// The name of the root.
    pub(crate) root: &'a [u8],
    /// The number of the wire of the first body.
    pub(crate) first: u32,
    /// The number of the wire of the second body.
    pub(crate) second: u32,
}

impl Comparison<'_> {
    // The structure of the table, and the wires of both bodies.
    fn meant(&self, table: &Shapes) -> Result<Meant, Refusal>
        ensures meant { IfOk result (λ meant. AreMeant table.now (comparison_of self.now) meant.root.0 (wire_of meant.from) (wire_of meant.to)) }
        ensures refused { IfErr result (RefusesToCompare table.now (comparison_of self.now)) }
    {
        let from = source_wire(self.first).ok_or(Refusal::Usage)?;
        let to = source_wire(self.second).ok_or(Refusal::Usage)?;
        let root = find_root(table, self.root)?;
        Ok(Meant { root, from, to })
    }
}

/// Compares two bodies, and tells the first path at which their values differ.
pub(crate) fn answer_comparison(
    alloc: Global,
    table: &Shapes,
    asked: &Comparison<'_>,
    first: &[u8],
    second: &[u8],
    out: &mut [u8],
    path_len: &mut usize,
) -> u8
    ensures { CompareAnswer table.now (comparison_of asked.now) first.now second.now out.old result path_len.new out.new }
{
    *path_len = 0;
    let meant = match asked.meant(table) {
        Ok(meant) => meant,
        Err(refusal) => return refusal.number(),
    };
    let Meant { root, from, to } = meant;
    let found = match compare(alloc, table, root, &from, first, &to, second) {
        Ok(found) => found,
        Err(error) => return compare_number(error),
    };
    let path = match found {
        Compared::Same => return 0,
        Compared::Differs(path) => path,
    };
    let text = match path_text(alloc, table, root, &path) {
        Ok(text) => text,
        Err(_) => return Refusal::OutOfMemory.number(),
    };
    *path_len = text.len();
    hand_out(DIFFERS, text.as_bytes(), out)
}
