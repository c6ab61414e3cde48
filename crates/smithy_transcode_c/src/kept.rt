//! What C keeps: a table, and the tasks that were prepared for it.
ghost use Rattle.std.specs.Prelude.{◌≡◌, true};
ghost use Rattle.smithy_transcode_c.specs.Rooted.{are_rooted};

use crate::asked::{Asked, Meant};
use crate::refusal::Refusal;
use smithy_shapes::Shapes;
use std::alloc::Global;

/// A table, and its tasks, which are known by their positions.
#[derive(Drop)]
pub struct Kept {
    pub(crate) shapes: Shapes,
    pub(crate) tasks: Vec<Meant>,

    // The root of each task is a structure of the table.
    ghost rooted: { are_rooted shapes tasks.items ≡ true },
}

impl Kept {
    ghost use Rattle.std.specs.Prelude.{[], length, IfOk, IfErr};
    ghost use Rattle.smithy_transcode_c.specs.Calls.{Refuses};
    ghost use Rattle.smithy_transcode_c.specs.Tasks.{HasTask, IsAsBefore};
    ghost use Rattle.smithy_transcode_c.specs.Views.{asked_of};

    /// A table without tasks.
    pub(crate) fn new(alloc: Global, shapes: Shapes) -> Kept
        ensures shapes { result.shapes ≡ shapes }
        ensures tasks { result.tasks.items ≡ [] }
    {
        Kept {
            shapes,
            tasks: Vec::new(alloc),
        }
    }

    /// Prepares a task behind the others: its number.
    pub(crate) fn prepare(&mut self, alloc: Global, asked: &Asked<'_>) -> Result<usize, Refusal>
        ensures prepared { IfOk result (λ n. (n ≡ length self.old.tasks.items) × HasTask (asked_of asked.now) self.old self.new) }
        ensures refused { IfErr result (λ refusal. Refuses self.old.shapes (asked_of asked.now) refusal
            × IsAsBefore self.old self.new) }
    {
        let meant = asked.meant(alloc, &self.shapes)?;
        let number = self.tasks.len();
        match self.tasks.push(meant) {
            Ok(()) => Ok(number),
            Err(_) => Err(Refusal::OutOfMemory),
        }
    }
}
