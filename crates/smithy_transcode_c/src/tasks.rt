//! Tasks that are prepared once: what a call by one answers.
ghost use Rattle.smithy_transcode_c.specs.Tasks.{TaskAnswer};

use crate::answer::transcode_out;
use crate::kept::Kept;
use crate::refusal::Refusal;
use std::alloc::Global;

/// Transcodes one body into the caller's memory, by the task of this number.
pub(crate) fn answer_task(
    alloc: Global,
    kept: &Kept,
    task: usize,
    input: &[u8],
    out: &mut [u8],
    len: &mut usize,
) -> u8
    ensures { TaskAnswer kept.now task input.now out.old result len.new out.new }
{
    *len = 0;
    match kept.tasks.get(task) {
        Some(meant) => transcode_out(alloc, &kept.shapes, meant, input, out, len),
        None => Refusal::Usage.number(),
    }
}
