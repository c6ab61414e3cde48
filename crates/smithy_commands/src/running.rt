//! One run of the program.
ghost use Rattle.std.specs.Prelude.{map, string_bytes};
ghost use Rattle.smithy_outside.specs.Environment.{environment};
ghost use Rattle.smithy_outside.specs.Outside.{outside};
ghost use Rattle.smithy_commands.specs.RunAnswer.{RunAnswer};

use crate::commands::status_of;
use crate::reporting::report;
use smithy_outside::{Files, Sink, Source};
use std::alloc::Global;

/// Runs the program with these words, which are its arguments without its own name, and answers the number
/// that it ends with. `err` takes the line that says it, unless the number is 0, 40 or 60, where `out` took an answer.
pub fn run<F: Files, S: Source, K: Sink, E: Sink>(
    alloc: Global,
    words: &[String],
    files: &mut F,
    input: &mut S,
    out: &mut K,
    err: &mut E,
) -> u8
    ensures { RunAnswer (map string_bytes words.now)
        (outside (environment F.Files S.Source K.Sink files.old input.old out.old) (E.told err.old) (E.holds_back err.old))
        (outside (environment F.Files S.Source K.Sink files.new input.new out.new) (E.told err.new) (E.holds_back err.new)) result }
{
    let status = status_of(alloc, words, files, input, out);
    report(err, status);
    status.code()
}
