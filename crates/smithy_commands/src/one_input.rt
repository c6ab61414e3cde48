//! What the commands share that read one input and write one answer.
ghost use Rattle.std.specs.Prelude.{◌≡◌, ℕ, List, true, IfOk, IfErr};
ghost use Rattle.smithy_declarations.specs.Table.{IsStructure, kind_of, shape_place};
ghost use Rattle.smithy_outside.specs.Environment.{environment};
ghost use Rattle.smithy_commands.specs.OneInput.{InputCommand, InputAnswer};
ghost use Rattle.smithy_commands.specs.Status.{tells_output, refuses_input};

use crate::checks::check_input;
use crate::status::Status;
use smithy_outside::{Files, Sink, Source, write_all};
use smithy_shapes::{ShapeRef, Shapes};
use std::alloc::Global;

/// How a command ends, and what it writes.
#[derive(Drop)]
pub(crate) struct Answer {
    /// The status, which is that of an answer.
    pub status: Status,
    /// All that the output takes.
    pub bytes: Vec<u8>,
}

/// A command that reads one input and writes one answer.
pub(crate) trait AnswerInput {
    // What the command is and says.
    ghost command: { Self → InputCommand };

    /// The path of the table.
    fn table(&self) -> &str
        ensures { result.now ≡ (command self.now).table_path };

    /// The name of the root.
    fn root(&self) -> &str
        ensures { result.now ≡ (command self.now).root_name };

    /// The answer to an input of the root.
    fn answer(
        &self,
        alloc: Global,
        table: &Shapes,
        root: ShapeRef,
        input: &[u8],
    ) -> Result<Answer, Status>
        requires root { IsStructure (kind_of table.now (shape_place root.0)) }
        ensures given { IfOk result (λ a. (tells_output a.status ≡ true) × (command self.now).gives table.now root.0 input.now a.status a.bytes.items) }
        ensures refused { IfErr result (λ status. (refuses_input status ≡ true) × (command self.now).refuses table.now root.0 input.now status) };
}

/// Reads the input of a command, writes the answer to it, and says how the command ends.
pub(crate) fn answer_input<C: AnswerInput, F: Files, S: Source, K: Sink>(
    alloc: Global,
    command: &C,
    files: &mut F,
    input: &mut S,
    out: &mut K,
) -> Status
    ensures { InputAnswer (C.command command.now)
        (environment F.Files S.Source K.Sink files.old input.old out.old)
        (environment F.Files S.Source K.Sink files.new input.new out.new) result }
{
    let read = match check_input(alloc, files, input, command.table(), command.root()) {
        Ok(read) => read,
        Err(status) => return status,
    };
    let answer = match command.answer(alloc, &read.checked.table, read.checked.root, &read.input) {
        Ok(answer) => answer,
        Err(refusal) => return refusal,
    };
    match write_all(out, &answer.bytes) {
        Ok(()) => answer.status,
        Err(_) => Status::WriteFailed,
    }
}
