//! The command `lines`: each line of the input from wire to wire.
ghost use Rattle.std.specs.Prelude.{◌≡◌, map, option_map, string_bytes};
ghost use Rattle.smithy_outside.specs.Environment.{environment};
ghost use Rattle.smithy_commands.specs.Lines.{lines_asked, lines_view, LinesAnswer};

use crate::checks::{MAX_INPUT_LEN, check_table};
use crate::status::Status;
use crate::wire_words::{WireWords, output_wire, read_wire, wire_of_words};
use smithy_lines::{StreamFault, answer_each};
use smithy_outside::{Files, Sink, Source};
use smithy_replay::BodyLines;
use std::alloc::Global;

/// `lines TABLE ROOT FROM TO`
#[derive(Clone, Copy)]
pub struct Lines<'a> {
    /// The path of the table.
    pub table: &'a str,
    /// The name of the shape that each line is.
    pub root: &'a str,
    /// The wire of the lines.
    pub from: WireWords<'a>,
    /// The wire of the answers.
    pub to: WireWords<'a>,
}

impl<'a> Lines<'a> {
    /// The command that the words after `lines` are, if they are one.
    pub fn from_words(words: &'a [String]) -> Option<Lines<'a>>
        ensures { option_map lines_view result ≡ lines_asked (map string_bytes words.now) }
    {
        match words {
            [table, root, from, to @ ..] => Some(Lines {
                table: table.as_str(),
                root: root.as_str(),
                from: read_wire(from.as_str())?,
                to: output_wire(to)?,
            }),
            _ => None,
        }
    }
}

/// Answers each line of the input as it comes, and says how the command ends.
pub(crate) fn answer_lines<F: Files, S: Source, K: Sink>(
    alloc: Global,
    command: Lines<'_>,
    files: &mut F,
    input: &mut S,
    out: &mut K,
) -> Status
    ensures { LinesAnswer (lines_view command.entry)
        (environment F.Files S.Source K.Sink files.old input.old out.old)
        (environment F.Files S.Source K.Sink files.new input.new out.new) result }
{
    let Ok(from) = wire_of_words(alloc, command.from) else {
        return Status::OutOfMemory;
    };
    let Ok(to) = wire_of_words(alloc, command.to) else {
        return Status::OutOfMemory;
    };
    let checked = match check_table(alloc, files, command.table, command.root) {
        Ok(checked) => checked,
        Err(status) => return status,
    };
    let lines = BodyLines {
        shapes: &checked.table,
        root: checked.root,
        from,
        to,
        numbered: false,
    };
    match answer_each(alloc, &lines, MAX_INPUT_LEN, input, out) {
        Ok(false) => Status::Done,
        Ok(true) => Status::LinesRefused,
        Err(StreamFault::ReadFailed) => Status::ReadFailed,
        Err(StreamFault::WriteFailed) => Status::WriteFailed,
        Err(StreamFault::NoMemory) => Status::OutOfMemory,
    }
}
