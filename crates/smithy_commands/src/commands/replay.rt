//! The command `replay`: the lines of the input, as requests.
ghost use Rattle.std.specs.Prelude.{◌≡◌, map, option_map, string_bytes};
ghost use Rattle.smithy_outside.specs.Environment.{environment};
ghost use Rattle.smithy_commands.specs.Replay.{replay_of, replay_view, ReplayAnswer};

use crate::checks::check_input;
use crate::status::Status;
use crate::wire_words::{WireWords, wire_of_words};
use smithy_lines::{AnswerFault, answer_all};
use smithy_outside::{Files, Sink, Source};
use smithy_replay::BodyLines;
use smithy_transcode::Wire;
use std::alloc::Global;

/// `replay TABLE ROOT ACTION VERSION`
#[derive(Clone, Copy)]
pub struct Replay<'a> {
    /// The path of the table.
    pub table: &'a str,
    /// The name of the shape that each line is.
    pub root: &'a str,
    /// The operation that each request asks for.
    pub action: &'a str,
    /// The version of the service.
    pub version: &'a str,
}

impl<'a> Replay<'a> {
    /// The command that the words after `replay` are, if they are one.
    pub fn from_words(words: &'a [String]) -> Option<Replay<'a>>
        ensures { option_map replay_view result ≡ replay_of (map string_bytes words.now) }
    {
        match words {
            [table, root, action, version] => Some(Replay {
                table: table.as_str(),
                root: root.as_str(),
                action: action.as_str(),
                version: version.as_str(),
            }),
            _ => None,
        }
    }
}

/// Writes a request for each line of the input, or why there is none, and answers how the command ends.
pub(crate) fn replay_lines<F: Files, S: Source, K: Sink>(
    alloc: Global,
    command: Replay<'_>,
    files: &mut F,
    input: &mut S,
    out: &mut K,
) -> Status
    ensures { ReplayAnswer (replay_view command.entry)
        (environment F.Files S.Source K.Sink files.old input.old out.old)
        (environment F.Files S.Source K.Sink files.new input.new out.new) result }
{
    let read = match check_input(alloc, files, input, command.table, command.root) {
        Ok(read) => read,
        Err(status) => return status,
    };
    let Ok(to) = wire_of_words(alloc, WireWords::Query(command.action, command.version)) else {
        return Status::OutOfMemory;
    };
    let lines = BodyLines {
        shapes: &read.checked.table,
        root: read.checked.root,
        from: Wire::Json {
            use_json_name: false,
            integral: false,
        },
        to,
        numbered: true,
    };
    match answer_all(alloc, &lines, &read.input, out) {
        Ok(false) => Status::Done,
        Ok(true) => Status::LinesRefused,
        Err(AnswerFault::WriteFailed) => Status::WriteFailed,
        Err(AnswerFault::NoMemory) => Status::OutOfMemory,
    }
}
