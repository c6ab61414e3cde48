//! The commands of the program. Each has a file with its words and with what it does, and a line in each list here.
ghost use Rattle.std.specs.Prelude.{◌≡◌, map, option_map, string_bytes};
ghost use Rattle.smithy_outside.specs.Environment.{environment};
ghost use Rattle.smithy_commands.specs.Command.{command_of, command_view};
ghost use Rattle.smithy_commands.specs.RunAnswer.{StatusAnswer};

mod compare;
mod form;
mod generate;
mod lines;
mod lint;
mod replay;
mod transcode;

use crate::one_input::answer_input;
use crate::status::Status;
use compare::{Compare, compare_files};
use form::Form;
use generate::{Gen, write_generated};
use lines::{Lines, answer_lines};
use lint::Lint;
use replay::{Replay, replay_lines};
use smithy_outside::{Files, Sink, Source};
use std::alloc::Global;
use transcode::Transcode;

/// A command of the program.
#[derive(Clone, Copy)]
pub enum Command<'a> {
    /// One body from wire to wire.
    Transcode(Transcode<'a>),
    /// An input that a number generates, in both wires.
    Gen(Gen),
    /// Two bodies in files, compared as values.
    Compare(Compare<'a>),
    /// The lines of the input, each from wire to wire.
    Lines(Lines<'a>),
    /// The lines of the input, as requests.
    Replay(Replay<'a>),
    /// All that is found in one body.
    Lint(Lint<'a>),
    /// The value of a form, in another wire.
    Form(Form<'a>),
}

impl<'a> Command<'a> {
    /// The command that the words are, if they are one.
    pub fn from_words(words: &'a [String]) -> Option<Command<'a>>
        ensures { option_map command_view result ≡ command_of (map string_bytes words.now) }
    {
        let [keyword, rest @ ..] = words else {
            return None;
        };
        match keyword.as_str() {
            "transcode" => Some(Command::Transcode(Transcode::from_words(rest)?)),
            "gen" => Some(Command::Gen(Gen::from_words(rest)?)),
            "compare" => Some(Command::Compare(Compare::from_words(rest)?)),
            "lines" => Some(Command::Lines(Lines::from_words(rest)?)),
            "replay" => Some(Command::Replay(Replay::from_words(rest)?)),
            "lint" => Some(Command::Lint(Lint::from_words(rest)?)),
            "form" => Some(Command::Form(Form::from_words(rest)?)),
            _ => None,
        }
    }
}

/// Does what the words ask for, and answers how the run ends.
pub(crate) fn status_of<F: Files, S: Source, K: Sink>(
    alloc: Global,
    words: &[String],
    files: &mut F,
    input: &mut S,
    out: &mut K,
) -> Status
    ensures { StatusAnswer (map string_bytes words.now)
        (environment F.Files S.Source K.Sink files.old input.old out.old)
        (environment F.Files S.Source K.Sink files.new input.new out.new) result }
{
    let Some(command) = Command::from_words(words) else {
        return Status::Usage;
    };
    match command {
        Command::Transcode(command) => answer_input(alloc, &command, files, input, out),
        Command::Gen(command) => write_generated(alloc, command, out),
        Command::Compare(command) => compare_files(alloc, command, files, out),
        Command::Lines(command) => answer_lines(alloc, command, files, input, out),
        Command::Replay(command) => replay_lines(alloc, command, files, input, out),
        Command::Lint(command) => answer_input(alloc, &command, files, input, out),
        Command::Form(command) => answer_input(alloc, &command, files, input, out),
    }
}
