//! The command `transcode`: one body from wire to wire.
ghost use Rattle.std.specs.Prelude.{◌≡◌, map, option_map, string_bytes};
ghost use Rattle.smithy_commands.specs.Transcode.{transcode_of, transcode_view, answers_of};

use crate::one_input::{Answer, AnswerInput};
use crate::status::Status;
use crate::wire_words::{WireWords, output_wire, read_wire, wire_of_words};
use smithy_shapes::{ShapeRef, Shapes};
use smithy_transcode::transcode;
use std::alloc::Global;

/// `transcode TABLE ROOT FROM TO`
#[derive(Clone, Copy)]
pub struct Transcode<'a> {
    /// The path of the table.
    pub table: &'a str,
    /// The name of the shape that is transcoded.
    pub root: &'a str,
    /// The wire of the input.
    pub from: WireWords<'a>,
    /// The wire of the output.
    pub to: WireWords<'a>,
}

impl<'a> Transcode<'a> {
    /// The command that the words behind `transcode` are, if they are one.
    pub fn from_words(words: &'a [String]) -> Option<Transcode<'a>>
        ensures { option_map transcode_view result ≡ transcode_of (map string_bytes words.now) }
    {
        match words {
            [table, root, from, to @ ..] => Some(Transcode {
                table: table.as_str(),
                root: root.as_str(),
                from: read_wire(from.as_str())?,
                to: output_wire(to)?,
            }),
            _ => None,
        }
    }
}

impl AnswerInput for Transcode<'_> {
    ghost command = { λ self. answers_of (transcode_view self) };

    fn table(&self) -> &str {
        self.table
    }

    fn root(&self) -> &str {
        self.root
    }

    fn answer(
        &self,
        alloc: Global,
        table: &Shapes,
        root: ShapeRef,
        input: &[u8],
    ) -> Result<Answer, Status> {
        let from = wire_of_words(alloc, self.from)?;
        let to = wire_of_words(alloc, self.to)?;
        Ok(Answer {
            status: Status::Done,
            bytes: transcode(alloc, table, root, &from, input, &to)?,
        })
    }
}
