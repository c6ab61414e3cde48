//! The answers to lines that are bodies.
ghost use Rattle.std.specs.Prelude.{◌≡◌, ◌≢◌, ◌++◌, true, IfOk, OnOk, IfSome};
ghost use Rattle.smithy_declarations.specs.Table.{IsStructure, kind_of, shape_place};
ghost use Rattle.smithy_replay.specs.Replayed.{front, refusal_text};
ghost use Rattle.smithy_replay.specs.Private.FitsOnce.{structure_once};

use crate::line_bodies::{push_body, transcode_line};
use itoa::Buffer;
use smithy_lines::AnswerLine;
use smithy_schema::{ShapeRef, Shapes};
use smithy_transcode::{TranscodeError, Unfit, Wire};
use std::alloc::{AllocError, Global};

/// Answers a line, which is a body in one wire, by its body in another, or by why there is none.
#[derive(Drop)]
pub struct BodyLines<'a> {
    /// The table.
    pub shapes: &'a Shapes,
    /// The structure that each line is.
    pub root: ShapeRef,
    /// The wire of the lines.
    pub from: Wire,
    /// The wire of the answers.
    pub to: Wire,
    /// Whether each answer begins with the line's number, and a body with the head of a request after it.
    pub numbered: bool,
    ghost is_structure: { IsStructure (kind_of shapes.now (shape_place root.0)) } by { structure_once (kind_of shapes.now (shape_place root.0)) },
}

// The text that says why a line is refused. Out of memory refuses no line.
fn refusal_text(error: TranscodeError) -> Option<&'static str>
    ensures { IfSome result (λ text. (error ≢ TranscodeError.NoMemory) × (text.now ≡ refusal_text error)) }
{
    match error {
        TranscodeError::InvalidInput => Some("invalid input"),
        TranscodeError::TooDeep => Some("too deep"),
        TranscodeError::TooWide => Some("number too wide"),
        TranscodeError::NotCarried => Some("not carried"),
        TranscodeError::Inexpressible(Unfit::Document) => Some("document not expressible"),
        TranscodeError::Inexpressible(Unfit::Null) => Some("null not expressible"),
        TranscodeError::Inexpressible(Unfit::Instant) => Some("instant not expressible"),
        TranscodeError::NoMemory => None,
    }
}

// Appends what comes before an answer.
fn push_front(
    text: &mut Vec<u8>,
    numbered: bool,
    number: u64,
    refused: bool,
) -> Result<(), AllocError>
    ensures { OnOk result (text.new.items ≡ text.old.items ++ front numbered number refused) }
{
    if !numbered {
        return Ok(());
    }
    text.extend_from_slice(Buffer::new().format(number).as_bytes())?;
    if refused {
        return text.extend_from_slice(b" ");
    }
    text.extend_from_slice(b" POST / ")
}

// Appends the answer to a line that is refused.
fn push_refusal(
    text: &mut Vec<u8>,
    numbered: bool,
    number: u64,
    why: &str,
) -> Result<(), AllocError>
    ensures { OnOk result (text.new.items ≡ text.old.items ++ (front numbered number true ++ why.now)) }
{
    push_front(text, numbered, number, true)?;
    text.extend_from_slice(why.as_bytes())
}

// Appends the answer to a line that is refused by this error.
fn refuse(
    text: &mut Vec<u8>,
    numbered: bool,
    number: u64,
    error: TranscodeError,
) -> Result<bool, AllocError>
    ensures { IfOk result (λ refused. (refused ≡ true) × (error ≢ TranscodeError.NoMemory) × (text.new.items ≡ text.old.items ++ (front numbered number true ++ refusal_text error))) }
{
    let Some(why) = refusal_text(error) else {
        return Err(AllocError);
    };
    push_refusal(text, numbered, number, why)?;
    Ok(true)
}

impl<'a> AnswerLine for BodyLines<'a> {
    ghost use Rattle.smithy_transcode.specs.Wires.{wire_of};
    ghost use Rattle.smithy_replay.specs.Replayed.{AnswersLine, RefusesLong};

    ghost answers = { λ b. AnswersLine b.shapes.now b.root.0 (wire_of b.from) (wire_of b.to) b.numbered };

    ghost refuses = { λ b. RefusesLong b.numbered };

    fn answer(
        &self,
        alloc: Global,
        number: u64,
        line: &[u8],
        text: &mut Vec<u8>,
    ) -> Result<bool, AllocError> {
        let body = match transcode_line(alloc, self.shapes, self.root, &self.from, line, &self.to) {
            Ok(body) => body,
            Err(error) => return refuse(text, self.numbered, number, error),
        };
        push_front(text, self.numbered, number, false)?;
        push_body(alloc, &self.to, &body, text)?;
        Ok(false)
    }

    fn refuse_long(
        &self,
        _alloc: Global,
        number: u64,
        text: &mut Vec<u8>,
    ) -> Result<(), AllocError> {
        push_refusal(text, self.numbered, number, "too long")
    }
}
