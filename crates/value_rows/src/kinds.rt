//! Kinds of tokens and of what is wrong, by their names.

use smithy_json_tokens::{DeserializeError, DeserializeErrorKind, Offset, Token};
use smithy_rows::Answers;
use smithy_types::Number;
use std::alloc::{AllocError, Global};

/// A refusal: its name, and its offset where it has one.
pub fn refuse(error: &DeserializeError, answers: &mut Answers) -> Result<(), AllocError> {
    answers.refused(error)?;
    match error.offset {
        Some(offset) => answers.text("offset", offset),
        None => Ok(()),
    }
}

/// The same, and which byte was found where another was due, or what a caller stated.
pub fn refuse_fully(error: &DeserializeError, answers: &mut Answers) -> Result<(), AllocError> {
    refuse(error, answers)?;
    match &error.kind {
        DeserializeErrorKind::UnexpectedToken(found) => answers.text("found", *found),
        DeserializeErrorKind::UnexpectedControlCharacter(found) => answers.text("found", *found),
        DeserializeErrorKind::Custom(message) => answers.text("message", message.as_str()),
        _ => Ok(()),
    }
}

// A line with the offset of a token, its kind, and what it holds.
fn line(
    alloc: Global,
    offset: Offset,
    kind: &str,
    held: &str,
    answers: &mut Answers,
) -> Result<(), AllocError> {
    let at = offset.0;
    let text = format!(in alloc; "{at} {kind}{held}")?;
    answers.text("token", text.as_str())
}

// A line with the offset of a number's token, its kind, and the variant and the value of the number.
fn number_line(
    alloc: Global,
    offset: Offset,
    number: Number,
    answers: &mut Answers,
) -> Result<(), AllocError> {
    let held = match number {
        Number::PosInt(value) => format!(in alloc; " PosInt {value}")?,
        Number::NegInt(value) => format!(in alloc; " NegInt {value}")?,
    };
    line(alloc, offset, "ValueNumber", held.as_str(), answers)
}

// A line with the offset of a token, its kind, and the text that it holds.
fn text_line(
    alloc: Global,
    offset: Offset,
    kind: &str,
    text: &str,
    answers: &mut Answers,
) -> Result<(), AllocError> {
    let held = format!(in alloc; " {text}")?;
    line(alloc, offset, kind, held.as_str(), answers)
}

/// A token: its offset, its kind, and what it holds.
pub fn tell_token(
    alloc: Global,
    token: Token<'_>,
    answers: &mut Answers,
) -> Result<(), AllocError> {
    match token {
        Token::StartArray { offset } => line(alloc, offset, "StartArray", "", answers),
        Token::EndArray { offset } => line(alloc, offset, "EndArray", "", answers),
        Token::StartObject { offset } => line(alloc, offset, "StartObject", "", answers),
        Token::EndObject { offset } => line(alloc, offset, "EndObject", "", answers),
        Token::ValueNull { offset } => line(alloc, offset, "ValueNull", "", answers),
        Token::ObjectKey { offset, key } => {
            text_line(alloc, offset, "ObjectKey", key.as_escaped_str(), answers)
        }
        Token::ValueBool { offset, value } => {
            let text = if value { "true" } else { "false" };
            text_line(alloc, offset, "ValueBool", text, answers)
        }
        Token::ValueNumber { offset, value } => number_line(alloc, offset, value, answers),
        Token::ValueString { offset, value } => {
            text_line(
                alloc,
                offset,
                "ValueString",
                value.as_escaped_str(),
                answers,
            )
        }
        Token::ValueUncarried { offset, text } => {
            text_line(alloc, offset, "ValueUncarried", text, answers)
        }
    }
}
