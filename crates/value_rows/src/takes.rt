//! Taking one token of a kind.

use crate::kinds::{refuse, refuse_fully};
use crate::words::{format_of, input_of, split, tell_number};
use smithy_json::EscapedStr;
use smithy_json_tokens::{
    DeserializeError, DeserializeErrorKind, Offset, Token, expect_blob_or_null,
    expect_bool_or_null, expect_number_as_string_or_null, expect_number_or_null,
    expect_start_array, expect_start_object, expect_string_or_null, expect_timestamp_or_null,
    json_token_iter,
};
use smithy_rows::{Answers, Row};
use std::alloc::{AllocError, Global};
use std::borrow::CowStr;

/// A token, or a refusal.
pub type Item<'a> = Result<Token<'a>, DeserializeError>;

// A refusal of this kind.
fn refused(offset: Offset, kind: DeserializeErrorKind) -> DeserializeError {
    DeserializeError {
        kind,
        offset: Some(offset.0),
    }
}

/// The item of a line: an offset, and behind a blank a kind of tokens, `refused`, or a kind of refusals that no input has. A
/// key is `a`.
pub fn item_of<'a>(line: &str) -> Item<'a> {
    let (offset, kind) = split(line);
    let offset = Offset(offset.parse::<usize>().unwrap_or(0));
    match kind {
        "StartArray" => Ok(Token::StartArray { offset }),
        "EndArray" => Ok(Token::EndArray { offset }),
        "StartObject" => Ok(Token::StartObject { offset }),
        "EndObject" => Ok(Token::EndObject { offset }),
        "ValueNull" => Ok(Token::ValueNull { offset }),
        "ObjectKey" => Ok(Token::ObjectKey {
            offset,
            key: EscapedStr::new("a"),
        }),
        "InvalidEscape" => Err(refused(offset, DeserializeErrorKind::InvalidEscape('x'))),
        "NoMemory" => Err(refused(offset, DeserializeErrorKind::NoMemory)),
        _ => Err(offset.error(CowStr::Borrowed("refused"))),
    }
}

// The item of the row's line, or else one of its input, behind as many as the row says.
fn item_taken(alloc: Global, row: &Row) -> Result<Option<Item<'_>>, AllocError> {
    if let Some(line) = row.text("item") {
        return Ok(Some(item_of(line)));
    }
    let before = row.text("behind").unwrap_or("0").parse::<u8>().unwrap_or(0);
    let mut tokens = json_token_iter(alloc, input_of(row))?;
    for _ in 0..before {
        drop(tokens.next());
    }
    Ok(tokens.next())
}

fn start(answer: Result<(), DeserializeError>, answers: &mut Answers) -> Result<(), AllocError> {
    match answer {
        Ok(()) => answers.bytes("taken", b""),
        Err(error) => refuse_fully(&error, answers),
    }
}

fn boolean(item: Option<Item<'_>>, answers: &mut Answers) -> Result<(), AllocError> {
    match expect_bool_or_null(item) {
        Ok(Some(value)) => answers.text("boolean", value),
        Ok(None) => answers.none(),
        Err(error) => refuse(&error, answers),
    }
}

fn number(item: Option<Item<'_>>, answers: &mut Answers) -> Result<(), AllocError> {
    match expect_number_or_null(item) {
        Ok(Some(value)) => tell_number(value, answers),
        Ok(None) => answers.none(),
        Err(error) => refuse(&error, answers),
    }
}

fn string(item: Option<Item<'_>>, answers: &mut Answers) -> Result<(), AllocError> {
    match expect_string_or_null(item) {
        Ok(Some(text)) => answers.text("text", text.as_escaped_str()),
        Ok(None) => answers.none(),
        Err(error) => refuse(&error, answers),
    }
}

fn number_text<'a>(
    item: Option<Item<'a>>,
    input: &'a [u8],
    answers: &mut Answers,
) -> Result<(), AllocError> {
    let taken = match item {
        None => expect_number_as_string_or_null(None, input),
        Some(Err(error)) => expect_number_as_string_or_null(Some(Err(error)), input),
        Some(Ok(token)) => {
            if token.offset().0 > input.len() {
                return answers.refused("no such place");
            }
            expect_number_as_string_or_null(Some(Ok(token)), input)
        }
    };
    match taken {
        Ok(Some(text)) => answers.text("text", text),
        Ok(None) => answers.none(),
        Err(error) => refuse(&error, answers),
    }
}

fn instant(
    alloc: Global,
    item: Option<Item<'_>>,
    format: &str,
    answers: &mut Answers,
) -> Result<(), AllocError> {
    match expect_timestamp_or_null(alloc, item, format_of(format)) {
        Ok(Some(instant)) => answers.text("nanos", instant.as_nanos()),
        Ok(None) => answers.none(),
        Err(error) => refuse(&error, answers),
    }
}

fn blob(alloc: Global, item: Option<Item<'_>>, answers: &mut Answers) -> Result<(), AllocError> {
    match expect_blob_or_null(alloc, item) {
        Ok(Some(blob)) => answers.bytes("bytes", blob.as_ref()),
        Ok(None) => answers.none(),
        Err(error) => refuse(&error, answers),
    }
}

/// Answers a call by its name and what stands behind it.
pub fn call_take(
    alloc: Global,
    row: &Row,
    name: &str,
    rest: &str,
    answers: &mut Answers,
) -> Result<(), AllocError> {
    let item = item_taken(alloc, row)?;
    match name {
        "expect_start_object" => start(expect_start_object(item), answers),
        "expect_start_array" => start(expect_start_array(item), answers),
        "expect_bool_or_null" => boolean(item, answers),
        "expect_number_or_null" => number(item, answers),
        "expect_string_or_null" => string(item, answers),
        "expect_number_as_string_or_null" => number_text(item, input_of(row), answers),
        "expect_timestamp_or_null" => instant(alloc, item, rest, answers),
        "expect_blob_or_null" => blob(alloc, item, answers),
        _ => answers.refused("no such call"),
    }
}
