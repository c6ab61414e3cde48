//! Documents.

use crate::coercions::{call_coercion, call_named};
use crate::kinds::refuse;
use crate::skips::items_of;
use crate::takes::call_take;
use crate::words::{input_of, tell_number};
use smithy_json::JsonValueWriter;
use smithy_json_tokens::{DeserializeError, expect_document, json_token_iter};
use smithy_rows::{Answers, Row};
use smithy_types::Document;
use std::alloc::{AllocError, Global};

// The document of the row's items, or else of its input.
fn document_of(alloc: Global, row: &Row) -> Result<Result<Document, DeserializeError>, AllocError> {
    if row.bytes("item").is_some() {
        let mut items = items_of(alloc, row)?.into_iter();
        return Ok(expect_document(alloc, &mut items));
    }
    let mut tokens = json_token_iter(alloc, input_of(row))?;
    Ok(expect_document(alloc, &mut tokens))
}

// The JSON text of a document.
fn written(alloc: Global, document: &Document, answers: &mut Answers) -> Result<(), AllocError> {
    let mut text = String::new(alloc);
    JsonValueWriter::new(&mut text).document(document)?;
    answers.text("document", text.as_str())
}

fn number(document: &Document, answers: &mut Answers) -> Result<(), AllocError> {
    match document.as_number() {
        Some(number) => tell_number(*number, answers),
        None => answers.none(),
    }
}

// A line for each kind that is told.
fn tell_each(word: &str, told: [(&str, bool); 6], answers: &mut Answers) -> Result<(), AllocError> {
    for (kind, is) in told {
        if is {
            answers.text(word, kind)?;
        }
    }
    Ok(())
}

// Which of the six kinds a document is of, by the calls that only tell.
fn tell_kind(document: &Document, answers: &mut Answers) -> Result<(), AllocError> {
    let told = [
        ("object", document.is_object()),
        ("array", document.is_array()),
        ("number", document.is_number()),
        ("string", document.is_string()),
        ("bool", document.is_bool()),
        ("null", document.is_null()),
    ];
    tell_each("is", told, answers)
}

// Which of the six kinds a document is of, by the calls that hand out what it holds.
fn hand_out(document: &Document, answers: &mut Answers) -> Result<(), AllocError> {
    let told = [
        ("object", document.as_object().is_some()),
        ("array", document.as_array().is_some()),
        ("number", document.as_number().is_some()),
        ("string", document.as_string().is_some()),
        ("bool", document.as_bool().is_some()),
        ("null", document.as_null().is_some()),
    ];
    tell_each("as", told, answers)
}

fn tell(
    alloc: Global,
    document: &Document,
    name: &str,
    answers: &mut Answers,
) -> Result<(), AllocError> {
    match name {
        "expect_document" => written(alloc, document, answers),
        "document_number" => number(document, answers),
        _ => {
            tell_kind(document, answers)?;
            hand_out(document, answers)
        }
    }
}

// Answers a call on the document of the row.
fn call_on(alloc: Global, row: &Row, name: &str, answers: &mut Answers) -> Result<(), AllocError> {
    match document_of(alloc, row)? {
        Ok(document) => tell(alloc, &document, name, answers),
        Err(error) => refuse(&error, answers),
    }
}

// Answers what the document of the row stands for.
fn coerce(
    alloc: Global,
    row: &Row,
    name: &str,
    form: &str,
    answers: &mut Answers,
) -> Result<(), AllocError> {
    match document_of(alloc, row)? {
        Ok(document) if name == "named" => call_named(alloc, document, form, answers),
        Ok(document) => call_coercion(alloc, document, name, form, answers),
        Err(error) => refuse(&error, answers),
    }
}

/// Answers a call by its name and what stands behind it.
pub fn call_document(
    alloc: Global,
    row: &Row,
    name: &str,
    rest: &str,
    answers: &mut Answers,
) -> Result<(), AllocError> {
    match name {
        "expect_document" | "document_number" | "document_kind" => {
            call_on(alloc, row, name, answers)
        }
        "as_blob" | "as_timestamp" | "named" => coerce(alloc, row, name, rest, answers),
        _ => call_take(alloc, row, name, rest, answers),
    }
}
