//! Rows of calls on a reader.

use crate::answers::{push_refusal, refused};
use crate::borrowing::{borrowing_call, is_borrowing_call};
use crate::consumers::{consume_call, is_consume_call};
use crate::json_settings::json_codec;
use crate::named::read_named;
use crate::reads::{is_call, read_call};
use crate::settings::cbor_settings;
use crate::sized::{is_sized_call, sized_call};
use smithy_cbor_codec::CborCodec;
use smithy_rows::{Field, Row};
use smithy_schema::{BorrowDeserializer, Shapes};
use std::alloc::{AllocError, Global};

// Makes the call of a line, where it is one.
fn read_line<'a, R: BorrowDeserializer<'a>>(
    alloc: Global,
    shapes: &Shapes,
    source: &mut R,
    field: &Field,
    answers: &mut Vec<Field>,
) -> Result<(), AllocError> {
    let word = field.word.as_str();
    let count = answers.len();
    if is_sized_call(word) {
        let answer = sized_call(alloc, shapes, source, word, &field.value, answers);
        push_refusal(alloc, answers, answer, count)?;
    } else if is_borrowing_call(word) {
        let answer = borrowing_call(alloc, shapes, source, word, &field.value, answers);
        push_refusal(alloc, answers, answer, count)?;
    } else if is_consume_call(word) {
        let answer = consume_call(alloc, shapes, source, word, &field.value, answers);
        push_refusal(alloc, answers, answer, count)?;
    } else if is_call(word) {
        let answer = read_call(alloc, shapes, source, word, &field.value, answers);
        push_refusal(alloc, answers, answer, count)?;
    }
    Ok(())
}

// Makes the calls of a row one after another, of which JSON has one of its own.
fn json_read(
    alloc: Global,
    shapes: &Shapes,
    row: &Row,
    use_json_name: bool,
) -> Result<Vec<Field>, AllocError> {
    let input = row.bytes("input").unwrap_or(b"");
    let codec = json_codec(alloc, row, use_json_name)?;
    let namespace = row.text("namespace");
    let mut source = codec.create_deserializer_with_namespace(alloc, input, namespace);
    let mut answers = Vec::new(alloc);
    for field in &row.fields {
        if field.word.as_str() == "read_discriminated_document" {
            let count = answers.len();
            let answer = read_named(alloc, &mut source, &mut answers);
            push_refusal(alloc, &mut answers, Some(answer), count)?;
        } else {
            read_line(alloc, shapes, &mut source, field, &mut answers)?;
        }
    }
    Ok(answers)
}

fn cbor_read(alloc: Global, shapes: &Shapes, row: &Row) -> Result<Vec<Field>, AllocError> {
    let input = row.bytes("input").unwrap_or(b"");
    let mut source = CborCodec::new(cbor_settings(row)).create_deserializer(alloc, input);
    let mut answers = Vec::new(alloc);
    for field in &row.fields {
        read_line(alloc, shapes, &mut source, field, &mut answers)?;
    }
    Ok(answers)
}

/// What the calls on a reader of this wire are answered with.
pub fn answers(
    alloc: Global,
    shapes: &Shapes,
    row: &Row,
    wire: &str,
) -> Result<Vec<Field>, AllocError> {
    match wire {
        "json" => json_read(alloc, shapes, row, false),
        "json-name" => json_read(alloc, shapes, row, true),
        "cbor" => cbor_read(alloc, shapes, row),
        _ => refused(alloc, "no such wire"),
    }
}
