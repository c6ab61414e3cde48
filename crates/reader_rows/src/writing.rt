//! Rows of calls on a serializer.

use crate::answers::{push, push_refusal, push_shown, refused};
use crate::json_settings::json_codec;
use crate::named::write_named;
use crate::prefix::Mark;
use crate::settings::cbor_settings;
use crate::writes::{is_call, write_call};
use smithy_cbor_codec::CborCodec;
use smithy_query_codec::QueryShapeSerializer;
use smithy_rows::{Field, Row};
use smithy_schema::{FinishSerializer, ShapeSerializer, Shapes};
use std::alloc::{AllocError, Global};

// Makes the call of a line, where it is one.
fn write_line<S: ShapeSerializer>(
    alloc: Global,
    shapes: &Shapes,
    sink: &mut S,
    field: &Field,
    answers: &mut Vec<Field>,
) -> Result<(), AllocError> {
    let word = field.word.as_str();
    if is_call(word) {
        let answer = write_call(alloc, shapes, sink, word, &field.value);
        let count = answers.len();
        push_refusal(alloc, answers, answer, count)?;
    }
    Ok(())
}

// Asks for the body where the row does, behind the answers of its calls.
fn finished<S: FinishSerializer + Drop>(
    alloc: Global,
    row: &Row,
    sink: S,
    answers: Vec<Field>,
) -> Result<Vec<Field>, AllocError> {
    let mut answers = answers;
    if row.bytes("finish").is_some() {
        match sink.finish() {
            Ok(body) => push(alloc, &mut answers, "body", &body)?,
            Err(error) => push_shown(alloc, &mut answers, "refused", error)?,
        }
    }
    Ok(answers)
}

// Makes the calls of a row one after another, and then asks for the body where the row does.
fn written<S: FinishSerializer + Drop>(
    alloc: Global,
    shapes: &Shapes,
    row: &Row,
    serializer: S,
) -> Result<Vec<Field>, AllocError> {
    let mut sink = serializer;
    let mut answers = Vec::new(alloc);
    for field in &row.fields {
        write_line(alloc, shapes, &mut sink, field, &mut answers)?;
    }
    finished(alloc, row, sink, answers)
}

// The same in JSON, which has a call of its own.
fn json_written(
    alloc: Global,
    shapes: &Shapes,
    row: &Row,
    use_json_name: bool,
) -> Result<Vec<Field>, AllocError> {
    let codec = json_codec(alloc, row, use_json_name)?;
    let mut sink = codec.create_serializer(alloc);
    let mut answers = Vec::new(alloc);
    for field in &row.fields {
        if field.word.as_str() == "write_discriminated_document" {
            let answer = write_named(alloc, shapes, &mut sink, &field.value);
            let count = answers.len();
            push_refusal(alloc, &mut answers, answer, count)?;
        } else {
            write_line(alloc, shapes, &mut sink, field, &mut answers)?;
        }
    }
    finished(alloc, row, sink, answers)
}

fn cbor_written(alloc: Global, shapes: &Shapes, row: &Row) -> Result<Vec<Field>, AllocError> {
    let codec = CborCodec::new(cbor_settings(row));
    let serializer = codec.create_serializer(alloc);
    if row.bytes("prefix").is_some() {
        return written(alloc, shapes, row, serializer.with_struct_prefix(Mark));
    }
    written(alloc, shapes, row, serializer)
}

fn form_written(alloc: Global, shapes: &Shapes, row: &Row) -> Result<Vec<Field>, AllocError> {
    let action = row.text("action").unwrap_or("");
    let version = row.text("version").unwrap_or("");
    let serializer = QueryShapeSerializer::new(alloc, action, version)?;
    written(alloc, shapes, row, serializer)
}

/// What the calls on a serializer of this wire are answered with.
pub fn answers(
    alloc: Global,
    shapes: &Shapes,
    row: &Row,
    wire: &str,
) -> Result<Vec<Field>, AllocError> {
    match wire {
        "json" => json_written(alloc, shapes, row, false),
        "json-name" => json_written(alloc, shapes, row, true),
        "cbor" => cbor_written(alloc, shapes, row),
        "query" => form_written(alloc, shapes, row),
        _ => refused(alloc, "no such wire"),
    }
}
