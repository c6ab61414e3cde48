//! Calls on a reader.

use crate::answers::{push, push_shown};
use crate::containers::walk_call;
use crate::places::{place_of, split};
use smithy_json::push_document;
use smithy_rows::Field;
use smithy_schema::{Schema, SerdeError, ShapeDeserializer, Shapes};
use smithy_types::{Document, Number};
use std::alloc::Global;
use std::fmt::Display;

/// Whether a line of a row is a call on a reader.
pub fn is_call(word: &str) -> bool {
    match word {
        "fail" | "skip_value" | "dispatch_null_members" => true,
        "position" | "is_null" => true,
        "first_two" | "last_long" | "count_members" => true,
        _ => word.starts_with("open_") || word.starts_with("read_"),
    }
}

/// Makes a call, tells what it answers, and adds the lines of its answer. A word that names no call, or a place that isn't in the
/// table, gives none.
pub fn read_call<R: ShapeDeserializer>(
    alloc: Global,
    shapes: &Shapes,
    source: &mut R,
    word: &str,
    text: &[u8],
    answers: &mut Vec<Field>,
) -> Option<Result<(), SerdeError>> {
    match word {
        "position" => return Some(position(alloc, source, answers)),
        "is_null" => return Some(is_null(alloc, source, answers)),
        "fail" => {
            source.fail();
            return Some(Ok(()));
        }
        "read_null" => return Some(done(alloc, source.read_null(), answers)),
        "skip_value" => return Some(done(alloc, source.skip_value(), answers)),
        "dispatch_null_members" => return Some(dispatch(alloc, source, text, answers)),
        _ => {}
    }
    let (place, rest) = split(str::from_utf8(text).ok()?);
    let place = place_of(shapes, place)?;
    if word.starts_with("read_") {
        return read_value(alloc, source, &place, word, answers);
    }
    walk_call(alloc, source, &place, word, rest, answers)
}

/// Adds the line `done`, where a call without a value wasn't refused.
pub fn done(
    alloc: Global,
    answer: Result<(), SerdeError>,
    answers: &mut Vec<Field>,
) -> Result<(), SerdeError> {
    answer?;
    Ok(push(alloc, answers, "done", b"")?)
}

fn position<R: ShapeDeserializer>(
    alloc: Global,
    source: &mut R,
    answers: &mut Vec<Field>,
) -> Result<(), SerdeError> {
    Ok(push_shown(alloc, answers, "position", source.position())?)
}

fn is_null<R: ShapeDeserializer>(
    alloc: Global,
    source: &mut R,
    answers: &mut Vec<Field>,
) -> Result<(), SerdeError> {
    Ok(push_shown(alloc, answers, "is_null", source.is_null())?)
}

// Hands nulls of members on, or drops them, and adds which was so before.
fn dispatch<R: ShapeDeserializer>(
    alloc: Global,
    source: &mut R,
    text: &[u8],
    answers: &mut Vec<Field>,
) -> Result<(), SerdeError> {
    let before = source.dispatch_null_members(str::from_utf8(text) == Ok("true"));
    Ok(push_shown(alloc, answers, "value", before)?)
}

/// Adds a document, by its text.
pub fn push_text(
    alloc: Global,
    document: &Document,
    answers: &mut Vec<Field>,
) -> Result<(), SerdeError> {
    let mut text = String::new(alloc);
    push_document(&mut text, document)?;
    Ok(push(alloc, answers, "value", text.as_bytes())?)
}

// Adds the number that is all of a document, with its variant.
fn document_number(
    alloc: Global,
    document: &Document,
    answers: &mut Vec<Field>,
) -> Result<(), SerdeError> {
    match document {
        Document::Number(Number::PosInt(n)) => {
            let text = format!(in alloc; "PosInt {n}")?;
            Ok(push(alloc, answers, "value", text.as_bytes())?)
        }
        Document::Number(Number::NegInt(n)) => {
            let text = format!(in alloc; "NegInt {n}")?;
            Ok(push(alloc, answers, "value", text.as_bytes())?)
        }
        _ => Ok(push(alloc, answers, "none", b"")?),
    }
}

// The calls that read a value.
fn read_value<R: ShapeDeserializer>(
    alloc: Global,
    source: &mut R,
    place: &Schema<'_>,
    word: &str,
    answers: &mut Vec<Field>,
) -> Option<Result<(), SerdeError>> {
    match word {
        "read_boolean" => Some(boolean(alloc, source, place, answers)),
        "read_byte" => Some(shown(alloc, source.read_byte(place), answers)),
        "read_short" => Some(shown(alloc, source.read_short(place), answers)),
        "read_integer" => Some(shown(alloc, source.read_integer(place), answers)),
        "read_long" => Some(shown(alloc, source.read_long(place), answers)),
        "read_string" => Some(string(alloc, source, place, answers)),
        "read_blob" => Some(blob(alloc, source, place, answers)),
        "read_big_integer" => Some(big_integer(alloc, source, place, answers)),
        "read_big_decimal" => Some(big_decimal(alloc, source, place, answers)),
        "read_timestamp" => Some(timestamp(alloc, source, place, answers)),
        "read_document" => Some(document(alloc, source, place, answers)),
        "read_document_number" => Some(number_held(alloc, source, place, answers)),
        _ => None,
    }
}

fn boolean<R: ShapeDeserializer>(
    alloc: Global,
    source: &mut R,
    place: &Schema<'_>,
    answers: &mut Vec<Field>,
) -> Result<(), SerdeError> {
    let value = source.read_boolean(place)?;
    Ok(push_shown(alloc, answers, "value", value)?)
}

// Adds a whole number that was read.
fn shown<T: Display + Drop>(
    alloc: Global,
    read: Result<T, SerdeError>,
    answers: &mut Vec<Field>,
) -> Result<(), SerdeError> {
    let number = read?;
    Ok(push_shown(alloc, answers, "value", number)?)
}

fn string<R: ShapeDeserializer>(
    alloc: Global,
    source: &mut R,
    place: &Schema<'_>,
    answers: &mut Vec<Field>,
) -> Result<(), SerdeError> {
    let text = source.read_string(place)?;
    Ok(push(alloc, answers, "value", text.as_bytes())?)
}

fn blob<R: ShapeDeserializer>(
    alloc: Global,
    source: &mut R,
    place: &Schema<'_>,
    answers: &mut Vec<Field>,
) -> Result<(), SerdeError> {
    let blob = source.read_blob(place)?;
    Ok(push(alloc, answers, "value", blob.as_ref())?)
}

fn big_integer<R: ShapeDeserializer>(
    alloc: Global,
    source: &mut R,
    place: &Schema<'_>,
    answers: &mut Vec<Field>,
) -> Result<(), SerdeError> {
    let number = source.read_big_integer(place)?;
    Ok(push(alloc, answers, "value", number.as_ref().as_bytes())?)
}

fn big_decimal<R: ShapeDeserializer>(
    alloc: Global,
    source: &mut R,
    place: &Schema<'_>,
    answers: &mut Vec<Field>,
) -> Result<(), SerdeError> {
    let number = source.read_big_decimal(place)?;
    Ok(push(alloc, answers, "value", number.as_ref().as_bytes())?)
}

// Reads an instant, and adds its nanoseconds.
fn timestamp<R: ShapeDeserializer>(
    alloc: Global,
    source: &mut R,
    place: &Schema<'_>,
    answers: &mut Vec<Field>,
) -> Result<(), SerdeError> {
    let instant = source.read_timestamp(place)?;
    Ok(push_shown(alloc, answers, "value", instant.as_nanos())?)
}

fn document<R: ShapeDeserializer>(
    alloc: Global,
    source: &mut R,
    place: &Schema<'_>,
    answers: &mut Vec<Field>,
) -> Result<(), SerdeError> {
    let document = source.read_document(place)?;
    push_text(alloc, &document, answers)
}

fn number_held<R: ShapeDeserializer>(
    alloc: Global,
    source: &mut R,
    place: &Schema<'_>,
    answers: &mut Vec<Field>,
) -> Result<(), SerdeError> {
    let document = source.read_document(place)?;
    document_number(alloc, &document, answers)
}
