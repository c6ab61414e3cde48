//! Reads of texts and bytes that may borrow from the input.

use crate::answers::push;
use crate::places::place_of;
use smithy_rows::Field;
use smithy_schema::{BorrowDeserializer, Schema, SerdeError, Shapes};
use std::alloc::Global;
use std::borrow::{CowSlice, CowStr};

/// Whether a line of a row is one of these calls.
pub fn is_borrowing_call(word: &str) -> bool {
    matches!(word, "read_text" | "read_bytes")
}

/// Makes such a call, tells what it answers, and adds the line of its answer. A place that isn't in the table gives none.
pub fn borrowing_call<'a, R: BorrowDeserializer<'a>>(
    alloc: Global,
    shapes: &Shapes,
    source: &mut R,
    word: &str,
    text: &[u8],
    answers: &mut Vec<Field>,
) -> Option<Result<(), SerdeError>> {
    let place = place_of(shapes, str::from_utf8(text).ok()?)?;
    if word == "read_text" {
        return Some(read_text(alloc, source, &place, answers));
    }
    Some(read_bytes(alloc, source, &place, answers))
}

fn read_text<'a, R: BorrowDeserializer<'a>>(
    alloc: Global,
    source: &mut R,
    place: &Schema<'_>,
    answers: &mut Vec<Field>,
) -> Result<(), SerdeError> {
    let text = source.read_text(place)?;
    let word = match text {
        CowStr::Borrowed(_) => "borrowed",
        CowStr::Owned(_) => "owned",
    };
    Ok(push(alloc, answers, word, text.as_str().as_bytes())?)
}

fn read_bytes<'a, R: BorrowDeserializer<'a>>(
    alloc: Global,
    source: &mut R,
    place: &Schema<'_>,
    answers: &mut Vec<Field>,
) -> Result<(), SerdeError> {
    let bytes = source.read_bytes(place)?;
    let word = match bytes {
        CowSlice::Borrowed(_) => "borrowed",
        CowSlice::Owned(_) => "owned",
    };
    Ok(push(alloc, answers, word, bytes.as_slice())?)
}
