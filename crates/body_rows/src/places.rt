//! Rows of what a table tells at its places.

use crate::questions;
use crate::tables::shapes_of;
use crate::transcoding::one;
use smithy_rows::{Field, Row, Rows};
use smithy_schema::{Schema, Shapes};
use std::alloc::{AllocError, Global};

// Whether a word goes to another place.
fn is_step(word: &str) -> bool {
    matches!(
        word,
        "shape"
            | "nameless"
            | "member_at"
            | "member_schema"
            | "member_of_json_name"
            | "member"
            | "key"
    )
}

// The declaration of this name as a whole.
fn shape<'a>(shapes: &'a Shapes, name: &str) -> Option<Schema<'a>> {
    let root = shapes.find(name)?;
    Some(shapes.schema(root))
}

// The place that a step goes to from another one.
fn next<'a>(place: Option<Schema<'a>>, word: &str, text: &str) -> Option<Schema<'a>> {
    let place = place?;
    match word {
        "nameless" => Some(place.nameless()),
        "member_at" => place.member_at(text.parse::<u32>().ok()?),
        "member_schema" => place.member_schema(text),
        "member_of_json_name" => place.member_of_json_name(text),
        "member" => place.member(),
        "key" => place.key(),
        _ => None,
    }
}

// The answer to each question of a row, and `none` to each step that leads nowhere.
fn told(alloc: Global, shapes: &Shapes, row: &Row) -> Result<Vec<Field>, AllocError> {
    let mut answers = Vec::new(alloc);
    let mut place = None;
    for field in &row.fields {
        let word = field.word.as_str();
        let text = str::from_utf8(&field.value).unwrap_or("");
        if is_step(word) {
            place = if word == "shape" {
                shape(shapes, text)
            } else {
                next(place, word, text)
            };
            if place.is_none() {
                answers.push(Field::new(alloc, "none", b"")?)?;
            }
        } else if questions::is_question(word) {
            let told = questions::told(alloc, shapes, place, word, text)?;
            answers.push(Field::new(alloc, word, told.as_bytes())?)?;
        }
    }
    Ok(answers)
}

/// What the table of a row tells.
pub fn answers(alloc: Global, rows: &Rows, row: &Row) -> Result<Vec<Field>, AllocError> {
    match shapes_of(alloc, rows, row) {
        Some(shapes) => told(alloc, &shapes, row),
        None => one(alloc, "refused", "no such table"),
    }
}
