//! Passing tokens.

use crate::documents::call_document;
use crate::kinds::refuse;
use crate::takes::{Item, item_of};
use crate::words::{input_of, text_of};
use smithy_json_tokens::{DeserializeError, json_token_iter, skip_to_end, skip_value};
use smithy_rows::{Answers, Row};
use std::alloc::{AllocError, Global};

/// The items that the lines of a row say.
pub fn items_of(alloc: Global, row: &Row) -> Result<Vec<Item<'_>>, AllocError> {
    let mut items = Vec::new(alloc);
    for field in &row.fields {
        if field.word.as_str() == "item" {
            items.push(item_of(text_of(field)))?;
        }
    }
    Ok(items)
}

// What comes behind what was passed, by its offset.
fn tell(
    passed: Result<(), DeserializeError>,
    next: Option<Item<'_>>,
    answers: &mut Answers,
) -> Result<(), AllocError> {
    if let Err(error) = passed {
        return refuse(&error, answers);
    }
    match next {
        Some(Ok(token)) => answers.text("next", token.offset().0),
        _ => answers.none(),
    }
}

// Passes one value of the input.
fn pass_value(alloc: Global, input: &[u8], answers: &mut Answers) -> Result<(), AllocError> {
    let mut tokens = json_token_iter(alloc, input)?;
    let passed = skip_value(&mut tokens);
    tell(passed, tokens.next(), answers)
}

// Takes the first token of the input, and passes all to the end of what it begins.
fn pass_rest(alloc: Global, input: &[u8], answers: &mut Answers) -> Result<(), AllocError> {
    let mut tokens = json_token_iter(alloc, input)?;
    if tokens.next().is_none() {
        return answers.none();
    }
    let passed = skip_to_end(&mut tokens);
    tell(passed, tokens.next(), answers)
}

// Passes one value of the items.
fn pass_items(alloc: Global, row: &Row, answers: &mut Answers) -> Result<(), AllocError> {
    let mut items = items_of(alloc, row)?.into_iter();
    let passed = skip_value(&mut items);
    tell(passed, items.next(), answers)
}

// Passes all items to the end of a container that began before.
fn pass_items_to_end(alloc: Global, row: &Row, answers: &mut Answers) -> Result<(), AllocError> {
    let mut items = items_of(alloc, row)?.into_iter();
    let passed = skip_to_end(&mut items);
    tell(passed, items.next(), answers)
}

/// Answers a call by its name and what stands behind it.
pub fn call_skip(
    alloc: Global,
    row: &Row,
    name: &str,
    rest: &str,
    answers: &mut Answers,
) -> Result<(), AllocError> {
    let of_items = row.bytes("item").is_some();
    match (name, of_items) {
        ("skip_value", true) => pass_items(alloc, row, answers),
        ("skip_value", false) => pass_value(alloc, input_of(row), answers),
        ("skip_to_end", true) => pass_items_to_end(alloc, row, answers),
        ("skip_to_end", false) => pass_rest(alloc, input_of(row), answers),
        _ => call_document(alloc, row, name, rest, answers),
    }
}
