//! The tokens of an input.

use crate::kinds::{refuse_fully, tell_token};
use crate::skips::call_skip;
use crate::words::{input_of, split};
use smithy_json_tokens::json_token_iter;
use smithy_rows::{Answers, Row, bytes_of};
use std::alloc::{AllocError, Global};

// Each item in turn. Behind the end nothing may come.
fn tell_items(alloc: Global, input: &[u8], answers: &mut Answers) -> Result<(), AllocError> {
    let mut tokens = json_token_iter(alloc, input)?;
    while let Some(item) = tokens.next() {
        match item {
            Ok(token) => tell_token(alloc, token, answers)?,
            Err(error) => refuse_fully(&error, answers)?,
        }
    }
    if tokens.next().is_some() {
        return answers.refused("an item behind the end");
    }
    Ok(())
}

// How many tokens come, and then which refusal at which offset.
fn count_items(alloc: Global, input: &[u8], answers: &mut Answers) -> Result<(), AllocError> {
    let mut tokens = json_token_iter(alloc, input)?;
    let mut count: u64 = 0;
    while let Some(item) = tokens.next() {
        match item {
            Ok(_) => count = count.saturating_add(1),
            Err(error) => {
                if tokens.next().is_some() {
                    return answers.refused("an item behind a refusal");
                }
                let offset = error.offset.unwrap_or(usize::MAX);
                let text = format!(in alloc; "{count} {error} {offset}")?;
                return answers.text("counted", text.as_str());
            }
        }
    }
    answers.text("counted", count)
}

// Counts the items that the first bytes of the input give. The text says how many bytes these are.
fn count_front(
    alloc: Global,
    input: &[u8],
    length: &str,
    answers: &mut Answers,
) -> Result<(), AllocError> {
    let length = length.parse::<usize>().unwrap_or(usize::MAX);
    match input.get(..length) {
        Some(front) => count_items(alloc, front, answers),
        None => answers.refused("no such front"),
    }
}

// The input with another byte at an offset: the offset, and behind a blank the byte.
fn count_changed(
    alloc: Global,
    input: &[u8],
    parts: &str,
    answers: &mut Answers,
) -> Result<(), AllocError> {
    let (at, byte) = split(parts);
    let at = at.parse::<usize>().unwrap_or(usize::MAX);
    let byte = bytes_of(alloc, byte)?;
    let mut changed = input.to_vec(alloc)?;
    if at >= changed.len() || byte.is_empty() {
        return answers.refused("no such byte");
    }
    changed[at] = byte[0];
    count_items(alloc, &changed, answers)
}

/// Answers a call by its name and what stands behind it.
pub fn call_tokens(
    alloc: Global,
    row: &Row,
    name: &str,
    rest: &str,
    answers: &mut Answers,
) -> Result<(), AllocError> {
    match name {
        "tokens" => tell_items(alloc, input_of(row), answers),
        "count_front" => count_front(alloc, input_of(row), rest, answers),
        "count_changed" => count_changed(alloc, input_of(row), rest, answers),
        _ => call_skip(alloc, row, name, rest, answers),
    }
}
