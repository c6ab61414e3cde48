//! What a row of texts is answered with.

use crate::instants::{call_instant, first_instant};
use crate::literals::call_literal;
use crate::words::{split, text_of};
use crate::writes::write;
use smithy_rows::{Answers, Field, Program, Row, Rows};
use std::alloc::{AllocError, Global};

/// Texts of values, of JSON and of its tokens.
pub struct Texts;

// Answers each line that calls a function over the input.
fn answer_calls(alloc: Global, row: &Row, answers: &mut Answers) -> Result<(), AllocError> {
    for field in &row.fields {
        if field.word.as_str() == "call" {
            let (name, rest) = split(text_of(field));
            call_literal(alloc, row, name, rest, answers)?;
        }
    }
    Ok(())
}

// Answers each call of one instant.
fn answer_instants(alloc: Global, row: &Row, answers: &mut Answers) -> Result<(), AllocError> {
    let mut instant = first_instant();
    for field in &row.fields {
        if field.word.as_str() == "instant" {
            call_instant(alloc, row, &mut instant, text_of(field), answers)?;
        }
    }
    Ok(())
}

// Answers each value that is written behind the others, and then what was written.
fn answer_writes(alloc: Global, row: &Row, answers: &mut Answers) -> Result<(), AllocError> {
    let mut written = String::new(alloc);
    for field in &row.fields {
        if field.word.as_str() == "write" {
            write(&mut written, text_of(field), answers)?;
        }
    }
    if written.is_empty() {
        return Ok(());
    }
    answers.text("written", written.as_str())
}

impl Program for Texts {
    fn is_answer(&self, word: &str) -> bool {
        !matches!(
            word,
            "input" | "at" | "call" | "behind" | "instant" | "write" | "item"
        )
    }

    fn answer(&self, alloc: Global, rows: &Rows, row: &Row) -> Result<Vec<Field>, AllocError> {
        let _ = rows;
        let mut answers = Answers::new(alloc);
        answer_calls(alloc, row, &mut answers)?;
        answer_instants(alloc, row, &mut answers)?;
        answer_writes(alloc, row, &mut answers)?;
        Ok(answers.lines)
    }
}
