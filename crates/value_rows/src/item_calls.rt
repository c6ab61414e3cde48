//! What a row of items is answered with.

use crate::decoded::decode;
use crate::encoded::encode;
use crate::items::call;
use crate::words::text_of;
use smithy_cbor::{Decoder, Encoder};
use smithy_rows::{Answers, Field, Program, Row, Rows};
use std::alloc::{AllocError, Global};

/// Items and values of CBOR.
pub struct Items;

// Answers each line that calls a function over the input.
fn answer_calls(alloc: Global, row: &Row, answers: &mut Answers) -> Result<(), AllocError> {
    for field in &row.fields {
        if field.word.as_str() == "call" {
            call(alloc, row, text_of(field), answers)?;
        }
    }
    Ok(())
}

// Answers each read of one decoder of the input.
fn answer_reads(alloc: Global, row: &Row, answers: &mut Answers) -> Result<(), AllocError> {
    let mut decoder = Decoder::new(row.bytes("input").unwrap_or(b""));
    for field in &row.fields {
        if field.word.as_str() == "decode" {
            decode(alloc, &mut decoder, text_of(field), answers)?;
            answers.text("position", decoder.position())?;
        }
    }
    Ok(())
}

// Answers each write of one encoder, and then what was written.
fn answer_writes(alloc: Global, row: &Row, answers: &mut Answers) -> Result<(), AllocError> {
    let mut encoder = Encoder::new(Vec::new(alloc));
    for field in &row.fields {
        if field.word.as_str() == "encode" {
            encode(alloc, &mut encoder, text_of(field), answers)?;
        }
    }
    let written = encoder.into_writer();
    if !written.is_empty() {
        answers.bytes("written", &written)?;
    }
    Ok(())
}

impl Program for Items {
    fn is_answer(&self, word: &str) -> bool {
        !matches!(word, "input" | "at" | "call" | "decode" | "encode")
    }

    fn answer(&self, alloc: Global, rows: &Rows, row: &Row) -> Result<Vec<Field>, AllocError> {
        let _ = rows;
        let mut answers = Answers::new(alloc);
        answer_calls(alloc, row, &mut answers)?;
        answer_reads(alloc, row, &mut answers)?;
        answer_writes(alloc, row, &mut answers)?;
        Ok(answers.lines)
    }
}
