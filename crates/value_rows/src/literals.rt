//! Literals, blanks and numbers in an input of JSON.

use crate::stops::call_stop;
use crate::words::input_of;
use smithy_json_grammar::number_text::{read_long, scan_number};
use smithy_json_grammar::scan::{is_boundary, read_boolean, read_null, skip_blanks};
use smithy_rows::{Answers, Row};
use std::alloc::{AllocError, Global};

fn number(input: &[u8], at: usize, answers: &mut Answers) -> Result<(), AllocError> {
    if at > input.len() {
        return answers.refused("no such place");
    }
    match scan_number(input, at) {
        Some(number) => {
            answers.text("end", number.end)?;
            answers.text("is_whole", number.is_whole)
        }
        None => answers.none(),
    }
}

fn long(input: &[u8], answers: &mut Answers) -> Result<(), AllocError> {
    match read_long(input, 0) {
        Some((value, _)) => answers.text("long", value),
        None => answers.none(),
    }
}

fn null(input: &[u8], answers: &mut Answers) -> Result<(), AllocError> {
    match read_null(input, 0) {
        Some(end) => answers.text("end", end),
        None => answers.none(),
    }
}

fn boolean(input: &[u8], answers: &mut Answers) -> Result<(), AllocError> {
    match read_boolean(input, 0) {
        Some((value, end)) => {
            answers.text("boolean", value)?;
            answers.text("end", end)
        }
        None => answers.none(),
    }
}

/// Answers a call by its name and what stands behind it.
pub fn call_literal(
    alloc: Global,
    row: &Row,
    name: &str,
    rest: &str,
    answers: &mut Answers,
) -> Result<(), AllocError> {
    let input = input_of(row);
    match name {
        "scan_number" => number(
            input,
            row.text("at").unwrap_or("0").parse::<usize>().unwrap_or(0),
            answers,
        ),
        "read_long" => long(input, answers),
        "read_null" => null(input, answers),
        "read_boolean" => boolean(input, answers),
        "skip_blanks" => answers.text("end", skip_blanks(input, 0)),
        "is_boundary" => answers.text("is_boundary", is_boundary(input, 0)),
        _ => call_stop(alloc, row, name, rest, answers),
    }
}
