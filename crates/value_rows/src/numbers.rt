//! Whole numbers that a document holds, their conversions, and primitive values.

use crate::values::call_value;
use crate::words::{input_text, number_of, split, tell_number};
use smithy_json::{number_of_long, number_of_text};
use smithy_rows::{Answers, Row};
use smithy_types::primitive::{Encoder, Parse};
use smithy_types::{Number, TryFromNumberError};
use std::alloc::{AllocError, Global};
use std::fmt::Display;

fn held(text: &str, answers: &mut Answers) -> Result<(), AllocError> {
    match number_of_text(text) {
        Some(number) => tell_number(number, answers),
        None => answers.none(),
    }
}

// The number that a document holds. The parts are `true` or `false`, by whether a minus stands before the number, and behind a
// blank the number of 64 bits.
fn held_long(parts: &str, answers: &mut Answers) -> Result<(), AllocError> {
    let (with_minus, digits) = split(parts);
    let value = digits.parse::<i64>().unwrap_or(0);
    tell_number(number_of_long(with_minus == "true", value), answers)
}

// A value, or the refusal of it.
fn tell<T: Display + Drop, E: Display + Drop>(
    answer: Result<T, E>,
    answers: &mut Answers,
) -> Result<(), AllocError> {
    match answer {
        Ok(value) => answers.text("value", value),
        Err(error) => answers.refused(error),
    }
}

// The type that a number is converted to, and behind a blank the number.
fn convert(line: &str, answers: &mut Answers) -> Result<(), AllocError> {
    let (width, number) = split(line);
    let Some(number) = number_of(number) else {
        return answers.refused("no such number");
    };
    match width {
        "u8" => tell(u8::try_from(number), answers),
        "u16" => tell(u16::try_from(number), answers),
        "u32" => tell(u32::try_from(number), answers),
        "u64" => tell(u64::try_from(number), answers),
        "i8" => tell(i8::try_from(number), answers),
        "i16" => tell(i16::try_from(number), answers),
        "i32" => tell(i32::try_from(number), answers),
        "i64" => tell(i64::try_from(number), answers),
        _ => answers.refused("no such type"),
    }
}

// Reads a text of this type.
fn parse(name: &str, text: &str, answers: &mut Answers) -> Result<(), AllocError> {
    match name {
        "bool" => tell(bool::parse_smithy_primitive(text), answers),
        "i8" => tell(i8::parse_smithy_primitive(text), answers),
        "i16" => tell(i16::parse_smithy_primitive(text), answers),
        "i32" => tell(i32::parse_smithy_primitive(text), answers),
        "i64" => tell(i64::parse_smithy_primitive(text), answers),
        _ => answers.refused("no such type"),
    }
}

// The encoder of a value of this type.
fn encoder_of(line: &str) -> Option<Encoder> {
    let (name, value) = split(line);
    match name {
        "bool" => Some(Encoder::from(value == "true")),
        "i8" => Some(Encoder::from(value.parse::<i8>().ok()?)),
        "i16" => Some(Encoder::from(value.parse::<i16>().ok()?)),
        "i32" => Some(Encoder::from(value.parse::<i32>().ok()?)),
        "i64" => Some(Encoder::from(value.parse::<i64>().ok()?)),
        "u64" => Some(Encoder::from(value.parse::<u64>().ok()?)),
        _ => None,
    }
}

// Asks the encoder of a value twice.
fn encode(line: &str, answers: &mut Answers) -> Result<(), AllocError> {
    let Some(mut encoder) = encoder_of(line) else {
        return answers.refused("no such value");
    };
    answers.text("text", encoder.encode())?;
    answers.text("text", encoder.encode())
}

/// Answers a call by its name and what stands behind it.
pub fn call_number(
    alloc: Global,
    row: &Row,
    name: &str,
    rest: &str,
    answers: &mut Answers,
) -> Result<(), AllocError> {
    match name {
        "number_of_text" => held(input_text(row), answers),
        "number_of_long" => held_long(rest, answers),
        "try_from" => convert(rest, answers),
        "parse_primitive" => parse(rest, input_text(row), answers),
        "encode_primitive" => encode(rest, answers),
        _ => call_value(alloc, row, name, rest, answers),
    }
}
