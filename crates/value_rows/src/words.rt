//! Words of a line.

use smithy_rows::{Answers, Field, Row};
use smithy_types::{Format, Number};
use std::alloc::AllocError;

/// The text behind a word.
pub fn text_of(field: &Field) -> &str {
    str::from_utf8(&field.value).unwrap_or("")
}

/// The first word of a text, and what stands behind it.
pub fn split(text: &str) -> (&str, &str) {
    text.split_once(' ').unwrap_or((text, ""))
}

/// The input of a row.
pub fn input_of(row: &Row) -> &[u8] {
    row.bytes("input").unwrap_or(b"")
}

/// The input of a row as a text.
pub fn input_text(row: &Row) -> &str {
    row.text("input").unwrap_or("")
}

/// The form of the texts of instants that has this name.
pub fn format_of(name: &str) -> Format {
    match name {
        "DateTime" => Format::DateTime,
        "DateTimeWithOffset" => Format::DateTimeWithOffset,
        "HttpDate" => Format::HttpDate,
        _ => Format::EpochSeconds,
    }
}

/// The number that is written by its variant and its digits, as `PosInt 5`.
pub fn number_of(text: &str) -> Option<Number> {
    let (variant, digits) = split(text);
    match variant {
        "PosInt" => Some(Number::PosInt(digits.parse::<u64>().ok()?)),
        "NegInt" => Some(Number::NegInt(digits.parse::<i64>().ok()?)),
        _ => None,
    }
}

/// A number, by its variant and its digits.
pub fn tell_number(number: Number, answers: &mut Answers) -> Result<(), AllocError> {
    match number {
        Number::PosInt(value) => answers.named("number", "PosInt", value),
        Number::NegInt(value) => answers.named("number", "NegInt", value),
    }
}
