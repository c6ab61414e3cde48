//! Values that are written in JSON, one behind the other.

use crate::words::{format_of, number_of, split};
use smithy_json::JsonValueWriter;
use smithy_rows::Answers;
use smithy_types::DateTime;
use std::alloc::AllocError;

fn number(written: &mut String, text: &str, answers: &mut Answers) -> Result<(), AllocError> {
    match number_of(text) {
        Some(number) => JsonValueWriter::new(written).number(number),
        None => answers.refused("no such number"),
    }
}

// The form, and behind a blank the seconds.
fn date_time(written: &mut String, parts: &str, answers: &mut Answers) -> Result<(), AllocError> {
    let (format, seconds) = split(parts);
    let instant = DateTime::from_secs(seconds.parse::<i64>().unwrap_or(0));
    match JsonValueWriter::new(written).date_time(&instant, format_of(format)) {
        Ok(()) => Ok(()),
        Err(error) => answers.refused(error),
    }
}

/// Answers a value that is written.
pub fn write(written: &mut String, line: &str, answers: &mut Answers) -> Result<(), AllocError> {
    let (name, rest) = split(line);
    match name {
        "number" => number(written, rest, answers),
        "date_time" => date_time(written, rest, answers),
        "raw" => JsonValueWriter::new(written).write_raw_value(rest),
        "string" => JsonValueWriter::new(written).string(rest),
        "boolean" => JsonValueWriter::new(written).boolean(rest == "true"),
        "null" => JsonValueWriter::new(written).null(),
        _ => answers.refused("no such value"),
    }
}
