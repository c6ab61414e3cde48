//! Calls of an instant.

use crate::words::{format_of, input_text, split};
use smithy_rows::{Answers, Row};
use smithy_types::DateTime;
use std::alloc::{AllocError, Global};

/// The instant before the first call.
pub fn first_instant() -> DateTime {
    DateTime::from_secs(0)
}

fn read(
    instant: &mut DateTime,
    text: &str,
    format: &str,
    answers: &mut Answers,
) -> Result<(), AllocError> {
    match DateTime::from_str(text, format_of(format)) {
        Ok(read) => {
            *instant = read;
            Ok(())
        }
        Err(error) => answers.refused(error),
    }
}

fn from_nanos(
    instant: &mut DateTime,
    digits: &str,
    answers: &mut Answers,
) -> Result<(), AllocError> {
    match DateTime::from_nanos(digits.parse::<i128>().unwrap_or(0)) {
        Ok(made) => {
            *instant = made;
            Ok(())
        }
        Err(error) => answers.refused(error),
    }
}

// The seconds, and behind a blank the nanoseconds.
fn from_parts(
    instant: &mut DateTime,
    parts: &str,
    answers: &mut Answers,
) -> Result<(), AllocError> {
    let (seconds, nanos) = split(parts);
    let seconds = seconds.parse::<i64>().unwrap_or(0);
    let nanos = nanos.parse::<u32>().unwrap_or(u32::MAX);
    if nanos >= 1_000_000_000 {
        return answers.refused("no such nanoseconds");
    }
    *instant = DateTime::from_secs_and_nanos(seconds, nanos);
    Ok(())
}

fn set_nanos(
    instant: &mut DateTime,
    digits: &str,
    answers: &mut Answers,
) -> Result<(), AllocError> {
    let nanos = digits.parse::<u32>().unwrap_or(u32::MAX);
    if nanos >= 1_000_000_000 {
        return answers.refused("no such nanoseconds");
    }
    instant.set_subsec_nanos(nanos);
    Ok(())
}

fn write(
    alloc: Global,
    instant: &DateTime,
    format: &str,
    answers: &mut Answers,
) -> Result<(), AllocError> {
    match instant.fmt(alloc, format_of(format)) {
        Ok(text) => answers.text("text", text.as_str()),
        Err(error) => answers.refused(error),
    }
}

fn millis(instant: DateTime, answers: &mut Answers) -> Result<(), AllocError> {
    match instant.to_millis() {
        Ok(millis) => answers.text("millis", millis),
        Err(error) => answers.refused(error),
    }
}

// What an instant tells of itself.
fn tell(
    alloc: Global,
    instant: &DateTime,
    name: &str,
    format: &str,
    answers: &mut Answers,
) -> Result<(), AllocError> {
    match name {
        "fmt" => write(alloc, instant, format, answers),
        "holds" => answers.text("holds", instant.holds(format_of(format))),
        "display" => answers.text("text", *instant),
        "secs" => answers.text("seconds", instant.secs()),
        "subsec_nanos" => answers.text("nanos", instant.subsec_nanos()),
        "has_subsec_nanos" => answers.text("has_nanos", instant.has_subsec_nanos()),
        "as_nanos" => answers.text("nanos", instant.as_nanos()),
        "to_millis" => millis(*instant, answers),
        _ => answers.refused("no such call"),
    }
}

/// Answers a call by its name and what stands behind it.
pub fn call_instant(
    alloc: Global,
    row: &Row,
    instant: &mut DateTime,
    line: &str,
    answers: &mut Answers,
) -> Result<(), AllocError> {
    let (name, rest) = split(line);
    match name {
        "from_str" => read(instant, input_text(row), rest, answers),
        "from_secs" => {
            *instant = DateTime::from_secs(rest.parse::<i64>().unwrap_or(0));
            Ok(())
        }
        "from_millis" => {
            *instant = DateTime::from_millis(rest.parse::<i64>().unwrap_or(0));
            Ok(())
        }
        "from_nanos" => from_nanos(instant, rest, answers),
        "from_secs_and_nanos" => from_parts(instant, rest, answers),
        "set_seconds" => {
            instant.set_seconds(rest.parse::<i64>().unwrap_or(0));
            Ok(())
        }
        "set_subsec_nanos" => set_nanos(instant, rest, answers),
        _ => tell(alloc, instant, name, rest, answers),
    }
}
