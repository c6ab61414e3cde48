//! Big numbers, bytes in base64, and fronts of texts that are instants.

use crate::tokens::call_tokens;
use crate::words::{format_of, input_of, input_text, split};
use smithy_rows::{Answers, Row};
use smithy_types::{BigDecimal, BigInteger, Blob, DateTime, base64, read_epoch};
use std::alloc::{AllocError, Global};

fn big_integer(alloc: Global, text: &str, answers: &mut Answers) -> Result<(), AllocError> {
    match BigInteger::from_str(alloc, text) {
        Ok(number) => {
            answers.text("text", number.as_ref())?;
            match number.to_i128() {
                Ok(value) => answers.text("value", value),
                Err(error) => answers.refused(error),
            }
        }
        Err(error) => answers.refused(error),
    }
}

fn big_decimal(alloc: Global, text: &str, answers: &mut Answers) -> Result<(), AllocError> {
    match BigDecimal::from_str(alloc, text) {
        Ok(number) => {
            answers.text("text", number.as_ref())?;
            match number.to_parts() {
                Ok((mantissa, exponent)) => {
                    answers.text("mantissa", mantissa)?;
                    answers.text("exponent", exponent)
                }
                Err(error) => answers.refused(error),
            }
        }
        Err(error) => answers.refused(error),
    }
}

// The big integer of a number.
fn integer_of(alloc: Global, digits: &str, answers: &mut Answers) -> Result<(), AllocError> {
    let Ok(value) = digits.parse::<i128>() else {
        return answers.refused("no such number");
    };
    let number = BigInteger::from_i128(alloc, value)?;
    answers.text("text", number.as_ref())
}

// The big decimal of a mantissa and, behind a blank, an exponent.
fn decimal_of(alloc: Global, parts: &str, answers: &mut Answers) -> Result<(), AllocError> {
    let (mantissa, exponent) = split(parts);
    let Ok(mantissa) = mantissa.parse::<i128>() else {
        return answers.refused("no such mantissa");
    };
    let Ok(exponent) = exponent.parse::<i64>() else {
        return answers.refused("no such exponent");
    };
    if exponent == i64::MIN {
        return answers.refused("no such exponent");
    }
    let number = BigDecimal::from_parts(alloc, mantissa, exponent)?;
    answers.text("text", number.as_ref())
}

fn encode(alloc: Global, bytes: &[u8], answers: &mut Answers) -> Result<(), AllocError> {
    let text = base64::encode(alloc, bytes)?;
    answers.text("text", text.as_str())?;
    answers.text("length", base64::encoded_length(bytes.len()))
}

fn decode(alloc: Global, text: &str, answers: &mut Answers) -> Result<(), AllocError> {
    match base64::decode(alloc, text) {
        Ok(bytes) => answers.bytes("bytes", &bytes),
        Err(error) => answers.refused(error),
    }
}

fn blob(alloc: Global, bytes: &[u8], answers: &mut Answers) -> Result<(), AllocError> {
    let blob = Blob::new(bytes.to_vec(alloc)?);
    let printed = format!(in alloc; "{blob}")?;
    answers.text("text", printed.as_str())
}

// Reads up to a delimiter: the form, and behind a blank the delimiter.
fn front(row: &Row, parts: &str, answers: &mut Answers) -> Result<(), AllocError> {
    let (name, delimiter) = split(parts);
    let Some(delimiter) = delimiter.chars().next() else {
        return answers.refused("no delimiter");
    };
    match DateTime::read(input_text(row), format_of(name), delimiter) {
        Ok((instant, rest)) => {
            answers.text("nanos", instant.as_nanos())?;
            answers.text("left", rest.len())
        }
        Err(error) => answers.refused(error),
    }
}

fn epoch(text: &[u8], answers: &mut Answers) -> Result<(), AllocError> {
    match read_epoch(text) {
        Ok(instant) => answers.text("nanos", instant.as_nanos()),
        Err(error) => answers.refused(error),
    }
}

/// Answers a call by its name and what stands behind it.
pub fn call_value(
    alloc: Global,
    row: &Row,
    name: &str,
    rest: &str,
    answers: &mut Answers,
) -> Result<(), AllocError> {
    match name {
        "big_integer" => big_integer(alloc, input_text(row), answers),
        "big_integer_of" => integer_of(alloc, rest, answers),
        "big_decimal" => big_decimal(alloc, input_text(row), answers),
        "big_decimal_of" => decimal_of(alloc, rest, answers),
        "base64_encode" => encode(alloc, input_of(row), answers),
        "base64_decode" => decode(alloc, input_text(row), answers),
        "blob" => blob(alloc, input_of(row), answers),
        "read_date" => front(row, rest, answers),
        "read_epoch" => epoch(input_of(row), answers),
        _ => call_tokens(alloc, row, name, rest, answers),
    }
}
