//! Writes of an encoder.

use crate::words::split;
use smithy_cbor::{EncodeError, Encoder};
use smithy_rows::{Answers, bytes_of};
use smithy_types::{BigDecimal, BigInteger, Blob, DateTime};
use std::alloc::{AllocError, Global};

// What a write answers: nothing, or its refusal.
fn done(written: Result<(), EncodeError>, answers: &mut Answers) -> Result<(), AllocError> {
    match written {
        Ok(()) => Ok(()),
        Err(error) => answers.refused(error),
    }
}

fn big_integer(
    alloc: Global,
    encoder: &mut Encoder,
    text: &str,
    answers: &mut Answers,
) -> Result<(), AllocError> {
    match BigInteger::from_str(alloc, text) {
        Ok(number) => done(encoder.big_integer(&number), answers),
        Err(error) => answers.refused(error),
    }
}

fn big_decimal(
    alloc: Global,
    encoder: &mut Encoder,
    text: &str,
    answers: &mut Answers,
) -> Result<(), AllocError> {
    match BigDecimal::from_str(alloc, text) {
        Ok(number) => done(encoder.big_decimal(&number), answers),
        Err(error) => answers.refused(error),
    }
}

// An exponent, and behind a blank the mantissa.
fn decimal_fraction(
    encoder: &mut Encoder,
    parts: &str,
    answers: &mut Answers,
) -> Result<(), AllocError> {
    let (exponent, mantissa) = split(parts);
    let Ok(exponent) = exponent.parse::<i64>() else {
        return answers.refused("no such exponent");
    };
    let Ok(mantissa) = mantissa.parse::<i128>() else {
        return answers.refused("no such mantissa");
    };
    encoder.decimal_fraction(exponent, mantissa)
}

fn blob(alloc: Global, encoder: &mut Encoder, text: &str) -> Result<(), AllocError> {
    let blob = Blob::new(bytes_of(alloc, text)?);
    encoder.blob(&blob)
}

fn blob_bytes(alloc: Global, encoder: &mut Encoder, text: &str) -> Result<(), AllocError> {
    let bytes = bytes_of(alloc, text)?;
    encoder.blob_bytes(&bytes)
}

// Writes a whole number by a call of this name, which tells its width.
fn encode_number(
    encoder: &mut Encoder,
    name: &str,
    digits: &str,
    answers: &mut Answers,
) -> Result<(), AllocError> {
    match name {
        "byte" => match digits.parse::<i8>() {
            Ok(number) => encoder.byte(number),
            Err(_) => answers.refused("no such number"),
        },
        "short" => match digits.parse::<i16>() {
            Ok(number) => encoder.short(number),
            Err(_) => answers.refused("no such number"),
        },
        "integer" => match digits.parse::<i32>() {
            Ok(number) => encoder.integer(number),
            Err(_) => answers.refused("no such number"),
        },
        "long" => match digits.parse::<i64>() {
            Ok(number) => encoder.long(number),
            Err(_) => answers.refused("no such number"),
        },
        "whole" => match digits.parse::<i128>() {
            Ok(number) => encoder.whole(number),
            Err(_) => answers.refused("no such number"),
        },
        _ => answers.refused("no such call"),
    }
}

// Begins a container of so many elements or entries.
fn begin(
    encoder: &mut Encoder,
    name: &str,
    digits: &str,
    answers: &mut Answers,
) -> Result<(), AllocError> {
    let Ok(length) = digits.parse::<usize>() else {
        return answers.refused("no such length");
    };
    if name == "map" {
        return encoder.map(length);
    }
    encoder.array(length)
}

fn timestamp(
    encoder: &mut Encoder,
    seconds: &str,
    answers: &mut Answers,
) -> Result<(), AllocError> {
    match seconds.parse::<i64>() {
        Ok(seconds) => encoder.timestamp(&DateTime::from_secs(seconds)),
        Err(_) => answers.refused("no such number"),
    }
}

// Writes what has a value.
fn encode_value(
    alloc: Global,
    encoder: &mut Encoder,
    line: &str,
    answers: &mut Answers,
) -> Result<(), AllocError> {
    let (name, value) = split(line);
    match name {
        "str" => encoder.str(value),
        "blob" => blob(alloc, encoder, value),
        "blob_bytes" => blob_bytes(alloc, encoder, value),
        "map" | "array" => begin(encoder, name, value, answers),
        "timestamp" => timestamp(encoder, value, answers),
        "big_integer" => big_integer(alloc, encoder, value, answers),
        "big_decimal" => big_decimal(alloc, encoder, value, answers),
        "decimal_fraction" => decimal_fraction(encoder, value, answers),
        _ => encode_number(encoder, name, value, answers),
    }
}

/// Answers a write by its name and its value.
pub fn encode(
    alloc: Global,
    encoder: &mut Encoder,
    line: &str,
    answers: &mut Answers,
) -> Result<(), AllocError> {
    match line {
        "null" => encoder.null(),
        "boolean true" => encoder.boolean(true),
        "boolean false" => encoder.boolean(false),
        "begin_array" => encoder.begin_array(),
        "begin_map" => encoder.begin_map(),
        "end" => encoder.end(),
        _ => encode_value(alloc, encoder, line, answers),
    }
}
