//! Reads of a decoder.

use crate::reads::{refuse, value};
use smithy_cbor::{Decoder, DeserializeError, set_optional};
use smithy_rows::Answers;
use std::alloc::{AllocError, Global};
use std::borrow::CowStr;

// What a read without a value answers: nothing, or its refusal.
fn done(read: Result<(), DeserializeError>, answers: &mut Answers) -> Result<(), AllocError> {
    match read {
        Ok(()) => Ok(()),
        Err(error) => refuse(&error, answers),
    }
}

// How many elements or entries are announced.
fn announced(
    read: Result<Option<u64>, DeserializeError>,
    answers: &mut Answers,
) -> Result<(), AllocError> {
    match read {
        Ok(Some(length)) => answers.text("length", length),
        Ok(None) => answers.none(),
        Err(error) => refuse(&error, answers),
    }
}

fn datatype(
    alloc: Global,
    decoder: &mut Decoder<'_>,
    answers: &mut Answers,
) -> Result<(), AllocError> {
    match decoder.datatype() {
        Ok(kind) => {
            let name = format!(in alloc; "{kind:?}")?;
            answers.text("type", name.as_str())
        }
        Err(error) => refuse(&error, answers),
    }
}

fn str(alloc: Global, decoder: &mut Decoder<'_>, answers: &mut Answers) -> Result<(), AllocError> {
    match decoder.str(alloc) {
        Ok(text) => {
            answers.text("text", text.as_str())?;
            answers.text("is_borrowed", matches!(&text, CowStr::Borrowed(_)))
        }
        Err(error) => refuse(&error, answers),
    }
}

fn string(
    alloc: Global,
    decoder: &mut Decoder<'_>,
    answers: &mut Answers,
) -> Result<(), AllocError> {
    match decoder.string(alloc) {
        Ok(text) => answers.text("text", text.as_str()),
        Err(error) => refuse(&error, answers),
    }
}

fn blob(alloc: Global, decoder: &mut Decoder<'_>, answers: &mut Answers) -> Result<(), AllocError> {
    match decoder.blob(alloc) {
        Ok(blob) => answers.bytes("bytes", blob.as_ref()),
        Err(error) => refuse(&error, answers),
    }
}

fn big_integer(
    alloc: Global,
    decoder: &mut Decoder<'_>,
    answers: &mut Answers,
) -> Result<(), AllocError> {
    match decoder.big_integer(alloc) {
        Ok(number) => answers.text("text", number.as_ref()),
        Err(error) => refuse(&error, answers),
    }
}

fn big_decimal(
    alloc: Global,
    decoder: &mut Decoder<'_>,
    answers: &mut Answers,
) -> Result<(), AllocError> {
    match decoder.big_decimal(alloc) {
        Ok(number) => answers.text("text", number.as_ref()),
        Err(error) => refuse(&error, answers),
    }
}

fn date(decoder: &mut Decoder<'_>, answers: &mut Answers) -> Result<(), AllocError> {
    match decoder.date() {
        Ok(Some(seconds)) => answers.text("seconds", seconds),
        Ok(None) => answers.none(),
        Err(error) => refuse(&error, answers),
    }
}

fn timestamp(decoder: &mut Decoder<'_>, answers: &mut Answers) -> Result<(), AllocError> {
    match decoder.timestamp() {
        Ok(instant) => answers.text("nanos", instant.as_nanos()),
        Err(error) => refuse(&error, answers),
    }
}

fn read_byte(_old: Option<i8>, decoder: &mut Decoder<'_>) -> Result<Option<i8>, DeserializeError> {
    match decoder.byte() {
        Ok(byte) => Ok(Some(byte)),
        Err(error) => Err(error),
    }
}

fn optional_byte(decoder: &mut Decoder<'_>, answers: &mut Answers) -> Result<(), AllocError> {
    match set_optional(None, decoder, read_byte) {
        Ok(Some(byte)) => answers.text("byte", byte),
        Ok(None) => answers.none(),
        Err(error) => refuse(&error, answers),
    }
}

// Reads of numbers and of instants.
fn decode_number(
    alloc: Global,
    decoder: &mut Decoder<'_>,
    name: &str,
    answers: &mut Answers,
) -> Result<(), AllocError> {
    match name {
        "byte" => value("byte", decoder.byte(), answers),
        "short" => value("short", decoder.short(), answers),
        "integer" => value("integer", decoder.integer(), answers),
        "long" => value("long", decoder.long(), answers),
        "big_integer" => big_integer(alloc, decoder, answers),
        "big_decimal" => big_decimal(alloc, decoder, answers),
        "date" => date(decoder, answers),
        "timestamp" => timestamp(decoder, answers),
        "optional_byte" => optional_byte(decoder, answers),
        _ => answers.refused("no such call"),
    }
}

/// Answers a read by its name.
pub fn decode(
    alloc: Global,
    decoder: &mut Decoder<'_>,
    name: &str,
    answers: &mut Answers,
) -> Result<(), AllocError> {
    match name {
        "datatype" => datatype(alloc, decoder, answers),
        "skip" => done(decoder.skip(alloc), answers),
        "str" => str(alloc, decoder, answers),
        "string" => string(alloc, decoder, answers),
        "blob" => blob(alloc, decoder, answers),
        "list" => announced(decoder.list(), answers),
        "map" => announced(decoder.map(), answers),
        "null" => done(decoder.null(), answers),
        "boolean" => value("boolean", decoder.boolean(), answers),
        "read_break" => done(decoder.read_break(), answers),
        _ => decode_number(alloc, decoder, name, answers),
    }
}
