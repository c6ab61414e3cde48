//! Calls over an input of items.

use crate::words::split;
use cbor_item::{byte_chunks, item_type, read_head, skip_item, text_chunks, write_head};
use smithy_rows::{Answers, Row};
use std::alloc::{AllocError, Global};
use std::borrow::{CowSlice, CowStr};

// An input, and the offset in it at which a call begins.
#[derive(Clone, Copy)]
struct Place<'a> {
    input: &'a [u8],
    at: usize,
}

fn place_of(row: &Row) -> Place<'_> {
    Place {
        input: row.bytes("input").unwrap_or(b""),
        at: row
            .text("at")
            .unwrap_or("0")
            .parse::<usize>()
            .unwrap_or(usize::MAX),
    }
}

fn skip(alloc: Global, place: Place<'_>, answers: &mut Answers) -> Result<(), AllocError> {
    if place.at > place.input.len() {
        return answers.refused("no such place");
    }
    match skip_item(alloc, place.input, place.at) {
        Ok(end) => answers.text("end", end),
        Err(error) => answers.refused(error),
    }
}

fn tell_type(alloc: Global, place: Place<'_>, answers: &mut Answers) -> Result<(), AllocError> {
    if place.at > place.input.len() {
        return answers.refused("no such place");
    }
    match item_type(place.input, place.at) {
        Ok(kind) => {
            let name = format!(in alloc; "{kind:?}")?;
            answers.text("type", name.as_str())
        }
        Err(error) => answers.refused(error),
    }
}

fn head(place: Place<'_>, answers: &mut Answers) -> Result<(), AllocError> {
    if place.at > place.input.len() {
        return answers.refused("no such place");
    }
    match read_head(place.input, place.at) {
        Ok(head) => {
            answers.text("major", head.major)?;
            if let Some(argument) = head.argument {
                answers.text("argument", argument)?;
            }
            answers.text("length", head.length)
        }
        Err(error) => answers.refused(error),
    }
}

fn text(alloc: Global, place: Place<'_>, answers: &mut Answers) -> Result<(), AllocError> {
    if place.at > place.input.len() {
        return answers.refused("no such place");
    }
    match text_chunks(alloc, place.input, place.at) {
        Ok((text, end)) => {
            answers.text("text", text.as_str())?;
            answers.text("is_borrowed", matches!(&text, CowStr::Borrowed(_)))?;
            answers.text("end", end)
        }
        Err(error) => answers.refused(error),
    }
}

fn bytes(alloc: Global, place: Place<'_>, answers: &mut Answers) -> Result<(), AllocError> {
    if place.at > place.input.len() {
        return answers.refused("no such place");
    }
    match byte_chunks(alloc, place.input, place.at) {
        Ok((bytes, end)) => {
            answers.bytes("bytes", bytes.as_slice())?;
            answers.text("is_borrowed", matches!(&bytes, CowSlice::Borrowed(_)))?;
            answers.text("end", end)
        }
        Err(error) => answers.refused(error),
    }
}

// Writes the head of this major type and argument.
fn written_head(alloc: Global, numbers: &str, answers: &mut Answers) -> Result<(), AllocError> {
    let (major, argument) = split(numbers);
    let major = major.parse::<u8>().unwrap_or(u8::MAX);
    if major > 7 {
        return answers.refused("no such major type");
    }
    let Ok(argument) = argument.parse::<u64>() else {
        return answers.refused("no such argument");
    };
    let mut out = Vec::new(alloc);
    write_head(&mut out, major, argument)?;
    answers.bytes("written", &out)
}

/// Answers a call by its name.
pub fn call(
    alloc: Global,
    row: &Row,
    named: &str,
    answers: &mut Answers,
) -> Result<(), AllocError> {
    let place = place_of(row);
    let (name, numbers) = split(named);
    match name {
        "skip_item" => skip(alloc, place, answers),
        "item_type" => tell_type(alloc, place, answers),
        "read_head" => head(place, answers),
        "text_chunks" => text(alloc, place, answers),
        "byte_chunks" => bytes(alloc, place, answers),
        "write_head" => written_head(alloc, numbers, answers),
        _ => answers.refused("no such call"),
    }
}
