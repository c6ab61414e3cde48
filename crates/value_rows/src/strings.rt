//! Strings of JSON.

use crate::numbers::call_number;
use crate::words::{input_of, input_text};
use smithy_json::{EscapeError, EscapedStr, escape_string, push_escaped};
use smithy_json_grammar::string_text::scan_string;
use smithy_rows::{Answers, Row};
use std::alloc::{AllocError, Global};
use std::borrow::CowStr;

fn scan(input: &[u8], at: usize, answers: &mut Answers) -> Result<(), AllocError> {
    if at > input.len() {
        return answers.refused("no such place");
    }
    match scan_string(input, at) {
        Some(string) => {
            answers.text("closing", string.closing)?;
            answers.text("text", string.text)?;
            answers.text("has_escape", string.has_escape)
        }
        None => answers.none(),
    }
}

fn refuse(fault: EscapeError, answers: &mut Answers) -> Result<(), AllocError> {
    answers.refused(fault)?;
    match fault {
        EscapeError::InvalidEscapeCharacter(found) => answers.text("found", found),
        EscapeError::InvalidSurrogatePair(high, low) => {
            answers.text("high", high)?;
            answers.text("low", low)
        }
        _ => Ok(()),
    }
}

fn unescape(alloc: Global, raw: &str, answers: &mut Answers) -> Result<(), AllocError> {
    match EscapedStr::new(raw).to_unescaped(alloc) {
        Ok(text) => {
            answers.text("text", text.as_str())?;
            answers.text("is_borrowed", matches!(text, CowStr::Borrowed(_)))
        }
        Err(fault) => refuse(fault, answers),
    }
}

fn escape(alloc: Global, text: &str, answers: &mut Answers) -> Result<(), AllocError> {
    let escaped = escape_string(alloc, text)?;
    answers.text("text", escaped.as_str())?;
    answers.text("is_borrowed", matches!(escaped, CowStr::Borrowed(_)))
}

fn push(alloc: Global, text: &str, answers: &mut Answers) -> Result<(), AllocError> {
    let mut bytes = Vec::new(alloc);
    push_escaped(&mut bytes, text)?;
    answers.bytes("text", &bytes)
}

/// Answers a call by its name and what stands behind it.
pub fn call_string(
    alloc: Global,
    row: &Row,
    name: &str,
    rest: &str,
    answers: &mut Answers,
) -> Result<(), AllocError> {
    match name {
        "scan_string" => scan(
            input_of(row),
            row.text("at").unwrap_or("0").parse::<usize>().unwrap_or(0),
            answers,
        ),
        "unescape" => unescape(alloc, input_text(row), answers),
        "escape" => escape(alloc, input_text(row), answers),
        "push_escaped" => push(alloc, input_text(row), answers),
        _ => call_number(alloc, row, name, rest, answers),
    }
}
