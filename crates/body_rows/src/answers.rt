//! The lines of an answer.

use smithy_protocol::{Headers, Request};
use smithy_rows::Field;
use std::alloc::{AllocError, Global};

/// Adds a line with this word and these bytes.
pub fn push(
    alloc: Global,
    answers: &mut Vec<Field>,
    word: &str,
    value: &[u8],
) -> Result<(), AllocError> {
    let line = Field::new(alloc, word, value)?;
    Ok(answers.push(line)?)
}

/// Adds a line with a text, or `none`.
pub fn push_text(
    alloc: Global,
    answers: &mut Vec<Field>,
    text: Option<&str>,
) -> Result<(), AllocError> {
    match text {
        Some(text) => push(alloc, answers, "value", text.as_bytes()),
        None => push(alloc, answers, "none", b""),
    }
}

/// Adds a line for each header, in order.
pub fn push_headers(
    alloc: Global,
    answers: &mut Vec<Field>,
    headers: &Headers,
) -> Result<(), AllocError> {
    for at in 0..headers.len() {
        let (name, value) = headers.entry(at);
        let line = format!(in alloc; "{name}: {value}")?;
        push(alloc, answers, "header", line.as_bytes())?;
    }
    Ok(())
}

/// Adds the lines of a request.
pub fn push_request(
    alloc: Global,
    answers: &mut Vec<Field>,
    request: &Request,
) -> Result<(), AllocError> {
    push(alloc, answers, "method", request.method.as_bytes())?;
    push(alloc, answers, "uri", request.uri.as_bytes())?;
    push_headers(alloc, answers, &request.headers)?;
    push(alloc, answers, "body", &request.body)
}
