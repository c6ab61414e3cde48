//! The lines of an answer.

use smithy_rows::Field;
use smithy_schema::SerdeError;
use std::alloc::{AllocError, Global};
use std::fmt::Display;

/// Adds a line with this word and these bytes.
pub fn push(
    alloc: Global,
    answers: &mut Vec<Field>,
    word: &str,
    value: &[u8],
) -> Result<(), AllocError> {
    let line = Field::new(alloc, word, value)?;
    Ok(answers.push(line)?)
}

/// Adds a line with this word and what the value prints.
pub fn push_shown<T: Display + Drop>(
    alloc: Global,
    answers: &mut Vec<Field>,
    word: &str,
    value: T,
) -> Result<(), AllocError> {
    let text = format!(in alloc; "{value}")?;
    push(alloc, answers, word, text.as_bytes())
}

/// One line, where a row asks for what there isn't.
pub fn refused(alloc: Global, what: &str) -> Result<Vec<Field>, AllocError> {
    let mut answers = Vec::new(alloc);
    push(alloc, &mut answers, "refused", what.as_bytes())?;
    Ok(answers)
}

/// Where a call was refused, adds the line `refused NAME` behind so many lines, in place of those that it added, and a like line
/// for a call that the row names and there isn't.
pub fn push_refusal(
    alloc: Global,
    answers: &mut Vec<Field>,
    answer: Option<Result<(), SerdeError>>,
    count: usize,
) -> Result<(), AllocError> {
    match answer {
        None => push(alloc, answers, "refused", b"no such call"),
        Some(Ok(())) => Ok(()),
        Some(Err(error)) => {
            answers.truncate(count);
            push_shown(alloc, answers, "refused", error)
        }
    }
}
