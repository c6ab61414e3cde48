//! Answers of reads.

use smithy_cbor::DeserializeError;
use smithy_rows::Answers;
use std::alloc::AllocError;
use std::fmt::Display;

/// A refusal: its name, and the offset that it tells.
pub fn refuse(error: &DeserializeError, answers: &mut Answers) -> Result<(), AllocError> {
    answers.text("refused", error)?;
    match error.at {
        Some(at) => answers.text("offset", at),
        None => Ok(()),
    }
}

/// A value that prints as it is.
pub fn value<T: Display + Drop>(
    word: &str,
    read: Result<T, DeserializeError>,
    answers: &mut Answers,
) -> Result<(), AllocError> {
    match read {
        Ok(value) => answers.text(word, value),
        Err(error) => refuse(&error, answers),
    }
}
