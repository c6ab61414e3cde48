//! The answers to a row.

use crate::rows::Field;
use std::alloc::{AllocError, Global};
use std::fmt::Display;

/// The lines that a row is answered with, in order.
#[derive(Drop)]
pub struct Answers {
    alloc: Global,
    pub lines: Vec<Field>,
}

impl Answers {
    /// No line so far.
    pub fn new(alloc: Global) -> Answers {
        Answers {
            alloc,
            lines: Vec::new(alloc),
        }
    }

    /// A line with this word and these bytes.
    pub fn bytes(&mut self, word: &str, value: &[u8]) -> Result<(), AllocError> {
        let line = Field::new(self.alloc, word, value)?;
        Ok(self.lines.push(line)?)
    }

    /// A line with this word and what the value prints.
    pub fn text<T: Display + Drop>(&mut self, word: &str, value: T) -> Result<(), AllocError> {
        let text = format!(in self.alloc; "{value}")?;
        self.bytes(word, text.as_bytes())
    }

    /// A line with this word, a name, and behind a blank what the value prints.
    pub fn named<T: Display + Drop>(
        &mut self,
        word: &str,
        name: &str,
        value: T,
    ) -> Result<(), AllocError> {
        let text = format!(in self.alloc; "{name} {value}")?;
        self.bytes(word, text.as_bytes())
    }

    /// The line `none`: the call answers that there is nothing.
    pub fn none(&mut self) -> Result<(), AllocError> {
        self.bytes("none", b"")
    }

    /// The line `refused NAME`, where the error prints its name.
    pub fn refused<E: Display + Drop>(&mut self, error: E) -> Result<(), AllocError> {
        self.text("refused", error)
    }
}
