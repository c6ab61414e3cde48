//! What a row is answered with.

use crate::named::status_of;
use crate::runs::{ended, lines_of};
use smithy_commands::report;
use smithy_outside::MemorySink;
use smithy_rows::{Field, Program, Row, Rows};
use std::alloc::{AllocError, Global};

/// Runs of the program, and lines on standard error.
pub struct Runs;

// What standard error takes for a status.
fn reported(alloc: Global, named: &str) -> Result<Vec<Field>, AllocError> {
    let mut err = MemorySink::new(alloc, 4096, 4096, Vec::new(alloc))?;
    if let Some(status) = status_of(named) {
        report(&mut err, status);
    }
    lines_of(alloc, &err)
}

impl Program for Runs {
    fn is_answer(&self, word: &str) -> bool {
        matches!(
            word,
            "status" | "output" | "lost" | "error" | "error-part" | "error-faults"
        )
    }

    fn answer(&self, alloc: Global, rows: &Rows, row: &Row) -> Result<Vec<Field>, AllocError> {
        match row.text("report") {
            Some(named) => reported(alloc, named),
            None => ended(alloc, rows, row),
        }
    }
}
