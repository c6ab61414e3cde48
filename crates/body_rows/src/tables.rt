//! Tables, and rows of those that are accepted or refused.

use crate::transcoding::one;
use smithy_rows::{Field, Row, Rows};
use smithy_schema::{Shapes, TableFault, TableText};
use std::alloc::{AllocError, Global};

/// The table of a text.
pub fn build(alloc: Global, text: &[u8]) -> Result<Shapes, TableFault> {
    Shapes::build(alloc, TableText::read(alloc, text)?)
}

/// The table that a row names, where there is one and it is accepted.
pub fn shapes_of(alloc: Global, rows: &Rows, row: &Row) -> Option<Shapes> {
    let text = rows.table(row.text("table")?)?;
    build(alloc, text.as_bytes()).ok()
}

// The text of the row's lines, with a line feed between each two.
fn text_of(alloc: Global, row: &Row) -> Result<Vec<u8>, AllocError> {
    let mut text = Vec::new(alloc);
    let mut is_first = true;
    for field in &row.fields {
        if field.word.as_str() == "line" {
            if !is_first {
                text.push(b'\n')?;
            }
            is_first = false;
            text.extend_from_slice(&field.value)?;
        }
    }
    Ok(text)
}

// The number of the line or the declaration that a fault names.
fn number_of(fault: TableFault) -> Option<u64> {
    match fault {
        TableFault::BadLine(number) => Some(number),
        TableFault::FloatShape(number) => Some(number),
        TableFault::UnknownTarget(number) => Some(number),
        TableFault::UnknownTimeFormat(number) => Some(number),
        TableFault::DuplicateShape(number) => Some(number),
        TableFault::NameClash(number) => Some(number),
        TableFault::QueryName(number) => Some(number),
        TableFault::KeyValueName(number) => Some(number),
        TableFault::SparseDocument(number) => Some(number),
        TableFault::TooMany(number) => Some(number),
        TableFault::NoMemory => None,
    }
}

/// Whether the table of a row's lines is accepted, or its fault.
pub fn answers(alloc: Global, row: &Row) -> Result<Vec<Field>, AllocError> {
    let text = text_of(alloc, row)?;
    let fault = match build(alloc, &text) {
        Ok(_) => return one(alloc, "accepted", ""),
        Err(fault) => fault,
    };
    let refusal = match number_of(fault) {
        Some(number) => format!(in alloc; "{fault} {number}")?,
        None => format!(in alloc; "{fault}")?,
    };
    one(alloc, "refused", refusal.as_str())
}
