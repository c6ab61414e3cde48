//! Rows of two bodies that are compared.

use crate::tables::shapes_of;
use crate::transcoding::one;
use crate::wires::wire_of;
use smithy_compare::{CompareError, Compared, compare, path_text};
use smithy_rows::{Field, Row, Rows};
use smithy_schema::{ShapeType, Shapes};
use smithy_transcode::Wire;
use std::alloc::{AllocError, Global};

// Two bodies, each in its wire.
#[derive(Clone, Copy)]
struct Bodies<'a> {
    from: &'a Wire,
    input: &'a [u8],
    other_from: &'a Wire,
    other_input: &'a [u8],
}

fn refused(alloc: Global, error: CompareError) -> Result<Vec<Field>, AllocError> {
    let name = match error {
        CompareError::First(fault) | CompareError::Second(fault) => {
            format!(in alloc; "{error} {fault}")?
        }
        CompareError::NoMemory => format!(in alloc; "{error}")?,
    };
    one(alloc, "refused", name.as_str())
}

// What `compare` answers, with the text of a path.
fn compared(alloc: Global, shapes: &Shapes, bodies: &Bodies<'_>) -> Result<Vec<Field>, AllocError> {
    let Some(root) = shapes.find("S") else {
        return one(alloc, "refused", "no such root");
    };
    let ShapeType::Structure = shapes.schema(root).shape_type() else {
        return one(alloc, "refused", "no structure");
    };
    match compare(
        alloc,
        shapes,
        root,
        bodies.from,
        bodies.input,
        bodies.other_from,
        bodies.other_input,
    ) {
        Ok(Compared::Same) => one(alloc, "same", ""),
        Ok(Compared::Differs(path)) => {
            let text = path_text(alloc, shapes, root, &path)?;
            one(alloc, "differs", text.as_str())
        }
        Err(error) => refused(alloc, error),
    }
}

/// What two bodies are answered with.
pub fn answers(alloc: Global, rows: &Rows, row: &Row) -> Result<Vec<Field>, AllocError> {
    let Some(shapes) = shapes_of(alloc, rows, row) else {
        return one(alloc, "refused", "no such table");
    };
    let (Some(from), Some(other)) = (
        wire_of(alloc, row, "from")?,
        wire_of(alloc, row, "other_from")?,
    ) else {
        return one(alloc, "refused", "no such wire");
    };
    let bodies = Bodies {
        from: &from,
        input: row.bytes("input").unwrap_or(b""),
        other_from: &other,
        other_input: row.bytes("other_input").unwrap_or(b""),
    };
    compared(alloc, &shapes, &bodies)
}
