//! Rows of values that are read of a body, and of whether their texts and bytes borrow from it.

use crate::tables::shapes_of;
use crate::transcoding::one;
use crate::wires::wire_of;
use smithy_rows::{Field, Row, Rows};
use smithy_schema::{ShapeType, Shapes};
use smithy_transcode::{Value, Wire, read_body};
use std::alloc::{AllocError, Global};
use std::borrow::{CowSlice, CowStr};

// Whether a text or bytes borrow, and what they are.
fn piece(alloc: Global, value: &Value<'_>) -> Result<Field, AllocError> {
    match value {
        Value::Text(CowStr::Borrowed(text)) => Field::new(alloc, "borrowed", text.as_bytes()),
        Value::Text(CowStr::Owned(text)) => Field::new(alloc, "owned", text.as_bytes()),
        Value::Bytes(CowSlice::Borrowed(bytes)) => Field::new(alloc, "borrowed", *bytes),
        Value::Bytes(CowSlice::Owned(bytes)) => Field::new(alloc, "owned", bytes.as_slice()),
        _ => Field::new(alloc, "none", b""),
    }
}

// What each member is that `read_body` gives, in order.
fn pieces(
    alloc: Global,
    shapes: &Shapes,
    from: &Wire,
    input: &[u8],
) -> Result<Vec<Field>, AllocError> {
    let Some(root) = shapes.find("S") else {
        return one(alloc, "refused", "no such root");
    };
    let ShapeType::Structure = shapes.schema(root).shape_type() else {
        return one(alloc, "refused", "no structure");
    };
    let members = match read_body(alloc, shapes, root, from, input) {
        Ok(Value::Structure(members)) => members,
        Ok(_) => return one(alloc, "refused", "no structure"),
        Err(error) => return one(alloc, "refused", format!(in alloc; "{error}")?.as_str()),
    };
    let mut answers = Vec::new(alloc);
    for value in members.values() {
        answers.push(piece(alloc, value)?)?;
    }
    Ok(answers)
}

/// What the members of a body are answered with.
pub fn answers(alloc: Global, rows: &Rows, row: &Row) -> Result<Vec<Field>, AllocError> {
    let Some(shapes) = shapes_of(alloc, rows, row) else {
        return one(alloc, "refused", "no such table");
    };
    let Some(from) = wire_of(alloc, row, "from")? else {
        return one(alloc, "refused", "no such wire");
    };
    pieces(alloc, &shapes, &from, row.bytes("input").unwrap_or(b""))
}
