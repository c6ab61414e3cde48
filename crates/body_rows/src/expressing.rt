//! Rows of values that a wire can or can't express.

use crate::tables::shapes_of;
use crate::transcoding::one;
use crate::values;
use crate::wires::{wire, wire_of};
use smithy_rows::{Field, Row, Rows};
use smithy_schema::{ShapeType, Shapes};
use smithy_transcode::{Wire, expressible};
use std::alloc::{AllocError, Global};

// Whether the wire can express what an input spells, and why not.
fn answer(
    alloc: Global,
    shapes: &Shapes,
    from: &Wire,
    input: &[u8],
    to: &Wire,
) -> Result<Field, AllocError> {
    let Some(root) = shapes.find("S") else {
        return Field::new(alloc, "refused", b"no such root");
    };
    let ShapeType::Structure = shapes.schema(root).shape_type() else {
        return Field::new(alloc, "refused", b"no structure");
    };
    let value = match values::read(alloc, shapes, root, from, input) {
        Ok(value) => value,
        Err(error) => {
            let name = format!(in alloc; "{error}")?;
            return Field::new(alloc, "refused", name.as_bytes());
        }
    };
    match expressible(shapes, root, &value, to) {
        None => Field::new(alloc, "expressible", b""),
        Some(unfit) => {
            let name = format!(in alloc; "{unfit:?}")?;
            Field::new(alloc, "unfit", name.as_bytes())
        }
    }
}

/// What each wire that the row names answers.
pub fn answers(alloc: Global, rows: &Rows, row: &Row) -> Result<Vec<Field>, AllocError> {
    let Some(shapes) = shapes_of(alloc, rows, row) else {
        return one(alloc, "refused", "no such table");
    };
    let Some(from) = wire_of(alloc, row, "from")? else {
        return one(alloc, "refused", "no such wire");
    };
    let input = row.bytes("input").unwrap_or(b"");
    let mut answers = Vec::new(alloc);
    for field in &row.fields {
        if field.word.as_str() == "to" {
            let name = str::from_utf8(&field.value).unwrap_or("");
            match wire(alloc, row, name)? {
                Some(to) => answers.push(answer(alloc, &shapes, &from, input, &to)?)?,
                None => answers.push(Field::new(alloc, "refused", b"no such wire")?)?,
            }
        }
    }
    Ok(answers)
}
