//! Rows of bodies: each goes from wire to wire by `transcode`, by the calls that read and write a body, and by those that read and write
//! a value.

use crate::tables::shapes_of;
use crate::transcoding::one;
use crate::values;
use crate::wires::wire_of;
use smithy_rows::{Field, Row, Rows};
use smithy_schema::{SerdeError, ShapeType, Shapes};
use smithy_transcode::{
    TranscodeError, Unfit, Wire, expressible, read_body, transcode, write_body,
};
use std::alloc::{AllocError, Global};

// A body to be transcoded.
#[derive(Clone, Copy)]
struct Body<'a> {
    shapes: &'a Shapes,
    root: &'a str,
    from: &'a Wire,
    input: &'a [u8],
    to: &'a Wire,
    // A value is read by a codec that hands nulls of members on.
    dispatching: bool,
}

fn refused(alloc: Global, error: &str) -> Result<Field, AllocError> {
    Field::new(alloc, "refused", error.as_bytes())
}

fn inexpressible(alloc: Global, unfit: Unfit) -> Result<Field, AllocError> {
    refused(
        alloc,
        format!(in alloc; "Inexpressible {unfit:?}")?.as_str(),
    )
}

// A body, or why there is none.
fn told(alloc: Global, answer: Result<Vec<u8>, TranscodeError>) -> Result<Field, AllocError> {
    match answer {
        Ok(body) => Field::new(alloc, "body", &body),
        Err(TranscodeError::Inexpressible(unfit)) => inexpressible(alloc, unfit),
        Err(error) => refused(alloc, format!(in alloc; "{error}")?.as_str()),
    }
}

// What `transcode` answers.
fn transcoded(alloc: Global, asked: &Body<'_>) -> Result<Field, AllocError> {
    let Some(root) = asked.shapes.find(asked.root) else {
        return refused(alloc, "no such root");
    };
    let ShapeType::Structure = asked.shapes.schema(root).shape_type() else {
        return refused(alloc, "no structure");
    };
    told(
        alloc,
        transcode(alloc, asked.shapes, root, asked.from, asked.input, asked.to),
    )
}

// What `read_body` and `write_body` answer one after the other.
fn by_body(alloc: Global, asked: &Body<'_>) -> Result<Field, AllocError> {
    let shapes = asked.shapes;
    let Some(root) = shapes.find(asked.root) else {
        return refused(alloc, "no such root");
    };
    let ShapeType::Structure = shapes.schema(root).shape_type() else {
        return refused(alloc, "no structure");
    };
    match read_body(alloc, shapes, root, asked.from, asked.input) {
        Ok(value) => told(alloc, write_body(alloc, shapes, root, asked.to, &value)),
        Err(error) => told(alloc, Err(error)),
    }
}

// What was written, or the refusal of a call that reads or writes.
fn written(alloc: Global, answer: Result<Vec<u8>, SerdeError>) -> Result<Field, AllocError> {
    match answer {
        Ok(body) => Field::new(alloc, "body", &body),
        Err(error) => refused(alloc, format!(in alloc; "{error}")?.as_str()),
    }
}

// What `read_value` and `write_value` answer one after the other, and between them `expressible` and
// `expressible_at` where these are asked.
fn by_value(alloc: Global, asked: &Body<'_>, whether: bool) -> Result<Field, AllocError> {
    let shapes = asked.shapes;
    let Some(root) = shapes.find(asked.root) else {
        return refused(alloc, "no such root");
    };
    let ShapeType::Structure = shapes.schema(root).shape_type() else {
        return refused(alloc, "no structure");
    };
    let read = if asked.dispatching {
        values::read_dispatching(alloc, shapes, root, asked.from, asked.input)
    } else {
        values::read(alloc, shapes, root, asked.from, asked.input)
    };
    let value = match read {
        Ok(value) => value,
        Err(error) => return written(alloc, Err(error)),
    };
    if whether {
        if let Some(unfit) = expressible(shapes, root, &value, asked.to) {
            return inexpressible(alloc, unfit);
        }
        if let Some(unfit) = values::lacking(shapes, root, &value, asked.to) {
            return inexpressible(alloc, unfit);
        }
    }
    written(alloc, values::write(alloc, shapes, root, &value, asked.to))
}

// Whether two answers are the same.
fn agree(one: &Field, other: &Field) -> bool {
    one.word.as_str() == other.word.as_str() && one.value.as_slice() == other.value.as_slice()
}

// The answer by the calls on values, and before it those of `transcode` and by the calls on bodies, each where it is another one than
// the answer behind it.
fn all_ways(alloc: Global, asked: &Body<'_>) -> Result<Vec<Field>, AllocError> {
    let answer = transcoded(alloc, asked)?;
    let second = by_body(alloc, asked)?;
    let third = by_value(alloc, asked, true)?;
    let mut answers = Vec::new(alloc);
    if !agree(&answer, &second) {
        answers.push(answer)?;
    }
    if !agree(&second, &third) {
        answers.push(second)?;
    }
    answers.push(third)?;
    Ok(answers)
}

// The answer of the calls that read and write a value, whether or not the wire can express it.
fn written_alone(alloc: Global, asked: &Body<'_>) -> Result<Vec<Field>, AllocError> {
    let mut answers = Vec::new(alloc);
    answers.push(by_value(alloc, asked, false)?)?;
    Ok(answers)
}

/// What a body is answered with: once, where all ways agree.
pub fn answers(alloc: Global, rows: &Rows, row: &Row) -> Result<Vec<Field>, AllocError> {
    let Some(shapes) = shapes_of(alloc, rows, row) else {
        return one(alloc, "refused", "no such table");
    };
    let (Some(from), Some(to)) = (wire_of(alloc, row, "from")?, wire_of(alloc, row, "to")?) else {
        return one(alloc, "refused", "no such wire");
    };
    let asked = Body {
        shapes: &shapes,
        root: row.text("root").unwrap_or("S"),
        from: &from,
        input: row.bytes("input").unwrap_or(b""),
        to: &to,
        dispatching: row.bytes("dispatching").is_some(),
    };
    if row.bytes("call").is_some() {
        return written_alone(alloc, &asked);
    }
    all_ways(alloc, &asked)
}
