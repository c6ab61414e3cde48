//! Places of tables.

use smithy_rows::{Row, Rows};
use smithy_schema::{Schema, Shapes, TableText};
use std::alloc::Global;

/// The table that a row names, where there is one and it is accepted.
pub fn shapes_of(alloc: Global, rows: &Rows, row: &Row) -> Option<Shapes> {
    let text = rows.table(row.text("table")?)?;
    let declarations = TableText::read(alloc, text.as_bytes()).ok()?;
    Shapes::build(alloc, declarations).ok()
}

// The place that a step leads to.
fn next<'a>(place: Schema<'a>, step: &str) -> Option<Schema<'a>> {
    match step {
        "" => Some(place),
        "member()" => place.member(),
        "nameless()" => Some(place.nameless()),
        name => place.member_schema(name),
    }
}

/// The place of a text, as `S`, `S.items` or `S.items.member()`.
pub fn place_of<'a>(shapes: &'a Shapes, text: &str) -> Option<Schema<'a>> {
    let (name, steps) = text.split_once('.').unwrap_or((text, ""));
    let mut place = shapes.schema(shapes.find(name)?);
    for step in steps.split('.') {
        place = next(place, step)?;
    }
    Some(place)
}

/// The first word of a text, and what stands behind it.
pub fn split(text: &str) -> (&str, &str) {
    text.split_once(' ').unwrap_or((text, ""))
}
