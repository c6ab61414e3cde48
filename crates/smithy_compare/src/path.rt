//! Paths into a value, and their texts.
ghost use Rattle.std.specs.Prelude.{◌≡◌, ◌<◌, ◌++◌, length, map as mapped, option_map, option_and_then, string_bytes, IfOk, OnOk};
ghost use Rattle.smithy_shapes.specs.Site.{site_of};
ghost use Rattle.smithy_compare.specs.PathText.{site_behind, name_at, step_text, text_of_path};
ghost use Rattle.smithy_compare.specs.View.{step_of};

use itoa::Buffer;
use smithy_json::push_escaped;
use smithy_schema::{Schema, ShapeRef, Shapes};
use std::alloc::{AllocError, Global};

/// One step of a path.
#[derive(Debug, Drop)]
pub enum PathPart {
    /// To the member at this position in the table, from 0.
    Member(u32),
    /// To the element at this index, from 0.
    Element(u64),
    /// To the value of this key.
    Key(String),
}

/// The text of a path into a value of the root, which is a declaration of the table: `$`, and for each step `.` and the name of the
/// member, the index in brackets, or in braces the key between quotation marks, with its escapes (RFC 8259, section 7).
pub fn path_text(
    alloc: Global,
    shapes: &Shapes,
    root: ShapeRef,
    path: &[PathPart],
) -> Result<String, AllocError>
    requires root { root.0 < length shapes.now }
    ensures { IfOk result (λ text. string_bytes text ≡ text_of_path shapes.now root.0 (mapped step_of path.now)) }
{
    let mut text = String::from_str(alloc, "$")?;
    let mut there = Some(shapes.schema(root));
    for part in path {
        there = schema_behind(&there, part);
        push_step(&mut text, &there, part)?;
    }
    Ok(text)
}

// Where a step leads.
fn schema_behind<'a>(schema: &Option<Schema<'a>>, part: &PathPart) -> Option<Schema<'a>>
    ensures { option_map site_of result ≡ option_and_then (site_behind (step_of part.now)) (option_map site_of schema.now) }
{
    let Some(container) = schema else {
        return None;
    };
    match part {
        PathPart::Member(position) => container.member_at(*position),
        PathPart::Element(_) | PathPart::Key(_) => container.member(),
    }
}

// The name of a member.
fn name<'a>(there: &Option<Schema<'a>>) -> &'a str
    ensures { result.now ≡ name_at (option_map site_of there.now) }
{
    let Some(schema) = there else {
        return "";
    };
    match schema.member_name() {
        Some(name) => name,
        None => "",
    }
}

// Adds the text of a step that leads there.
fn push_step(
    text: &mut String,
    there: &Option<Schema<'_>>,
    part: &PathPart,
) -> Result<(), AllocError>
    ensures { OnOk result (string_bytes text.new ≡ string_bytes text.old ++ step_text (option_map site_of there.now) (step_of part.now)) }
{
    match part {
        PathPart::Member(_) => {
            text.push_str(".")?;
            text.push_str(name(there))
        }
        PathPart::Element(index) => {
            let mut buffer = Buffer::new();
            text.push_str("[")?;
            text.push_str(buffer.format(*index))?;
            text.push_str("]")
        }
        PathPart::Key(key) => {
            text.push_str("{\"")?;
            push_escaped(text, key.as_str())?;
            text.push_str("\"}")
        }
    }
}
