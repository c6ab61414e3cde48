//! The first two entries of a container.

ghost use Rattle.std.specs.Prelude.{◌≡◌, OnOk};
ghost use Rattle.smithy_declarations.specs.Table.{HasMembers, IsList, IsMap};
ghost use Rattle.smithy_shapes.specs.Site.{site_of, kind_at};

use crate::answers::push;
use crate::reads::push_text;
use smithy_rows::Field;
use smithy_schema::{Schema, SerdeError, ShapeDeserializer, Step};
use std::alloc::Global;

// Deals with a value that is due: it is read as a document, left unread or skipped.
fn deal_with<R: ShapeDeserializer>(
    alloc: Global,
    source: &mut R,
    place: &Schema<'_>,
    how: &str,
    answers: &mut Vec<Field>,
) -> Result<(), SerdeError>
    ensures { OnOk result ((R.state source.new).inner.within ≡ (R.state source.old).inner.within) }
{
    match how {
        "read_document" => {
            let document = source.read_document(place)?;
            push_text(alloc, &document, answers)
        }
        "leave_unread" => Ok(()),
        _ => source.skip_value(),
    }
}

// Adds what comes next in a structure or a union: a member, an unknown entry, or the end.
fn push_step(alloc: Global, step: &Step<'_>, answers: &mut Vec<Field>) -> Result<(), SerdeError> {
    let word = match step {
        Step::Member(_) => "member",
        Step::Unknown => "unknown",
        Step::End => "end",
    };
    Ok(push(alloc, answers, word, b"")?)
}

// Adds what comes next in a list: an element, or the end.
fn push_element(alloc: Global, is_due: bool, answers: &mut Vec<Field>) -> Result<(), SerdeError> {
    let word = if is_due { "element" } else { "end" };
    Ok(push(alloc, answers, word, b"")?)
}

// Adds the key that comes next in a map.
fn push_key(alloc: Global, key: String, answers: &mut Vec<Field>) -> Result<(), SerdeError> {
    Ok(push(alloc, answers, "key", key.as_bytes())?)
}

// Adds that a map ends.
fn push_end(alloc: Global, answers: &mut Vec<Field>) -> Result<(), SerdeError> {
    Ok(push(alloc, answers, "end", b"")?)
}

/// Opens a structure or a union, and asks for two entries.
pub fn first_members<R: ShapeDeserializer>(
    alloc: Global,
    source: &mut R,
    place: &Schema<'_>,
    how: &str,
    answers: &mut Vec<Field>,
) -> Result<(), SerdeError>
    requires { HasMembers (kind_at (site_of place.now)) }
{
    source.open_struct(place)?;
    let step = source.next_member(place)?;
    push_step(alloc, &step, answers)?;
    match step {
        Step::Member(member) => deal_with(alloc, source, &member, how, answers)?,
        Step::Unknown => deal_with(alloc, source, place, how, answers)?,
        Step::End => return Ok(()),
    }
    let step = source.next_member(place)?;
    push_step(alloc, &step, answers)
}

/// Opens a list, and asks for two elements.
pub fn first_elements<R: ShapeDeserializer>(
    alloc: Global,
    source: &mut R,
    place: &Schema<'_>,
    how: &str,
    answers: &mut Vec<Field>,
) -> Result<(), SerdeError>
    requires { IsList (kind_at (site_of place.now)) }
{
    let inner = place.member().unwrap_or(*place);
    source.open_list(place)?;
    let is_due = source.next_element()?;
    push_element(alloc, is_due, answers)?;
    if is_due {
        deal_with(alloc, source, &inner, how, answers)?;
        let is_due = source.next_element()?;
        push_element(alloc, is_due, answers)?;
    }
    Ok(())
}

/// Opens a map, and asks for two keys.
pub fn first_keys<R: ShapeDeserializer>(
    alloc: Global,
    source: &mut R,
    place: &Schema<'_>,
    how: &str,
    answers: &mut Vec<Field>,
) -> Result<(), SerdeError>
    requires { IsMap (kind_at (site_of place.now)) }
{
    let inner = place.member().unwrap_or(*place);
    source.open_map(place)?;
    let Some(key) = source.next_key()? else {
        return push_end(alloc, answers);
    };
    push_key(alloc, key, answers)?;
    deal_with(alloc, source, &inner, how, answers)?;
    match source.next_key()? {
        Some(key) => push_key(alloc, key, answers),
        None => push_end(alloc, answers),
    }
}
