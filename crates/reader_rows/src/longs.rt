//! The longs of a container, of which so many entries are asked for as no input of a row has.

ghost use Rattle.smithy_declarations.specs.Table.{HasMembers, IsList, IsMap};
ghost use Rattle.smithy_shapes.specs.Site.{site_of, kind_at};

use crate::answers::{push, push_shown};
use smithy_rows::Field;
use smithy_schema::{Schema, SerdeError, ShapeDeserializer, Step};
use std::alloc::Global;

// More entries than any of the inputs has.
const MANY: usize = 9;

// Adds the last long, where there is one.
fn push_last(alloc: Global, last: Option<i64>, answers: &mut Vec<Field>) -> Result<(), SerdeError> {
    match last {
        Some(number) => Ok(push_shown(alloc, answers, "value", number)?),
        None => Ok(push(alloc, answers, "none", b"")?),
    }
}

/// Adds the number of the last member that the table knows.
pub fn last_member<R: ShapeDeserializer>(
    alloc: Global,
    source: &mut R,
    place: &Schema<'_>,
    answers: &mut Vec<Field>,
) -> Result<(), SerdeError>
    requires { HasMembers (kind_at (site_of place.now)) }
{
    source.open_struct(place)?;
    let mut last = None;
    'members: for _ in 0..MANY {
        match source.next_member(place)? {
            Step::Member(member) => last = Some(source.read_long(&member)?),
            Step::Unknown => source.skip_value()?,
            Step::End => return push_last(alloc, last, answers),
        }
    }
    push_last(alloc, last, answers)
}

/// Adds the number of the last element.
pub fn last_element<R: ShapeDeserializer>(
    alloc: Global,
    source: &mut R,
    place: &Schema<'_>,
    answers: &mut Vec<Field>,
) -> Result<(), SerdeError>
    requires { IsList (kind_at (site_of place.now)) }
{
    source.open_list(place)?;
    let mut last = None;
    'elements: for _ in 0..MANY {
        if !source.next_element()? {
            return push_last(alloc, last, answers);
        }
        last = Some(source.read_long(place)?);
    }
    push_last(alloc, last, answers)
}

/// Adds the number that stands last under the key.
pub fn last_value<R: ShapeDeserializer>(
    alloc: Global,
    source: &mut R,
    place: &Schema<'_>,
    key: &str,
    answers: &mut Vec<Field>,
) -> Result<(), SerdeError>
    requires { IsMap (kind_at (site_of place.now)) }
{
    source.open_map(place)?;
    let mut last = None;
    'entries: for _ in 0..MANY {
        let Some(found) = source.next_key()? else {
            return push_last(alloc, last, answers);
        };
        let number = source.read_long(place)?;
        if found.as_str() == key {
            last = Some(number);
        }
    }
    push_last(alloc, last, answers)
}

// Adds two numbers of entries.
fn push_counts(
    alloc: Global,
    members: u32,
    unknown: u32,
    answers: &mut Vec<Field>,
) -> Result<(), SerdeError> {
    push_shown(alloc, answers, "members", members)?;
    Ok(push_shown(alloc, answers, "unknown", unknown)?)
}

/// Adds how many members come, whose longs are read, and how many entries that the table doesn't know.
pub fn count_members<R: ShapeDeserializer>(
    alloc: Global,
    source: &mut R,
    place: &Schema<'_>,
    answers: &mut Vec<Field>,
) -> Result<(), SerdeError>
    requires { HasMembers (kind_at (site_of place.now)) }
{
    source.open_struct(place)?;
    let mut members: u32 = 0;
    let mut unknown: u32 = 0;
    'members: for _ in 0..MANY {
        match source.next_member(place)? {
            Step::Member(member) => {
                source.read_long(&member)?;
                members = members.saturating_add(1);
            }
            Step::Unknown => {
                source.skip_value()?;
                unknown = unknown.saturating_add(1);
            }
            Step::End => return push_counts(alloc, members, unknown, answers),
        }
    }
    push_counts(alloc, members, unknown, answers)
}
