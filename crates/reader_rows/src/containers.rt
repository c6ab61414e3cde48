//! Calls on a reader that open a container or go through one.

ghost use Rattle.smithy_declarations.specs.Table.{HasMembers, IsList, IsMap};
ghost use Rattle.smithy_shapes.specs.Site.{site_of, kind_at};

use crate::first_two::{first_elements, first_keys, first_members};
use crate::longs::{count_members, last_element, last_member, last_value};
use crate::reads::done;
use smithy_rows::Field;
use smithy_schema::{Schema, SerdeError, ShapeDeserializer, ShapeType};
use std::alloc::Global;

/// Makes a call on the container of a place, tells what it answers, and adds the lines of its answer. A word that names no call
/// of the place's kind gives none.
pub fn walk_call<R: ShapeDeserializer>(
    alloc: Global,
    source: &mut R,
    place: &Schema<'_>,
    word: &str,
    rest: &str,
    answers: &mut Vec<Field>,
) -> Option<Result<(), SerdeError>> {
    match place.shape_type() {
        ShapeType::Structure => member_call(alloc, source, place, word, rest, answers),
        ShapeType::Union => member_call(alloc, source, place, word, rest, answers),
        ShapeType::List => list_call(alloc, source, place, word, rest, answers),
        ShapeType::Map => map_call(alloc, source, place, word, rest, answers),
        _ => None,
    }
}

// The calls on a structure or a union.
fn member_call<R: ShapeDeserializer>(
    alloc: Global,
    source: &mut R,
    place: &Schema<'_>,
    word: &str,
    rest: &str,
    answers: &mut Vec<Field>,
) -> Option<Result<(), SerdeError>>
    requires { HasMembers (kind_at (site_of place.now)) }
{
    match word {
        "open_struct" => Some(done(alloc, source.open_struct(place), answers)),
        "open_nested" => {
            let answer = nested_members(source, place, rest.parse::<usize>().ok()?);
            Some(done(alloc, answer, answers))
        }
        "first_two" => Some(first_members(alloc, source, place, rest, answers)),
        "last_long" => Some(last_member(alloc, source, place, answers)),
        "count_members" => Some(count_members(alloc, source, place, answers)),
        _ => None,
    }
}

// The calls on a list.
fn list_call<R: ShapeDeserializer>(
    alloc: Global,
    source: &mut R,
    place: &Schema<'_>,
    word: &str,
    rest: &str,
    answers: &mut Vec<Field>,
) -> Option<Result<(), SerdeError>>
    requires { IsList (kind_at (site_of place.now)) }
{
    match word {
        "open_list" => Some(done(alloc, source.open_list(place), answers)),
        "open_nested" => {
            let answer = nested_lists(source, place, rest.parse::<usize>().ok()?);
            Some(done(alloc, answer, answers))
        }
        "first_two" => Some(first_elements(alloc, source, place, rest, answers)),
        "last_long" => Some(last_element(alloc, source, place, answers)),
        _ => None,
    }
}

// The calls on a map.
fn map_call<R: ShapeDeserializer>(
    alloc: Global,
    source: &mut R,
    place: &Schema<'_>,
    word: &str,
    rest: &str,
    answers: &mut Vec<Field>,
) -> Option<Result<(), SerdeError>>
    requires { IsMap (kind_at (site_of place.now)) }
{
    match word {
        "open_map" => Some(done(alloc, source.open_map(place), answers)),
        "open_nested" => {
            let answer = nested_maps(source, place, rest.parse::<usize>().ok()?);
            Some(done(alloc, answer, answers))
        }
        "first_two" => Some(first_keys(alloc, source, place, rest, answers)),
        "last_long" => Some(last_value(alloc, source, place, rest, answers)),
        _ => None,
    }
}

// Opens so many structures or unions, each in the first member of the last one, and goes to its first member.
fn nested_members<R: ShapeDeserializer>(
    source: &mut R,
    place: &Schema<'_>,
    depth: usize,
) -> Result<(), SerdeError>
    requires { HasMembers (kind_at (site_of place.now)) }
{
    for _ in 0..depth {
        source.open_struct(place)?;
        source.next_member(place)?;
    }
    Ok(())
}

// Opens so many lists, each as the first element of the last one, and goes to its first element.
fn nested_lists<R: ShapeDeserializer>(
    source: &mut R,
    place: &Schema<'_>,
    depth: usize,
) -> Result<(), SerdeError>
    requires { IsList (kind_at (site_of place.now)) }
{
    for _ in 0..depth {
        source.open_list(place)?;
        source.next_element()?;
    }
    Ok(())
}

// Opens so many maps, each as the first value of the last one, and goes to its first key.
fn nested_maps<R: ShapeDeserializer>(
    source: &mut R,
    place: &Schema<'_>,
    depth: usize,
) -> Result<(), SerdeError>
    requires { IsMap (kind_at (site_of place.now)) }
{
    for _ in 0..depth {
        source.open_map(place)?;
        source.next_key()?;
    }
    Ok(())
}
