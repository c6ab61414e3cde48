//! The sizes of containers, and reads of whole lists and maps.

ghost use Rattle.smithy_declarations.specs.Table.{IsList, IsMap};
ghost use Rattle.smithy_shapes.specs.Site.{site_of, kind_at};

use crate::answers::{push, push_shown};
use crate::places::place_of;
use smithy_rows::Field;
use smithy_schema::{Schema, SerdeError, ShapeDeserializer, ShapeType, Shapes};
use std::alloc::{AllocError, Global};
use std::fmt::Display;

// How many elements are told one by one.
const TOLD: usize = 4;

/// Whether a line of a row is one of these calls.
pub fn is_sized_call(word: &str) -> bool {
    matches!(
        word,
        "container_size"
            | "read_string_list"
            | "read_blob_list"
            | "read_integer_list"
            | "read_long_list"
            | "read_string_string_map"
    )
}

/// Makes such a call, tells what it answers, and adds the lines of its answer. There is none of a place that isn't of the
/// word's kind.
pub fn sized_call<R: ShapeDeserializer>(
    alloc: Global,
    shapes: &Shapes,
    source: &mut R,
    word: &str,
    text: &[u8],
    answers: &mut Vec<Field>,
) -> Option<Result<(), SerdeError>> {
    if word == "container_size" {
        return Some(size(alloc, source, answers));
    }
    let place = place_of(shapes, str::from_utf8(text).ok()?)?;
    match place.shape_type() {
        ShapeType::List => read_list(alloc, source, &place, word, answers),
        ShapeType::Map => read_map(alloc, source, &place, word, answers),
        _ => None,
    }
}

fn size<R: ShapeDeserializer>(
    alloc: Global,
    source: &R,
    answers: &mut Vec<Field>,
) -> Result<(), SerdeError> {
    match source.container_size()? {
        Some(size) => Ok(push_shown(alloc, answers, "size", size)?),
        None => Ok(push(alloc, answers, "size", b"none")?),
    }
}

fn read_list<R: ShapeDeserializer>(
    alloc: Global,
    source: &mut R,
    place: &Schema<'_>,
    word: &str,
    answers: &mut Vec<Field>,
) -> Option<Result<(), SerdeError>>
    requires { IsList (kind_at (site_of place.now)) }
{
    match word {
        "read_string_list" => Some(told(alloc, source.read_string_list(place), answers)),
        "read_blob_list" => Some(told(alloc, source.read_blob_list(place), answers)),
        "read_integer_list" => Some(told(alloc, source.read_integer_list(place), answers)),
        "read_long_list" => Some(told(alloc, source.read_long_list(place), answers)),
        _ => None,
    }
}

// How many elements there are, and the first of them.
fn told<T: Display + Drop>(
    alloc: Global,
    answer: Result<Vec<T>, SerdeError>,
    answers: &mut Vec<Field>,
) -> Result<(), SerdeError> {
    let elements = answer?;
    push_shown(alloc, answers, "count", elements.len())?;
    for element in elements.iter().take(TOLD) {
        let text = format!(in alloc; "{element}")?;
        push(alloc, answers, "value", text.as_bytes())?;
    }
    Ok(())
}

fn read_map<R: ShapeDeserializer>(
    alloc: Global,
    source: &mut R,
    place: &Schema<'_>,
    word: &str,
    answers: &mut Vec<Field>,
) -> Option<Result<(), SerdeError>>
    requires { IsMap (kind_at (site_of place.now)) }
{
    match word {
        "read_string_string_map" => Some(entries(alloc, source, place, answers)),
        _ => None,
    }
}

fn entries<R: ShapeDeserializer>(
    alloc: Global,
    source: &mut R,
    place: &Schema<'_>,
    answers: &mut Vec<Field>,
) -> Result<(), SerdeError>
    requires { IsMap (kind_at (site_of place.now)) }
{
    let map = source.read_string_string_map(place)?;
    for (key, text) in map.iter() {
        push_entry(alloc, key, text, answers)?;
    }
    Ok(())
}

fn push_entry(
    alloc: Global,
    key: &str,
    text: &str,
    answers: &mut Vec<Field>,
) -> Result<(), AllocError> {
    let line = format!(in alloc; "{key}={text}")?;
    push(alloc, answers, "entry", line.as_bytes())
}
