//! What a table tells, and what it tells at a place.

use smithy_schema::{Schema, Shapes};
use std::alloc::{AllocError, Global};

/// Whether a word asks what a table tells. Such a line of a row has the answer too.
pub fn is_question(word: &str) -> bool {
    is_of_table(word) || is_of_name(word) || is_of_kind(word)
}

// Whether a word asks what a table tells of itself.
fn is_of_table(word: &str) -> bool {
    matches!(word, "len" | "find")
}

// Whether a word asks for a name at a place, or for the position of the member there.
fn is_of_name(word: &str) -> bool {
    matches!(
        word,
        "member_name" | "member_index" | "json_name" | "xml_name"
    )
}

// Whether a word asks what a place tells beside names: its kind, how it prints, its time form, its members and its marks.
fn is_of_kind(word: &str) -> bool {
    matches!(
        word,
        "shape_type"
            | "debug"
            | "timestamp_format"
            | "members"
            | "xml_flattened"
            | "is_sparse"
            | "may_hold_timestamps"
            | "may_hold_documents"
    )
}

/// The answer to the question that a word asks.
pub fn told(
    alloc: Global,
    shapes: &Shapes,
    place: Option<Schema<'_>>,
    word: &str,
    text: &str,
) -> Result<String, AllocError> {
    if is_of_table(word) {
        return of_table(alloc, shapes, word, text);
    }
    let Some(place) = place else {
        return "no such place".to_string(alloc);
    };
    if is_of_name(word) {
        return of_name(alloc, &place, word);
    }
    of_kind(alloc, &place, word)
}

fn yes_or_no(alloc: Global, value: bool) -> Result<String, AllocError> {
    if value { "yes" } else { "no" }.to_string(alloc)
}

// What a table tells. The answer of `find` stands behind the name: the number of the declaration.
fn of_table(alloc: Global, shapes: &Shapes, word: &str, text: &str) -> Result<String, AllocError> {
    if word == "len" {
        return format!(in alloc; "{}", shapes.len());
    }
    let (name, _) = text.split_once(' ').unwrap_or((text, ""));
    match shapes.find(name) {
        Some(found) => format!(in alloc; "{name} {}", found.0),
        None => format!(in alloc; "{name} none"),
    }
}

// The name and the position of a place.
fn of_name(alloc: Global, place: &Schema<'_>, word: &str) -> Result<String, AllocError> {
    let name = match word {
        "member_index" => {
            return match place.member_index() {
                Some(position) => format!(in alloc; "{position}"),
                None => "none".to_string(alloc),
            };
        }
        "member_name" => place.member_name(),
        "json_name" => place.json_name(),
        _ => place.xml_name(),
    };
    name.unwrap_or("none").to_string(alloc)
}

// The positions of the members.
fn members(alloc: Global, place: &Schema<'_>) -> Result<String, AllocError> {
    let mut positions = String::new(alloc);
    for member in place.members() {
        if !positions.is_empty() {
            positions.push(' ')?;
        }
        if let Some(position) = member.member_index() {
            positions.push_str(format!(in alloc; "{position}")?.as_str())?;
        }
    }
    Ok(positions)
}

// The kind and the options of a place.
fn of_kind(alloc: Global, place: &Schema<'_>, word: &str) -> Result<String, AllocError> {
    match word {
        "shape_type" => format!(in alloc; "{:?}", place.shape_type()),
        "debug" => format!(in alloc; "{place:?}"),
        "members" => members(alloc, place),
        "timestamp_format" => match place.timestamp_format() {
            Some(form) => format!(in alloc; "{form:?}"),
            None => "none".to_string(alloc),
        },
        "xml_flattened" => yes_or_no(alloc, place.xml_flattened()),
        "is_sparse" => yes_or_no(alloc, place.is_sparse()),
        "may_hold_timestamps" => yes_or_no(alloc, place.may_hold_timestamps()),
        _ => yes_or_no(alloc, place.may_hold_documents()),
    }
}
