//! The open containers, and what the next call is in them.
ghost use Rattle.std.specs.Prelude.{◌≡◌, [], length, true, false, OnOk, IfErr, IsErrOf, Ok, Err};
ghost use Rattle.smithy_schema.specs.declared.error.SerdeError.TheVariants.{Failed, Unwritable};
ghost use Rattle.smithy_schema.specs.Errors.{IsFault};
ghost use Rattle.smithy_shapes.specs.Site.{site_of};
ghost use Rattle.smithy_schema.specs.Writing.{after_value, after_text};
ghost use Rattle.smithy_query_codec.specs.Writing.{extended, innermost_key as innermost_key_name, innermost_value as innermost_value_name, child_path, child_role, child_count, has_room as is_room, is_placed as is_place, takes_null as is_null_taken, is_key_due as is_key_place, member_length as kept_length};
ghost use Rattle.smithy_wire.specs.OpenContainers.{opens_of};
ghost use Rattle.smithy_query_codec.specs.Serializing.{marks_of, role_of_flatness};

use crate::names::query_name;
use crate::path::{behind, front, push_name, push_number, push_segment};
use smithy_schema::Schema;
use smithy_wire::{Container, OpenContainers};
use std::alloc::AllocError;

/// What stood there before a container was begun, for when it ends.
#[derive(Clone, Copy, Debug)]
pub(crate) struct Restore {
    // the length of the path of the parts of the container around it
    pub(crate) prefix_length: usize,
    // how many parts the container around it has, with this one
    pub(crate) count: u64,
    // the length of the text when the container began
    pub(crate) out_length: usize,
    // the length of the path that ends with the member's name, for a list that is the value of a member
    pub(crate) member_length: Option<usize>,
    // the length of the names of the maps around it
    pub(crate) names_length: usize,
    // the length of the name of its keys, for a map
    pub(crate) key_length: usize,
}

// The name of the keys in the innermost container.
pub(crate) fn innermost_key<'a>(names: &'a [u8], containers: &OpenContainers<Restore>) -> &'a [u8]
    ensures { result.now ≡ innermost_key_name names.now (marks_of containers.now) }
{
    match containers.mark() {
        Some(mark) => front(behind(names, mark.names_length), mark.key_length),
        None => &[],
    }
}

// The name of the values in the innermost container.
pub(crate) fn innermost_value<'a>(names: &'a [u8], containers: &OpenContainers<Restore>) -> &'a [u8]
    ensures { result.now ≡ innermost_value_name names.now (marks_of containers.now) }
{
    match containers.mark() {
        Some(mark) => behind(behind(names, mark.names_length), mark.key_length),
        None => &[],
    }
}

// The next element or entry has a position.
pub(crate) fn has_room(containers: &OpenContainers<Restore>, count: u64) -> bool
    ensures { result ≡ is_room (opens_of containers.now) count }
{
    match containers.innermost() {
        Some(Container::List | Container::MapAtKey) => count < u64::MAX,
        Some(Container::Structure | Container::MapAtValue) | None => true,
    }
}

// What is written next is a member's value, where it has a name.
pub(crate) fn is_at_member(containers: &OpenContainers<Restore>) -> bool
    ensures { result ≡ is_null_taken (opens_of containers.now) }
{
    matches!(containers.innermost(), Some(Container::Structure) | None)
}

// A scalar has a name, or is a part of a list or a map.
pub(crate) fn is_placed(containers: &OpenContainers<Restore>, schema: &Schema<'_>) -> bool
    ensures { result ≡ is_place (opens_of containers.now) (site_of schema.now).view }
{
    if is_at_member(containers) {
        query_name(schema).is_some()
    } else {
        true
    }
}

// The value is a member's, and whether the member is flat.
pub(crate) fn member_flatness(
    containers: &OpenContainers<Restore>,
    schema: &Schema<'_>,
) -> Option<bool>
    ensures { role_of_flatness result ≡ child_role (opens_of containers.now) (site_of schema.now).view }
{
    if !is_at_member(containers) {
        return None;
    }
    let _ = query_name(schema)?;
    Some(schema.xml_flattened())
}

// The number of parts with the next child.
pub(crate) fn counted(containers: &OpenContainers<Restore>, count: u64) -> u64
    requires room { is_room (opens_of containers.now) count ≡ true }
    ensures { result ≡ child_count (opens_of containers.now) count }
{
    match containers.innermost() {
        Some(Container::List | Container::MapAtKey) => count + 1,
        Some(Container::Structure | Container::MapAtValue) | None => count,
    }
}

// A text is a key: the innermost container is a map in which one is due.
pub(crate) fn is_key_due(containers: &OpenContainers<Restore>) -> bool
    ensures { result ≡ is_key_place (opens_of containers.now) }
{
    matches!(containers.innermost(), Some(Container::MapAtKey))
}

// The length of a path, of a member's alone.
pub(crate) fn member_length(flatness: Option<bool>, length: usize) -> Option<usize>
    ensures { result ≡ kept_length (role_of_flatness flatness) length }
{
    flatness.map(|_: bool| length)
}

// Adds to a path what a child adds: its position in a list, its position and a name in a map, else its name.
pub(crate) fn push_child(
    prefix: &mut Vec<u8>,
    names: &[u8],
    containers: &OpenContainers<Restore>,
    count: u64,
    schema: &Schema<'_>,
) -> Result<(), AllocError>
    requires room { is_room (opens_of containers.now) count ≡ true }
    ensures { OnOk result (prefix.new.items ≡ extended prefix.old.items (child_path (opens_of containers.now) count
        (innermost_key_name names.now (marks_of containers.now)) (innermost_value_name names.now (marks_of containers.now)) (site_of schema.now).view)) }
{
    match containers.innermost() {
        Some(Container::Structure) | None => push_name(prefix, schema),
        Some(Container::List) => push_number(prefix, count + 1),
        Some(Container::MapAtKey) => {
            push_number(prefix, count + 1)?;
            push_segment(prefix, innermost_key(names, containers))
        }
        Some(Container::MapAtValue) => {
            push_number(prefix, count)?;
            push_segment(prefix, innermost_value(names, containers))
        }
    }
}
