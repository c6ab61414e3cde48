//! Values by their leaves: a recursion by the schema over sorted pairs, whose names agree before a place. What stands in the names from
//! there on is what a call reads. Where the pairs are the leaves of no value, it answers `NoValue`.
ghost use Rattle.std.specs.Prelude.{◌≡◌, ◌≢◌, ℕ, []};
ghost use Rattle.smithy_declarations.specs.Table.{IsStructure, IsUnion, IsList, IsMap, type_of};
ghost use Rattle.smithy_shapes.specs.Accepted.{IsAccepted};
ghost use Rattle.smithy_shapes.specs.Site.{site_of, kind_at, value_of};
ghost use Rattle.smithy_query_codec.specs.Leaves.{role_of, neither, key_name as key_name_in_form, value_name as value_name_in_form};
ghost use Rattle.smithy_form.specs.Private.Kept.{kept_leaves};
ghost use Rattle.smithy_form.specs.Private.Order.{LeavesAscend};
ghost use Rattle.smithy_form.specs.Private.Answers.{ReadsHere, ReadsElements, ReadsEntries, HasNoParts, IsEmptyList};

use crate::entries::{find_entry, is_above};
use crate::error::FormError;
use crate::find::{only_here, with_segment};
use crate::names::{is_flat, is_member, part_name, query_name};
use crate::pairs::Pair;
use crate::scalars::read_scalar;
use itoa::Buffer;
use smithy_schema::{Schema, ShapeType};
use smithy_value::Value;
use std::alloc::Global;
use std::collections::BTreeMap;

/// The value without parts that the one pair is.
fn read_text<'a>(
    alloc: Global,
    schema: &Schema<'_>,
    pairs: &[Pair<'a>],
    at: usize,
) -> Result<Value<'a>, FormError>
    requires sorted { LeavesAscend (kept_leaves at pairs.now) }
    requires place { HasNoParts (type_of (kind_at (site_of schema.now))) }
    ensures { (left : ℕ) → ReadsHere (site_of schema.now) left (kept_leaves at pairs.now) result }
{
    let Some(pair) = only_here(pairs, at) else {
        return Err(FormError::NoValue);
    };
    read_scalar(alloc, schema, &pair.text)
}

/// The pairs are a list without elements that is the value of a member.
fn is_empty_list(schema: &Schema<'_>, pairs: &[Pair<'_>], at: usize) -> bool
    requires sorted { LeavesAscend (kept_leaves at pairs.now) }
    ensures { IsEmptyList (role_of (site_of schema.now).view) (kept_leaves at pairs.now) result }
{
    if !is_member(schema) {
        return false;
    }
    match only_here(pairs, at) {
        Some(pair) => pair.text.as_str().is_empty(),
        None => false,
    }
}

/// The value of the schema whose leaves the pairs are, from this place of their names on. At most `left` containers may be nested.
#[cycle(read)]
fn read_part<'a>(
    alloc: Global,
    schema: &Schema<'_>,
    pairs: &[Pair<'a>],
    at: usize,
    left: u32,
) -> Result<Value<'a>, FormError>
    requires accepted { IsAccepted (site_of schema.now).table }
    requires sorted { LeavesAscend (kept_leaves at pairs.now) }
    requires some { pairs.now ≢ [] }
    ensures { ReadsHere (site_of schema.now) left (kept_leaves at pairs.now) result }
{
    match schema.shape_type() {
        ShapeType::Structure => read_structure(alloc, schema, pairs, at, left),
        ShapeType::Union => read_union(alloc, schema, pairs, at, left),
        ShapeType::List => read_list(alloc, schema, pairs, at, left),
        ShapeType::Map => read_map(alloc, schema, pairs, at, left),
        ShapeType::Boolean
        | ShapeType::Byte
        | ShapeType::Short
        | ShapeType::Integer
        | ShapeType::Long
        | ShapeType::String
        | ShapeType::Blob
        | ShapeType::Timestamp
        | ShapeType::BigInteger
        | ShapeType::BigDecimal
        | ShapeType::Document => read_text(alloc, schema, pairs, at),
    }
}

/// The structure of the schema whose leaves the pairs are.
#[cycle(read)]
pub(crate) fn read_structure<'a>(
    alloc: Global,
    schema: &Schema<'_>,
    pairs: &[Pair<'a>],
    at: usize,
    left: u32,
) -> Result<Value<'a>, FormError>
    requires place { IsStructure (kind_at (site_of schema.now)) }
    requires accepted { IsAccepted (site_of schema.now).table }
    requires sorted { LeavesAscend (kept_leaves at pairs.now) }
    ensures { ReadsHere (site_of schema.now) left (kept_leaves at pairs.now) result }
{
    if left == 0 {
        return Err(FormError::NoValue);
    }
    let mut members = BTreeMap::new(alloc);
    let mut taken = 0;
    let mut position = 0;
    while taken < pairs.len() {
        let Some(member) = schema.member_at(position) else {
            return Err(FormError::NoValue);
        };
        let Some(name) = query_name(&member) else {
            unreachable!()
        };
        let inside = with_segment(pairs, taken, at, name.as_bytes());
        let index = position;
        position += 1;
        if inside.is_empty() {
            continue;
        }
        let value = read_part(alloc, &member, inside, at + name.len() + 1, left - 1)?;
        members.insert(index, value)?;
        taken += inside.len();
    }
    Ok(Value::Structure(members))
}

/// The union of the schema whose leaves the pairs are.
#[cycle(read)]
fn read_union<'a>(
    alloc: Global,
    schema: &Schema<'_>,
    pairs: &[Pair<'a>],
    at: usize,
    left: u32,
) -> Result<Value<'a>, FormError>
    requires place { IsUnion (kind_at (site_of schema.now)) }
    requires accepted { IsAccepted (site_of schema.now).table }
    requires sorted { LeavesAscend (kept_leaves at pairs.now) }
    ensures { ReadsHere (site_of schema.now) left (kept_leaves at pairs.now) result }
{
    if left == 0 {
        return Err(FormError::NoValue);
    }
    let mut position = 0;
    while let Some(member) = schema.member_at(position) {
        let Some(name) = query_name(&member) else {
            unreachable!()
        };
        let inside = with_segment(pairs, 0, at, name.as_bytes());
        let index = position;
        position += 1;
        if inside.is_empty() {
            continue;
        }
        if inside.len() < pairs.len() {
            return Err(FormError::NoValue);
        }
        let value = read_part(alloc, &member, inside, at + name.len() + 1, left - 1)?;
        return Ok(Value::Union(index, Box::new(alloc, value)?));
    }
    Err(FormError::NoValue)
}

/// The list of the schema whose leaves the pairs are.
#[cycle(read)]
fn read_list<'a>(
    alloc: Global,
    schema: &Schema<'_>,
    pairs: &[Pair<'a>],
    at: usize,
    left: u32,
) -> Result<Value<'a>, FormError>
    requires place { IsList (kind_at (site_of schema.now)) }
    requires accepted { IsAccepted (site_of schema.now).table }
    requires sorted { LeavesAscend (kept_leaves at pairs.now) }
    requires some { pairs.now ≢ [] }
    ensures { ReadsHere (site_of schema.now) left (kept_leaves at pairs.now) result }
{
    if left == 0 {
        return Err(FormError::NoValue);
    }
    let Some(element) = schema.element() else {
        unreachable!()
    };
    if is_empty_list(schema, pairs, at) {
        return Ok(Value::List(Vec::new(alloc)));
    }
    if is_flat(schema) {
        let elements = read_elements(alloc, &element.nameless(), pairs, at, left - 1)?;
        return Ok(Value::List(elements));
    }
    let name = part_name(&element, "member");
    let inside = with_segment(pairs, 0, at, name.as_bytes());
    if inside.len() < pairs.len() {
        return Err(FormError::NoValue);
    }
    let elements = read_elements(
        alloc,
        &element.nameless(),
        inside,
        at + name.len() + 1,
        left - 1,
    )?;
    Ok(Value::List(elements))
}

/// The elements that the pairs are, by their numbers.
#[cycle(read)]
fn read_elements<'a>(
    alloc: Global,
    element: &Schema<'_>,
    pairs: &[Pair<'a>],
    at: usize,
    left: u32,
) -> Result<Vec<Value<'a>>, FormError>
    requires nameless { role_of (site_of element.now).view ≡ neither }
    requires accepted { IsAccepted (site_of element.now).table }
    requires sorted { LeavesAscend (kept_leaves at pairs.now) }
    ensures { ReadsElements (site_of element.now) left (kept_leaves at pairs.now) result }
{
    let mut elements = Vec::new(alloc);
    let mut taken = 0;
    while taken < pairs.len() {
        let mut buffer = Buffer::new();
        let number = elements.len() as u64 + 1;
        let segment = buffer.format(number);
        let inside = with_segment(pairs, taken, at, segment.as_bytes());
        if inside.is_empty() {
            return Err(FormError::NoValue);
        }
        let value = read_part(alloc, element, inside, at + segment.len() + 1, left)?;
        elements.push(value)?;
        taken += inside.len();
    }
    Ok(elements)
}

/// The map of the schema whose leaves the pairs are.
#[cycle(read)]
fn read_map<'a>(
    alloc: Global,
    schema: &Schema<'_>,
    pairs: &[Pair<'a>],
    at: usize,
    left: u32,
) -> Result<Value<'a>, FormError>
    requires place { IsMap (kind_at (site_of schema.now)) }
    requires accepted { IsAccepted (site_of schema.now).table }
    requires sorted { LeavesAscend (kept_leaves at pairs.now) }
    requires some { pairs.now ≢ [] }
    ensures { ReadsHere (site_of schema.now) left (kept_leaves at pairs.now) result }
{
    if left == 0 {
        return Err(FormError::NoValue);
    }
    if is_flat(schema) {
        let entries = read_entries(alloc, schema, pairs, at, left - 1)?;
        return Ok(Value::Map(entries));
    }
    let name = "entry";
    let inside = with_segment(pairs, 0, at, name.as_bytes());
    if inside.len() < pairs.len() {
        return Err(FormError::NoValue);
    }
    let entries = read_entries(alloc, schema, inside, at + name.len() + 1, left - 1)?;
    Ok(Value::Map(entries))
}

/// The entries of the map of the schema that the pairs are, by their numbers. Their keys ascend.
#[cycle(read)]
fn read_entries<'a>(
    alloc: Global,
    schema: &Schema<'_>,
    pairs: &[Pair<'a>],
    at: usize,
    left: u32,
) -> Result<BTreeMap<String, Value<'a>>, FormError>
    requires place { IsMap (kind_at (site_of schema.now)) }
    requires accepted { IsAccepted (site_of schema.now).table }
    requires sorted { LeavesAscend (kept_leaves at pairs.now) }
    ensures { ReadsEntries (key_name_in_form (site_of schema.now)) (value_name_in_form (site_of schema.now)) (value_of (site_of schema.now)) left (kept_leaves at pairs.now) result }
{
    let Some(key) = schema.key() else {
        unreachable!()
    };
    let Some(inner) = schema.member() else {
        unreachable!()
    };
    let value = inner.nameless();
    let key_name = part_name(&key, "key");
    let value_name = part_name(&value, "value");
    let mut entries = BTreeMap::new(alloc);
    let mut before = None;
    let mut taken = 0;
    while taken < pairs.len() {
        let number = entries.len() as u64 + 1;
        let Some(entry) = find_entry(pairs, taken, at, number, key_name, value_name) else {
            return Err(FormError::NoValue);
        };
        if !is_above(entry.key, before) {
            return Err(FormError::NoValue);
        }
        let item = read_part(alloc, &value, entry.values, entry.at, left)?;
        entries.insert(String::from_str(alloc, entry.key)?, item)?;
        before = Some(entry.key);
        taken += entry.count;
    }
    Ok(entries)
}
