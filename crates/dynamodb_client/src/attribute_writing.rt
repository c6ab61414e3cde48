//! How the value of an attribute is written.
ghost use Rattle.std.specs.Prelude.{◌≡◌, false};
ghost use Rattle.smithy_shapes.specs.Site.{site_of, member_of, element_of, key_of, value_of};
ghost use Rattle.smithy_declarations.specs.Value.{list, map, values_of};
ghost use Rattle.smithy_schema.specs.Writing.{events};
ghost use Rattle.dynamodb_client.specs.Attributes.{attribute_value, attribute_values, attribute_entries};
ghost use Rattle.smithy_schema.specs.Typed.{variant_events, WritesAs};

use crate::attribute_value::AttributeValue;
use smithy_schema::{Schema, SerdeError, ShapeSerializer, ShapeType};
use std::collections::BTreeMap;

// The schema of the member at a position, or where the table has none there, the schema itself.
pub(crate) fn member_under<'s>(shape: &Schema<'s>, position: u32) -> Schema<'s>
    ensures { site_of result ≡ member_of (site_of shape.now) position }
{
    match shape.member_at(position) {
        Some(member) => member,
        None => *shape,
    }
}

// The schema of a map's keys, or where no map stands, the schema itself.
fn keys_under<'s>(shape: &Schema<'s>) -> Schema<'s>
    ensures { site_of result ≡ key_of (site_of shape.now) }
{
    match shape.key() {
        Some(key) => key,
        None => *shape,
    }
}

// The schema of a map's values, or where no map stands, the schema itself.
fn values_under<'s>(shape: &Schema<'s>) -> Schema<'s>
    ensures { site_of result ≡ value_of (site_of shape.now) }
{
    if shape.shape_type() != ShapeType::Map {
        return *shape;
    }
    match shape.member() {
        Some(inner) => inner.nameless(),
        None => *shape,
    }
}

// The schema of a list's elements, or where no list stands, the schema itself.
fn elements_under<'s>(shape: &Schema<'s>) -> Schema<'s>
    ensures { site_of result ≡ element_of (site_of shape.now) }
{
    if shape.shape_type() != ShapeType::List {
        return *shape;
    }
    match shape.member() {
        Some(inner) => inner.nameless(),
        None => *shape,
    }
}

/// Writes a value: a union of the one member that it is.
#[cycle(write)]
pub fn write_attribute_value<S: ShapeSerializer>(
    sink: &mut S,
    schema: &Schema<'_>,
    value: &AttributeValue,
) -> Result<(), SerdeError>
    requires sound { S.failed sink.old ≡ false }
    ensures writes { WritesAs S.after (events (site_of schema.now) (attribute_value value.now)) (S.state sink.old) (S.failed sink.new) (S.state sink.new) result }
{
    sink.begin_struct(schema)?;
    write_variant(sink, schema, value)?;
    sink.end_struct()
}

// Writes what a value holds, under the schema of its member.
#[cycle(write)]
fn write_variant<S: ShapeSerializer>(
    sink: &mut S,
    schema: &Schema<'_>,
    value: &AttributeValue,
) -> Result<(), SerdeError>
    requires sound { S.failed sink.old ≡ false }
    ensures writes { WritesAs S.after (variant_events (site_of schema.now) (attribute_value value.now)) (S.state sink.old) (S.failed sink.new) (S.state sink.new) result }
{
    match value {
        AttributeValue::S(text) => sink.write_string(&member_under(schema, 0), text.as_str()),
        AttributeValue::N(text) => sink.write_string(&member_under(schema, 1), text.as_str()),
        AttributeValue::B(bytes) => sink.write_blob(&member_under(schema, 2), bytes),
        AttributeValue::Bool(truth) => sink.write_boolean(&member_under(schema, 3), *truth),
        AttributeValue::Null(truth) => sink.write_boolean(&member_under(schema, 4), *truth),
        AttributeValue::M(entries) => write_attributes(sink, &member_under(schema, 5), entries),
        AttributeValue::L(values) => {
            write_attribute_list(sink, &member_under(schema, 6), values.as_slice())
        }
    }
}

/// Writes attributes under their names, in the order of their bytes.
#[cycle(write)]
pub fn write_attributes<S: ShapeSerializer>(
    sink: &mut S,
    schema: &Schema<'_>,
    entries: &BTreeMap<String, AttributeValue>,
) -> Result<(), SerdeError>
    requires sound { S.failed sink.old ≡ false }
    ensures writes { WritesAs S.after (events (site_of schema.now) (map (attribute_entries entries.now.entries))) (S.state sink.old) (S.failed sink.new) (S.state sink.new) result }
{
    let key_schema = keys_under(schema);
    let value_schema = values_under(schema);
    sink.begin_map(schema, Some(entries.len()))?;
    let mut left = entries.iter();
    while let Some((key, value)) = left.next() {
        sink.write_string(&key_schema, key.as_str())?;
        write_attribute_value(sink, &value_schema, value)?;
    }
    sink.end_map()
}

// Writes a list of values.
#[cycle(write)]
fn write_attribute_list<S: ShapeSerializer>(
    sink: &mut S,
    schema: &Schema<'_>,
    values: &[AttributeValue],
) -> Result<(), SerdeError>
    requires sound { S.failed sink.old ≡ false }
    ensures writes { WritesAs S.after (events (site_of schema.now) (list (values_of (attribute_values values.now)))) (S.state sink.old) (S.failed sink.new) (S.state sink.new) result }
{
    let element_schema = elements_under(schema);
    sink.begin_list(schema, Some(values.len()))?;
    for value in values {
        write_attribute_value(sink, &element_schema, value)?;
    }
    sink.end_list()
}
