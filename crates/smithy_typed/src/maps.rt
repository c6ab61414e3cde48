//! Maps.
ghost use Rattle.std.specs.Prelude.{◌≡◌, ◌↔◌, true, false, IsTrue, string_bytes, OnOk, IfErr};
ghost use Rattle.smithy_declarations.specs.Value.{map, put_entry};
ghost use Rattle.smithy_shapes.specs.Site.{site_of, key_of, value_of};
ghost use Rattle.smithy_schema.specs.Typed.{ReadsAs, WritesAs};
ghost use Rattle.smithy_schema.specs.Writing.{events};
ghost use Rattle.smithy_schema.specs.declared.error.SerdeError.TheVariants.{NoMemory};
ghost use Rattle.smithy_typed.specs.Places.{IsMapOf};
ghost use Rattle.smithy_typed.specs.Values.{entries_with, map_with};

use crate::typed::Typed;
use smithy_schema::{Schema, SerdeError, ShapeDeserializer, ShapeSerializer, ShapeType};
use std::collections::BTreeMap;

impl<T: Typed + Drop> Typed for BTreeMap<String, T> {
    ghost value = { map_with T.value };

    ghost place = { IsMapOf T.place };

    fn is_at(schema: &Schema<'_>) -> bool {
        is_map::<T>(schema)
    }

    fn read_from<D: ShapeDeserializer>(
        source: &mut D,
        schema: &Schema<'_>,
    ) -> Result<BTreeMap<String, T>, SerdeError> {
        read_map(source, schema)
    }

    fn write_to<S: ShapeSerializer>(
        &self,
        sink: &mut S,
        schema: &Schema<'_>,
    ) -> Result<(), SerdeError> {
        write_map(sink, schema, self)
    }
}

// Whether a map of such values is there, none of which may be null.
fn is_map<T: Typed>(schema: &Schema<'_>) -> bool
    ensures { IsTrue result ↔ IsMapOf T.place (site_of schema.now) }
{
    if schema.shape_type() != ShapeType::Map || schema.is_sparse() {
        return false;
    }
    match schema.member() {
        Some(value) => T::is_at(&value),
        None => false,
    }
}

// Reads the map that is due. Of equal keys the last counts.
fn read_map<T: Typed + Drop, D: ShapeDeserializer>(
    source: &mut D,
    schema: &Schema<'_>,
) -> Result<BTreeMap<String, T>, SerdeError>
    requires due { (D.state source.old).due ≡ true }
    requires nulls { D.dispatches_nulls (D.settings source.old) ≡ false }
    requires there { IsMapOf T.place (site_of schema.now) }
    ensures same { D.settings source.new ≡ D.settings source.old }
    ensures reads { ReadsAs (D.reading (D.settings source.old)).wire (D.state source.old) (D.state source.new) (site_of schema.now) (map_with T.value) result }
{
    let Some(inner) = schema.member() else {
        unreachable!()
    };
    source.open_map(schema)?;
    let mut entries = BTreeMap::new(source.allocator());
    while let Some(key) = source.next_key()? {
        let value = T::read_from(source, &inner)?;
        if let Err(error) = put_value(&mut entries, key, value) {
            source.fail();
            return Err(error);
        }
    }
    Ok(entries)
}

/// Puts a value at its key, in place of any before.
pub fn put_value<T: Typed + Drop>(
    entries: &mut BTreeMap<String, T>,
    key: String,
    value: T,
) -> Result<(), SerdeError>
    ensures ok { OnOk result (entries_with T.value entries.new.entries ≡ put_entry (string_bytes key) (T.value value) (entries_with T.value entries.old.entries)) }
    ensures err { IfErr result (λ e. e ≡ NoMemory) }
{
    entries.insert(key, value)?;
    Ok(())
}

/// The schema of a map's keys, or if no map is there, the schema itself.
pub fn keys_under<'s>(shape: &Schema<'s>) -> Schema<'s>
    ensures { site_of result ≡ key_of (site_of shape.now) }
{
    match shape.key() {
        Some(key) => key,
        None => *shape,
    }
}

/// The schema of a map's values, or if no map is there, the schema itself.
pub fn values_under<'s>(shape: &Schema<'s>) -> Schema<'s>
    ensures { site_of result ≡ value_of (site_of shape.now) }
{
    if shape.shape_type() != ShapeType::Map {
        return *shape;
    }
    match shape.member() {
        Some(inner) => inner.nameless(),
        None => *shape,
    }
}

// Writes a map, in the order of the bytes of its keys.
fn write_map<T: Typed, S: ShapeSerializer>(
    sink: &mut S,
    schema: &Schema<'_>,
    entries: &BTreeMap<String, T>,
) -> Result<(), SerdeError>
    requires sound { S.failed sink.old ≡ false }
    ensures writes { WritesAs S.after (events (site_of schema.now) (map (entries_with T.value entries.now.entries))) (S.state sink.old) (S.failed sink.new) (S.state sink.new) result }
{
    let key_schema = keys_under(schema);
    let value_schema = values_under(schema);
    sink.begin_map(schema, Some(entries.len()))?;
    let mut left = entries.iter();
    while let Some((key, value)) = left.next() {
        sink.write_string(&key_schema, key.as_str())?;
        value.write_to(sink, &value_schema)?;
    }
    sink.end_map()
}
