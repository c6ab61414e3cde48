//! The value of an attribute, and how it is read.
//!
//! A consumer can't read its own type again, since no measure falls there. So these are functions over the reader's calls, one for
//! each kind of container, which call one another; what falls is the number of containers that may still be opened.
ghost use Rattle.std.specs.Prelude.{◌≡◌, ◌↔◌, IsTrue, true, string_bytes, OnOk, IfErr};
ghost use Rattle.smithy_shapes.specs.Site.{site_of};
ghost use Rattle.smithy_declarations.specs.Value.{list, map, values_of, put_entry};
ghost use Rattle.smithy_schema.specs.declared.error.SerdeError.TheVariants.{NoMemory};
ghost use Rattle.dynamodb_client.specs.Attributes.{IsAttribute, AreEntries, AreElements, IsVariant, attribute_value, attribute_values, attribute_entries};
ghost use Rattle.smithy_schema.specs.Typed.{ReadsAs, ReadsVariant};

use smithy_schema::{
    Accept, Scalar, Schema, SerdeError, ShapeDeserializer, ShapeType, Step, Target,
};
use smithy_types::Blob;
use std::collections::BTreeMap;

/// A value of an attribute.
#[derive(Debug, Drop)]
pub enum AttributeValue {
    /// A text.
    S(String),
    /// A number, as the text that is sent.
    N(String),
    /// Bytes.
    B(Blob),
    /// False or true.
    Bool(bool),
    /// A null, which is sent as true.
    Null(bool),
    /// Attributes by their names.
    M(BTreeMap<String, AttributeValue>),
    /// Values in order.
    L(Vec<AttributeValue>),
}

impl Accept for AttributeValue {
    ghost use Rattle.dynamodb_client.specs.Attributes.{IsAttribute};

    ghost place = { IsAttribute };

    fn is_at(schema: &Schema<'_>) -> bool {
        let (Some(entries), Some(elements)) = (schema.member_at(5), schema.member_at(6)) else {
            return false;
        };
        let is_declared = schema.declares(
            ShapeType::Union,
            &[
                ("S", Target::Simple(Scalar::String)),
                ("N", Target::Simple(Scalar::String)),
                ("B", Target::Simple(Scalar::Blob)),
                ("BOOL", Target::Simple(Scalar::Boolean)),
                ("NULL", Target::Simple(Scalar::Boolean)),
                ("M", entries.target()),
                ("L", elements.target()),
            ],
        );
        let value = schema.target();
        if !is_declared {
            return false;
        }
        if !entries.holds(ShapeType::Map, value) {
            return false;
        }
        elements.holds(ShapeType::List, value)
    }
}

/// Whether a map of such values stands at the place.
pub fn are_attributes(schema: &Schema<'_>) -> bool
    ensures { IsTrue result ↔ AreEntries (site_of schema.now) }
{
    let Some(value) = schema.member() else {
        return false;
    };
    let Some(entries) = value.member_at(5) else {
        return false;
    };
    if entries.target() != schema.target() {
        return false;
    }
    AttributeValue::is_at(&value)
}

/// Reads the value that is due.
#[cycle(read)]
pub fn read_attribute_value<D: ShapeDeserializer>(
    source: &mut D,
    schema: &Schema<'_>,
) -> Result<AttributeValue, SerdeError>
    requires due { (D.state source.old).due ≡ true }
    requires place { IsAttribute (site_of schema.now) }
    ensures same { D.settings source.new ≡ D.settings source.old }
    ensures reads { ReadsAs (D.reading (D.settings source.old)).wire (D.state source.old) (D.state source.new) (site_of schema.now) attribute_value result }
{
    source.open_struct(schema)?;
    let Step::Member(member) = source.next_member(schema)? else {
        source.fail();
        return Err(SerdeError::InvalidInput);
    };
    let value = read_variant(source, &member)?;
    let Step::End = source.next_member(schema)? else {
        source.fail();
        return Err(SerdeError::InvalidInput);
    };
    Ok(value)
}

// Reads what is due as the member of the union that has this schema.
#[cycle(read)]
fn read_variant<D: ShapeDeserializer>(
    source: &mut D,
    member: &Schema<'_>,
) -> Result<AttributeValue, SerdeError>
    requires due { (D.state source.old).due ≡ true }
    requires place { IsVariant (site_of member.now) }
    ensures same { D.settings source.new ≡ D.settings source.old }
    ensures reads { ReadsVariant (D.reading (D.settings source.old)).wire (D.state source.old) (D.state source.new) (site_of member.now) attribute_value result }
{
    let position = member.member_index();
    if position == Some(0) {
        return Ok(AttributeValue::S(source.read_string(member)?));
    }
    if position == Some(1) {
        return Ok(AttributeValue::N(source.read_string(member)?));
    }
    if position == Some(2) {
        return Ok(AttributeValue::B(source.read_blob(member)?));
    }
    if position == Some(3) {
        return Ok(AttributeValue::Bool(source.read_boolean(member)?));
    }
    if position == Some(4) {
        return Ok(AttributeValue::Null(source.read_boolean(member)?));
    }
    if position == Some(5) {
        return Ok(AttributeValue::M(read_attributes(source, member)?));
    }
    Ok(AttributeValue::L(read_attribute_list(source, member)?))
}

/// Reads the attributes that are due, by their names. Of equal names the last counts.
#[cycle(read)]
pub fn read_attributes<D: ShapeDeserializer>(
    source: &mut D,
    schema: &Schema<'_>,
) -> Result<BTreeMap<String, AttributeValue>, SerdeError>
    requires due { (D.state source.old).due ≡ true }
    requires place { AreEntries (site_of schema.now) }
    ensures same { D.settings source.new ≡ D.settings source.old }
    ensures reads { ReadsAs (D.reading (D.settings source.old)).wire (D.state source.old) (D.state source.new) (site_of schema.now) (λ m. map (attribute_entries m.entries)) result }
{
    let Some(inner) = schema.member() else {
        unreachable!()
    };
    source.open_map(schema)?;
    let mut entries = BTreeMap::new(source.allocator());
    while let Some(key) = source.next_key()? {
        let value = read_attribute_value(source, &inner)?;
        if let Err(error) = put_attribute(&mut entries, key, value) {
            source.fail();
            return Err(error);
        }
    }
    Ok(entries)
}

// Puts a value at its name, in place of any before.
fn put_attribute(
    entries: &mut BTreeMap<String, AttributeValue>,
    name: String,
    value: AttributeValue,
) -> Result<(), SerdeError>
    ensures ok { OnOk result (attribute_entries entries.new.entries ≡ put_entry (string_bytes name) (attribute_value value) (attribute_entries entries.old.entries)) }
    ensures err { IfErr result (λ e. e ≡ NoMemory) }
{
    entries.insert(name, value)?;
    Ok(())
}

// Reads the list of values that is due.
#[cycle(read)]
fn read_attribute_list<D: ShapeDeserializer>(
    source: &mut D,
    schema: &Schema<'_>,
) -> Result<Vec<AttributeValue>, SerdeError>
    requires due { (D.state source.old).due ≡ true }
    requires place { AreElements (site_of schema.now) }
    ensures same { D.settings source.new ≡ D.settings source.old }
    ensures reads { ReadsAs (D.reading (D.settings source.old)).wire (D.state source.old) (D.state source.new) (site_of schema.now) (λ v. list (values_of (attribute_values v.items))) result }
{
    let Some(inner) = schema.member() else {
        unreachable!()
    };
    source.open_list(schema)?;
    let mut values = Vec::new(source.allocator());
    while source.next_element()? {
        let value = read_attribute_value(source, &inner)?;
        if let Err(error) = values.push(value) {
            source.fail();
            return Err(SerdeError::from(error));
        }
    }
    Ok(values)
}
