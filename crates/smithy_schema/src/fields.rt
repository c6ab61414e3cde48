//! Structures that a type keeps as fields, an optional value for each member.
ghost use Rattle.std.specs.Prelude.{◌≡◌, List, Option, option_map, false, OnOk, string_bytes};
ghost use Rattle.smithy_declarations.specs.Value.{Value, scalar_value, list, values_of};
ghost use Rattle.smithy_shapes.specs.Site.{site_of, member_of, element_of};
ghost use Rattle.smithy_schema.specs.Consuming.{IsTaken};
ghost use Rattle.smithy_schema.specs.Writing.{open_structure, open_list, events, element_events, member_events};
ghost use Rattle.smithy_schema.specs.Written.{Runs, IsInside, AddsInside};
ghost use Rattle.smithy_schema.specs.Fields.{FillsField, field_events, members_at, structure_with, structures_with};

use crate::elements::ReadScalar;
use crate::error::SerdeError;
use crate::read::ShapeDeserializer;
use crate::write::ShapeSerializer;
use crate::written::{SerializableStruct, WriteElements};
use smithy_shapes::Schema;
use smithy_types::{Blob, DateTime};

/// Reads the scalar that is due into the field of its member. A null is as good as a member that isn't there: it is skipped, and the
/// field stays as it was.
pub fn read_field<T: ReadScalar + Drop, D: ShapeDeserializer>(
    source: &mut D,
    member: &Schema<'_>,
    field: &mut Option<T>,
) -> Result<(), SerdeError>
    ensures same { D.settings source.new ≡ D.settings source.old }
    ensures fills { FillsField T.kind T.scalar (D.reading (D.settings source.old)) (site_of member.now) field.old (D.state source.old) result field.new (D.state source.new) }
    ensures takes { OnOk result (IsTaken (D.state source.old) (D.state source.new)) }
{
    if source.is_null() {
        return source.read_null();
    }
    let value = T::read_from(source, member)?;
    *field = Some(value);
    Ok(())
}

/// A value that stands as a member of a structure, and writes itself.
pub trait WriteMember {
    ghost value: { Self → Value };

    /// Writes the value.
    fn write_member<S: ShapeSerializer>(
        &self,
        sink: &mut S,
        member: &Schema<'_>,
    ) -> Result<(), SerdeError>
        requires sound { S.failed sink.old ≡ false }
        requires inside { IsInside open_structure (S.open_in (S.state sink.old)) }
        ensures adds { AddsInside S.after S.open_in (events (site_of member.now) (value self.now)) (S.state sink.old) (S.failed sink.new) (S.state sink.new) result };
}

impl WriteMember for String {
    ghost use Rattle.smithy_declarations.specs.Value.{text};

    ghost value = { λ s. scalar_value (text (string_bytes s)) };

    fn write_member<S: ShapeSerializer>(
        &self,
        sink: &mut S,
        member: &Schema<'_>,
    ) -> Result<(), SerdeError> {
        sink.write_string(member, self.as_str())
    }
}

impl<'t> WriteMember for &'t str {
    ghost use Rattle.smithy_declarations.specs.Value.{text};

    ghost value = { λ s. scalar_value (text s.now) };

    fn write_member<S: ShapeSerializer>(
        &self,
        sink: &mut S,
        member: &Schema<'_>,
    ) -> Result<(), SerdeError> {
        sink.write_string(member, self)
    }
}

impl WriteMember for Blob {
    ghost use Rattle.smithy_declarations.specs.Value.{bytes};

    ghost value = { λ b. scalar_value (bytes b) };

    fn write_member<S: ShapeSerializer>(
        &self,
        sink: &mut S,
        member: &Schema<'_>,
    ) -> Result<(), SerdeError> {
        sink.write_blob(member, self)
    }
}

impl WriteMember for bool {
    ghost use Rattle.smithy_declarations.specs.Value.{boolean};

    ghost value = { λ b. scalar_value (boolean b) };

    fn write_member<S: ShapeSerializer>(
        &self,
        sink: &mut S,
        member: &Schema<'_>,
    ) -> Result<(), SerdeError> {
        sink.write_boolean(member, *self)
    }
}

impl WriteMember for i8 {
    ghost use Rattle.smithy_declarations.specs.Value.{whole};

    ghost value = { λ n. scalar_value (whole n) };

    fn write_member<S: ShapeSerializer>(
        &self,
        sink: &mut S,
        member: &Schema<'_>,
    ) -> Result<(), SerdeError> {
        sink.write_byte(member, *self)
    }
}

impl WriteMember for i16 {
    ghost use Rattle.smithy_declarations.specs.Value.{whole};

    ghost value = { λ n. scalar_value (whole n) };

    fn write_member<S: ShapeSerializer>(
        &self,
        sink: &mut S,
        member: &Schema<'_>,
    ) -> Result<(), SerdeError> {
        sink.write_short(member, *self)
    }
}

impl WriteMember for i32 {
    ghost use Rattle.smithy_declarations.specs.Value.{whole};

    ghost value = { λ n. scalar_value (whole n) };

    fn write_member<S: ShapeSerializer>(
        &self,
        sink: &mut S,
        member: &Schema<'_>,
    ) -> Result<(), SerdeError> {
        sink.write_integer(member, *self)
    }
}

impl WriteMember for i64 {
    ghost use Rattle.smithy_declarations.specs.Value.{whole};

    ghost value = { λ n. scalar_value (whole n) };

    fn write_member<S: ShapeSerializer>(
        &self,
        sink: &mut S,
        member: &Schema<'_>,
    ) -> Result<(), SerdeError> {
        sink.write_long(member, *self)
    }
}

impl WriteMember for DateTime {
    ghost use Rattle.smithy_declarations.specs.Value.{instant};

    ghost value = { λ t. scalar_value (instant t) };

    fn write_member<S: ShapeSerializer>(
        &self,
        sink: &mut S,
        member: &Schema<'_>,
    ) -> Result<(), SerdeError> {
        sink.write_timestamp(member, self)
    }
}

// The schema of the member at a position, or where the table has none there, that of the structure.
fn member_under<'s>(shape: &Schema<'s>, position: u32) -> Schema<'s>
    ensures { site_of result ≡ member_of (site_of shape.now) position }
{
    match shape.member_at(position) {
        Some(member) => member,
        None => *shape,
    }
}

// The schema of the elements, or where no list stands, the schema itself.
fn elements_under<'s>(shape: &Schema<'s>) -> Schema<'s>
    ensures { site_of result ≡ element_of (site_of shape.now) }
{
    match shape.element() {
        Some(element) => element.nameless(),
        None => *shape,
    }
}

/// Writes the member at a position of a structure, where its field is there. Whether the structure of the table has the member
/// isn't tested: where it has none, the value is written under the structure's schema.
pub fn write_field<T: WriteMember, S: ShapeSerializer>(
    sink: &mut S,
    shape: &Schema<'_>,
    position: u32,
    field: &Option<T>,
) -> Result<(), SerdeError>
    requires sound { S.failed sink.old ≡ false }
    requires inside { IsInside open_structure (S.open_in (S.state sink.old)) }
    ensures adds { AddsInside S.after S.open_in (field_events (site_of shape.now) position (option_map T.value field.now)) (S.state sink.old) (S.failed sink.new) (S.state sink.new) result }
{
    let Some(value) = field else {
        return Ok(());
    };
    value.write_member(sink, &member_under(shape, position))
}

/// A structure whose members are fields, and which writes them in order.
pub trait WriteFields {
    // The members' values by their positions.
    ghost fields: { Self → List (Option Value) };

    /// Writes the members.
    fn write_fields<S: ShapeSerializer>(
        &self,
        sink: &mut S,
        shape: &Schema<'_>,
    ) -> Result<(), SerdeError>
        requires sound { S.failed sink.old ≡ false }
        requires inside { IsInside open_structure (S.open_in (S.state sink.old)) }
        ensures adds { AddsInside S.after S.open_in (member_events (site_of shape.now) (members_at 0 (fields self.now))) (S.state sink.old) (S.failed sink.new) (S.state sink.new) result };
}

/// A structure under its schema, as `write_struct` takes it.
#[derive(Drop)]
pub struct Written<'s, T: WriteFields> {
    /// The schema of the structure.
    pub shape: Schema<'s>,
    /// Its members.
    pub fields: &'s T,
}

impl<'s, T: WriteFields> SerializableStruct for Written<'s, T> {
    ghost site = { λ w. site_of w.shape };

    ghost adds = { λ S after w s. Runs after (member_events (site_of w.shape) (members_at 0 (T.fields w.fields.now))) s };

    fn schema(&self) -> Schema<'_> {
        self.shape
    }

    fn serialize_members<S: ShapeSerializer>(&self, sink: &mut S) -> Result<(), SerdeError> {
        self.fields.write_fields(sink, &self.shape)
    }
}

/// Writes a structure that is a member.
pub fn write_structure<T: WriteFields, S: ShapeSerializer>(
    sink: &mut S,
    member: &Schema<'_>,
    value: &T,
) -> Result<(), SerdeError>
    requires sound { S.failed sink.old ≡ false }
    requires inside { IsInside open_structure (S.open_in (S.state sink.old)) }
    ensures adds { AddsInside S.after S.open_in (events (site_of member.now) (structure_with (T.fields value.now))) (S.state sink.old) (S.failed sink.new) (S.state sink.new) result }
{
    let written = Written {
        shape: *member,
        fields: value,
    };
    sink.write_struct(member, &written)
}

/// Structures in a list, under the schema of the elements, as `write_list_with_length` takes them.
#[derive(Drop)]
pub struct WrittenList<'s, T: WriteFields> {
    /// The schema of the elements.
    pub shape: Schema<'s>,
    /// The structures in order.
    pub items: &'s [T],
}

impl<'s, T: WriteFields> WriteElements for WrittenList<'s, T> {
    ghost adds = { λ S after w s. Runs after (element_events (site_of w.shape) (values_of (structures_with T.fields w.items.now))) s };

    ghost can_stand = { λ _ o. o ≡ open_list };

    fn write<S: ShapeSerializer>(&self, sink: &mut S) -> Result<(), SerdeError> {
        for element in self.items {
            let written = Written {
                shape: self.shape,
                fields: element,
            };
            sink.write_struct(&self.shape, &written)?;
        }
        Ok(())
    }
}

impl<T: WriteFields> WriteMember for Vec<T> {
    ghost value = { λ items. list (values_of (structures_with T.fields items.items)) };

    fn write_member<S: ShapeSerializer>(
        &self,
        sink: &mut S,
        member: &Schema<'_>,
    ) -> Result<(), SerdeError> {
        let elements = WrittenList {
            shape: elements_under(member),
            items: self.as_slice(),
        };
        sink.write_list_with_length(member, self.len(), &elements)
    }
}
