//! Structures that are read from their fields and written as fields.
ghost use Rattle.std.specs.Prelude.{◌≡◌, ◌↔◌, true, false, IsTrue, OnOk, ℕ, List, map, Option};
ghost use Rattle.smithy_declarations.specs.declared.shape_type.ShapeType.TheVariants as types;
ghost use Rattle.smithy_declarations.specs.Value.{Value};
ghost use Rattle.smithy_shapes.specs.Site.{site_of};
ghost use Rattle.smithy_schema.specs.Consuming.{IsTaken};
ghost use Rattle.smithy_schema.specs.Fields.{structure_with};
ghost use Rattle.smithy_schema.specs.Typed.{ReadsAs, ReadsDueAs, WritesAs, WritesWhole};
ghost use Rattle.smithy_schema.specs.Writing.{events};
ghost use Rattle.smithy_typed.specs.Places.{HasShape, IsAnyStructure};

use crate::fields::FieldList;
use smithy_schema::{
    Schema, SerdeError, ShapeDeserializer, ShapeSerializer, ShapeType, StructConsumer, WriteFields,
    Written,
};

/// A structure that is made of its fields.
pub trait FromFields<L: FieldList> {
    // The members' names in order.
    ghost names: { List (List ℕ) };

    // The members' values by their positions.
    ghost made: { Self → List (Option Value) };

    /// The structure of these fields.
    fn from_fields(list: L) -> Self
    where
        Self: Sized,
        ensures { made result ≡ L.fields list };
}

// Takes the members of a structure.
#[derive(Drop)]
struct Fields<L> {
    list: L,
}

impl<L: FieldList + Drop> StructConsumer for Fields<L> {
    ghost use Rattle.std.specs.Prelude.{false};
    ghost use Rattle.smithy_schema.specs.Fields.{TakesField};
    ghost use Rattle.smithy_typed.specs.Places.{IsAnyStructure};

    ghost call = { TakesField (λ f. L.fields f.list) };

    ghost can_take = { λ _ outer. IsAnyStructure L.members outer };

    ghost takes_nulls = { false };

    fn takes_nulls(&self) -> bool {
        false
    }

    fn member<D: ShapeDeserializer>(
        &mut self,
        member: Option<&Schema<'_>>,
        source: &mut D,
    ) -> Result<(), SerdeError> {
        let Some(schema) = member else {
            return Ok(());
        };
        let Some(position) = schema.member_index() else {
            unreachable!()
        };
        self.list.read_field(source, schema, position)
    }
}

/// Whether a structure is there whose members have these names, and are at places of the fields.
pub fn is_structure_of<L: FieldList>(schema: &Schema<'_>, names: &[&str]) -> bool
    ensures { IsTrue result ↔ HasShape types.Structure (L.members (map (λ n. n.now) names.now)) (site_of schema.now) }
{
    if schema.shape_type() != ShapeType::Structure {
        return false;
    }
    L::are_at(schema.members(), names)
}

// Reads the fields of the structure that is due.
fn read_fields<L: FieldList + Drop, D: ShapeDeserializer>(
    source: &mut D,
    schema: &Schema<'_>,
) -> Result<L, SerdeError>
    requires there { IsAnyStructure L.members (site_of schema.now) }
    ensures same { D.settings source.new ≡ D.settings source.old }
    ensures reads { ReadsDueAs (D.reading (D.with_nulls false (D.settings source.old))).wire (D.state source.old) (D.state source.new) (site_of schema.now) (λ list. structure_with (L.fields list)) result }
    ensures takes { OnOk result (IsTaken (D.state source.old) (D.state source.new)) }
{
    let mut fields = Fields { list: L::none() };
    source.read_struct(schema, &mut fields)?;
    Ok(fields.list)
}

/// Reads the structure that is due, as the root of a body. Nulls of members are dropped.
pub fn read_root<T: FromFields<L>, L: FieldList + Drop, D: ShapeDeserializer>(
    source: &mut D,
    schema: &Schema<'_>,
) -> Result<T, SerdeError>
    requires there { HasShape types.Structure (L.members T.names) (site_of schema.now) }
    ensures same { D.settings source.new ≡ D.settings source.old }
    ensures reads { ReadsDueAs (D.reading (D.with_nulls false (D.settings source.old))).wire (D.state source.old) (D.state source.new) (site_of schema.now) (λ x. structure_with (T.made x)) result }
    ensures takes { OnOk result (IsTaken (D.state source.old) (D.state source.new)) }
{
    let list = read_fields::<L, D>(source, schema)?;
    Ok(T::from_fields(list))
}

/// Reads the structure that is due inside of another value.
pub fn read_structure<T: FromFields<L>, L: FieldList + Drop, D: ShapeDeserializer>(
    source: &mut D,
    schema: &Schema<'_>,
) -> Result<T, SerdeError>
    requires due { (D.state source.old).due ≡ true }
    requires nulls { D.dispatches_nulls (D.settings source.old) ≡ false }
    requires there { HasShape types.Structure (L.members T.names) (site_of schema.now) }
    ensures same { D.settings source.new ≡ D.settings source.old }
    ensures reads { ReadsAs (D.reading (D.settings source.old)).wire (D.state source.old) (D.state source.new) (site_of schema.now) (λ x. structure_with (T.made x)) result }
{
    read_root::<T, L, D>(source, schema)
}

/// Writes the structure, as the root of a body.
pub fn write_root<T: WriteFields, S: ShapeSerializer>(
    sink: &mut S,
    schema: &Schema<'_>,
    value: &T,
) -> Result<(), SerdeError>
    ensures { WritesWhole S.after S.open_in (events (site_of schema.now) (structure_with (T.fields value.now))) (S.state sink.old) (S.failed sink.old) (S.state sink.new) (S.failed sink.new) result }
{
    let written = Written {
        shape: *schema,
        fields: value,
    };
    sink.write_struct(schema, &written)
}

/// Writes the structure inside of another value.
pub fn write_structure<T: WriteFields, S: ShapeSerializer>(
    sink: &mut S,
    schema: &Schema<'_>,
    value: &T,
) -> Result<(), SerdeError>
    requires sound { S.failed sink.old ≡ false }
    ensures writes { WritesAs S.after (events (site_of schema.now) (structure_with (T.fields value.now))) (S.state sink.old) (S.failed sink.new) (S.state sink.new) result }
{
    write_root(sink, schema, value)
}
