//! Writing a value to any wire.
ghost use Rattle.std.specs.Prelude.{◌≡◌, ℕ, List, map as mapped, true};
ghost use Rattle.smithy_shapes.specs.Fits.{FitsOr, is_scalar_of};
ghost use Rattle.smithy_shapes.specs.Site.{site_of, kind_at};
ghost use Rattle.smithy_declarations.specs.Value.{whole, list, map, structure, union, values_of};
ghost use Rattle.smithy_schema.specs.Writing.{scalar_of};
ghost use Rattle.smithy_tree.specs.Items.{whole_values};
ghost use Rattle.smithy_value.specs.View.{view};
ghost use Rattle.smithy_value.specs.WriteValue.{WritesValue, WritesBy};
ghost use Rattle.smithy_value.specs.Tree.{entries_view, members_view, part_view, Each, EntriesStand, MembersStand, PartStands};

use crate::entries::{Entries, Members};
use crate::tree::{Part, Trees};
use crate::value::Value;
use crate::value_trees::ValueTrees;
use smithy_schema::{Schema, SerdeError, ShapeSerializer, ShapeType};
use std::alloc::Global;

/// Writes a value of the schema's place, or a null element.
///
/// Elements are written without a name, and members in the order of their positions.
pub fn write_value<S: ShapeSerializer>(
    _alloc: Global,
    sink: &mut S,
    schema: &Schema<'_>,
    value: &Value<'_>,
) -> Result<(), SerdeError>
    requires fits { FitsOr schema.now.shapes.now schema.now.place true (view value.now) }
    ensures writes { WritesBy S.ShapeSerializer sink.old sink.new (site_of schema.now) (view value.now) result }
{
    let trees = ValueTrees::new();
    write_tree::<ValueTrees<'_>, S>(sink, &trees, schema, &trees.part(value))
}

/// Writes the value that has this part at its root, in any store: a value of the schema's place, or a null element.
///
/// Elements are written without a name, and members in the order of their positions.
#[cycle(write)]
#[inline(always)]
pub fn write_tree<P: Trees, S: ShapeSerializer>(
    sink: &mut S,
    trees: &P,
    schema: &Schema<'_>,
    part: &Part<'_, P::Tree>,
) -> Result<(), SerdeError>
    requires sound { (i : List ℕ) × P.sound trees.now i }
    requires stands { PartStands (P.stands trees.now) part.now }
    requires fits { FitsOr schema.now.shapes.now schema.now.place true (part_view (P.view trees.now) (P.key_of trees.now) P.position_of part.now) }
    ensures writes { WritesBy S.ShapeSerializer sink.old sink.new (site_of schema.now) (part_view (P.view trees.now) (P.key_of trees.now) P.position_of part.now) result }
{
    match part {
        Part::Boolean(value) => sink.write_boolean(schema, *value),
        Part::Whole(number) => write_whole_number(sink, schema, *number),
        Part::Text(content) => sink.write_string(schema, *content),
        Part::Bytes(content) => sink.write_bytes(schema, *content),
        Part::Decimal(mantissa, exponent) => sink.write_decimal(schema, *mantissa, *exponent),
        Part::Timestamp(value) => sink.write_timestamp(schema, value),
        Part::List(elements) => write_list::<P, S>(sink, trees, schema, *elements),
        Part::Numbers(numbers) => write_numbers(sink, schema, *numbers),
        Part::Map(entries) => write_map::<P, S>(sink, trees, schema, entries),
        Part::Structure(members) => write_structure::<P, S>(sink, trees, schema, members),
        Part::Union(index, value) => write_union::<P, S>(sink, trees, schema, *index, *value),
        Part::Null => sink.write_null(schema),
        Part::Document(value) => sink.write_document(schema, *value),
    }
}

// Writes a whole number of the schema's kind.
fn write_whole_number<S: ShapeSerializer>(
    sink: &mut S,
    schema: &Schema<'_>,
    number: i128,
) -> Result<(), SerdeError>
    requires fits { is_scalar_of (kind_at (site_of schema.now)) (whole number) ≡ true }
    ensures writes { WritesValue (S.after (scalar_of (site_of schema.now) (whole number)) (S.state sink.old)) (S.failed sink.old) (S.failed sink.new) (S.state sink.new) result }
{
    match schema.shape_type() {
        ShapeType::Byte => sink.write_byte(schema, number as i8),
        ShapeType::Short => sink.write_short(schema, number as i16),
        ShapeType::Integer => sink.write_integer(schema, number as i32),
        ShapeType::Long => sink.write_long(schema, number as i64),
        ShapeType::BigInteger => sink.write_i128(schema, number),
        ShapeType::Boolean
        | ShapeType::String
        | ShapeType::Blob
        | ShapeType::BigDecimal
        | ShapeType::Timestamp
        | ShapeType::Document
        | ShapeType::List
        | ShapeType::Map
        | ShapeType::Structure
        | ShapeType::Union => unreachable!(),
    }
}

#[cycle(write)]
#[inline(never)]
fn write_list<P: Trees, S: ShapeSerializer>(
    sink: &mut S,
    trees: &P,
    schema: &Schema<'_>,
    elements: &[P::Tree],
) -> Result<(), SerdeError>
    requires sound { (i : List ℕ) × P.sound trees.now i }
    requires stands { Each (P.stands trees.now) elements.now }
    requires fits { FitsOr schema.now.shapes.now schema.now.place true (list (values_of (mapped (P.view trees.now) elements.now))) }
    ensures writes { WritesBy S.ShapeSerializer sink.old sink.new (site_of schema.now) (list (values_of (mapped (P.view trees.now) elements.now))) result }
{
    let Some(member) = schema.member() else {
        unreachable!()
    };
    let element_schema = member.nameless();
    sink.begin_list(schema, Some(elements.len()))?;
    for element in elements {
        write_tree::<P, S>(sink, trees, &element_schema, &trees.part(element))?;
    }
    sink.end_list()
}

// Writes a list whose elements are all whole numbers of 64 bits.
#[inline(never)]
fn write_numbers<S: ShapeSerializer>(
    sink: &mut S,
    schema: &Schema<'_>,
    numbers: &[i64],
) -> Result<(), SerdeError>
    requires fits { FitsOr schema.now.shapes.now schema.now.place true (list (values_of (whole_values numbers.now))) }
    ensures writes { WritesBy S.ShapeSerializer sink.old sink.new (site_of schema.now) (list (values_of (whole_values numbers.now))) result }
{
    let Some(member) = schema.member() else {
        unreachable!()
    };
    let element_schema = member.nameless();
    if let ShapeType::Long = element_schema.shape_type() {
        return sink.write_long_list(schema, numbers);
    }
    sink.begin_list(schema, Some(numbers.len()))?;
    for number in numbers {
        write_whole_number(sink, &element_schema, i128::from(*number))?;
    }
    sink.end_list()
}

#[cycle(write)]
#[inline(never)]
fn write_structure<P: Trees, S: ShapeSerializer>(
    sink: &mut S,
    trees: &P,
    schema: &Schema<'_>,
    members: &Members<'_, P::Tree>,
) -> Result<(), SerdeError>
    requires sound { (i : List ℕ) × P.sound trees.now i }
    requires stands { MembersStand (P.stands trees.now) members.now }
    requires fits { FitsOr schema.now.shapes.now schema.now.place true (structure (members_view (P.view trees.now) P.position_of members.now)) }
    ensures writes { WritesBy S.ShapeSerializer sink.old sink.new (site_of schema.now) (structure (members_view (P.view trees.now) P.position_of members.now)) result }
{
    sink.begin_struct(schema)?;
    let mut left = members.iter();
    while let Some((position, member)) = left.next_member::<P>() {
        let Some(member_schema) = schema.member_at(position) else {
            unreachable!()
        };
        write_tree::<P, S>(sink, trees, &member_schema, &trees.part(member))?;
    }
    sink.end_struct()
}

#[cycle(write)]
#[inline(never)]
fn write_union<P: Trees, S: ShapeSerializer>(
    sink: &mut S,
    trees: &P,
    schema: &Schema<'_>,
    index: u32,
    value: &P::Tree,
) -> Result<(), SerdeError>
    requires sound { (i : List ℕ) × P.sound trees.now i }
    requires stands { P.stands trees.now value.now }
    requires fits { FitsOr schema.now.shapes.now schema.now.place true (union index (P.view trees.now value.now)) }
    ensures writes { WritesBy S.ShapeSerializer sink.old sink.new (site_of schema.now) (union index (P.view trees.now value.now)) result }
{
    let Some(member) = schema.member_at(index) else {
        unreachable!()
    };
    sink.begin_struct(schema)?;
    write_tree::<P, S>(sink, trees, &member, &trees.part(value))?;
    sink.end_struct()
}

#[cycle(write)]
#[inline(never)]
fn write_map<P: Trees, S: ShapeSerializer>(
    sink: &mut S,
    trees: &P,
    schema: &Schema<'_>,
    entries: &Entries<'_, P::Tree>,
) -> Result<(), SerdeError>
    requires sound { (i : List ℕ) × P.sound trees.now i }
    requires stands { EntriesStand (P.stands trees.now) entries.now }
    requires fits { FitsOr schema.now.shapes.now schema.now.place true (map (entries_view (P.view trees.now) (P.key_of trees.now) entries.now)) }
    ensures writes { WritesBy S.ShapeSerializer sink.old sink.new (site_of schema.now) (map (entries_view (P.view trees.now) (P.key_of trees.now) entries.now)) result }
{
    let Some(key_schema) = schema.key() else {
        unreachable!()
    };
    let Some(member) = schema.member() else {
        unreachable!()
    };
    let value_schema = member.nameless();
    sink.begin_map(schema, Some(entries.len()))?;
    let mut left = entries.iter();
    while let Some((key, value)) = left.next_entry(trees) {
        sink.write_string(&key_schema, key)?;
        write_tree::<P, S>(sink, trees, &value_schema, &trees.part(value))?;
    }
    sink.end_map()
}
