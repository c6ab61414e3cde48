//! Tests of a value: which of its instants pass by the time form of their place, and whether documents and null elements do.
ghost use Rattle.std.specs.Prelude.{◌≡◌, length, map as mapped};
ghost use Rattle.smithy_shapes.specs.Site.{site_of};
ghost use Rattle.smithy_declarations.specs.TimeForms.{format_of, form_or};
ghost use Rattle.smithy_declarations.specs.Value.{instant, list, map, structure, union, values_of};
ghost use Rattle.smithy_tree.specs.Items.{whole_values};
ghost use Rattle.smithy_value.specs.Tree.{entries_view, members_view, part_view, Each, EntriesStand, MembersStand, PartStands};
ghost use Rattle.smithy_transcode.specs.Private.Standing.{IsValueAt};
ghost use Rattle.smithy_transcode.specs.Private.ValueTest.{AnswersTest, instant_passes as passes_as, test_view};
ghost use Rattle.smithy_transcode.specs.Wires.{wire_of, has_nulls, holds};

use crate::wire::Wire;
use smithy_schema::{Schema, TimestampFormat};
use smithy_types::{DateTime, Format};
use smithy_value::{Entries, Members, Part, Trees};

/// Which instants pass a test of values.
#[derive(Clone, Copy)]
pub(crate) enum InstantTest {
    /// Every instant passes.
    Any,
    /// Every instant of whole seconds passes.
    WholeSeconds,
    /// Every instant passes that the time form of its place holds, or this form where the place has none.
    InForm(TimestampFormat),
}

/// A test of values. A value passes where each of its instants does, where `documents` is false no part of it is a document, and
/// where `nulls` is false no element of it is null.
#[derive(Clone, Copy)]
pub(crate) struct ValueTest {
    pub instants: InstantTest,
    pub documents: bool,
    pub nulls: bool,
}

// The test of a wire: what the wire writes for a value that passes stands for exactly that value.
pub(crate) fn test_of(wire: &Wire) -> ValueTest
    ensures holds { test_view result ≡ holds (wire_of wire.now) }
    ensures nulls { result.nulls ≡ has_nulls (wire_of wire.now) }
{
    match wire {
        Wire::Json { .. } => ValueTest {
            instants: InstantTest::InForm(TimestampFormat::EpochSeconds),
            documents: true,
            nulls: true,
        },
        Wire::Cbor { .. } => ValueTest {
            instants: InstantTest::WholeSeconds,
            documents: false,
            nulls: true,
        },
        Wire::Query { .. } => ValueTest {
            instants: InstantTest::InForm(TimestampFormat::DateTime),
            documents: false,
            nulls: false,
        },
    }
}

// The form of instants at the place of the schema: its own, or else the one by default.
fn format_at(schema: &Schema<'_>, default: TimestampFormat) -> Format
    ensures { result ≡ format_of (form_or default (site_of schema.now).place.time) }
{
    schema.timestamp_format().unwrap_or(default).format()
}

// Whether an instant at the place of the schema passes the test.
fn instant_passes(schema: &Schema<'_>, value: DateTime, test: InstantTest) -> bool
    ensures { result ≡ passes_as test (site_of schema.now).place.time (instant value) }
{
    match test {
        InstantTest::Any => true,
        InstantTest::WholeSeconds => !value.has_subsec_nanos(),
        InstantTest::InForm(default) => value.holds(format_at(schema, default)),
    }
}

// Whether a value of the schema's place, or a null element, passes the test. Where it does and null elements don't, each of its
// lists and maps was counted. It has fewer than 2^64 parts, as they are in memory.
pub(crate) fn value_passes<P: Trees>(
    trees: &P,
    schema: &Schema<'_>,
    value: &P::Tree,
    test: &ValueTest,
) -> bool
    requires { IsValueAt (P.sound trees.now) (P.stands trees.now value.now) (site_of schema.now) (P.view trees.now value.now) }
    ensures { AnswersTest test.now (site_of schema.now) (P.view trees.now value.now) result }
{
    part_passes::<P>(trees, schema, &trees.part(value), test)
}

// Whether the value that has this part at its root passes the test: a value of the schema's place, or a null element.
#[cycle(passing)]
#[inline(always)]
fn part_passes<P: Trees>(
    trees: &P,
    schema: &Schema<'_>,
    part: &Part<'_, P::Tree>,
    test: &ValueTest,
) -> bool
    requires { IsValueAt (P.sound trees.now) (PartStands (P.stands trees.now) part.now) (site_of schema.now) (part_view (P.view trees.now) (P.key_of trees.now) P.position_of part.now) }
    ensures { AnswersTest test.now (site_of schema.now) (part_view (P.view trees.now) (P.key_of trees.now) P.position_of part.now) result }
{
    match part {
        Part::Timestamp(value) => instant_passes(schema, *value, test.instants),
        Part::Document(_) => test.documents,
        Part::Null => test.nulls,
        Part::Boolean(_) | Part::Whole(_) | Part::Text(_) | Part::Bytes(_) | Part::Decimal(_, _) =>
            true,
        Part::Numbers(numbers) => numbers_pass(schema, *numbers, test),
        Part::List(elements) => elements_pass::<P>(trees, schema, *elements, test),
        Part::Map(entries) => entries_pass::<P>(trees, schema, entries, test),
        Part::Structure(members) => members_pass::<P>(trees, schema, members, test),
        Part::Union(index, value) => union_passes::<P>(trees, schema, *index, *value, test),
    }
}

// The number of elements, which are in memory.
fn count<T>(elements: &[T]) -> usize
    ensures { result ≡ length elements.now }
{
    elements.len()
}

// Whole numbers pass each test, and they are in memory, so there are fewer than 2^64 of them.
fn numbers_pass(schema: &Schema<'_>, numbers: &[i64], test: &ValueTest) -> bool
    ensures { AnswersTest test.now (site_of schema.now) (list (values_of (whole_values numbers.now))) result }
{
    let _count = count(numbers);
    true
}

#[cycle(passing)]
#[inline(never)]
fn union_passes<P: Trees>(
    trees: &P,
    schema: &Schema<'_>,
    index: u32,
    value: &P::Tree,
    test: &ValueTest,
) -> bool
    requires { IsValueAt (P.sound trees.now) (P.stands trees.now value.now) (site_of schema.now) (union index (P.view trees.now value.now)) }
    ensures { AnswersTest test.now (site_of schema.now) (union index (P.view trees.now value.now)) result }
{
    let Some(member) = schema.member_at(index) else {
        unreachable!()
    };
    part_passes::<P>(trees, &member, &trees.part(value), test)
}

#[cycle(passing)]
#[inline(never)]
fn elements_pass<P: Trees>(
    trees: &P,
    schema: &Schema<'_>,
    elements: &[P::Tree],
    test: &ValueTest,
) -> bool
    requires { IsValueAt (P.sound trees.now) (Each (P.stands trees.now) elements.now) (site_of schema.now) (list (values_of (mapped (P.view trees.now) elements.now))) }
    ensures { AnswersTest test.now (site_of schema.now) (list (values_of (mapped (P.view trees.now) elements.now))) result }
{
    let Some(member) = schema.member() else {
        unreachable!()
    };
    let element_schema = member.nameless();
    let _count = count(elements);
    for element in elements {
        if !part_passes::<P>(trees, &element_schema, &trees.part(element), test) {
            return false;
        }
    }
    true
}

#[cycle(passing)]
#[inline(never)]
fn entries_pass<P: Trees>(
    trees: &P,
    schema: &Schema<'_>,
    entries: &Entries<'_, P::Tree>,
    test: &ValueTest,
) -> bool
    requires { IsValueAt (P.sound trees.now) (EntriesStand (P.stands trees.now) entries.now) (site_of schema.now) (map (entries_view (P.view trees.now) (P.key_of trees.now) entries.now)) }
    ensures { AnswersTest test.now (site_of schema.now) (map (entries_view (P.view trees.now) (P.key_of trees.now) entries.now)) result }
{
    let Some(member) = schema.member() else {
        unreachable!()
    };
    let value_schema = member.nameless();
    let _count = entries.len();
    let mut left = entries.iter();
    while let Some((_, value)) = left.next_entry(trees) {
        if !part_passes::<P>(trees, &value_schema, &trees.part(value), test) {
            return false;
        }
    }
    true
}

#[cycle(passing)]
#[inline(never)]
fn members_pass<P: Trees>(
    trees: &P,
    schema: &Schema<'_>,
    members: &Members<'_, P::Tree>,
    test: &ValueTest,
) -> bool
    requires { IsValueAt (P.sound trees.now) (MembersStand (P.stands trees.now) members.now) (site_of schema.now) (structure (members_view (P.view trees.now) P.position_of members.now)) }
    ensures { AnswersTest test.now (site_of schema.now) (structure (members_view (P.view trees.now) P.position_of members.now)) result }
{
    let mut left = members.iter();
    while let Some((position, member)) = left.next_member::<P>() {
        let Some(member_schema) = schema.member_at(position) else {
            unreachable!()
        };
        if !part_passes::<P>(trees, &member_schema, &trees.part(member), test) {
            return false;
        }
    }
    true
}
