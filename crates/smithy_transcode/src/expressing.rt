//! What a wire can't express.
ghost use Rattle.std.specs.Prelude.{◌≡◌, ◌&&◌, ◌||◌, not, None, true};
ghost use Rattle.smithy_shapes.specs.Accepted.{IsAccepted};
ghost use Rattle.smithy_shapes.specs.Fits.{Fits, FitsOr};
ghost use Rattle.smithy_shapes.specs.Holding.{may_hold};
ghost use Rattle.smithy_shapes.specs.Site.{site_of};
ghost use Rattle.smithy_declarations.specs.Table.{IsStructure, is_document_target, kind_of, shape_place};
ghost use Rattle.smithy_shapes.specs.Targets.{is_timestamp_target};
ghost use Rattle.smithy_query_codec.specs.Nulls.{holds_null};
ghost use Rattle.smithy_value.specs.View.{view};
ghost use Rattle.smithy_transcode.specs.Taken.{IsTaken};
ghost use Rattle.smithy_transcode.specs.Wires.{wire_of, holds_document, unfit as unfit_for, unfit_at};
ghost use Rattle.smithy_transcode.specs.Private.Positions.{CanCount};
ghost use Rattle.smithy_transcode.specs.Private.Standing.{IsValueAt};
ghost use Rattle.smithy_transcode.specs.Private.ValueTest.{AnswersTest};

use crate::value_test::{InstantTest, ValueTest, test_of, value_passes};
use crate::wire::{Unfit, Wire};
use smithy_schema::{Schema, ShapeRef, Shapes};
use smithy_value::{Trees, Value, ValueTrees};

/// Why the wire can't express a value of the root, or nothing where it can. It takes no memory.
pub fn expressible(shapes: &Shapes, root: ShapeRef, value: &Value<'_>, to: &Wire) -> Option<Unfit>
    requires root { IsStructure (kind_of shapes.now (shape_place root.0)) }
    requires fits { Fits shapes.now (shape_place root.0) (view value.now) }
    ensures unfit { result ≡ unfit_for (wire_of to.now) shapes.now root.0 (view value.now) }

    // Where it can, and numbers the parts of lists and maps, there is a number for each part.
    ensures positions { result ≡ None → CanCount (wire_of to.now) (view value.now) }
{
    unfit::<ValueTrees<'_>>(&ValueTrees::new(), &shapes.schema(root), value, to)
}

/// Why the wire can't express a value of a place, or nothing where it can. It takes no memory.
///
/// Where it can, `write_value` writes the value to a serializer of the wire in each state in which a value may come, also in the
/// middle of a body, want of memory aside.
pub fn expressible_at(schema: &Schema<'_>, value: &Value<'_>, to: &Wire) -> Option<Unfit>
    requires fits { FitsOr schema.now.shapes.now schema.now.place true (view value.now) }
    ensures unfit { result ≡ unfit_at (wire_of to.now) (site_of schema.now) (view value.now) }
    ensures taken { result ≡ None → IsAccepted schema.now.shapes.now → IsTaken (wire_of to.now) (site_of schema.now) (view value.now) }
{
    unfit::<ValueTrees<'_>>(&ValueTrees::new(), schema, value, to)
}

// A value of the schema's place may fail the test: a timestamp, a document where none passes, or a null where none does, may
// stand in it.
fn can_fail(schema: &Schema<'_>, test: &ValueTest) -> bool
    ensures { result ≡ (not test.now.nulls || may_hold is_timestamp_target (site_of schema.now) || not test.now.documents && may_hold is_document_target (site_of schema.now)) }
{
    !test.nulls || schema.may_hold_timestamps() || !test.documents && schema.may_hold_documents()
}

// The value passes the test. It is gone through only where it can fail.
fn passes<P: Trees>(trees: &P, schema: &Schema<'_>, value: &P::Tree, test: &ValueTest) -> bool
    requires { IsValueAt (P.sound trees.now) (P.stands trees.now value.now) (site_of schema.now) (P.view trees.now value.now) }
    ensures { AnswersTest test.now (site_of schema.now) (P.view trees.now value.now) result }
{
    if can_fail(schema, test) {
        return value_passes::<P>(trees, schema, value, test);
    }
    true
}

// A document stands in the value, and none passes the test.
fn has_unwritable_document<P: Trees>(
    trees: &P,
    schema: &Schema<'_>,
    value: &P::Tree,
    test: &ValueTest,
) -> bool
    requires { IsValueAt (P.sound trees.now) (P.stands trees.now value.now) (site_of schema.now) (P.view trees.now value.now) }
    ensures { result ≡ (not test.now.documents && holds_document (site_of schema.now) (P.view trees.now value.now)) }
{
    let any_but_documents = ValueTest {
        instants: InstantTest::Any,
        documents: false,
        nulls: true,
    };
    !test.documents && !value_passes::<P>(trees, schema, value, &any_but_documents)
}

// A null or a document stands in the value, and no null passes the test.
fn has_unwritable_null<P: Trees>(
    trees: &P,
    schema: &Schema<'_>,
    value: &P::Tree,
    test: &ValueTest,
) -> bool
    requires { IsValueAt (P.sound trees.now) (P.stands trees.now value.now) (site_of schema.now) (P.view trees.now value.now) }
    ensures { result ≡ (not test.now.nulls && (holds_document (site_of schema.now) (P.view trees.now value.now) || holds_null (P.view trees.now value.now))) }
{
    let any_scalar = ValueTest {
        instants: InstantTest::Any,
        documents: false,
        nulls: false,
    };
    !test.nulls && !value_passes::<P>(trees, schema, value, &any_scalar)
}

// Why the wire can't express a value of any tree. Where it can, the value is gone through once at most.
pub(crate) fn unfit<P: Trees>(
    trees: &P,
    schema: &Schema<'_>,
    value: &P::Tree,
    to: &Wire,
) -> Option<Unfit>
    requires { IsValueAt (P.sound trees.now) (P.stands trees.now value.now) (site_of schema.now) (P.view trees.now value.now) }
    ensures unfit { result ≡ unfit_at (wire_of to.now) (site_of schema.now) (P.view trees.now value.now) }
    ensures positions { result ≡ None → CanCount (wire_of to.now) (P.view trees.now value.now) }
{
    let test = test_of(to);
    if passes::<P>(trees, schema, value, &test) {
        return None;
    }
    if has_unwritable_document::<P>(trees, schema, value, &test) {
        return Some(Unfit::Document);
    }
    if has_unwritable_null::<P>(trees, schema, value, &test) {
        Some(Unfit::Null)
    } else {
        Some(Unfit::Instant)
    }
}
