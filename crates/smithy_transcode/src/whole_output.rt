//! The bytes of one value, in any wire.
ghost use Rattle.std.specs.Prelude.{◌≡◌, ℕ, List, ◌<◌, ◌^◌, length, false, [], None, Ok, IfOk, IfErr};
ghost use Rattle.smithy_schema.specs.declared.error.SerdeError.TheVariants.{NoMemory};
ghost use Rattle.smithy_declarations.specs.Table.{IsStructure, kind_of, shape_place};
ghost use Rattle.smithy_shapes.specs.Fits.{Fits};
ghost use Rattle.smithy_shapes.specs.Site.{site_of};
ghost use Rattle.smithy_schema.specs.Writing.{write};
ghost use Rattle.smithy_transcode.specs.Spelling.{body};
ghost use Rattle.smithy_value.specs.View.{view};
ghost use Rattle.smithy_transcode.specs.Wires.{wire_of, unfit as unfit_for};
ghost use Rattle.smithy_transcode.specs.WriteBody.{WritesBody};
ghost use Rattle.smithy_transcode.specs.Private.Positions.{CanCount};

use crate::expressing::unfit;
use crate::refusal::refusal;
use crate::wire::{TranscodeError, Wire};
use smithy_cbor_codec::{CborCodec, CborCodecSettings};
use smithy_json_codec::JsonCodec;
use smithy_query_codec::QueryShapeSerializer;
use smithy_schema::{FinishSerializer, Schema, SerdeError, ShapeRef, Shapes};
use smithy_value::{Trees, Value, ValueTrees, write_tree};
use std::alloc::Global;

/// Writes a value of the root in its one canonical body in the wire `to`. The root is a structure of the table.
///
/// `Inexpressible` and `NoMemory` are the only refusals.
pub fn write_body(
    alloc: Global,
    shapes: &Shapes,
    root: ShapeRef,
    to: &Wire,
    value: &Value<'_>,
) -> Result<Vec<u8>, TranscodeError>
    requires root { IsStructure (kind_of shapes.now (shape_place root.0)) }
    requires fits { Fits shapes.now (shape_place root.0) (view value.now) }
    ensures { WritesBody shapes.now root.0 (wire_of to.now) (view value.now) result }
{
    let trees = ValueTrees::new();
    if let Some(lacking) = unfit::<ValueTrees<'_>>(&trees, &shapes.schema(root), value, to) {
        return Err(TranscodeError::Inexpressible(lacking));
    }
    match write_whole::<ValueTrees<'_>>(alloc, shapes, root, to, &trees, value) {
        Ok(body) => Ok(body),
        Err(error) => Err(refusal(error)),
    }
}

// The canonical body of a value of the root, in any tree.
pub(crate) fn write_whole<P: Trees>(
    alloc: Global,
    shapes: &Shapes,
    root: ShapeRef,
    to: &Wire,
    trees: &P,
    value: &P::Tree,
) -> Result<Vec<u8>, SerdeError>
    requires root { IsStructure (kind_of shapes.now (shape_place root.0)) }
    requires stored { (i : List ℕ) × P.sound trees.now i }
    requires stands { P.stands trees.now value.now }
    requires fits { Fits shapes.now (shape_place root.0) (P.view trees.now value.now) }
    requires fit { unfit_for (wire_of to.now) shapes.now root.0 (P.view trees.now value.now) ≡ None }
    requires positions { CanCount (wire_of to.now) (P.view trees.now value.now) }
    ensures ok { IfOk result (λ out. out.items ≡ body (wire_of to.now) shapes.now root.0 (P.view trees.now value.now)) }
    ensures short { IfOk result (λ out. length out.items < 2 ^ 64) }
    ensures err { IfErr result (λ e. e ≡ NoMemory) }
{
    let schema = shapes.schema(root);
    match to {
        Wire::Json { use_json_name, .. } => {
            let codec = JsonCodec::strict(*use_json_name);
            let sink = codec.create_serializer(alloc);
            body_of_value(sink, &schema, trees, value)
        }
        Wire::Cbor { definite } => {
            let settings = CborCodecSettings::strict().use_definite_lengths(*definite);
            let sink = CborCodec::new(settings).create_serializer(alloc);
            body_of_value(sink, &schema, trees, value)
        }
        Wire::Query { action, version } => {
            let sink = QueryShapeSerializer::new(alloc, action.as_str(), version.as_str())?;
            body_of_value(sink, &schema, trees, value)
        }
    }
}

// The bytes of a serializer that takes the value, once it is written.
fn body_of_value<P: Trees, S: FinishSerializer + Drop>(
    mut sink: S,
    schema: &Schema<'_>,
    trees: &P,
    value: &P::Tree,
) -> Result<Vec<u8>, SerdeError>
    requires stored { (i : List ℕ) × P.sound trees.now i }
    requires stands { P.stands trees.now value.now }
    requires fits { Fits schema.now.shapes.now schema.now.place (P.view trees.now value.now) }
    requires sound { S.failed sink ≡ false }
    requires taken { (state : S.State) × (write S.after (site_of schema.now) (P.view trees.now value.now) (S.state sink) ≡ Ok state) × (S.open_in state ≡ []) }
    ensures ok { IfOk result (λ out. (state : S.State) → write S.after (site_of schema.now) (P.view trees.now value.now) (S.state sink) ≡ Ok state → out.items ≡ S.out state) }
    ensures err { IfErr result (λ e. e ≡ NoMemory) }
{
    write_tree::<P, S>(&mut sink, trees, schema, &trees.part(value))?;
    sink.finish()
}
