//! The tree in a pool that a whole body spells.
ghost use Rattle.std.specs.Prelude.{IfOk};
ghost use Rattle.smithy_declarations.specs.Table.{IsStructure, kind_of, shape_place};
ghost use Rattle.smithy_tree.specs.Seen.{IsSound, HoldsSlot, view};
ghost use Rattle.smithy_transcode.specs.ReadBody.{ReadsBody};
ghost use Rattle.smithy_transcode.specs.Wires.{wire_of};
ghost use Rattle.smithy_value.specs.Pooled.{slot_view, IsPoolOf, Keeps};
ghost use Rattle.smithy_transcode.specs.Private.ReadWhole.{ReadsWhole};

use crate::refusal::refusal;
use crate::wire::{TranscodeError, Wire};
use smithy_cbor_codec::CborCodec;
use smithy_json_codec::JsonCodec;
use smithy_schema::{SerdeError, ShapeRef, Shapes};
use smithy_tree::{Pool, Slot};
use smithy_value::read_tree;
use std::alloc::Global;

/// Reads a whole input as `read_body` does, as a tree in a pool of this input. What stood in the pool before stands there still.
pub fn read_body_into(
    alloc: Global,
    shapes: &Shapes,
    root: ShapeRef,
    from: &Wire,
    input: &[u8],
    pool: &mut Pool<'_>,
) -> Result<Slot, TranscodeError>
    requires root { IsStructure (kind_of shapes.now (shape_place root.0)) }
    requires pool { IsPoolOf pool.old input.now }
    ensures read { ReadsBody (λ s. view pool.new s.node) shapes.now root.0 (wire_of from.now) input.now result }
    ensures sound { IfOk result (λ s. IsSound pool.new × HoldsSlot pool.new s) }
    ensures keeps { IfOk result (λ s. Keeps pool.old pool.new) }
{
    match read_whole(alloc, shapes, root, from, input, pool) {
        Ok(slot) => Ok(slot),
        Err(error) => Err(refusal(error)),
    }
}

// The value that the whole input spells, as a tree in this pool, which is one of the input.
pub(crate) fn read_whole(
    alloc: Global,
    shapes: &Shapes,
    root: ShapeRef,
    from: &Wire,
    input: &[u8],
    pool: &mut Pool<'_>,
) -> Result<Slot, SerdeError>
    requires root { IsStructure (kind_of shapes.now (shape_place root.0)) }
    requires pool { IsPoolOf pool.old input.now }
    ensures read { ReadsWhole (slot_view pool.new) (wire_of from.now) shapes.now root.0 input.now result }
    ensures sound { IfOk result (λ s. IsSound pool.new × HoldsSlot pool.new s) }
    ensures keeps { IfOk result (λ s. Keeps pool.old pool.new) }
{
    let schema = shapes.schema(root);
    match from {
        Wire::Json {
            use_json_name,
            integral,
        } => {
            let codec = JsonCodec::strict_with_integral_numbers(*use_json_name, *integral);
            let mut source = codec.create_deserializer(alloc, input);
            read_tree(alloc, &mut source, pool, &schema)
        }
        Wire::Cbor { .. } => {
            let mut source = CborCodec::strict().create_deserializer(alloc, input);
            read_tree(alloc, &mut source, pool, &schema)
        }
        Wire::Query { .. } => Err(SerdeError::InvalidInput),
    }
}
