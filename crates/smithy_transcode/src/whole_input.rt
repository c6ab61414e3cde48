//! The value that a whole body spells.
ghost use Rattle.smithy_declarations.specs.Table.{IsStructure, kind_of, shape_place};
ghost use Rattle.smithy_transcode.specs.ReadBody.{ReadsBody};
ghost use Rattle.smithy_value.specs.View.{view};
ghost use Rattle.smithy_transcode.specs.Wires.{wire_of};
ghost use Rattle.smithy_transcode.specs.Private.ReadWhole.{ReadsWhole};

use crate::refusal::refusal;
use crate::wire::{TranscodeError, Wire};
use smithy_cbor_codec::CborCodec;
use smithy_json_codec::JsonCodec;
use smithy_schema::{SerdeError, ShapeRef, Shapes};
use smithy_value::{Value, read_value};
use std::alloc::Global;

/// Reads the value that the whole input spells in the wire `from`. The root is a structure of the table. The texts and bytes of the
/// value borrow from the input, where they stand in it in one piece.
///
/// Forms are not read: as `from` the wire answers `InvalidInput`. `Inexpressible` is never answered.
pub fn read_body<'a>(
    alloc: Global,
    shapes: &Shapes,
    root: ShapeRef,
    from: &Wire,
    input: &'a [u8],
) -> Result<Value<'a>, TranscodeError>
    requires root { IsStructure (kind_of shapes.now (shape_place root.0)) }
    ensures { ReadsBody view shapes.now root.0 (wire_of from.now) input.now result }
{
    match read_whole_value(alloc, shapes, root, from, input) {
        Ok(value) => Ok(value),
        Err(error) => Err(refusal(error)),
    }
}

// The value that the whole input spells.
fn read_whole_value<'a>(
    alloc: Global,
    shapes: &Shapes,
    root: ShapeRef,
    from: &Wire,
    input: &'a [u8],
) -> Result<Value<'a>, SerdeError>
    requires root { IsStructure (kind_of shapes.now (shape_place root.0)) }
    ensures { ReadsWhole view (wire_of from.now) shapes.now root.0 input.now result }
{
    let schema = shapes.schema(root);
    match from {
        Wire::Json {
            use_json_name,
            integral,
        } => {
            let json = JsonCodec::strict_with_integral_numbers(*use_json_name, *integral);
            let mut reader = json.create_deserializer(alloc, input);
            read_value(alloc, &mut reader, &schema)
        }
        Wire::Cbor { .. } => {
            let mut reader = CborCodec::strict().create_deserializer(alloc, input);
            read_value(alloc, &mut reader, &schema)
        }
        Wire::Query { .. } => Err(SerdeError::InvalidInput),
    }
}
