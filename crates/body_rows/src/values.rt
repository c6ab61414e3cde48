//! Values of the root that are read and written, by each wire.
ghost use Rattle.std.specs.Prelude.{◌≡◌, true, IfOk};
ghost use Rattle.smithy_shapes.specs.Fits.{Fits};
ghost use Rattle.smithy_declarations.specs.Table.{IsStructure, kind_of, shape_place};
ghost use Rattle.smithy_value.specs.View.{view};

use smithy_cbor_codec::{CborCodec, CborCodecSettings};
use smithy_json_codec::{JsonCodec, JsonCodecSettings};
use smithy_query_codec::QueryShapeSerializer;
use smithy_schema::{BorrowDeserializer, FinishSerializer, SerdeError, ShapeRef, Shapes};
use smithy_transcode::{Unfit, Value, Wire, expressible_at, read_value, write_value};
use std::alloc::Global;

// The value that a reader gives.
fn read_by<'a, D: BorrowDeserializer<'a>>(
    alloc: Global,
    shapes: &Shapes,
    root: ShapeRef,
    source: &mut D,
) -> Result<Value<'a>, SerdeError>
    requires root { IsStructure (kind_of shapes.now (shape_place root.0)) }
    requires due { (D.state source.old).due ≡ true }
    ensures { IfOk result (λ v. Fits shapes.now (shape_place root.0) (view v)) }
{
    let schema = shapes.schema(root);
    read_value(alloc, source, &schema)
}

/// The same by a codec that hands nulls of members on.
pub fn read_dispatching<'a>(
    alloc: Global,
    shapes: &Shapes,
    root: ShapeRef,
    from: &Wire,
    input: &'a [u8],
) -> Result<Value<'a>, SerdeError>
    requires root { IsStructure (kind_of shapes.now (shape_place root.0)) }
    ensures { IfOk result (λ v. Fits shapes.now (shape_place root.0) (view v)) }
{
    match from {
        Wire::Json { .. } => {
            let settings = JsonCodecSettings::builder()
                .dispatch_null_members(true)
                .build();
            let codec = JsonCodec::new(settings);
            let mut source = codec.create_deserializer(alloc, input);
            read_by(alloc, shapes, root, &mut source)
        }
        Wire::Cbor { .. } => {
            let mut source = CborCodec::default().create_deserializer(alloc, input);
            read_by(alloc, shapes, root, &mut source)
        }
        Wire::Query { .. } => Err(SerdeError::InvalidInput),
    }
}

/// The value that the input spells. Forms aren't read.
pub fn read<'a>(
    alloc: Global,
    shapes: &Shapes,
    root: ShapeRef,
    from: &Wire,
    input: &'a [u8],
) -> Result<Value<'a>, SerdeError>
    requires root { IsStructure (kind_of shapes.now (shape_place root.0)) }
    ensures { IfOk result (λ v. Fits shapes.now (shape_place root.0) (view v)) }
{
    match from {
        Wire::Json {
            use_json_name,
            integral,
        } => {
            let codec = JsonCodec::strict_with_integral_numbers(*use_json_name, *integral);
            let mut source = codec.create_deserializer(alloc, input);
            read_by(alloc, shapes, root, &mut source)
        }
        Wire::Cbor { .. } => {
            let mut source = CborCodec::strict().create_deserializer(alloc, input);
            read_by(alloc, shapes, root, &mut source)
        }
        Wire::Query { .. } => Err(SerdeError::InvalidInput),
    }
}

/// What the wire lacks for the value at the place of the root.
pub fn lacking(shapes: &Shapes, root: ShapeRef, value: &Value<'_>, to: &Wire) -> Option<Unfit>
    requires root { IsStructure (kind_of shapes.now (shape_place root.0)) }
    requires fits { Fits shapes.now (shape_place root.0) (view value.now) }
{
    let schema = shapes.schema(root);
    expressible_at(&schema, value, to)
}

// The bytes of a serializer that takes the value.
fn write_by<S: FinishSerializer + Drop>(
    alloc: Global,
    mut sink: S,
    shapes: &Shapes,
    root: ShapeRef,
    value: &Value<'_>,
) -> Result<Vec<u8>, SerdeError>
    requires root { IsStructure (kind_of shapes.now (shape_place root.0)) }
    requires fits { Fits shapes.now (shape_place root.0) (view value.now) }
{
    let schema = shapes.schema(root);
    write_value(alloc, &mut sink, &schema, value)?;
    sink.finish()
}

/// The bytes of the value.
pub fn write(
    alloc: Global,
    shapes: &Shapes,
    root: ShapeRef,
    value: &Value<'_>,
    to: &Wire,
) -> Result<Vec<u8>, SerdeError>
    requires root { IsStructure (kind_of shapes.now (shape_place root.0)) }
    requires fits { Fits shapes.now (shape_place root.0) (view value.now) }
{
    match to {
        Wire::Json { use_json_name, .. } => {
            let codec = JsonCodec::strict(*use_json_name);
            let sink = codec.create_serializer(alloc);
            write_by(alloc, sink, shapes, root, value)
        }
        Wire::Cbor { definite } => {
            let settings = CborCodecSettings::strict().use_definite_lengths(*definite);
            let sink = CborCodec::new(settings).create_serializer(alloc);
            write_by(alloc, sink, shapes, root, value)
        }
        Wire::Query { action, version } => {
            let sink = QueryShapeSerializer::new(alloc, action.as_str(), version.as_str())?;
            write_by(alloc, sink, shapes, root, value)
        }
    }
}
