//! Lines that are bodies: a body in CBOR is a line of base64, and any other body is its line.
ghost use Rattle.std.specs.Prelude.{◌≡◌, ◌++◌, IfOk, IfErr, OnOk, Some, None};
ghost use Rattle.smithy_declarations.specs.Table.{IsStructure, kind_of, shape_place};
ghost use Rattle.smithy_texts.specs.Base64Text.{blob_of};
ghost use Rattle.smithy_transcode.specs.Wires.{wire_of};
ghost use Rattle.smithy_replay.specs.LineBodies.{line_of};
ghost use Rattle.smithy_replay.specs.Private.LineAnswers.{LineGives};

use base64::DecodeAllocError;
use base64::engine::general_purpose::STANDARD;
use smithy_schema::{ShapeRef, Shapes};
use smithy_texts::base64_text::encode;
use smithy_transcode::{TranscodeError, Wire, transcode};
use std::alloc::{AllocError, Global};

// The bytes whose padded base64 is the line.
fn decoded(alloc: Global, line: &[u8]) -> Result<Vec<u8>, TranscodeError>
    ensures ok { IfOk result (λ bytes. blob_of line.now ≡ Some bytes.items) }
    ensures invalid { IfErr result (λ e. e ≡ TranscodeError.InvalidInput → blob_of line.now ≡ None) }
    ensures other { IfErr result (λ e. (e ≡ TranscodeError.InvalidInput → ⊥) → e ≡ TranscodeError.NoMemory) }
{
    match STANDARD.decode(alloc, line) {
        Ok(bytes) => Ok(bytes),
        Err(DecodeAllocError::DecodeError(_)) => Err(TranscodeError::InvalidInput),
        Err(DecodeAllocError::OutOfMemory) => Err(TranscodeError::NoMemory),
    }
}

/// The body in the wire `to` of what a line spells that is a body in the wire `from`.
pub(crate) fn transcode_line(
    alloc: Global,
    shapes: &Shapes,
    root: ShapeRef,
    from: &Wire,
    line: &[u8],
    to: &Wire,
) -> Result<Vec<u8>, TranscodeError>
    requires root { IsStructure (kind_of shapes.now (shape_place root.0)) }
    ensures { LineGives shapes.now root.0 (wire_of from.now) (wire_of to.now) line.now result }
{
    prove!((root.0 as usize) < shapes.len());
    if let Wire::Cbor { .. } = from {
        let body = decoded(alloc, line)?;
        return transcode(alloc, shapes, root, from, &body, to);
    }
    transcode(alloc, shapes, root, from, line, to)
}

/// Appends the line of a body in this wire to the text.
pub(crate) fn push_body(
    alloc: Global,
    wire: &Wire,
    body: &[u8],
    text: &mut Vec<u8>,
) -> Result<(), AllocError>
    ensures { OnOk result (text.new.items ≡ text.old.items ++ line_of (wire_of wire.now) body.now) }
{
    if let Wire::Cbor { .. } = wire {
        let encoded = encode(alloc, body)?;
        return text.extend_from_slice(encoded.as_bytes());
    }
    text.extend_from_slice(body)
}
