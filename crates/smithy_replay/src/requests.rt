//! The request that a body in JSON asks for.
ghost use Rattle.std.specs.Prelude.{◌≡◌, ◌<◌, ◌^◌, length, false, None, Some, IfOk, IfErr, string_bytes};
ghost use Rattle.smithy_protocol.specs.Messages.{form_names};
ghost use Rattle.smithy_query_codec.specs.Counts.{HasPositions};
ghost use Rattle.smithy_shapes.specs.Accepted.{IsAccepted};
ghost use Rattle.smithy_shapes.specs.Fits.{Fits};
ghost use Rattle.smithy_value.specs.View.{view};
ghost use Rattle.smithy_declarations.specs.Table.{IsStructure, kind_of, shape_place};
ghost use Rattle.smithy_protocol.specs.Messages.{query_request, message_of};
ghost use Rattle.smithy_transcode.specs.Transcoding.{Transcodes};
ghost use Rattle.smithy_transcode.specs.Spelling.{body};
ghost use Rattle.smithy_transcode.specs.Wires.{json, query, wire_of, unfit};
ghost use Rattle.smithy_replay.specs.Requests.{body_answer};

use crate::tree_struct::TreeStruct;
use smithy_protocol::{AwsQueryProtocol, ProtocolConfig, Request};
use smithy_schema::{SerdeError, ShapeRef, Shapes};
use smithy_transcode::{TranscodeError, Value, Wire, expressible, read_body};
use std::alloc::{AllocError, Global};

// The text, as one of its own.
fn copied(alloc: Global, text: &str) -> Result<String, AllocError>
    ensures { IfOk result (λ copy. string_bytes copy ≡ text.now) }
{
    let mut copy = String::new(alloc);
    copy.push_str(text)?;
    Ok(copy)
}

// A form of this action and version.
fn form(alloc: Global, action: &str, version: &str) -> Result<Wire, AllocError>
    ensures { IfOk result (λ wire. wire_of wire ≡ query action.now version.now) }
{
    Ok(Wire::Query {
        action: copied(alloc, action)?,
        version: copied(alloc, version)?,
    })
}

// The configuration of this action and version.
fn config(alloc: Global, action: &str, version: &str) -> Result<ProtocolConfig, AllocError>
    ensures { IfOk result (λ config. form_names None config ≡ Some (action.now, version.now)) }
{
    Ok(ProtocolConfig {
        operation: Some(copied(alloc, action)?),
        service_name: None,
        namespace: None,
        version: Some(copied(alloc, version)?),
    })
}

// The error of a transcoding where memory was wanting.
fn no_memory(_error: SerdeError) -> TranscodeError
    requires { _error ≡ SerdeError.NoMemory }
    ensures { result ≡ TranscodeError.NoMemory }
{
    TranscodeError::NoMemory
}

// The request of a value of the root that a form can express.
fn request_of_value(
    alloc: Global,
    shapes: &Shapes,
    root: ShapeRef,
    action: &str,
    version: &str,
    value: &Value<'_>,
) -> Result<Request, TranscodeError>
    requires root { IsStructure (kind_of shapes.now (shape_place root.0)) }
    requires fits { Fits shapes.now (shape_place root.0) (view value.now) }
    requires positions { HasPositions (view value.now) }
    requires fit { unfit (query action.now version.now) shapes.now root.0 (view value.now) ≡ None }
    ensures head { IfOk result (λ r. message_of r ≡ query_request r.body.items) }
    ensures body { IfOk result (λ r. r.body.items ≡ body (query action.now version.now) shapes.now root.0 (view value.now)) }
    ensures short { IfOk result (λ r. length r.body.items < 2 ^ 64) }
    ensures memory { IfErr result (λ e. e ≡ TranscodeError.NoMemory) }
    ensures accepted { IsAccepted shapes.now }
{
    let schema = shapes.schema(root);
    let config = match config(alloc, action, version) {
        Ok(config) => config,
        Err(_) => return Err(TranscodeError::NoMemory),
    };
    let written = TreeStruct::new(alloc, schema, value);
    match AwsQueryProtocol::new().serialize_request(alloc, &written, &schema, "/", &config) {
        Ok(request) => Ok(request),
        Err(error) => Err(no_memory(error)),
    }
}

/// The request of AWS Query that has as its body the form of what a line spells in JSON, with this action and version. The root is a
/// structure of the table. Its answers are those of `transcode` from JSON to this form.
pub fn request_of(
    alloc: Global,
    shapes: &Shapes,
    root: ShapeRef,
    action: &str,
    version: &str,
    line: &[u8],
) -> Result<Request, TranscodeError>
    requires root { IsStructure (kind_of shapes.now (shape_place root.0)) }
    ensures head { IfOk result (λ r. message_of r ≡ query_request r.body.items) }
    ensures transcodes { Transcodes shapes.now root.0 (json false false) line.now (query action.now version.now) (body_answer result) }
{
    let from = Wire::Json {
        use_json_name: false,
        integral: false,
    };
    let value = read_body(alloc, shapes, root, &from, line)?;
    let to = match form(alloc, action, version) {
        Ok(to) => to,
        Err(_) => return Err(TranscodeError::NoMemory),
    };
    if let Some(lacking) = expressible(shapes, root, &value, &to) {
        return Err(TranscodeError::Inexpressible(lacking));
    }
    request_of_value(alloc, shapes, root, action, version, &value)
}
