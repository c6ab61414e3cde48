//! Rows of requests.

use crate::answers::{push, push_request};
use crate::input::Input;
use smithy_protocol::{
    AwsJsonRpcProtocol, AwsQueryProtocol, ProtocolConfig, Request, RpcV2CborProtocol,
};
use smithy_rows::{Field, Row};
use smithy_schema::{SerdeError, Shapes};
use std::alloc::{AllocError, Global};

fn text_in(alloc: Global, row: &Row, word: &str) -> Result<Option<String>, AllocError> {
    match row.text(word) {
        Some(text) => Ok(Some(text.to_string(alloc)?)),
        None => Ok(None),
    }
}

fn config_of(alloc: Global, row: &Row) -> Result<ProtocolConfig, AllocError> {
    Ok(ProtocolConfig {
        operation: text_in(alloc, row, "operation")?,
        service_name: text_in(alloc, row, "service")?,
        namespace: None,
        version: text_in(alloc, row, "version")?,
    })
}

// The lines of an identifier, and of a request or of why there is none.
fn lines(
    alloc: Global,
    id: &str,
    answered: Result<Request, SerdeError>,
) -> Result<Vec<Field>, AllocError> {
    let mut answers = Vec::new(alloc);
    push(alloc, &mut answers, "id", id.as_bytes())?;
    match answered {
        Ok(request) => push_request(alloc, &mut answers, &request)?,
        Err(error) => {
            let name = format!(in alloc; "{error}")?;
            push(alloc, &mut answers, "refused", name.as_bytes())?;
        }
    }
    Ok(answers)
}

fn json(
    alloc: Global,
    row: &Row,
    protocol: AwsJsonRpcProtocol,
    input: &Input<'_>,
) -> Result<Vec<Field>, AllocError> {
    let config = config_of(alloc, row)?;
    let protocol = match text_in(alloc, row, "target-prefix")? {
        Some(prefix) => protocol.with_target_prefix(prefix),
        None => protocol,
    };
    let answered = protocol.serialize_request(alloc, input, &input.shape, "", &config);
    lines(alloc, protocol.protocol_id(), answered)
}

fn cbor(alloc: Global, row: &Row, input: &Input<'_>) -> Result<Vec<Field>, AllocError> {
    let config = config_of(alloc, row)?;
    let protocol = RpcV2CborProtocol::new();
    let endpoint = row.text("endpoint").unwrap_or("");
    let answered = protocol.serialize_request(alloc, input, &input.shape, endpoint, &config);
    lines(alloc, protocol.protocol_id(), answered)
}

fn query(alloc: Global, row: &Row, input: &Input<'_>) -> Result<Vec<Field>, AllocError> {
    let config = config_of(alloc, row)?;
    let protocol = match text_in(alloc, row, "service-version")? {
        Some(version) => AwsQueryProtocol::new().with_service_version(version),
        None => AwsQueryProtocol::new(),
    };
    let answered = protocol.serialize_request(alloc, input, &input.shape, "", &config);
    lines(alloc, protocol.protocol_id(), answered)
}

/// What a request of this protocol is, whose body is the structure `S` of the table.
pub fn answers(
    alloc: Global,
    shapes: &Shapes,
    row: &Row,
    protocol: &str,
) -> Result<Vec<Field>, AllocError> {
    let Some(root) = shapes.find("S") else {
        return Ok(Vec::new(alloc));
    };
    let shape = shapes.schema(root);
    let input = Input {
        shape,
        text: row.text("text"),
    };
    match protocol {
        "awsJson1_0" => json(alloc, row, AwsJsonRpcProtocol::aws_json_1_0(), &input),
        "awsJson1_1" => json(alloc, row, AwsJsonRpcProtocol::aws_json_1_1(), &input),
        "rpcv2Cbor" => cbor(alloc, row, &input),
        "awsQuery" => query(alloc, row, &input),
        _ => Ok(Vec::new(alloc)),
    }
}
