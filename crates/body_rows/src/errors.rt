//! Rows of error answers.

use crate::answers::{push, push_text};
use smithy_error_metadata::Builder;
use smithy_protocol::{AwsJsonRpcProtocol, Headers, Response, RpcV2CborProtocol};
use smithy_rows::{Field, Row};
use smithy_schema::SerdeError;
use std::alloc::{AllocError, Global};

// The first word of a text, and what stands behind it.
pub(crate) fn split(text: &str) -> (&str, &str) {
    text.split_once(' ').unwrap_or((text, ""))
}

// The headers that the row inserts.
fn headers_of(alloc: Global, row: &Row) -> Result<Headers, AllocError> {
    let mut headers = Headers::new(alloc);
    for field in &row.fields {
        if field.word.as_str() == "insert" {
            if let Ok(text) = str::from_utf8(&field.value) {
                let (name, value) = split(text);
                headers.insert(name.to_string(alloc)?, value.to_string(alloc)?)?;
            }
        }
    }
    Ok(headers)
}

fn response_of(alloc: Global, row: &Row) -> Result<Response, AllocError> {
    let body = row.bytes("response").unwrap_or(b"");
    Ok(Response {
        status: 400,
        headers: headers_of(alloc, row)?,
        body: Vec::from_slice(alloc, body)?,
    })
}

// The code, the message and the type.
fn lines(alloc: Global, answered: Result<Builder, SerdeError>) -> Result<Vec<Field>, AllocError> {
    let mut answers = Vec::new(alloc);
    match answered {
        Ok(builder) => {
            let metadata = builder.build();
            push_text(alloc, &mut answers, metadata.code())?;
            push_text(alloc, &mut answers, metadata.message())?;
            push_text(alloc, &mut answers, metadata.extra("type"))?;
        }
        Err(error) => {
            let name = format!(in alloc; "{error}")?;
            push(alloc, &mut answers, "refused", name.as_bytes())?;
        }
    }
    Ok(answers)
}

/// What an error answer of this protocol says.
pub fn answers(alloc: Global, row: &Row, protocol: &str) -> Result<Vec<Field>, AllocError> {
    let response = response_of(alloc, row)?;
    match protocol {
        "awsJson1_0" => lines(
            alloc,
            AwsJsonRpcProtocol::aws_json_1_0().parse_error_metadata(alloc, &response),
        ),
        "awsJson1_1" => lines(
            alloc,
            AwsJsonRpcProtocol::aws_json_1_1().parse_error_metadata(alloc, &response),
        ),
        "rpcv2Cbor" => lines(
            alloc,
            RpcV2CborProtocol::new().parse_error_metadata(alloc, &response),
        ),
        _ => Ok(Vec::new(alloc)),
    }
}
