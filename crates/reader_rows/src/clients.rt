//! Rows of clients' own types, which are read from one wire and written to all.

use crate::answers::{push, push_shown, refused};
use crate::json_settings::json_codec;
use crate::settings::cbor_settings;
use dynamodb_client::{PutItemInput, read_put_item, write_put_item};
use smithy_cbor_codec::CborCodec;
use smithy_json_codec::JsonCodec;
use smithy_query_codec::QueryShapeSerializer;
use smithy_rows::{Field, Row};
use smithy_schema::{
    Accept, FinishSerializer, Schema, SerdeError, ShapeDeserializer, ShapeSerializer, Shapes,
};
use smithy_typed::Typed;
use std::alloc::{AllocError, Global};
use sts_client::{
    AssumeRoleRequest, AssumeRoleResponse, read_assume_role_request, read_assume_role_response,
    write_assume_role_request, write_assume_role_response,
};

// A value of a client's type.
#[derive(Drop)]
enum Kept {
    Request(AssumeRoleRequest),
    Response(AssumeRoleResponse),
    PutItem(PutItemInput),
}

// Reads the value of the type that has this name, where the table declares it so.
fn read<R: ShapeDeserializer>(
    shapes: &Shapes,
    name: &str,
    source: &mut R,
) -> Option<Result<Kept, SerdeError>> {
    match name {
        "AssumeRoleRequest" => {
            let schema = AssumeRoleRequest::accept(shapes, name)?;
            Some(read_assume_role_request(&schema, source).map(Kept::Request))
        }
        "AssumeRoleResponse" => {
            let schema = AssumeRoleResponse::accept(shapes, name)?;
            Some(read_assume_role_response(&schema, source).map(Kept::Response))
        }
        "PutItemInput" => {
            let schema = PutItemInput::accept(shapes, name)?;
            Some(read_put_item(&schema, source).map(Kept::PutItem))
        }
        _ => None,
    }
}

fn write<S: ShapeSerializer>(
    sink: &mut S,
    schema: &Schema<'_>,
    value: &Kept,
) -> Result<(), SerdeError> {
    match value {
        Kept::Request(request) => write_assume_role_request(sink, schema, request),
        Kept::Response(response) => write_assume_role_response(sink, schema, response),
        Kept::PutItem(input) => write_put_item(sink, schema, input),
    }
}

// Adds a line with the body that is written, or with why none is.
fn push_body<S: FinishSerializer + Drop>(
    alloc: Global,
    answers: &mut Vec<Field>,
    wire: &str,
    sink: S,
    schema: &Schema<'_>,
    value: &Kept,
) -> Result<(), AllocError> {
    let mut sink = sink;
    if let Err(error) = write(&mut sink, schema, value) {
        return push_shown(alloc, answers, wire, error);
    }
    match sink.finish() {
        Ok(body) => push(alloc, answers, wire, &body),
        Err(error) => push_shown(alloc, answers, wire, error),
    }
}

fn written(alloc: Global, schema: &Schema<'_>, value: &Kept) -> Result<Vec<Field>, AllocError> {
    let mut answers = Vec::new(alloc);
    let json = JsonCodec::strict(false).create_serializer(alloc);
    push_body(alloc, &mut answers, "json", json, schema, value)?;
    let cbor = CborCodec::strict().create_serializer(alloc);
    push_body(alloc, &mut answers, "cbor", cbor, schema, value)?;
    let form = QueryShapeSerializer::new(alloc, "A", "1")?;
    push_body(alloc, &mut answers, "query", form, schema, value)?;
    Ok(answers)
}

// Reads the value, and writes it to each wire.
fn read_and_written<R: ShapeDeserializer>(
    alloc: Global,
    shapes: &Shapes,
    name: &str,
    source: &mut R,
) -> Result<Vec<Field>, AllocError> {
    let (Some(root), Some(read)) = (shapes.find(name), read(shapes, name, source)) else {
        return refused(alloc, "no such shape");
    };
    match read {
        Ok(value) => written(alloc, &shapes.schema(root), &value),
        Err(error) => {
            let mut answers = Vec::new(alloc);
            push_shown(alloc, &mut answers, "refused", error)?;
            Ok(answers)
        }
    }
}

/// What is written of the value that a client's type reads.
pub fn answers(
    alloc: Global,
    shapes: &Shapes,
    row: &Row,
    name: &str,
) -> Result<Vec<Field>, AllocError> {
    let input = row.bytes("input").unwrap_or(b"");
    match row.text("from") {
        Some("json") => {
            let codec = json_codec(alloc, row, false)?;
            let mut source = codec.create_deserializer(alloc, input);
            read_and_written(alloc, shapes, name, &mut source)
        }
        Some("cbor") => {
            let mut source = CborCodec::new(cbor_settings(row)).create_deserializer(alloc, input);
            read_and_written(alloc, shapes, name, &mut source)
        }
        _ => refused(alloc, "no such wire"),
    }
}
