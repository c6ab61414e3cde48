//! A caller of the libraries, as README.md and docs/LIBRARIES.md show it.
use smithy_cbor_codec::CborCodec;
use smithy_json_codec::JsonCodec;
use smithy_schema::{FinishSerializer, Shapes, TableText};
use smithy_transcode::{Value, read_value};
use smithy_typed::Typed;
use std::alloc::Global;
use sts_client::{
    AssumeRoleRequest, Credentials, read_assume_role_request, read_credentials,
    write_assume_role_request,
};

// The member `a` of a body, or `None` where it spells no structure; `Some(None)` where there is no such member.
fn member_a(alloc: Global, body: &[u8]) -> Option<Option<i128>> {
    let table = TableText::read(alloc, b"structure S\nmember a long\n").ok()?;
    let shapes = Shapes::build(alloc, table).ok()?;
    let root = shapes.find("S")?;
    let codec = JsonCodec::strict(false);
    let mut reader = codec.create_deserializer(alloc, body);
    match read_value(alloc, &mut reader, &shapes.schema(root)).ok()? {
        // The members of a structure go by their positions in the table.
        Value::Structure(members) => match members.get(&0) {
            Some(Value::Whole(n)) => Some(Some(*n)),
            _ => Some(None),
        },
        _ => None,
    }
}

pub fn a_body_is_read(alloc: Global) -> bool {
    member_a(alloc, b"{\"z\":[1], \"a\" : 7}") == Some(Some(7))
        && member_a(alloc, b"{}") == Some(None)
}

// The body in CBOR of a request that a body in JSON spells.
fn request_in_cbor(alloc: Global, shapes: &Shapes, body: &[u8]) -> Option<Vec<u8>> {
    let schema = AssumeRoleRequest::accept(shapes, "AssumeRoleRequest")?;
    let codec = JsonCodec::strict(false);
    let mut reader = codec.create_deserializer(alloc, body);
    let request = read_assume_role_request(&schema, &mut reader).ok()?;
    let mut writer = CborCodec::strict().create_serializer(alloc);
    write_assume_role_request(&mut writer, &schema, &request).ok()?;
    writer.finish().ok()
}

const REQUEST: &[u8] =
    b"list Tags Tag\nstructure Tag\nmember Key string\nmember Value string\nstructure AssumeRoleRequest\nmember RoleArn string\nmember RoleSessionName string\nmember Policy string\nmember DurationSeconds integer\nmember Tags Tags\n";

pub fn a_request_is_read_and_written(alloc: Global) -> Option<bool> {
    let table = TableText::read(alloc, REQUEST).ok()?;
    let shapes = Shapes::build(alloc, table).ok()?;
    let body = request_in_cbor(alloc, &shapes, b"{\"RoleArn\":\"a\"}")?;
    Some(body.as_slice() == b"\xbf\x67RoleArn\x61a\xff".as_slice())
}

const CREDENTIALS: &[u8] =
    b"structure Credentials\nmember AccessKeyId string\nmember SecretAccessKey string\nmember SessionToken string\nmember Expiration timestamp\n";

// A part of an answer that is read by itself, from a codec that gives nulls of members.
pub fn a_null_token_is_no_token(alloc: Global) -> Option<bool> {
    let table = TableText::read(alloc, CREDENTIALS).ok()?;
    let shapes = Shapes::build(alloc, table).ok()?;
    let schema = Credentials::accept(&shapes, "Credentials")?;
    let codec = CborCodec::default();
    let mut reader = codec.create_deserializer(alloc, b"\xa1\x6cSessionToken\xf6");
    let keys = read_credentials(&schema, &mut reader).ok()?;
    Some(keys.session_token.is_none())
}
