//! Requests of recorded bodies, and of values in another protocol than that of their bodies.
use smithy_protocol::{ProtocolConfig, Request, RpcV2CborProtocol};
use smithy_replay::{TreeStruct, request_of};
use smithy_schema::{ShapeType, Shapes, TableText};
use smithy_transcode::{Wire, read_body};
use std::alloc::Global;

const TABLE: &[u8] =
    b"map Item Attribute\nunion Attribute\nmember S string\nmember N string\nstructure PutItemInput\nmember TableName string\nmember Item Item\n";

const BODY: &[u8] =
    b"{\"Item\":{\"Title\":{\"S\":\"a b\"},\"Pages\":{\"N\":\"7\"}},\"TableName\":\"Books\"}";

// The table of the body.
fn table(alloc: Global) -> Option<Shapes> {
    Shapes::build(alloc, TableText::read(alloc, TABLE).ok()?).ok()
}

// The request of AWS Query for the body.
fn form_request(alloc: Global, shapes: &Shapes) -> Option<Request> {
    let root = shapes.find("PutItemInput")?;
    let ShapeType::Structure = shapes.schema(root).shape_type() else {
        return None;
    };
    request_of(alloc, shapes, root, "PutItem", "2012-08-10", BODY).ok()
}

// The request of RPC v2 CBOR for the value of the body.
fn cbor_request(alloc: Global, shapes: &Shapes) -> Option<Request> {
    let root = shapes.find("PutItemInput")?;
    let schema = shapes.schema(root);
    let ShapeType::Structure = schema.shape_type() else {
        return None;
    };
    let json = Wire::Json {
        use_json_name: false,
        integral: false,
    };
    let value = read_body(alloc, shapes, root, &json, BODY).ok()?;
    let config = ProtocolConfig {
        operation: Some(String::from_str(alloc, "PutItem").ok()?),
        service_name: Some(String::from_str(alloc, "Books").ok()?),
        namespace: None,
        version: None,
    };
    let written = TreeStruct::new(alloc, schema, &value);
    RpcV2CborProtocol::new()
        .serialize_request(alloc, &written, &schema, "", &config)
        .ok()
}

/// A recorded body becomes a request with a form.
pub fn a_recorded_body_becomes_a_form(alloc: Global) -> Option<bool> {
    let shapes = table(alloc)?;
    let request = form_request(alloc, &shapes)?;
    let form =
        b"Action=PutItem&Version=2012-08-10&TableName=Books&Item.entry.1.key=Pages&Item.entry.1.value.N=7&Item.entry.2.key=Title&Item.entry.2.value.S=a%20b";
    Some(
        request.method.as_str() == "POST"
            && request.uri.as_str() == "/"
            && request.headers.get("content-type") == Some("application/x-www-form-urlencoded")
            && request.headers.get("content-length") == Some("145")
            && request.body.as_slice() == form.as_slice(),
    )
}

/// A value is written by another protocol than that of its body.
pub fn a_value_is_a_request_in_another_protocol(alloc: Global) -> Option<bool> {
    let shapes = table(alloc)?;
    let request = cbor_request(alloc, &shapes)?;
    let body =
        b"\xbf\x69TableName\x65Books\x64Item\xbf\x65Pages\xbf\x61N\x617\xff\x65Title\xbf\x61S\x63a b\xff\xff\xff";
    Some(
        request.uri.as_str() == "/service/Books/operation/PutItem"
            && request.body.as_slice() == body.as_slice(),
    )
}
