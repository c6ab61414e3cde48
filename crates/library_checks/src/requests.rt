//! A request of a client, and the error that a service answers, as docs/LIBRARIES.md shows them.
ghost use Rattle.smithy_shapes.specs.Site.{site_of};

use smithy_error_metadata::ErrorMetadata;
use smithy_protocol::{AwsJsonRpcProtocol, Headers, ProtocolConfig, Request, Response};
use smithy_schema::{
    Schema, SerdeError, SerializableStruct, ShapeSerializer, Shapes, TableText, WriteMember,
};
use std::alloc::Global;

// What Scan is given: the name of a table, and how many items are looked at.
#[derive(Clone, Copy)]
struct Scan<'s> {
    shape: Schema<'s>,
    table_name: &'s str,
    limit: i32,
}

impl<'s> SerializableStruct for Scan<'s> {
    ghost site = { λ scan. site_of scan.shape };

    // The check tells what it adds.
    ghost adds = { λ _ _ _ _ _. Unit {0} };

    fn schema(&self) -> Schema<'_> {
        self.shape
    }

    fn serialize_members<S: ShapeSerializer>(&self, sink: &mut S) -> Result<(), SerdeError> {
        if let Some(member) = self.shape.member_schema("TableName") {
            self.table_name.write_member(sink, &member)?;
        }
        if let Some(member) = self.shape.member_schema("Limit") {
            self.limit.write_member(sink, &member)?;
        }
        Ok(())
    }
}

// The request of Scan of Amazon DynamoDB.
fn scan_request(alloc: Global, input: &Scan<'_>) -> Option<Request> {
    let config = ProtocolConfig {
        operation: Some(String::from_str(alloc, "Scan").ok()?),
        service_name: Some(String::from_str(alloc, "DynamoDB_20120810").ok()?),
        namespace: None,
        version: None,
    };
    let protocol = AwsJsonRpcProtocol::aws_json_1_0();
    protocol
        .serialize_request(alloc, input, &input.shape, "", &config)
        .ok()
}

// Which error an answer is, and what it says.
fn error_of(alloc: Global, body: &[u8]) -> Option<ErrorMetadata> {
    let response = Response {
        status: 400,
        headers: Headers::new(alloc),
        body: Vec::from_slice(alloc, body).ok()?,
    };
    let protocol = AwsJsonRpcProtocol::aws_json_1_0();
    Some(
        protocol
            .parse_error_metadata(alloc, &response)
            .ok()?
            .build(),
    )
}

pub fn a_request_is_made(alloc: Global) -> Option<bool> {
    let text = b"structure S\nmember TableName string\nmember Limit integer\n";
    let table = TableText::read(alloc, text).ok()?;
    let shapes = Shapes::build(alloc, table).ok()?;
    let input = Scan {
        shape: shapes.schema(shapes.find("S")?),
        table_name: "Books",
        limit: 10,
    };
    let request = scan_request(alloc, &input)?;
    Some(
        request.headers.get("x-amz-target") == Some("DynamoDB_20120810.Scan")
            && request.body.as_slice() == b"{\"TableName\":\"Books\",\"Limit\":10}".as_slice(),
    )
}

pub fn an_error_is_read(alloc: Global) -> Option<bool> {
    let body =
        b"{\"__type\":\"com.amazonaws.dynamodb.v20120810#ResourceNotFoundException\",\"message\":\"..\"}";
    let metadata = error_of(alloc, body)?;
    let copy = metadata.clone_in(alloc).ok()?;
    Some(
        metadata.code() == Some("ResourceNotFoundException")
            && metadata.message() == Some("..")
            && metadata == copy,
    )
}

// An answer of a service with this body.
fn answer(alloc: Global, body: &[u8]) -> Option<Response> {
    Some(Response {
        status: 200,
        headers: Headers::new(alloc),
        body: Vec::from_slice(alloc, body).ok()?,
    })
}

fn configuration(alloc: Global, namespace: &str) -> Option<ProtocolConfig> {
    Some(ProtocolConfig {
        operation: None,
        service_name: None,
        namespace: Some(String::from_str(alloc, namespace).ok()?),
        version: None,
    })
}

// The shape that the document in an answer names.
fn shape_of(
    alloc: Global,
    protocol: &AwsJsonRpcProtocol,
    namespace: &str,
    body: &[u8],
) -> Option<String> {
    let config = configuration(alloc, namespace)?;
    let response = answer(alloc, body)?;
    let mut reader = protocol.deserialize_response(alloc, &response, &config);
    let document = reader.read_discriminated_document().ok()?;
    let name = document.discriminator()?;
    String::from_str(alloc, name).ok()
}

pub fn relative_names_stand_in_the_namespace_of_the_protocol(alloc: Global) -> Option<bool> {
    let protocol = AwsJsonRpcProtocol::aws_json_1_1();
    let named = b"{\"__type\":\"T\"}";
    let of_the_service = shape_of(alloc, &protocol, "com.example", named)?;
    let own = String::from_str(alloc, "com.own").ok()?;
    let protocol = protocol.with_default_namespace(own);
    let of_its_own = shape_of(alloc, &protocol, "com.example", named)?;
    Some(of_the_service.as_str() == "com.example#T" && of_its_own.as_str() == "com.own#T")
}
