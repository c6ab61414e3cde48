//! Requests, responses, and what a client says of an operation.
use crate::headers::Headers;

/// A request, whole but for its signature, and for the header `x-amzn-query-mode` that some services of AWS Query want.
#[derive(Debug, Drop)]
pub struct Request {
    /// `POST`.
    pub method: String,
    /// The path on the service's host, or a whole address.
    pub uri: String,
    /// In order.
    pub headers: Headers,
    /// The whole body.
    pub body: Vec<u8>,
}

/// What a service answers.
#[derive(Debug, Drop)]
pub struct Response {
    /// The status code of HTTP, as 400. No call looks at it.
    pub status: u16,
    /// In order.
    pub headers: Headers,
    /// The whole body.
    pub body: Vec<u8>,
}

/// What a protocol is told of an operation.
#[derive(Debug, Drop)]
pub struct ProtocolConfig {
    /// The name of the operation, as `PutItem`.
    pub operation: Option<String>,
    /// The name of the service's shape, as `DynamoDB_20120810`.
    pub service_name: Option<String>,
    /// The namespace of the service's shapes.
    pub namespace: Option<String>,
    /// The version of the service, as `2011-06-15`, which only forms of AWS Query have.
    pub version: Option<String>,
}
