//! What clients and mocks of services stand on: heads of requests, and what an error answer says.
#![tactic(auto)]

mod aws_json;
mod aws_query;
mod body;
mod error_answer;
mod error_code;
mod head;
mod headers;
mod message;
mod rpc_v2_cbor;

pub use aws_json::AwsJsonRpcProtocol;
pub use aws_query::AwsQueryProtocol;
pub use error_code::{parse_query_compatible_header, sanitize_error_code};
pub use headers::Headers;
pub use message::{ProtocolConfig, Request, Response};
pub use rpc_v2_cbor::RpcV2CborProtocol;
