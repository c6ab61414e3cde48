//! What the body of an error answer says of its error, in JSON and in CBOR.
#![tactic(auto)]

mod cbor;
mod error_body;
mod json;
mod keys;
mod reading;

pub use cbor::read_cbor_error;
pub use error_body::{ErrorBody, ErrorBodyFault};
pub use json::read_json_error;
