//! What an error answer says of its error.
#![tactic(auto)]

mod error_metadata;

pub use error_metadata::{Builder, EMPTY_ERROR_METADATA, ErrorMetadata, ProvideErrorMetadata};
