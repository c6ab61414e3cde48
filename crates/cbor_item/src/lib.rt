//! CBOR data items: heads, types and well-formed encodings (RFC 8949, section 3).
#![tactic(auto)]

mod chunk;
mod error;
mod head;
mod kind;
mod skip;
mod strings;

pub use error::ItemError;
pub use head::{Head, read_head, write_head};
pub use kind::{ItemType, item_type};
pub use skip::skip_item;
pub use strings::{byte_chunks, text_chunks};
