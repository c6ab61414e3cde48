//! Reading and writing CBOR values (RFC 8949), call by call.
#![tactic(auto)]

mod big_endian;
mod decimal;
mod decoder;
mod encoder;
mod error;
mod heads;
mod initial;
mod optional;
mod tagged;

pub use cbor_item::ItemType as CborType;
pub use decoder::Decoder;
pub use encoder::Encoder;
pub use error::{DecodeKind, DeserializeError, EncodeError};
pub use optional::set_optional;
