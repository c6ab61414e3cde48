//! The CBOR wire: a reader and a serializer that a schema directs (RFC 8949).
#![tactic(auto)]

mod borrowing;
mod codec;
mod deserializer;
mod ending;
mod frames;
mod keys;
mod member_steps;
mod members;
mod serializer;
mod spans;

pub use codec::CborCodec;
pub use deserializer::CborDeserializer;
pub use serializer::CborSerializer;
pub use smithy_cbor_body::{CborBody, CborCodecSettings, NoPrefix, StructPrefix};
