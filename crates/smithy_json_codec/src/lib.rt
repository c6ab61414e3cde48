//! The JSON wire: a reader and a serializer that a schema directs (RFC 8259).
#![tactic(auto)]

mod big_numbers;
mod borrowing;
mod codec;
mod deserializer;
mod digits;
mod frames;
mod input;
mod keys;
mod long_lists;
mod member_steps;
mod members;
mod named_documents;
mod named_reads;
mod output;
mod serializer;
mod spans;

pub use codec::JsonCodec;
pub use deserializer::JsonDeserializer;
pub use serializer::JsonSerializer;
pub use smithy_json_settings::{JsonCodecSettings, JsonCodecSettingsBuilder};
