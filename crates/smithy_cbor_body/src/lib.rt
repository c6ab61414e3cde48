//! Bodies of CBOR that are written as a schema directs (RFC 8949), and the settings of their codec.
#![tactic(auto)]

mod body;
mod lengths;
mod prefix;
mod settings;
mod whole_numbers;

pub use body::CborBody;
pub use prefix::{NoPrefix, StructPrefix};
pub use settings::CborCodecSettings;
