//! Data items of CBOR at offsets of an input, as values that a schema asks for (RFC 8949): where each ends and what it says.
#![tactic(auto)]

pub mod container_size;
pub mod instants;
mod integers;
pub mod long_runs;
pub mod numbers;
pub mod places;
pub mod values;
