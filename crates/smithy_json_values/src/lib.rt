//! Values of JSON at offsets of an input, as settings have them read (RFC 8259): where each ends and what it says.
#![tactic(auto)]

pub mod documents;
pub mod input;
pub mod instants;
pub mod integers;
pub mod long_runs;
pub mod mismatch;
pub mod number_runs;
pub mod numbers;
pub mod places;
pub mod skip;
pub mod texts;
pub mod values;
