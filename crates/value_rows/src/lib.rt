//! Rows of texts, which are values, JSON and its tokens, and rows of the items and values of CBOR (docs/ROWS.md).
#![tactic(auto)]

mod allowed_numbers;
mod coercions;
mod decoded;
mod documents;
mod encoded;
mod instants;
mod item_calls;
mod items;
mod kinds;
mod literals;
mod numbers;
mod reads;
mod skips;
mod stops;
mod strings;
mod takes;
mod texts;
mod tokens;
mod values;
mod words;
mod writes;

pub use item_calls::Items;
pub use texts::Texts;
