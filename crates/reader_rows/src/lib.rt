//! Rows of calls on readers and serializers, which they name (docs/ROWS.md).
#![tactic(auto)]

mod answers;
mod borrowing;
mod clients;
mod consumers;
mod containers;
mod first_two;
mod json_settings;
mod longs;
mod named;
mod numbers;
mod places;
mod prefix;
mod program;
mod reading;
mod reads;
mod settings;
mod sized;
mod writes;
mod writing;

pub use program::Codecs;
