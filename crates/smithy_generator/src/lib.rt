//! An input that a number generates, for runs that need a large one: a JSON text of items, and the table that directs it.
#![tactic(auto)]

mod generating;

pub use generating::{generate, table_text};
