//! Every finding of a body: what of it means nothing at its place, and what a table doesn't know.
#![tactic(auto)]

mod body;
mod cbor_body;
mod cbor_end;
mod documents;
mod elements;
mod finding;
mod json_body;
mod json_text;
mod linter;
mod linting;
mod scalars;
mod verdict;
mod walk;

pub use finding::{Finding, Kind};
pub use linting::{LintError, lint};
