//! The grammar of JSON texts (RFC 8259): scanners of its parts, and what strings and numbers say.
#![tactic(auto)]

mod escape_error;
mod held_number;
pub mod lanes;
pub mod number_grammar;
pub mod number_run;
pub mod number_text;
pub mod quoted_text;
pub mod scan;
pub mod string_text;
mod unescape;

pub use escape_error::EscapeError;
pub use held_number::{number_of_long, number_of_text};
pub use unescape::EscapedStr;
