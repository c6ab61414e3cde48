//! JSON texts (RFC 8259): escaped strings and writers. It hands on the scanners and the strings of smithy_json_grammar.
#![tactic(auto)]

mod document_writer;
mod escape;
mod scalar_writer;
mod writer;

pub use document_writer::push_document;
pub use escape::{escape_string, push_escaped};
pub use smithy_json_grammar::{EscapeError, EscapedStr, number_of_long, number_of_text, scan};
pub use writer::{JsonArrayWriter, JsonObjectWriter, JsonValueWriter};
