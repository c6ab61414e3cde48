//! The text of a table, as its declarations are written.
//!
//! `text_of` answers the text of declarations, where it is a table and reads as these very declarations.
#![tactic(auto)]

mod equal;
mod fault;
mod text;
mod writing;

pub use fault::TextFault;
pub use text::text_of;
