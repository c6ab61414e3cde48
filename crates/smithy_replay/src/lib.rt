//! Requests of AWS Query for recorded bodies, and the answers to lines that are bodies.
//!
//! `TreeStruct` lets `write_struct` and the protocols write any `Value` that is a structure. `request_of` makes the request that a body
//! in JSON asks for. `BodyLines` answers the lines of a log, each by a body or by why there is none.
#![tactic(auto)]

mod body_lines;
mod line_bodies;
mod requests;
mod tree_struct;

pub use body_lines::BodyLines;
pub use requests::request_of;
pub use tree_struct::TreeStruct;
