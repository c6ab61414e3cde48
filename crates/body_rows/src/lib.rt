//! Rows of bodies that are transcoded or compared, of the tables that direct it and the models that tables are made from, and of
//! requests, error answers, headers and metadata of errors (docs/ROWS.md).
#![tactic(auto)]

mod answers;
mod bodies;
mod borrowing;
mod comparing;
mod errors;
mod expressing;
mod input;
mod models;
mod parts;
mod places;
mod protocols;
mod questions;
mod requests;
mod tables;
mod transcoding;
mod values;
mod wires;

pub use models::Tables;
pub use protocols::Requests;
pub use transcoding::Transcoding;
