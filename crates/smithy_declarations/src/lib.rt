//! Declarations of shapes: their text, and which of them are a table.
#![tactic(auto)]

pub mod acceptance;
mod decl;
mod fault;
pub mod names;
mod place;
mod shape_id;
mod shape_type;
mod table_text;
mod time_forms;

pub use decl::{Decl, MemberDecl};
pub use fault::TableFault;
pub use place::{Place, Target};
pub use shape_id::ShapeId;
pub use shape_type::{Scalar, ShapeRef, ShapeType, TimestampFormat};
pub use table_text::TableText;
