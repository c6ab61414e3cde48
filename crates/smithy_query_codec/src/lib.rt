//! The AWS Query wire: a serializer of forms that a schema directs.
#![tactic(auto)]

mod containers;
mod names;
mod path;
mod serializer;

pub use serializer::QueryShapeSerializer;
