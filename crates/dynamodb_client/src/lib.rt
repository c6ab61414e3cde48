//! A client's own types for PutItem of Amazon DynamoDB, whose attribute values hold one another, on any wire.
#![tactic(auto)]

mod attribute_value;
mod attribute_writing;
mod put_item;

pub use attribute_value::{AttributeValue, are_attributes, read_attribute_value, read_attributes};
pub use attribute_writing::{write_attribute_value, write_attributes};
pub use put_item::{PutItemInput, read_put_item, write_put_item};
