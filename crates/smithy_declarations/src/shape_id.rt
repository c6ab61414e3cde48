//! The identifier of a shape.
ghost use Rattle.std.specs.Prelude.{◌≡◌, List, ℕ};
ghost use Rattle.std.specs.Cow.{cow_str_bytes};

use std::borrow::CowStr;
use std::marker::Model;

/// The identifier of a shape in a Smithy model, as `aws.protocols#awsJson1_0`. Any text is kept as it is given: its form isn't
/// tested. Contracts see it as its text.
#[derive(Debug, Drop)]
pub struct ShapeId {
    text: CowStr<'static>,
}

impl Model for ShapeId {
    ghost Value = { List ℕ };

    ghost view = { λ id. cow_str_bytes id.text };
}

impl ShapeId {
    /// The identifier with this text.
    pub fn new(text: CowStr<'static>) -> ShapeId
        ensures { result ≡ cow_str_bytes text.entry }
    {
        ShapeId { text }
    }

    /// The text.
    pub fn as_str(&self) -> &str
        ensures { result.now ≡ self.now }
    {
        self.text.as_str()
    }
}
