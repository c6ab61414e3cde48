//! Where a value stands: what it has to be, and in which form instants are written there.

use crate::shape_type::{Scalar, ShapeRef, TimestampFormat};

/// What a member or an element is.
#[derive(Clone, Copy, Debug, PartialEq, Eq)]
pub enum Target {
    /// A scalar.
    Simple(Scalar),
    /// A document: open content, which no shape describes.
    Document,
    /// The declaration of that number.
    Declared(ShapeRef),
}

/// A target with the time form that is given at it, if one is.
#[derive(Clone, Copy, Debug, PartialEq, Eq)]
pub struct Place {
    pub target: Target,
    pub time: Option<TimestampFormat>,
}
