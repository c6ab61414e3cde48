//! What is found in a body.

use smithy_compare::PathPart;

/// What is found at a path.
#[derive(Clone, Copy, Debug, PartialEq, Eq)]
pub enum Kind {
    /// An entry that names no member of its structure or union.
    Unknown,
    /// What stands there is of another kind, or is no value of the kind.
    Mismatch,
    /// A big number that leaves the limits of its kind.
    Wide,
    /// What the kind or the wire doesn't carry.
    NotCarried,
    /// More containers are open than may be.
    Deep,
    /// A key of the container at the path is no text.
    Key,
    /// The union doesn't have one member.
    Union,
    /// A null where the list or map isn't sparse.
    Null,
}

/// One finding.
#[derive(Debug, Drop)]
pub struct Finding {
    /// Where it was found.
    pub path: Vec<PathPart>,
    /// What it is.
    pub kind: Kind,
}
