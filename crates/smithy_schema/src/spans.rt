//! Texts and bytes by places of an input.
use smithy_types::Blob;

/// A text, by where its bytes stand in an input.
#[derive(Debug, Drop)]
pub enum TextSpan {
    /// They begin at this place, and are so many.
    Placed(usize, usize),
    /// It is in memory of its own.
    Owned(String),
}

/// Bytes, by where they stand in an input.
#[derive(Debug, Drop)]
pub enum BytesSpan {
    /// They begin at this place, and are so many.
    Placed(usize, usize),
    /// They are in memory of their own.
    Owned(Blob),
}
