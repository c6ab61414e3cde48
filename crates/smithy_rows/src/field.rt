//! The bytes that a field stands for.

use std::alloc::{AllocError, Global};

/// The bytes of a field: those of its text, or where it begins with `0x` and pairs of hexadecimal digits follow, what these
/// encode.
pub fn bytes_of(alloc: Global, text: &str) -> Result<Vec<u8>, AllocError> {
    if let Some(digits) = text.strip_prefix("0x") {
        if let Ok(bytes) = hex::decode(alloc, digits) {
            return Ok(bytes);
        }
    }
    text.as_bytes().to_vec(alloc)
}

// Whether each byte of the text shows.
fn shows(text: &str) -> bool {
    for byte in text.as_bytes() {
        if *byte < 0x20 || *byte == 0x7f {
            return false;
        }
    }
    true
}

// Whether the text stands for itself in a row, where blanks at either end don't show.
fn is_plain(text: &str) -> bool {
    shows(text) && text.trim_matches(' ') == text && !text.starts_with("0x")
}

/// A field that stands for these bytes: as text where all of it shows, else in hexadecimal digits.
pub fn shown(alloc: Global, bytes: &[u8]) -> Result<String, AllocError> {
    if let Ok(text) = str::from_utf8(bytes) {
        if is_plain(text) {
            return text.to_string(alloc);
        }
    }
    let digits = hex::encode(alloc, bytes)?;
    format!(in alloc; "0x{digits}")
}
