//! Wires by their names.

use smithy_rows::Row;
use smithy_transcode::Wire;
use std::alloc::{AllocError, Global};

fn json(use_json_name: bool, integral: bool) -> Wire {
    Wire::Json {
        use_json_name,
        integral,
    }
}

/// The wire of a name. The action and the version of a form stand in the row.
pub fn wire(alloc: Global, row: &Row, name: &str) -> Result<Option<Wire>, AllocError> {
    match name {
        "json" => Ok(Some(json(false, false))),
        "json-name" => Ok(Some(json(true, false))),
        "json-integral" => Ok(Some(json(false, true))),
        "json-name-integral" => Ok(Some(json(true, true))),
        "cbor" => Ok(Some(Wire::Cbor { definite: false })),
        "cbor-definite" => Ok(Some(Wire::Cbor { definite: true })),
        "query" => Ok(Some(Wire::Query {
            action: row.text("action").unwrap_or("").to_string(alloc)?,
            version: row.text("version").unwrap_or("").to_string(alloc)?,
        })),
        _ => Ok(None),
    }
}

/// The wire that the row names behind a word.
pub fn wire_of(alloc: Global, row: &Row, word: &str) -> Result<Option<Wire>, AllocError> {
    match row.text(word) {
        Some(name) => wire(alloc, row, name),
        None => Ok(None),
    }
}
