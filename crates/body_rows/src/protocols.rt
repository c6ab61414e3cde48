//! The kinds of rows of requests and errors.

use crate::tables::shapes_of;
use crate::{errors, parts, requests};
use smithy_rows::{Field, Program, Row, Rows};
use std::alloc::{AllocError, Global};

/// Requests, error answers, headers, codes of errors, and metadata.
pub struct Requests;

impl Program for Requests {
    fn is_answer(&self, word: &str) -> bool {
        matches!(
            word,
            "id" | "method" | "uri" | "header" | "body" | "refused" | "value" | "none"
        )
    }

    fn answer(&self, alloc: Global, rows: &Rows, row: &Row) -> Result<Vec<Field>, AllocError> {
        if let Some(protocol) = row.text("protocol") {
            return match shapes_of(alloc, rows, row) {
                Some(shapes) => requests::answers(alloc, &shapes, row, protocol),
                None => Ok(Vec::new(alloc)),
            };
        }
        if let Some(protocol) = row.text("error") {
            return errors::answers(alloc, row, protocol);
        }
        match row.text("call") {
            Some("headers") => parts::headers(alloc, row),
            Some("codes") => parts::codes(alloc, row),
            Some("metadata") => parts::metadata(alloc, row),
            _ => Ok(Vec::new(alloc)),
        }
    }
}
