//! The kinds of rows.

use crate::answers::refused;
use crate::places::shapes_of;
use crate::{clients, json_settings, reading, writing};
use smithy_rows::{Field, Program, Row, Rows};
use std::alloc::{AllocError, Global};

/// Calls on readers and serializers.
pub struct Codecs;

// Whether a line says what a reader has met in a container.
fn is_met(word: &str) -> bool {
    matches!(
        word,
        "member" | "members" | "unknown" | "element" | "key" | "end" | "none"
    )
}

impl Program for Codecs {
    fn is_answer(&self, word: &str) -> bool {
        match word {
            "body" | "refused" => true,
            "value" | "done" | "position" | "is_null" => true,
            "borrowed" | "owned" => true,
            "size" | "count" | "entry" | "calls" => true,
            "json" | "cbor" | "query" => true,
            "discriminator" | "protocol" | "form" | "kept" => true,
            _ => is_met(word),
        }
    }

    fn answer(&self, alloc: Global, rows: &Rows, row: &Row) -> Result<Vec<Field>, AllocError> {
        if row.bytes("settings").is_some() {
            return json_settings::answers(alloc, row);
        }
        let Some(shapes) = shapes_of(alloc, rows, row) else {
            return refused(alloc, "no such table");
        };
        if let Some(wire) = row.text("serializer") {
            return writing::answers(alloc, &shapes, row, wire);
        }
        if let Some(name) = row.text("client") {
            return clients::answers(alloc, &shapes, row, name);
        }
        match row.text("reader") {
            Some(wire) => reading::answers(alloc, &shapes, row, wire),
            None => refused(alloc, "no such row"),
        }
    }
}
