//! The kinds of rows of bodies and tables.

use crate::{bodies, borrowing, comparing, expressing, places, questions, tables};
use smithy_rows::{Field, Program, Row, Rows};
use std::alloc::{AllocError, Global};

/// Bodies and tables.
pub struct Transcoding;

/// One answer.
pub fn one(alloc: Global, word: &str, value: &str) -> Result<Vec<Field>, AllocError> {
    let mut answers = Vec::new(alloc);
    answers.push(Field::new(alloc, word, value.as_bytes())?)?;
    Ok(answers)
}

impl Program for Transcoding {
    fn is_answer(&self, word: &str) -> bool {
        matches!(
            word,
            "body"
                | "refused"
                | "expressible"
                | "unfit"
                | "same"
                | "differs"
                | "accepted"
                | "borrowed"
                | "owned"
                | "none"
        ) || questions::is_question(word)
    }

    fn answer(&self, alloc: Global, rows: &Rows, row: &Row) -> Result<Vec<Field>, AllocError> {
        match row.text("call") {
            None | Some("write_value") => bodies::answers(alloc, rows, row),
            Some("read_body") => borrowing::answers(alloc, rows, row),
            Some("expressible") => expressing::answers(alloc, rows, row),
            Some("compare") => comparing::answers(alloc, rows, row),
            Some("build") => tables::answers(alloc, row),
            Some("schema") => places::answers(alloc, rows, row),
            Some(_) => one(alloc, "refused", "no such call"),
        }
    }
}
