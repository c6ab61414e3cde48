//! What a row of a model is answered with.

use smithy_outside::{MemoryFiles, MemorySink};
use smithy_rows::{Field, Program, Row, Rows};
use smithy_table_commands::run;
use std::alloc::{AllocError, Global};
use std::collections::BTreeMap;

// What a sink keeps at most.
const ROOM: usize = 4096;

/// Runs of the program for tables.
pub struct Tables;

// The words of a command, with a blank between them.
fn words_of(alloc: Global, text: &str) -> Result<Vec<String>, AllocError> {
    let mut words = Vec::new(alloc);
    for word in text.split(' ') {
        words.push(word.to_string(alloc)?)?;
    }
    Ok(words)
}

// The number of the call that fails by this line, if there is one.
fn failing(alloc: Global, row: &Row, word: &str) -> Result<Vec<u64>, AllocError> {
    let mut calls = Vec::new(alloc);
    let text = row.text(word).unwrap_or("");
    if let Ok(call) = text.parse::<u64>() {
        calls.push(call)?;
    }
    Ok(calls)
}

// The files of a run: at the path `m` a model of the rows, or the bytes of the line `file`.
fn files_of(alloc: Global, rows: &Rows, row: &Row) -> Result<MemoryFiles, AllocError> {
    let table = rows.table(row.text("table").unwrap_or("")).unwrap_or("");
    let bytes = row.bytes("file").unwrap_or(table.as_bytes());
    let mut entries = BTreeMap::new(alloc);
    entries.insert("m".to_string(alloc)?, bytes.to_vec(alloc)?)?;
    Ok(MemoryFiles::new(entries, failing(alloc, row, "fail-files")?))
}

// Adds a line for each line that a sink took.
fn add_lines(
    alloc: Global,
    fields: &mut Vec<Field>,
    word: &str,
    sink: &MemorySink,
) -> Result<(), AllocError> {
    let taken = sink.bytes.as_slice();
    for line in taken
        .strip_suffix(b"\n")
        .unwrap_or(taken)
        .split(|b| *b == b'\n')
    {
        fields.push(Field::new(alloc, word, line)?)?;
    }
    Ok(())
}

// Runs the program, and tells its status, the table, and what standard error took.
fn ended(alloc: Global, rows: &Rows, row: &Row) -> Result<Vec<Field>, AllocError> {
    let words = words_of(alloc, row.text("run").unwrap_or(""))?;
    let mut files = files_of(alloc, rows, row)?;
    let mut out = MemorySink::new(alloc, ROOM, ROOM, failing(alloc, row, "fail-output")?)?;
    let mut err = MemorySink::new(alloc, ROOM, ROOM, failing(alloc, row, "fail-error")?)?;
    let status = run(alloc, &words, &mut files, &mut out, &mut err);
    let mut fields = Vec::new(alloc);
    let number = format!(in alloc; "{status}")?;
    fields.push(Field::new(alloc, "status", number.as_bytes())?)?;
    if !out.bytes.is_empty() {
        add_lines(alloc, &mut fields, "line", &out)?;
    }
    if !err.bytes.is_empty() {
        add_lines(alloc, &mut fields, "error", &err)?;
    }
    Ok(fields)
}

impl Program for Tables {
    fn is_answer(&self, word: &str) -> bool {
        matches!(word, "status" | "line" | "error")
    }

    fn answer(&self, alloc: Global, rows: &Rows, row: &Row) -> Result<Vec<Field>, AllocError> {
        ended(alloc, rows, row)
    }
}
