//! Runs over objects in memory.
ghost use Rattle.std.specs.Prelude.{◌<◌};

use smithy_commands::run;
use smithy_outside::{
    MemoryFiles, MemorySink, MemorySource, Sink, Source, SteadySink, SteadySource,
};
use smithy_rows::{Field, Row, Rows};
use std::alloc::{AllocError, Global};
use std::collections::BTreeMap;

// What a sink keeps at most.
const ROOM: usize = 4096;

// The words of a command, with a blank between them.
fn words_of(alloc: Global, text: &str) -> Result<Vec<String>, AllocError> {
    let mut words = Vec::new(alloc);
    for word in text.split(' ') {
        words.push(word.to_string(alloc)?)?;
    }
    Ok(words)
}

// The number in the line with this word.
fn number(row: &Row, word: &str) -> Option<u64> {
    row.text(word)?.parse::<u64>().ok()
}

// The most bytes that a call moves by this line; without it, many.
fn piece(row: &Row, word: &str) -> usize
    ensures { 0 < result }
{
    let piece = number(row, word).unwrap_or(4096).max(1);
    usize::try_from(piece).unwrap_or(4096).max(1)
}

// The most bytes that standard output keeps; without the line, those of `ROOM`.
fn room(row: &Row) -> usize {
    let Some(room) = number(row, "room") else {
        return ROOM;
    };
    usize::try_from(room).unwrap_or(ROOM)
}

// The number of the call that fails by this line, if there is one.
fn failing(alloc: Global, row: &Row, word: &str) -> Result<Vec<u64>, AllocError> {
    let mut calls = Vec::new(alloc);
    if let Some(call) = number(row, word) {
        calls.push(call)?;
    }
    Ok(calls)
}

// Adds the file that has the name of a line and holds its bytes, if the row has the line.
fn add_file(
    alloc: Global,
    entries: &mut BTreeMap<String, Vec<u8>>,
    row: &Row,
    word: &str,
) -> Result<(), AllocError> {
    if let Some(bytes) = row.bytes(word) {
        entries.insert(word.to_string(alloc)?, bytes.to_vec(alloc)?)?;
    }
    Ok(())
}

// The files of a run: at the path `t` a table of the rows, or the bytes of the line `file`, and those of `first` and `second`.
fn files_of(alloc: Global, rows: &Rows, row: &Row) -> Result<MemoryFiles, AllocError> {
    let table = rows.table(row.text("table").unwrap_or("")).unwrap_or("");
    let bytes = row.bytes("file").unwrap_or(table.as_bytes());
    let mut entries = BTreeMap::new(alloc);
    entries.insert("t".to_string(alloc)?, bytes.to_vec(alloc)?)?;
    add_file(alloc, &mut entries, row, "first")?;
    add_file(alloc, &mut entries, row, "second")?;
    Ok(MemoryFiles::new(entries, failing(alloc, row, "fail-files")?))
}

/// The lines for what standard error took: a whole line without its line feed, or a part of one.
pub fn lines_of(alloc: Global, err: &MemorySink) -> Result<Vec<Field>, AllocError> {
    let mut fields = Vec::new(alloc);
    match err.bytes.strip_suffix(b"\n") {
        Some(line) => fields.push(Field::new(alloc, "error", line)?)?,
        None => {
            if !err.bytes.is_empty() {
                fields.push(Field::new(alloc, "error-part", &err.bytes)?)?;
            }
        }
    }
    if err.faults > 0 {
        let faults = format!(in alloc; "{}", err.faults)?;
        fields.push(Field::new(alloc, "error-faults", faults.as_bytes())?)?;
    }
    Ok(fields)
}

// Runs the program over this input and output, and tells its status and what standard error took.
fn status_and_error<S: Source, K: Sink>(
    alloc: Global,
    rows: &Rows,
    row: &Row,
    input: &mut S,
    out: &mut K,
) -> Result<(Field, Vec<Field>), AllocError> {
    let words = words_of(alloc, row.text("run").unwrap_or(""))?;
    let mut files = files_of(alloc, rows, row)?;
    let told = piece(row, "error-piece");
    let mut err = MemorySink::new(alloc, told, ROOM, failing(alloc, row, "fail-error")?)?;
    let status = run(alloc, &words, &mut files, input, out, &mut err);
    let number = format!(in alloc; "{status}")?;
    let field = Field::new(alloc, "status", number.as_bytes())?;
    Ok((field, lines_of(alloc, &err)?))
}

// The lines of an answer, in their order.
fn answered(
    alloc: Global,
    status: Field,
    output: &[u8],
    is_lost: bool,
    error: Vec<Field>,
) -> Result<Vec<Field>, AllocError> {
    let mut fields = Vec::new(alloc);
    fields.push(status)?;
    if !output.is_empty() {
        fields.push(Field::new(alloc, "output", output)?)?;
    }
    if is_lost {
        fields.push(Field::new(alloc, "lost", b"")?)?;
    }
    for field in error {
        fields.push(field)?;
    }
    Ok(fields)
}

// A run over an input and an output that never fail.
fn ended_steadily(alloc: Global, rows: &Rows, row: &Row) -> Result<Vec<Field>, AllocError> {
    let bytes = row.bytes("input").unwrap_or(b"").to_vec(alloc)?;
    let moved = piece(row, "piece");
    let mut input = SteadySource::new(bytes, moved);
    let mut out = SteadySink::new(alloc, moved, room(row))?;
    let (status, error) = status_and_error(alloc, rows, row, &mut input, &mut out)?;
    answered(alloc, status, &out.bytes, out.lost, error)
}

/// Runs the program, and tells its status, what standard output took, and what standard error took.
pub fn ended(alloc: Global, rows: &Rows, row: &Row) -> Result<Vec<Field>, AllocError> {
    if row.text("steady").is_some() {
        return ended_steadily(alloc, rows, row);
    }
    let bytes = row.bytes("input").unwrap_or(b"").to_vec(alloc)?;
    let moved = piece(row, "piece");
    let mut input = MemorySource::new(bytes, moved, failing(alloc, row, "fail-input")?);
    let mut out = MemorySink::new(alloc, moved, room(row), failing(alloc, row, "fail-output")?)?;
    let (status, error) = status_and_error(alloc, rows, row, &mut input, &mut out)?;
    answered(alloc, status, &out.bytes, false, error)
}
