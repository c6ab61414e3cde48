//! Going through rows, and comparing answers.

use crate::field::shown;
use crate::rows::{Field, Row, Rows};
use std::alloc::{AllocError, Global};
use std::rt::Runtime;
use std::{env, fs, io};

/// What a program makes of a row.
pub trait Program {
    /// Whether a line with this word says what is expected.
    fn is_answer(&self, word: &str) -> bool;

    /// The answers to a row, in the order in which a row has them.
    fn answer(&self, alloc: Global, rows: &Rows, row: &Row) -> Result<Vec<Field>, AllocError>;
}

// Adds a field to a line: its word with its value, and ` | ` between two fields.
fn push_field(alloc: Global, line: &mut String, field: &Field) -> Result<(), AllocError> {
    if !line.is_empty() {
        line.push_str(" | ")?;
    }
    line.push_str(field.word.as_str())?;
    line.push(' ')?;
    line.push_str(shown(alloc, &field.value)?.as_str())?;
    Ok(())
}

// All that is answered, as one text.
fn answered_line(alloc: Global, answers: &[Field]) -> Result<String, AllocError> {
    let mut line = String::new(alloc);
    for field in answers {
        push_field(alloc, &mut line, field)?;
    }
    Ok(line)
}

// The fields that say what is expected, as one text.
fn expected_line<P: Program>(
    alloc: Global,
    program: &P,
    fields: &[Field],
) -> Result<String, AllocError> {
    let mut line = String::new(alloc);
    for field in fields {
        if program.is_answer(field.word.as_str()) {
            push_field(alloc, &mut line, field)?;
        }
    }
    Ok(line)
}

// Answers a row, and prints whether as expected; what else was answered goes to standard error.
fn check_row<R: Runtime + AllocGlobal, P: Program>(
    rt: &R,
    program: &P,
    rows: &Rows,
    row: &Row,
) -> io::Result<bool> {
    let answered = program.answer(rt.alloc(), rows, row)?;
    let answered = answered_line(rt.alloc(), &answered)?;
    let expected = expected_line(rt.alloc(), program, &row.fields)?;
    let name = row.name.as_str();
    if answered.as_str() == expected.as_str() {
        println!(rt; "ok {name}")?;
        return Ok(true);
    }
    println!(rt; "FAILED {name}")?;
    eprintln!(rt; "{name}: {answered}; expected: {expected}")?;
    Ok(false)
}

// Goes through the rows of a file, and tells whether each was answered as expected.
fn check_file<R: Runtime + AllocGlobal, P: Program>(
    rt: &R,
    program: &P,
    path: &str,
) -> io::Result<bool> {
    let text = fs::read_to_string(rt, path)?;
    let rows = Rows::read(rt.alloc(), text.as_str())?;
    println!(rt; "{path}: {} rows", rows.rows.len())?;
    let mut all = true;
    for row in &rows.rows {
        all = check_row(rt, program, &rows, row)? && all;
    }
    Ok(all)
}

/// Goes through the rows of each file that an argument names by this front of its path, and tells whether each was answered as it says. A
/// line of standard output tells the same of each row, and where one wasn't, standard error tells what was answered.
pub fn run<R: Runtime + AllocGlobal, P: Program>(
    rt: &R,
    front: &str,
    program: &P,
) -> io::Result<bool> {
    let mut all = true;
    for path in env::args(rt)? {
        if path.starts_with(front) {
            all = check_file(rt, program, path.as_str())? && all;
        }
    }
    Ok(all)
}
