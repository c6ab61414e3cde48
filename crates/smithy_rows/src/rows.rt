//! Files of rows.

use crate::field::bytes_of;
use std::alloc::{AllocError, Global};

/// A line of a row: a word, and the bytes that stand behind it.
#[derive(Drop)]
pub struct Field {
    pub word: String,
    pub value: Vec<u8>,
}

/// A row: its name, and its lines in order.
#[derive(Drop)]
pub struct Row {
    pub name: String,
    pub fields: Vec<Field>,
}

impl Field {
    /// A line with this word and these bytes.
    pub fn new(alloc: Global, word: &str, value: &[u8]) -> Result<Field, AllocError> {
        Ok(Field {
            word: word.to_string(alloc)?,
            value: value.to_vec(alloc)?,
        })
    }
}

impl Row {
    /// The bytes of the first line with this word.
    pub fn bytes(&self, word: &str) -> Option<&[u8]> {
        for field in &self.fields {
            if field.word.as_str() == word {
                return Some(field.value.as_slice());
            }
        }
        None
    }

    /// The text of the first line with this word, where it is one.
    pub fn text(&self, word: &str) -> Option<&str> {
        str::from_utf8(self.bytes(word)?).ok()
    }
}

// A table by its name. Each of its lines ends with a line feed.
#[derive(Drop)]
struct Table {
    name: String,
    text: String,
}

// What the next lines belong to.
#[derive(Clone, Copy)]
enum Open {
    Nothing,
    Table,
    Row,
}

/// The tables and the rows of a file.
#[derive(Drop)]
pub struct Rows {
    tables: Vec<Table>,
    pub rows: Vec<Row>,
}

// Adds bytes to the last line's value, so many times. Without a line nothing is added.
fn append(row: &mut Row, value: &[u8], times: usize) -> Result<(), AllocError> {
    let Some(mut field) = row.fields.pop() else {
        return Ok(());
    };
    for _ in 0..times {
        field.value.extend_from_slice(value)?;
    }
    Ok(row.fields.push(field)?)
}

// Takes a line of a row: `+ VALUE` and `*COUNT VALUE` go on with the value of the line before.
fn add_field(alloc: Global, row: &mut Row, line: &str) -> Result<(), AllocError> {
    let (word, text) = line.split_once(' ').unwrap_or((line, ""));
    let value = bytes_of(alloc, text)?;
    if word == "+" {
        return append(row, &value, 1);
    }
    if let Some(digits) = word.strip_prefix('*') {
        if let Ok(times) = digits.parse::<usize>() {
            return append(row, &value, times);
        }
    }
    row.fields.push(Field {
        word: word.to_string(alloc)?,
        value,
    })?;
    Ok(())
}

impl Rows {
    /// The tables and rows of a text. A line that is none of a table or a row is passed over, as comments are.
    pub fn read(alloc: Global, text: &str) -> Result<Rows, AllocError> {
        let mut rows = Rows {
            tables: Vec::new(alloc),
            rows: Vec::new(alloc),
        };
        let mut open = Open::Nothing;
        for line in text.lines() {
            open = rows.add_line(alloc, open, line)?;
        }
        Ok(rows)
    }

    // Takes one line, and tells what the next ones belong to.
    fn add_line(&mut self, alloc: Global, open: Open, line: &str) -> Result<Open, AllocError> {
        if let Some(name) = line.strip_prefix("table ") {
            let name = name.to_string(alloc)?;
            self.tables.push(Table {
                name,
                text: String::new(alloc),
            })?;
            return Ok(Open::Table);
        }
        if let Some(name) = line.strip_prefix("row ") {
            let name = name.to_string(alloc)?;
            self.rows.push(Row {
                name,
                fields: Vec::new(alloc),
            })?;
            return Ok(Open::Row);
        }
        if let Some(inner) = line.strip_prefix("  ") {
            self.add_inner(alloc, open, inner)?;
        }
        Ok(open)
    }

    // Takes a line inside of a table or a row.
    fn add_inner(&mut self, alloc: Global, open: Open, line: &str) -> Result<(), AllocError> {
        match open {
            Open::Nothing => Ok(()),
            Open::Table => {
                if let Some(table) = self.tables.last_mut() {
                    table.text.push_str(line)?;
                    table.text.push('\n')?;
                }
                Ok(())
            }
            Open::Row => match self.rows.last_mut() {
                Some(row) => add_field(alloc, row, line),
                None => Ok(()),
            },
        }
    }

    /// The text of the table of this name.
    pub fn table(&self, name: &str) -> Option<&str> {
        for table in &self.tables {
            if table.name.as_str() == name {
                return Some(table.text.as_str());
            }
        }
        None
    }
}
