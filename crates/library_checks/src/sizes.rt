//! Tables that are too large.

use smithy_schema::{Shapes, TableFault, TableText};
use std::alloc::{AllocError, Global};

// Why the text is no table.
fn refusal_of(alloc: Global, text: &str) -> Option<TableFault> {
    match TableText::read(alloc, text.as_bytes()) {
        Ok(declarations) => Shapes::build(alloc, declarations).err(),
        Err(fault) => Some(fault),
    }
}

// So many lines behind a head, each with its number.
fn numbered(
    alloc: Global,
    head: &str,
    before: &str,
    after: &str,
    count: u32,
) -> Result<String, AllocError> {
    let mut text = String::new(alloc);
    text.push_str(head)?;
    for number in 0..count {
        text.push_str(before)?;
        text.push_str(format!(in alloc; "{number}")?.as_str())?;
        text.push_str(after)?;
    }
    Ok(text)
}

pub fn refuses_65536_members(alloc: Global) -> Result<bool, AllocError> {
    let head = "list L long\nstructure S\n";
    let text = numbered(alloc, head, "member m", " long\n", 65_536)?;
    Ok(refusal_of(alloc, text.as_str()) == Some(TableFault::TooMany(2)))
}

pub fn refuses_65536_declarations(alloc: Global) -> Result<bool, AllocError> {
    let text = numbered(alloc, "", "structure S", "\n", 65_536)?;
    Ok(refusal_of(alloc, text.as_str()) == Some(TableFault::TooMany(65_536)))
}
