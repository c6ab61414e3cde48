//! The text of a table.
ghost use Rattle.std.specs.Prelude.{◌≡◌, map, IfOk, IfErr};
ghost use Rattle.smithy_declarations.specs.DeclViews.{decl_of};
ghost use Rattle.smithy_table_text.specs.Writable.{fault_of_line, IsTextOf, RefusesDecls};

use crate::equal::are_equal;
use crate::fault::TextFault;
use crate::writing::write_table;
use smithy_shapes::{Decl, Shapes, TableFault, TableText};
use std::alloc::Global;

// The most bytes of a table's text.
const MAX_TABLE_LEN: usize = 1_048_576;

// Why a text isn't read, which was made from declarations.
fn fault_of_line(fault: TableFault) -> TextFault
    ensures { result ≡ fault_of_line fault }
{
    match fault {
        TableFault::NoMemory => TextFault::NoMemory,
        _ => TextFault::Unwritable,
    }
}

/// The text of declarations, a line for each and for each member, where it is a table of at most 1 MiB.
pub fn text_of(alloc: Global, decls: &[Decl]) -> Result<Vec<u8>, TextFault>
    ensures text { IfOk result (λ text. IsTextOf (map decl_of decls.now) text.items) }
    ensures refused { IfErr result (RefusesDecls (map decl_of decls.now)) }
{
    let text = write_table(alloc, decls)?;
    if text.len() > MAX_TABLE_LEN {
        return Err(TextFault::TooLong);
    }
    let read = match TableText::read(alloc, &text) {
        Ok(read) => read,
        Err(fault) => return Err(fault_of_line(fault)),
    };
    if !are_equal(decls, &read) {
        return Err(TextFault::Unwritable);
    }
    let _shapes = Shapes::build(alloc, read)?;
    Ok(text)
}
