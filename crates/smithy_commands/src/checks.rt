//! The checks that commands share: the table of a file, the root in it, and the input.
ghost use Rattle.std.specs.Prelude.{◌≡◌, ◌≢◌, ◌≤◌, ◌+◌, ℕ, List, length, Some, IfOk, IfErr};
ghost use Rattle.smithy_declarations.specs.Table.{IsStructure, kind_of, shape_place, declared_as};
ghost use Rattle.smithy_declarations.specs.Acceptance.{accepted, table_of};
ghost use Rattle.smithy_outside.specs.Outside.{MetNoFault, Gave};
ghost use Rattle.smithy_commands.specs.Checks.{longest_table, longest_input, IsLoaded, PassesTableChecks, RefusesTableChecks, PassesChecks, RefusesChecks};
ghost use Rattle.smithy_commands.specs.Private.Stages.{FailsToRead, FailsToLoad, FailsToFind};

use crate::status::Status;
use smithy_outside::{Files, Source, read_to_end};
use smithy_shapes::{ShapeRef, ShapeType, Shapes, TableText};
use std::alloc::Global;

// The most bytes of a table's text.
const MAX_TABLE_LEN: usize = 1_048_576;

/// The most bytes of an input, and of a file that holds a body.
pub(crate) const MAX_INPUT_LEN: usize = 16_777_216;

/// The content of a file, of at most so many bytes.
pub(crate) fn load_file<F: Files>(
    alloc: Global,
    files: &mut F,
    path: &str,
    limit: usize,
) -> Result<Vec<u8>, Status>
    ensures loaded { IfOk result (λ bytes. IsLoaded limit bytes.items (F.told files.old path.now)) }
    ensures refused { IfErr result (FailsToRead limit (F.told files.old path.now) (F.told files.new path.now)) }
    ensures kept { (at : List ℕ) → (F.told files.new at).content ≡ (F.told files.old at).content }
    ensures steady { (at : List ℕ) → (F.told files.new at).is_steady ≡ (F.told files.old at).is_steady }
    ensures later { (at : List ℕ) → (F.told files.old at).faults ≤ (F.told files.new at).faults }
{
    Ok(files.load(alloc, path, limit)?)
}

/// The table that a file holds.
pub(crate) fn load_table<F: Files>(
    alloc: Global,
    files: &mut F,
    path: &str,
) -> Result<Shapes, Status>
    ensures table { IfOk result (λ table. (text : List ℕ) × IsLoaded longest_table text (F.told files.old path.now) × (table_of text ≡ accepted table)) }
    ensures refused { IfErr result (FailsToLoad (F.told files.old path.now) (F.told files.new path.now)) }
    ensures no_fault { result ≢ Err Status.ReadFailed → MetNoFault (F.told files.old path.now) (F.told files.new path.now) }
    ensures kept { (at : List ℕ) → (F.told files.new at).content ≡ (F.told files.old at).content }
    ensures steady { (at : List ℕ) → (F.told files.new at).is_steady ≡ (F.told files.old at).is_steady }
    ensures later { (at : List ℕ) → (F.told files.old at).faults ≤ (F.told files.new at).faults }
{
    let text = files.load(alloc, path, MAX_TABLE_LEN)?;
    let declarations = TableText::read(alloc, &text)?;
    Ok(Shapes::build(alloc, declarations)?)
}

/// The declaration of the root, if it is a structure.
pub(crate) fn find_root(table: &Shapes, name: &str) -> Result<ShapeRef, Status>
    ensures root { IfOk result (λ root. (declared_as table.now name.now ≡ Some root.0) × IsStructure (kind_of table.now (shape_place root.0))) }
    ensures refused { IfErr result (FailsToFind table.now name.now) }
{
    let Some(root) = table.find(name) else {
        return Err(Status::NoSuchShape);
    };
    match table.schema(root).shape_type() {
        ShapeType::Structure => Ok(root),
        _ => Err(Status::NotAStructure),
    }
}

/// A table, and the structure of it that a command names.
#[derive(Drop)]
pub(crate) struct CheckedTable {
    /// The table.
    pub table: Shapes,
    /// The structure.
    pub root: ShapeRef,
}

/// Loads the table and finds the root in it.
pub(crate) fn check_table<F: Files>(
    alloc: Global,
    files: &mut F,
    table: &str,
    root: &str,
) -> Result<CheckedTable, Status>
    ensures passed { IfOk result (λ c. PassesTableChecks root.now (F.told files.old table.now) c.table c.root.0) }
    ensures refused { IfErr result (RefusesTableChecks root.now (F.told files.old table.now) (F.told files.new table.now)) }
    ensures no_fault { result ≢ Err Status.ReadFailed → MetNoFault (F.told files.old table.now) (F.told files.new table.now) }
    ensures kept { (at : List ℕ) → (F.told files.new at).content ≡ (F.told files.old at).content }
{
    let shapes = load_table(alloc, files, table)?;
    let found = find_root(&shapes, root)?;
    Ok(CheckedTable {
        table: shapes,
        root: found,
    })
}

/// A table, a structure of it, and the input.
#[derive(Drop)]
pub(crate) struct CheckedInput {
    /// The table and the structure.
    pub checked: CheckedTable,
    /// All that the input had left.
    pub input: Vec<u8>,
}

/// Loads the table, finds the root in it and reads the input, in this order.
pub(crate) fn check_input<F: Files, S: Source>(
    alloc: Global,
    files: &mut F,
    input: &mut S,
    table: &str,
    root: &str,
) -> Result<CheckedInput, Status>
    ensures passed { IfOk result (λ c. PassesChecks root.now
        (record { table = F.told files.old table.now; input = S.told input.old })
        (record { table = F.told files.new table.now; input = S.told input.new })
        c.checked.table c.checked.root.0 c.input.items) }
    ensures refused { IfErr result (RefusesChecks root.now
        (record { table = F.told files.old table.now; input = S.told input.old })
        (record { table = F.told files.new table.now; input = S.told input.new })) }
    ensures table_met_no_fault { result ≢ Err Status.ReadFailed → MetNoFault (F.told files.old table.now) (F.told files.new table.now) }
    ensures input_met_no_fault { result ≢ Err Status.ReadFailed → MetNoFault (S.told input.old) (S.told input.new) }
    ensures kept { (at : List ℕ) → (F.told files.new at).content ≡ (F.told files.old at).content }
    ensures no_further { (bytes : List ℕ) × Gave bytes (S.told input.old) (S.told input.new) × (length bytes ≤ longest_input + 1) }
{
    let checked = check_table(alloc, files, table, root)?;
    let bytes = read_to_end(alloc, input, MAX_INPUT_LEN)?;
    Ok(CheckedInput {
        checked,
        input: bytes,
    })
}
