//! The command `compare`: whether the bodies of two files spell one value.
ghost use Rattle.std.specs.Prelude.{◌≡◌, ℕ, List, map, option_map, IfOk, IfErr, string_bytes};
ghost use Rattle.smithy_declarations.specs.Table.{IsStructure, kind_of, shape_place};
ghost use Rattle.smithy_outside.specs.Outside.{Shown, environment_of};
ghost use Rattle.smithy_commands.specs.Compare.{compare_of, compare_view, status_of_second_error, status_of_compared, status_of_compare_error, answer_line, Refuses, CompareAnswer, IsFound, IsFoundIn, FailsToCompare};

use crate::checks::{MAX_INPUT_LEN, find_root, load_file, load_table};
use crate::status::Status;
use crate::wire_words::{WireWords, read_wire, wire_of_words};
use smithy_compare::{CompareError, Compared, compare, path_text};
use smithy_outside::{Files, Sink, write_all};
use smithy_shapes::{ShapeRef, Shapes};
use smithy_transcode::TranscodeError;
use std::alloc::{AllocError, Global};

/// A body in a file, and its wire.
#[derive(Clone, Copy)]
pub struct Recorded<'a> {
    /// The wire of the body, which is no form.
    pub wire: WireWords<'a>,
    /// The path of the file.
    pub path: &'a str,
}

/// `compare TABLE ROOT WIRE1 FILE1 WIRE2 FILE2`
#[derive(Clone, Copy)]
pub struct Compare<'a> {
    /// The path of the table.
    pub table: &'a str,
    /// The name of the shape of which both bodies are.
    pub root: &'a str,
    /// The first body.
    pub first: Recorded<'a>,
    /// The second body.
    pub second: Recorded<'a>,
}

impl<'a> Compare<'a> {
    /// The command that the words behind `compare` are, if they are one.
    pub fn from_words(words: &'a [String]) -> Option<Compare<'a>>
        ensures { option_map compare_view result ≡ compare_of (map string_bytes words.now) }
    {
        match words {
            [table, root, wire1, file1, wire2, file2] => Some(Compare {
                table: table.as_str(),
                root: root.as_str(),
                first: Recorded {
                    wire: read_wire(wire1.as_str())?,
                    path: file1.as_str(),
                },
                second: Recorded {
                    wire: read_wire(wire2.as_str())?,
                    path: file2.as_str(),
                },
            }),
            _ => None,
        }
    }
}

// The status where the second of two bodies was refused.
fn status_of_second(error: TranscodeError) -> Status
    ensures { result ≡ status_of_second_error error }
{
    match error {
        TranscodeError::InvalidInput => Status::SecondInvalidInput,
        TranscodeError::TooDeep => Status::SecondTooDeep,
        TranscodeError::TooWide => Status::SecondTooWide,
        TranscodeError::NotCarried => Status::SecondNotCarried,
        TranscodeError::Inexpressible(unfit) => Status::Inexpressible(unfit),
        TranscodeError::NoMemory => Status::OutOfMemory,
    }
}

impl From<CompareError> for Status {
    ghost from_gives = { λ error status. status ≡ status_of_compare_error error };

    fn from(error: CompareError) -> Self {
        match error {
            CompareError::First(error) => Status::from(error),
            CompareError::Second(error) => status_of_second(error),
            CompareError::NoMemory => Status::OutOfMemory,
        }
    }
}

// The status where two bodies were compared.
fn status_of_compared(found: &Compared) -> Status
    ensures { result ≡ status_of_compared found.now }
{
    match found {
        Compared::Same => Status::Done,
        Compared::Differs(_) => Status::Differs,
    }
}

/// What was found: the status, and the line for the output.
#[derive(Drop)]
pub struct Answer {
    status: Status,
    line: String,
}

// The line that tells what was found.
fn line_of(
    alloc: Global,
    table: &Shapes,
    root: ShapeRef,
    found: &Compared,
) -> Result<String, AllocError>
    requires root { IsStructure (kind_of table.now (shape_place root.0)) }
    ensures { IfOk result (λ line. string_bytes line ≡ answer_line table.now root.0 found.now) }
{
    match found {
        Compared::Same => String::from_str(alloc, "same\n"),
        Compared::Differs(path) => {
            let mut line = String::from_str(alloc, "differs at ")?;
            line.push_str(path_text(alloc, table, root, path)?.as_str())?;
            line.push_str("\n")?;
            Ok(line)
        }
    }
}

// What two bodies of the root are to each other.
fn answer_of(
    alloc: Global,
    command: Compare<'_>,
    table: &Shapes,
    root: ShapeRef,
    first: &[u8],
    second: &[u8],
) -> Result<Answer, Status>
    requires root { IsStructure (kind_of table.now (shape_place root.0)) }
    ensures found { IfOk result (λ a. IsFound (compare_view command.entry) table.now root.0 first.now second.now a.status (string_bytes a.line)) }
    ensures refused { IfErr result (FailsToCompare (compare_view command.entry) table.now root.0 first.now second.now) }
{
    let wire1 = wire_of_words(alloc, command.first.wire)?;
    let wire2 = wire_of_words(alloc, command.second.wire)?;
    let found = compare(alloc, table, root, &wire1, first, &wire2, second)?;
    Ok(Answer {
        status: status_of_compared(&found),
        line: line_of(alloc, table, root, &found)?,
    })
}

// What the bodies in both files are to each other.
fn find<F: Files>(alloc: Global, command: Compare<'_>, files: &mut F) -> Result<Answer, Status>
    ensures found { IfOk result (λ a. IsFoundIn (compare_view command.entry) (F.told files.old) a.status (string_bytes a.line)) }
    ensures refused { IfErr result (Refuses (compare_view command.entry) (F.told files.old) (F.told files.new)) }
    ensures kept { (at : List ℕ) → (F.told files.new at).content ≡ (F.told files.old at).content }
{
    let table = load_table(alloc, files, command.table)?;
    let root = find_root(&table, command.root)?;
    let first = load_file(alloc, files, command.first.path, MAX_INPUT_LEN)?;
    let second = load_file(alloc, files, command.second.path, MAX_INPUT_LEN)?;
    answer_of(alloc, command, &table, root, &first, &second)
}

/// Writes the line that tells what the bodies are to each other, and answers how the command ends. It uses no input.
pub(crate) fn compare_files<F: Files, K: Sink>(
    alloc: Global,
    command: Compare<'_>,
    files: &mut F,
    out: &mut K,
) -> Status
    ensures { (input : Shown) → CompareAnswer (compare_view command.entry)
        (environment_of (F.told files.old) input (K.told out.old) (K.holds_back out.old))
        (environment_of (F.told files.new) input (K.told out.new) (K.holds_back out.new)) result }
{
    let answer = match find(alloc, command, files) {
        Ok(answer) => answer,
        Err(status) => return status,
    };
    match write_all(out, answer.line.as_bytes()) {
        Ok(()) => answer.status,
        Err(_) => Status::WriteFailed,
    }
}
