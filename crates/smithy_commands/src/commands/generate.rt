//! The command `gen`: an input that a number generates, and the lengths of its bodies in both wires.
ghost use Rattle.std.specs.Prelude.{◌≡◌, ◌++◌, ℕ, List, None, true, false, decimal, map, option_map, string_bytes, OnOk, IfOk, IfErr, codes};
ghost use Rattle.smithy_declarations.specs.Table.{IsStructure, kind_of, shape_place};
ghost use Rattle.smithy_declarations.specs.Value.{Value};
ghost use Rattle.smithy_transcode.specs.Spelling.{Spells, body};
ghost use Rattle.smithy_transcode.specs.Transcoding.{TellsAgain};
ghost use Rattle.smithy_transcode.specs.Wires.{json, cbor, unfit, wire_of};
ghost use Rattle.smithy_generator.specs.GeneratedShapes.{generated_shapes};
ghost use Rattle.smithy_outside.specs.Outside.{Shown, environment_of};
ghost use Rattle.smithy_commands.specs.SmallNumber.{number_within};
ghost use Rattle.smithy_commands.specs.Gen.{gen_of, gen_view, line_of_lengths, IsGenLine, GenAnswer, IsExpressible, HasBodiesOfLengths};

use crate::checks::find_root;
use crate::small_number::number_within;
use crate::status::Status;
use itoa::Buffer;
use smithy_generator::{generate, table_text};
use smithy_outside::{Sink, write_all};
use smithy_shapes::{ShapeRef, Shapes, TableText};
use smithy_transcode::{Wire, transcode};
use std::alloc::{AllocError, Global};

// The most digits of a seed and of a count, and the greatest count.
const MAX_SEED_LEN: usize = 20;

const MAX_COUNT_LEN: usize = 6;

const MAX_COUNT: u64 = 100_000;

/// `gen SEED COUNT`
#[derive(Clone, Copy)]
pub struct Gen {
    /// What the items are generated from.
    pub seed: u64,
    /// How many items there are.
    pub count: u32,
}

// The number of items that a word asks for.
fn count_of(word: &str) -> Option<u32>
    ensures { result ≡ number_within 6 100000 word.now }
{
    u32::try_from(number_within(MAX_COUNT_LEN, MAX_COUNT, word)?).ok()
}

impl Gen {
    /// The command that the words behind `gen` are, if they are one.
    pub fn from_words(words: &[String]) -> Option<Gen>
        ensures { option_map gen_view result ≡ gen_of (map string_bytes words.now) }
    {
        match words {
            [seed, count] => Some(Gen {
                seed: number_within(MAX_SEED_LEN, u64::MAX, seed.as_str())?,
                count: count_of(count.as_str())?,
            }),
            _ => None,
        }
    }
}

// The lengths of both bodies of an input's value.
#[derive(Clone, Copy)]
struct Lengths {
    cbor: usize,
    json: usize,
    // the body in JSON is the same by way of CBOR
    is_same: bool,
}

// The table that directs generated inputs.
fn generated_shapes(alloc: Global) -> Result<Shapes, Status>
    ensures table { IfOk result (λ table. table ≡ generated_shapes) }
    ensures only_memory { IfErr result (λ status. status ≡ Status.OutOfMemory) }
{
    let declarations = TableText::read(alloc, table_text())?;
    Ok(Shapes::build(alloc, declarations)?)
}

// The body of what an input spells, where the wanted wire can express it.
fn body_in(
    alloc: Global,
    table: &Shapes,
    root: ShapeRef,
    from: &Wire,
    input: &[u8],
    to: &Wire,
) -> Result<Vec<u8>, Status>
    requires root { IsStructure (kind_of table.now (shape_place root.0)) }
    requires fit { (v : Value) × Spells (wire_of from.now) table.now root.0 input.now v × (unfit (wire_of to.now) table.now root.0 v ≡ None) }
    ensures body { IfOk result (λ out. (v : Value) → Spells (wire_of from.now) table.now root.0 input.now v
        → (out.items ≡ body (wire_of to.now) table.now root.0 v) × TellsAgain (wire_of to.now) table.now root.0 out.items v) }
    ensures only_memory { IfErr result (λ status. status ≡ Status.OutOfMemory) }
{
    Ok(transcode(alloc, table, root, from, input, to)?)
}

// The lengths of both bodies of what an input spells: it is transcoded to CBOR, that to JSON, and the input itself to JSON.
fn lengths_of(
    alloc: Global,
    table: &Shapes,
    root: ShapeRef,
    input: &[u8],
) -> Result<Lengths, Status>
    requires root { IsStructure (kind_of table.now (shape_place root.0)) }
    requires expressible { IsExpressible table.now root.0 input.now }
    ensures lengths { IfOk result (λ lengths. HasBodiesOfLengths table.now root.0 input.now lengths.cbor lengths.json × (lengths.is_same ≡ true)) }
    ensures only_memory { IfErr result (λ status. status ≡ Status.OutOfMemory) }
{
    let json = Wire::Json {
        use_json_name: false,
        integral: false,
    };
    let cbor = Wire::Cbor { definite: false };
    let in_cbor = body_in(alloc, table, root, &json, input, &cbor)?;
    let by_cbor = body_in(alloc, table, root, &cbor, &in_cbor, &json)?;
    let in_json = body_in(alloc, table, root, &json, input, &json)?;
    Ok(Lengths {
        cbor: in_cbor.len(),
        json: in_json.len(),
        is_same: by_cbor == in_json,
    })
}

// Adds some text, and a number behind it.
fn push_number(line: &mut Vec<u8>, before: &[u8], number: usize) -> Result<(), AllocError>
    ensures { OnOk result (line.new.items ≡ line.old.items ++ before.now ++ decimal number) }
{
    line.extend_from_slice(before)?;
    line.extend_from_slice(Buffer::new().format(number).as_bytes())
}

// Adds whether the bodies are the same.
fn push_word(line: &mut Vec<u8>, is_same: bool) -> Result<(), AllocError>
    ensures { is_same ≡ true → OnOk result (line.new.items ≡ line.old.items ++ codes " same yes\n") }
{
    if is_same {
        line.extend_from_slice(b" same yes\n")
    } else {
        line.extend_from_slice(b" same no\n")
    }
}

// The line that tells the lengths.
fn line_of(alloc: Global, input: usize, lengths: Lengths) -> Result<Vec<u8>, AllocError>
    ensures { lengths.is_same ≡ true → IfOk result (λ line. line.items ≡ line_of_lengths input lengths.cbor lengths.json) }
{
    let mut line = Vec::new(alloc);
    push_number(&mut line, b"input ", input)?;
    push_number(&mut line, b" cbor ", lengths.cbor)?;
    push_number(&mut line, b" json ", lengths.json)?;
    push_word(&mut line, lengths.is_same)?;
    Ok(line)
}

// The line of the input that the command asks for.
fn line_for(alloc: Global, command: Gen) -> Result<Vec<u8>, Status>
    ensures line { IfOk result (λ line. IsGenLine (gen_view command) line.items) }
    ensures only_memory { IfErr result (λ status. status ≡ Status.OutOfMemory) }
{
    let table = generated_shapes(alloc)?;
    let root = find_root(&table, "S")?;
    let input = generate(alloc, command.seed, command.count)?;
    let lengths = lengths_of(alloc, &table, root, &input)?;
    Ok(line_of(alloc, input.len(), lengths)?)
}

/// Writes the line that the command asks for, and answers how the command ends. It uses no file and no input.
pub(crate) fn write_generated<K: Sink>(alloc: Global, command: Gen, out: &mut K) -> Status
    ensures { (files : List ℕ → Shown) (input : Shown) → GenAnswer (gen_view command)
        (environment_of files input (K.told out.old) (K.holds_back out.old))
        (environment_of files input (K.told out.new) (K.holds_back out.new)) result }
{
    let line = match line_for(alloc, command) {
        Ok(line) => line,
        Err(status) => return status,
    };
    match write_all(out, &line) {
        Ok(()) => Status::Done,
        Err(_) => Status::WriteFailed,
    }
}
