//! Text strings and byte strings, in one piece or in chunks.

ghost use Rattle.std.specs.Prelude.{◌≡◌, ◌≤◌, ◌≢◌, ◌++◌, ◌∷◌, [], IfOk, IfErr, IsUtf8, IsTrue, ◌↔◌, MatchResult, drop, length, string_bytes};
ghost use Rattle.cbor_item.specs.Fault.{IsStringFault};
ghost use Rattle.cbor_item.specs.Strings.{IsTextAt, AreBytesAt, IsTextFault, BeginsIndefinite};
ghost use Rattle.cbor_item.specs.Private.Start.{IsStringType, IsStartAnswer, IsWholeAnswer};
ghost use Rattle.cbor_item.specs.Private.Joined.{AreJoined, AreJoinedTexts, IsJoinFault, IsTextJoinFault};

use crate::chunk::{Chunk, chunk_from, is_break, read_chunk};
use crate::error::ItemError;
use crate::head::read_head;
use std::alloc::Global;
use std::borrow::{CowSlice, CowStr};

const BYTE_STRING: u8 = 2;

const TEXT_STRING: u8 = 3;

/// The text of the text string that begins at the offset, and where the item ends. Each chunk has to be
/// UTF-8 by itself; that is tested last, over the whole item. A definite text takes no memory.
pub fn text_chunks<'a>(
    alloc: Global,
    input: &'a [u8],
    at: usize,
) -> Result<(CowStr<'a>, usize), ItemError>
    requires { at ≤ length input.now }
    ensures found { IfOk result (λ r. IsTextAt input.now at r.0 r.1) }
    ensures fault { IfErr result (IsTextFault input.now at) }
    ensures memory { IfErr result (λ e. e ≡ ItemError.NoMemory → BeginsIndefinite 3 (drop at input.now)) }
{
    match string_start(input, at, TEXT_STRING)? {
        Start::Whole(chunk) => {
            let text = text_of(&input[chunk.start..chunk.end])?;
            Ok((CowStr::Borrowed(text), chunk.end))
        }
        Start::Chunks(body) => {
            let (text, end) = joined_text(alloc, input, body)?;
            Ok((CowStr::Owned(text), end))
        }
    }
}

/// The bytes of the byte string that begins at the offset, and where the item ends. A definite string takes no memory.
pub fn byte_chunks<'a>(
    alloc: Global,
    input: &'a [u8],
    at: usize,
) -> Result<(CowSlice<'a, u8>, usize), ItemError>
    requires { at ≤ length input.now }
    ensures found { IfOk result (λ r. AreBytesAt input.now at r.0 r.1) }
    ensures fault { IfErr result (IsStringFault 2 input.now at) }
    ensures memory { IfErr result (λ e. e ≡ ItemError.NoMemory → BeginsIndefinite 2 (drop at input.now)) }
{
    match string_start(input, at, BYTE_STRING)? {
        Start::Whole(chunk) => Ok((
            CowSlice::Borrowed(&input[chunk.start..chunk.end]),
            chunk.end,
        )),
        Start::Chunks(body) => {
            let (bytes, end) = joined_bytes(alloc, input, body)?;
            Ok((CowSlice::Owned(bytes), end))
        }
    }
}

/// How a string begins.
#[derive(Clone, Copy)]
enum Start {
    /// The string has a definite length, and this is the range of its bytes.
    Whole(Chunk),
    /// The string has an indefinite length, and its chunks begin at this offset.
    Chunks(usize),
}

/// Reads the head of a string of the major type, and finds the end of a definite one.
fn string_start(input: &[u8], at: usize, major: u8) -> Result<Start, ItemError>
    requires inside { at ≤ length input.now }
    requires string_type { IsStringType major }
    ensures { IsStartAnswer major input.now at result }
{
    let head = read_head(input, at)?;
    if head.major != major {
        return Err(ItemError::WrongType);
    }
    match head.argument {
        Some(announced) => whole_string(input, at + usize::from(head.length), announced),
        None => Ok(Start::Chunks(at + usize::from(head.length))),
    }
}

/// The definite string of so many bytes that begins at the offset.
fn whole_string(input: &[u8], start: usize, announced: u64) -> Result<Start, ItemError>
    requires { start ≤ length input.now }
    ensures { IsWholeAnswer input.now start announced result }
{
    Ok(Start::Whole(chunk_from(input, start, announced)?))
}

/// The bytes as a text.
fn text_of(bytes: &[u8]) -> Result<&str, ItemError>
    ensures { MatchResult result (λ s. (s.now ≡ bytes.now) × IsUtf8 bytes.now) (λ e. (e ≡ ItemError.InvalidUtf8) × ¬ (IsUtf8 bytes.now)) }
{
    match str::from_utf8(bytes) {
        Ok(text) => Ok(text),
        Err(_) => Err(ItemError::InvalidUtf8),
    }
}

/// Adds the bytes to a text that is UTF-8 so far, and says whether it still is.
fn push_utf8(text: &mut String, so_far: bool, bytes: &[u8]) -> Result<bool, ItemError>
    ensures still { IfOk result (λ is_utf8. IsTrue is_utf8 ↔ (IsTrue so_far × IsUtf8 bytes.now)) }
    ensures added { IfOk result (λ is_utf8. IsTrue is_utf8 → string_bytes text.new ≡ string_bytes text.old ++ bytes.now) }
    ensures memory { IfErr result (λ e. e ≡ ItemError.NoMemory) }
{
    if !so_far {
        return Ok(false);
    }
    match str::from_utf8(bytes) {
        Ok(more) => {
            text.push_str(more)?;
            Ok(true)
        }
        Err(_) => Ok(false),
    }
}

/// The chunks of a text string from the offset on, joined, and where the break after them ends.
fn joined_text(alloc: Global, input: &[u8], at: usize) -> Result<(String, usize), ItemError>
    requires { at ≤ length input.now }
    ensures joined { IfOk result (λ r. AreJoinedTexts input.now at (string_bytes r.0) r.1) }
    ensures fault { IfErr result (IsTextJoinFault input.now at) }
{
    let mut text = String::new(alloc);
    let mut is_utf8 = true;
    let mut end = at;
    'chunks: while !is_break(input, end) {
        let chunk = read_chunk(input, end, TEXT_STRING)?;
        is_utf8 = push_utf8(&mut text, is_utf8, &input[chunk.start..chunk.end])?;
        end = chunk.end;
    }
    if !is_utf8 {
        return Err(ItemError::InvalidUtf8);
    }
    Ok((text, end + 1))
}

/// The chunks of a byte string from the offset on, joined, and where the break after them ends.
fn joined_bytes(alloc: Global, input: &[u8], at: usize) -> Result<(Vec<u8>, usize), ItemError>
    requires { at ≤ length input.now }
    ensures joined { IfOk result (λ r. AreJoined 2 input.now at r.0.items r.1) }
    ensures fault { IfErr result (IsJoinFault 2 input.now at) }
{
    let mut bytes = Vec::new(alloc);
    let mut end = at;
    'chunks: while !is_break(input, end) {
        let chunk = read_chunk(input, end, BYTE_STRING)?;
        bytes.extend_from_slice(&input[chunk.start..chunk.end])?;
        end = chunk.end;
    }
    Ok((bytes, end + 1))
}
