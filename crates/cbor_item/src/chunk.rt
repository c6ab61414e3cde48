//! Chunks: the definite strings of which a string in chunks consists.

ghost use Rattle.std.specs.Prelude.{◌≡◌, ◌≤◌, ◌<◌, ◌+◌, IfOk, IfErr, drop, length};
ghost use Rattle.cbor_item.specs.Private.Chunk.{IsChunkAnswer, begins_with_break};

use crate::error::ItemError;
use crate::head::read_head;

/// A break: additional information 31 under major type 7.
const BREAK: u8 = 0xff;

/// Where the bytes of a chunk begin and end, without its head.
#[derive(Clone, Copy)]
pub(crate) struct Chunk {
    pub start: usize,
    pub end: usize,
}

/// Reads the chunk of the major type that begins at the offset.
pub(crate) fn read_chunk(input: &[u8], at: usize, major: u8) -> Result<Chunk, ItemError>
    requires { at ≤ length input.now }
    ensures { IsChunkAnswer major input.now at result }
{
    let head = read_head(input, at)?;
    match head.argument {
        Some(announced) if head.major == major => chunk_from(
            input,
            at + usize::from(head.length),
            announced,
        ),
        _ => Err(ItemError::NotWellFormed),
    }
}

/// The chunk of so many bytes that begins at the offset.
pub(crate) fn chunk_from(input: &[u8], start: usize, announced: u64) -> Result<Chunk, ItemError>
    requires { start ≤ length input.now }
    ensures ok { IfOk result (λ chunk. (chunk.start ≡ start) × (chunk.end ≡ start + announced) × (chunk.end ≤ length input.now)) }
    ensures err { IfErr result (λ e. (e ≡ ItemError.Truncated) × (length input.now < start + announced)) }
{
    let end = end_of_payload(input, start, announced)?;
    Ok(Chunk { start, end })
}

/// The end of so many bytes that begin at the offset.
pub(crate) fn end_of_payload(input: &[u8], start: usize, announced: u64) -> Result<usize, ItemError>
    requires { start ≤ length input.now }
    ensures ok { IfOk result (λ end. (end ≡ start + announced) × (end ≤ length input.now)) }
    ensures err { IfErr result (λ e. (e ≡ ItemError.Truncated) × (length input.now < start + announced)) }
{
    if announced > (input.len() - start) as u64 {
        return Err(ItemError::Truncated);
    }
    Ok(start + announced as usize)
}

/// Whether the next byte is a break.
pub(crate) fn is_break(input: &[u8], at: usize) -> bool
    requires { at ≤ length input.now }
    ensures { result ≡ begins_with_break (drop at input.now) }
{
    at < input.len() && input[at] == BREAK
}
