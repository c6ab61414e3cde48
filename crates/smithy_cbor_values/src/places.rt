//! How the containers of an input begin, go on and end (RFC 8949, sections 3.2.1 and 3.2.2).

ghost use Rattle.std.specs.Prelude.{◌≡◌, ◌≤◌, ◌↔◌, ℕ, Option, length, drop, IsTrue, IfSome, IfNone};
ghost use Rattle.smithy_cbor.specs.DecoderView.{input_of, position_of};
ghost use Rattle.smithy_cbor.specs.Reading.{OpensAt};
ghost use Rattle.smithy_cbor_values.specs.Standing.{null_byte, begins_with, Follows, FollowsInside};
ghost use Rattle.smithy_cbor_values.specs.Private.NextInContainer.{IsEntryOrEnd};
ghost use Rattle.smithy_cbor_values.specs.Private.ScalarAtPlace.{IsNullAt};

use smithy_cbor::Decoder;

// The initial byte of null (section 3.3).
const NULL_BYTE: u8 = 0xf6;

// What ends a container of indefinite length.
const BREAK: u8 = 0xff;

/// Where a container begins.
#[derive(Clone, Copy)]
pub struct Opening {
    /// How many elements or entries its head announces, unless it is of indefinite length.
    pub due: Option<u64>,
    /// The offset behind its head.
    pub inside: usize,
}

/// What comes next in a container.
#[derive(Clone, Copy)]
pub enum EntryOrEnd {
    /// An element or an entry, with how many are due behind it where the length is definite.
    Entry(Option<u64>),
    /// The end, and this is the offset behind it.
    End(usize),
}

/// A decoder that begins at the offset.
pub fn decoder_at<'b>(input: &'b [u8], at: usize) -> Decoder<'b>
    requires { at ≤ length input.now }
    ensures input { input_of result ≡ input.now }
    ensures position { position_of result ≡ at }
{
    let mut decoder = Decoder::new(input);
    decoder.set_position(at);
    decoder
}

/// The head of an array that begins at the offset.
pub fn array_at(input: &[u8], at: usize) -> Option<Opening>
    requires { at ≤ length input.now }
    ensures found { IfSome result (λ o. OpensAt 4 o.due input.now at o.inside) }
    ensures none { IfNone result ((due : Option ℕ) (b : ℕ) → OpensAt 4 due input.now at b → ⊥) }
{
    let mut decoder = decoder_at(input, at);
    let due = decoder.list().ok()?;
    Some(Opening {
        due,
        inside: decoder.position(),
    })
}

/// The head of a map that begins at the offset.
pub fn map_at(input: &[u8], at: usize) -> Option<Opening>
    requires { at ≤ length input.now }
    ensures found { IfSome result (λ o. OpensAt 5 o.due input.now at o.inside) }
    ensures none { IfNone result ((due : Option ℕ) (b : ℕ) → OpensAt 5 due input.now at b → ⊥) }
{
    let mut decoder = decoder_at(input, at);
    let due = decoder.map().ok()?;
    Some(Opening {
        due,
        inside: decoder.position(),
    })
}

/// Whether what stands inside so many containers may end at the offset.
pub fn may_end(input: &[u8], at: usize, depth: usize) -> bool
    ensures { IsTrue result ↔ Follows depth input.now at }
{
    depth > 0 || at == input.len()
}

/// Whether the innermost of `depth` open containers may end at the offset. Strictly, the only one ends where the input does.
pub fn may_leave(input: &[u8], at: usize, depth: usize, strict: bool) -> bool
    ensures { IsTrue result ↔ FollowsInside strict depth input.now at }
{
    match depth {
        0 => false,
        1 => !strict || at == input.len(),
        _ => true,
    }
}

/// Whether a null comes first.
pub fn is_null_at(input: &[u8], at: usize) -> bool
    requires { at ≤ length input.now }
    ensures { result ≡ begins_with null_byte (drop at input.now) }
{
    at < input.len() && input[at] == NULL_BYTE
}

/// The end of the null at the offset, where a value may end there.
pub fn null_end(input: &[u8], at: usize, depth: usize) -> Option<usize>
    requires { at ≤ length input.now }
    ensures found { IfSome result (IsNullAt input.now at depth) }
    ensures none { IfNone result ((e : ℕ) → IsNullAt input.now at depth e → ⊥) }
{
    if is_null_at(input, at) && may_end(input, at + 1, depth) {
        return Some(at + 1);
    }
    None
}

/// What comes next in the container inside of which the offset lies: another entry, with how many are due behind it, or the end.
/// An entry takes a byte, so at the end of the input none comes, however many are due.
pub fn entry_or_end(input: &[u8], at: usize, due: Option<u64>) -> Option<EntryOrEnd>
    requires { at ≤ length input.now }
    ensures { IsEntryOrEnd input.now at due result }
{
    if let Some(0) = due {
        return Some(EntryOrEnd::End(at));
    }
    if at == input.len() {
        return None;
    }
    match due {
        Some(count) => Some(EntryOrEnd::Entry(Some(count - 1))),
        None if input[at] == BREAK => Some(EntryOrEnd::End(at + 1)),
        None => Some(EntryOrEnd::Entry(None)),
    }
}
