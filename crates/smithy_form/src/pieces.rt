//! The pieces of a form, and the pairs that they are.
ghost use Rattle.std.specs.Prelude.{◌≡◌, ◌≤◌, ◌<◌, ◌^◌, ◌==◌, length};
ghost use Rattle.std.specs.List.{slice_split, position_or_len};
ghost use Rattle.smithy_query.specs.Split.{is_ampersand};
ghost use Rattle.smithy_form.specs.Private.Splitting.{ReadsPair, ReadsPairs};

use crate::error::FormError;
use crate::find::bytes_from;
use crate::pairs::Pair;
use crate::percent::decode;
use memchr::memchr;
use std::alloc::Global;

/// The place of the first byte of this kind, or the end.
fn place_of(bytes: &[u8], byte: u8) -> usize
    ensures place { result ≡ position_or_len (λ b. b == byte) bytes.now }
    ensures within { result ≤ length bytes.now }
    ensures few { length bytes.now < 2 ^ 64 }
{
    match memchr(byte, bytes) {
        Some(place) => place,
        None => bytes.len(),
    }
}

/// The pair that a piece is.
fn pair_of<'a>(alloc: Global, piece: &'a [u8], number: u64) -> Result<Pair<'a>, FormError>
    ensures { ReadsPair piece.now number result }
{
    let equals = place_of(piece, b'=');
    if equals == piece.len() {
        return Err(FormError::BadPair(number));
    }
    let Some(name) = decode(alloc, &piece[..equals])? else {
        return Err(FormError::BadPair(number));
    };
    let Some(text) = decode(alloc, bytes_from(piece, equals + 1))? else {
        return Err(FormError::BadPair(number));
    };
    // No allocation is that long.
    if name.as_str().len() >= 1 << 63 {
        return Err(FormError::NoMemory);
    }
    Ok(Pair { name, text, number })
}

/// All pairs of a form, in their order.
pub(crate) fn pairs_of<'a>(alloc: Global, input: &'a [u8]) -> Result<Vec<Pair<'a>>, FormError>
    ensures { ReadsPairs (slice_split is_ampersand input.now) result }
{
    let mut pairs = Vec::new(alloc);
    let mut rest = input;
    loop {
        let number = pairs.len() as u64 + 1;
        let end = place_of(rest, b'&');
        let pair = pair_of(alloc, &rest[..end], number)?;
        pairs.push(pair)?;
        if end == rest.len() {
            return Ok(pairs);
        }
        rest = bytes_from(rest, end + 1);
    }
}
