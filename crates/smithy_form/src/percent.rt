//! One side of a pair, decoded.
ghost use Rattle.std.specs.Prelude.{◌≡◌, ◌≢◌, ◌*◌, ◌+◌, ◌&&◌, [], Option, Some, None, option_map, if◌then◌else◌, IfOk};
ghost use Rattle.std.specs.Char.{digit_value, is_digit};
ghost use Rattle.std.specs.Str.{is_utf8};
ghost use Rattle.std.specs.Cow.{cow_str_bytes};
ghost use Rattle.std.specs.List.{list_any};
ghost use Rattle.percent_encoding.specs.Percent.{percent_decode};
ghost use Rattle.smithy_form.specs.Forms.{has_whole_escapes, spaced, side_text};
ghost use Rattle.smithy_form.specs.Private.Splitting.{is_coded, ReadsFront};

use memchr::memchr2;
use std::alloc::{AllocError, Global};
use std::borrow::CowStr;
use std::str;

/// The byte that two hexadecimal digits are.
fn escaped_byte(high: u8, low: u8) -> Option<u8>
    ensures { result ≡ (if is_digit high 16 && is_digit low 16 then Some (16 * digit_value high + digit_value low) else None) }
{
    let high = char::from(high).to_digit(16)?;
    let low = char::from(low).to_digit(16)?;
    Some(high as u8 * 16 + low as u8)
}

/// The byte that the front of a side represents, and what follows it: none where a `%` begins no escape.
fn front_of(side: &[u8]) -> Option<(u8, &[u8])>
    requires some { side.now ≢ [] }
    ensures { ReadsFront side.now result }
{
    let (byte, rest) = side.split_first()?;
    if *byte == b'+' {
        return Some((b' ', rest));
    }
    if *byte != b'%' {
        return Some((*byte, rest));
    }
    let (high, rest) = rest.split_first()?;
    let (low, rest) = rest.split_first()?;
    Some((escaped_byte(*high, *low)?, rest))
}

/// The bytes with `+` as a space and each escape as its byte, if each `%` begins an escape.
fn decoded_bytes(alloc: Global, side: &[u8]) -> Result<Option<Vec<u8>>, AllocError>
    ensures { IfOk result (λ bytes. option_map (λ v. v.items) bytes ≡ (if has_whole_escapes side.now then Some (percent_decode (spaced side.now)) else None)) }
{
    let mut bytes = Vec::with_capacity(alloc, side.len())?;
    let mut rest = side;
    while !rest.is_empty() {
        let Some((byte, more)) = front_of(rest) else {
            return Ok(None);
        };
        bytes.push(byte)?;
        rest = more;
    }
    Ok(Some(bytes))
}

/// Some byte of the side doesn't represent itself.
fn has_coded(side: &[u8]) -> bool
    ensures { result ≡ list_any is_coded side.now }
{
    memchr2(b'%', b'+', side).is_some()
}

// The text that some bytes are.
fn text_of(bytes: &[u8]) -> Option<&str>
    ensures { option_map (λ text. text.now) result ≡ (if is_utf8 bytes.now then Some bytes.now else None) }
{
    match str::from_utf8(bytes) {
        Ok(text) => Some(text),
        Err(_) => None,
    }
}

/// The text of a side, borrowed where each byte represents itself: none where a `%` begins no escape, or the text isn't UTF-8.
pub(crate) fn decode<'a>(
    alloc: Global,
    side: &'a [u8],
) -> Result<Option<CowStr<'a, Global>>, AllocError>
    ensures { IfOk result (λ text. option_map cow_str_bytes text ≡ side_text side.now) }
{
    if !has_coded(side) {
        let Some(text) = text_of(side) else {
            return Ok(None);
        };
        return Ok(Some(CowStr::Borrowed(text)));
    }
    let Some(bytes) = decoded_bytes(alloc, side)? else {
        return Ok(None);
    };
    match String::from_utf8(bytes) {
        Ok(text) => Ok(Some(CowStr::Owned(text))),
        Err(_) => Ok(None),
    }
}
