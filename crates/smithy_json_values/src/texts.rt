//! The texts that strings stand for, and the bytes that texts encode.
ghost use Rattle.std.specs.Prelude.{◌≡◌, ◌↔◌, true, false, ◌≤◌, ℕ, List, length, IfOk, IfErr, IfSome, option_map, option_and_then, string_bytes};
ghost use Rattle.std.specs.Cow.{cow_str_bytes, cow_slice_items, IsBorrowedStr, IsOwnedSlice};
ghost use Rattle.smithy_schema.specs.Spans.{text_bytes, span_bytes, IsTextPlaced, IsPlaced, IsTextBetween, IsBetween, NamesTextPlace, NamesBytesPlace};
ghost use Rattle.smithy_texts.specs.Base64Text.{blob_of as base64_of};
ghost use Rattle.smithy_json_grammar.specs.Unescape.{unescaped, has_escape};
ghost use Rattle.smithy_json_values.specs.Borrowed.{BorrowsText, LiesEscaped};
ghost use Rattle.smithy_json_values.specs.Codec.{held_grammar};
ghost use Rattle.smithy_json_values.specs.Private.PlacedTexts.{IsMeantFrom};
ghost use Rattle.smithy_json_values.specs.Private.ScalarAtPlace.{Finds, TextLies, BlobLies};

use crate::values::string_at;
use smithy_json_grammar::{EscapeError, EscapedStr};
use smithy_json_settings::Settings;
use smithy_schema::{BytesSpan, TextSpan};
use smithy_types::Blob;
use smithy_types::base64::{DecodeError, decode};
use std::alloc::{AllocError, Global};
use std::borrow::{CowSlice, CowStr};

/// The text of a string, if its escapes are sound, which is borrowed where it has none.
#[inline(always)]
pub fn text_of<'a>(
    alloc: Global,
    raw: &'a str,
    is_escaped: bool,
) -> Result<Option<CowStr<'a, Global>>, AllocError>
    requires { is_escaped ≡ has_escape raw.now }
    ensures text { IfOk result (λ text. unescaped raw.now ≡ option_map cow_str_bytes text) }
    ensures borrowed { IfOk result (λ text. IfSome text (λ text. IsBorrowedStr text ↔ (has_escape raw.now ≡ false))) }
    ensures memory { IfErr result (λ e. has_escape raw.now ≡ true) }
{
    if !is_escaped {
        return Ok(Some(CowStr::Borrowed(raw)));
    }
    let text = unescaped_text(alloc, raw)?;
    Ok(text)
}

// The text of a raw string, with or without escapes. It stays a call, so that `text_of` is short for a string without any.
#[inline(never)]
fn unescaped_text<'a>(alloc: Global, raw: &'a str) -> Result<Option<CowStr<'a, Global>>, AllocError>
    ensures text { IfOk result (λ text. unescaped raw.now ≡ option_map cow_str_bytes text) }
    ensures borrowed { IfOk result (λ text. IfSome text (λ text. IsBorrowedStr text ↔ (has_escape raw.now ≡ false))) }
{
    match EscapedStr::new(raw).to_unescaped(alloc) {
        Ok(text) => Ok(Some(text)),
        Err(EscapeError::NoMemory) => Err(AllocError),
        Err(_) => Ok(None),
    }
}

/// The text of a raw string, if its escapes are sound, in memory of its own.
#[inline(always)]
pub fn owned_text(alloc: Global, raw: &str, is_escaped: bool) -> Result<Option<String>, AllocError>
    requires { is_escaped ≡ has_escape raw.now }
    ensures { IfOk result (λ text. unescaped raw.now ≡ option_map string_bytes text) }
{
    let Some(text) = text_of(alloc, raw, is_escaped)? else {
        return Ok(None);
    };
    Ok(Some(text.into_owned(alloc)?))
}

/// The text of the string that comes first behind blanks, with its end. It is borrowed where the
/// string has no escapes.
#[inline(always)]
pub fn text_piece_at<'a>(
    alloc: Global,
    input: &'a [u8],
    at: usize,
    settings: &Settings,
) -> Result<Option<(CowStr<'a, Global>, usize)>, AllocError>
    requires { at ≤ length input.now }
    ensures found { IfOk result (Finds (TextLies (held_grammar settings.now) input.now at) cow_str_bytes) }
    ensures borrowed { IfOk result (λ o. IfSome o (λ r. BorrowsText (held_grammar settings.now) input.now at (IsBorrowedStr r.0) r.1)) }
    ensures memory { IfErr result (λ e. LiesEscaped (held_grammar settings.now) input.now at) }
{
    let Some(string) = string_at(input, at, settings) else {
        return Ok(None);
    };
    let Some(text) = text_of(alloc, string.text, string.has_escape)? else {
        return Ok(None);
    };
    Ok(Some((text, string.closing + 1)))
}

/// The text of the string that comes first behind blanks, with its end, in memory of its own.
#[inline(always)]
pub fn text_at(
    alloc: Global,
    input: &[u8],
    at: usize,
    settings: &Settings,
) -> Result<Option<(String, usize)>, AllocError>
    requires { at ≤ length input.now }
    ensures { IfOk result (Finds (TextLies (held_grammar settings.now) input.now at) string_bytes) }
{
    let Some((text, end)) = text_piece_at(alloc, input, at, settings)? else {
        return Ok(None);
    };
    Ok(Some((text.into_owned(alloc)?, end)))
}

/// The text of a raw string that begins at the place, if its escapes are sound. Where it has none, it is named by the place.
#[inline(always)]
pub fn span_of(
    alloc: Global,
    raw: &str,
    at: usize,
    is_escaped: bool,
) -> Result<Option<TextSpan>, AllocError>
    requires { is_escaped ≡ has_escape raw.now }
    ensures text { IfOk result (IsMeantFrom text_bytes IsTextPlaced IsTextBetween at raw.now) }
    ensures borrowed { IfOk result (λ text. IfSome text (λ text. NamesTextPlace text ↔ (has_escape raw.now ≡ false))) }
    ensures memory { IfErr result (λ e. has_escape raw.now ≡ true) }
{
    if !is_escaped {
        return Ok(Some(TextSpan::Placed(at, raw.len())));
    }
    let Some(text) = owned_text(alloc, raw, true)? else {
        return Ok(None);
    };
    Ok(Some(TextSpan::Owned(text)))
}

/// The text of the string that comes first behind blanks, with its end. It is named by its place where
/// the string has no escapes.
#[inline(always)]
pub fn text_span_at(
    alloc: Global,
    input: &[u8],
    at: usize,
    settings: &Settings,
) -> Result<Option<(TextSpan, usize)>, AllocError>
    requires { at ≤ length input.now }
    ensures found { IfOk result (Finds (TextLies (held_grammar settings.now) input.now at) (text_bytes input.now)) }
    ensures placed { IfOk result (λ o. IfSome o (λ r. IsTextPlaced input.now r.0)) }
    ensures between { IfOk result (λ o. IfSome o (λ r. IsTextBetween at r.1 r.0)) }
    ensures borrowed { IfOk result (λ o. IfSome o (λ r. BorrowsText (held_grammar settings.now) input.now at (NamesTextPlace r.0) r.1)) }
    ensures memory { IfErr result (λ e. LiesEscaped (held_grammar settings.now) input.now at) }
{
    let Some(string) = string_at(input, at, settings) else {
        return Ok(None);
    };
    let begin = string.closing - string.text.len();
    let Some(text) = span_of(alloc, string.text, begin, string.has_escape)? else {
        return Ok(None);
    };
    Ok(Some((text, string.closing + 1)))
}

// The bytes whose base64 is the text, if it is that of some.
fn decoded(alloc: Global, text: &str) -> Result<Option<Blob>, AllocError>
    ensures { IfOk result (λ blob. base64_of text.now ≡ blob) }
{
    match decode(alloc, text) {
        Ok(bytes) => Ok(Some(Blob::new(bytes))),
        Err(DecodeError::Invalid) => Ok(None),
        Err(DecodeError::NoMemory) => Err(AllocError),
    }
}

// The bytes whose base64 is the text of a string, if it is that of some.
fn blob_of(alloc: Global, raw: &str, is_escaped: bool) -> Result<Option<Blob>, AllocError>
    requires { is_escaped ≡ has_escape raw.now }
    ensures { IfOk result (λ blob. option_and_then base64_of (unescaped raw.now) ≡ blob) }
{
    let Some(text) = text_of(alloc, raw, is_escaped)? else {
        return Ok(None);
    };
    decoded(alloc, text.as_str())
}

/// The bytes that the string encodes which comes first behind blanks, with its end.
pub fn blob_at(
    alloc: Global,
    input: &[u8],
    at: usize,
    settings: &Settings,
) -> Result<Option<(Blob, usize)>, AllocError>
    requires { at ≤ length input.now }
    ensures { IfOk result (Finds (BlobLies (held_grammar settings.now) input.now at) (λ blob. blob)) }
{
    let Some(string) = string_at(input, at, settings) else {
        return Ok(None);
    };
    let Some(blob) = blob_of(alloc, string.text, string.has_escape)? else {
        return Ok(None);
    };
    Ok(Some((blob, string.closing + 1)))
}

/// The bytes that the string encodes which comes first behind blanks, with its end. They stand in
/// memory of their own, in the type that a reader hands out which borrows.
pub fn bytes_piece_at<'a>(
    alloc: Global,
    input: &'a [u8],
    at: usize,
    settings: &Settings,
) -> Result<Option<(CowSlice<'a, u8, Global>, usize)>, AllocError>
    requires { at ≤ length input.now }
    ensures found { IfOk result (Finds (BlobLies (held_grammar settings.now) input.now at) cow_slice_items) }
    ensures owned { IfOk result (λ o. IfSome o (λ r. IsOwnedSlice r.0)) }
{
    let Some((blob, end)) = blob_at(alloc, input, at, settings)? else {
        return Ok(None);
    };
    Ok(Some((CowSlice::Owned(blob.into_inner()), end)))
}

/// The bytes that the string encodes which comes first behind blanks, with its end. They stand
/// nowhere in the input, as the string holds them as base64.
pub fn bytes_span_at(
    alloc: Global,
    input: &[u8],
    at: usize,
    settings: &Settings,
) -> Result<Option<(BytesSpan, usize)>, AllocError>
    requires { at ≤ length input.now }
    ensures found { IfOk result (Finds (BlobLies (held_grammar settings.now) input.now at) (span_bytes input.now)) }
    ensures placed { IfOk result (λ o. IfSome o (λ r. IsPlaced input.now r.0)) }
    ensures between { IfOk result (λ o. IfSome o (λ r. IsBetween at r.1 r.0)) }
    ensures owned { IfOk result (λ o. IfSome o (λ r. NamesBytesPlace r.0 → ⊥)) }
{
    let Some((blob, end)) = blob_at(alloc, input, at, settings)? else {
        return Ok(None);
    };
    Ok(Some((BytesSpan::Owned(blob), end)))
}
