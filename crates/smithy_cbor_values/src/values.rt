//! What stands at a place of an input: integers, texts, bytes, and what is skipped.

ghost use Rattle.std.specs.Prelude.{◌≡◌, ◌≤◌, ℕ, ℤ, Bool, true, List, length, drop, IfSome, IfNone, IfOk, IfErr, MatchOption, MatchBool, string_bytes};
ghost use Rattle.std.specs.Cow.{cow_str_bytes, cow_slice_items, IsBorrowedStr, IsBorrowedSlice};
ghost use Rattle.cbor_item.specs.Strings.{BeginsIndefinite};
ghost use Rattle.smithy_texts.specs.Base64Text.{are_bytes};
ghost use Rattle.smithy_cbor.specs.Scalar.{boolean_item};
ghost use Rattle.smithy_cbor_values.specs.Standing.{Follows};
ghost use Rattle.smithy_cbor_values.specs.Borrowed.{BorrowsText, BorrowsBytes};
ghost use Rattle.smithy_cbor_values.specs.Private.ScalarAtPlace.{IsAt, IsWholeAt, HasTextAt, IsBlobAt};
ghost use Rattle.smithy_cbor_values.specs.Private.Skipping.{SkipsTo};

use crate::integers::integer_at;
use crate::places::{decoder_at, may_end};
use cbor_item::{ItemError, byte_chunks, skip_item, text_chunks};
use smithy_types::Blob;
use std::alloc::{AllocError, Global};
use std::borrow::{CowSlice, CowStr};

/// The boolean at the offset, with its end, where a value may end there.
pub fn boolean_at(input: &[u8], at: usize, depth: usize) -> Option<(bool, usize)>
    requires { at ≤ length input.now }
    ensures found { IfSome result (λ r. IsAt (boolean_item r.0) input.now at depth r.1) }
    ensures none { IfNone result ((b : Bool) (e : ℕ) → IsAt (boolean_item b) input.now at depth e → ⊥) }
{
    let mut decoder = decoder_at(input, at);
    match decoder.boolean() {
        Ok(value) => {
            let end = decoder.position();
            may_end(input, end, depth).then_some((value, end))
        }
        Err(_) => None,
    }
}

/// The integer of 64 bits at the offset, with its end, where a value may end there.
pub fn long_at(input: &[u8], at: usize, depth: usize) -> Option<(i64, usize)>
    requires { at ≤ length input.now }
    ensures found { IfSome result (λ r. IsWholeAt 64 r.0 input.now at depth r.1) }
    ensures none { IfNone result ((n : ℤ) (e : ℕ) → IsWholeAt 64 n input.now at depth e → ⊥) }
{
    let (value, end) = integer_at(input, at)?;
    may_end(input, end, depth).then_some((value, end))
}

/// The text at the offset, with its end. It is borrowed where it stands in one piece.
pub fn text_at<'a>(
    alloc: Global,
    input: &'a [u8],
    at: usize,
) -> Result<Option<(CowStr<'a, Global>, usize)>, AllocError>
    requires { at ≤ length input.now }
    ensures found { IfOk result (λ o. MatchOption o ((text : List ℕ) (e : ℕ) → HasTextAt text input.now at e → ⊥) (λ r. HasTextAt (cow_str_bytes r.0) input.now at r.1)) }
    ensures borrowed { IfOk result (λ o. IfSome o (λ r. BorrowsText input.now at (IsBorrowedStr r.0) r.1)) }
    ensures memory { IfErr result (λ e. BeginsIndefinite 3 (drop at input.now)) }
{
    match text_chunks(alloc, input, at) {
        Ok((text, end)) => Ok(Some((text, end))),
        Err(error) => match error {
            ItemError::NoMemory => Err(AllocError),
            _ => Ok(None),
        },
    }
}

/// The text at the offset, with its end, where a value may end there. It is borrowed where it stands in one piece.
pub fn text_piece_at<'a>(
    alloc: Global,
    input: &'a [u8],
    at: usize,
    depth: usize,
) -> Result<Option<(CowStr<'a, Global>, usize)>, AllocError>
    requires { at ≤ length input.now }
    ensures found { IfOk result (λ o. MatchOption o ((text : List ℕ) (e : ℕ) → HasTextAt text input.now at e → Follows depth input.now e → ⊥)
        (λ r. HasTextAt (cow_str_bytes r.0) input.now at r.1 × Follows depth input.now r.1)) }
    ensures borrowed { IfOk result (λ o. IfSome o (λ r. BorrowsText input.now at (IsBorrowedStr r.0) r.1)) }
    ensures memory { IfErr result (λ e. BeginsIndefinite 3 (drop at input.now)) }
{
    let Some((text, end)) = text_at(alloc, input, at)? else {
        return Ok(None);
    };
    if !may_end(input, end, depth) {
        return Ok(None);
    }
    Ok(Some((text, end)))
}

/// The text of the string at the offset, in memory of its own, with the string's end, where a value may end there.
pub fn string_at(
    alloc: Global,
    input: &[u8],
    at: usize,
    depth: usize,
) -> Result<Option<(String, usize)>, AllocError>
    requires { at ≤ length input.now }
    ensures { IfOk result (λ o. MatchOption o ((text : List ℕ) (e : ℕ) → HasTextAt text input.now at e → Follows depth input.now e → ⊥)
        (λ r. HasTextAt (string_bytes r.0) input.now at r.1 × Follows depth input.now r.1)) }
{
    let Some((text, end)) = text_piece_at(alloc, input, at, depth)? else {
        return Ok(None);
    };
    Ok(Some((text.into_owned(alloc)?, end)))
}

// Tells the proof that what a slice of bytes holds is below 256.
#[inline(always)]
fn holds_bytes(bytes: &[u8])
    ensures { are_bytes bytes.now ≡ true }
{}

// The bytes in memory of their own.
fn owned_blob(alloc: Global, bytes: CowSlice<'_, u8>) -> Result<Blob, AllocError>
    ensures { IfOk result (λ blob. blob ≡ cow_slice_items bytes.entry) }
{
    match bytes {
        CowSlice::Borrowed(borrowed) => Ok(Blob::new(Vec::from_slice(alloc, borrowed)?)),
        CowSlice::Owned(owned) => Ok(Blob::new(owned)),
    }
}

// Tells the proof that each of these bytes, borrowed or owned, is below 256.
fn cow_holds_bytes(bytes: &CowSlice<'_, u8, Global>)
    ensures { are_bytes (cow_slice_items bytes.now) ≡ true }
{
    holds_bytes(bytes.as_slice());
}

/// The bytes at the offset, with their end, where a value may end there. They are borrowed where they stand in one piece.
pub fn bytes_piece_at<'a>(
    alloc: Global,
    input: &'a [u8],
    at: usize,
    depth: usize,
) -> Result<Option<(CowSlice<'a, u8, Global>, usize)>, AllocError>
    requires { at ≤ length input.now }
    ensures found { IfOk result (λ o. MatchOption o ((blob : List ℕ) (e : ℕ) → IsBlobAt blob input.now at depth e → ⊥) (λ r. IsBlobAt (cow_slice_items r.0) input.now at depth r.1)) }
    ensures borrowed { IfOk result (λ o. IfSome o (λ r. BorrowsBytes input.now at (IsBorrowedSlice r.0) r.1)) }
    ensures memory { IfErr result (λ e. BeginsIndefinite 2 (drop at input.now)) }
{
    match byte_chunks(alloc, input, at) {
        Ok((bytes, end)) => {
            if !may_end(input, end, depth) {
                return Ok(None);
            }
            cow_holds_bytes(&bytes);
            Ok(Some((bytes, end)))
        }
        Err(error) => match error {
            ItemError::NoMemory => Err(AllocError),
            _ => Ok(None),
        },
    }
}

/// The bytes at the offset, in memory of their own, with their end, where a value may end there.
pub fn blob_at(
    alloc: Global,
    input: &[u8],
    at: usize,
    depth: usize,
) -> Result<Option<(Blob, usize)>, AllocError>
    requires { at ≤ length input.now }
    ensures { IfOk result (λ o. MatchOption o ((blob : List ℕ) (e : ℕ) → IsBlobAt blob input.now at depth e → ⊥) (λ r. IsBlobAt r.0 input.now at depth r.1)) }
{
    let Some((bytes, end)) = bytes_piece_at(alloc, input, at, depth)? else {
        return Ok(None);
    };
    let blob = owned_blob(alloc, bytes)?;
    Ok(Some((blob, end)))
}

/// The end of the item at the offset, where a value may end there.
pub fn skipped_end(
    alloc: Global,
    input: &[u8],
    at: usize,
    depth: usize,
) -> Result<Option<usize>, AllocError>
    requires { at ≤ length input.now }
    ensures { IfOk result (λ o. MatchOption o ((e : ℕ) → SkipsTo input.now at depth e → ⊥) (SkipsTo input.now at depth)) }
{
    match skip_item(alloc, input, at) {
        Ok(end) => {
            if !may_end(input, end, depth) {
                return Ok(None);
            }
            Ok(Some(end))
        }
        Err(error) => match error {
            ItemError::NoMemory => Err(AllocError),
            _ => Ok(None),
        },
    }
}

/// Whether an item stands at the offset, where a value may end behind it.
pub fn item_stands(alloc: Global, input: &[u8], at: usize, depth: usize) -> Result<bool, AllocError>
    requires { at ≤ length input.now }
    ensures { IfOk result (λ stands. MatchBool stands ((e : ℕ) × SkipsTo input.now at depth e) ((e : ℕ) → SkipsTo input.now at depth e → ⊥)) }
{
    match skipped_end(alloc, input, at, depth)? {
        Some(_) => Ok(true),
        None => Ok(false),
    }
}
