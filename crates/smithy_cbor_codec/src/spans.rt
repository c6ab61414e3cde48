//! Reading texts and bytes by the places of the input at which they stand.
ghost use Rattle.std.specs.Prelude.{◌≡◌, ◌≤◌, ◌↔◌, ℕ, List, length, drop, IfOk, IfErr, IfSome, MatchOption};
ghost use Rattle.std.specs.Cow.{cow_str_bytes, IsBorrowedStr};
ghost use Rattle.cbor_item.specs.Strings.{BeginsIndefinite};
ghost use Rattle.smithy_schema.specs.Spans.{text_bytes, span_bytes, IsTextPlaced, IsPlaced, IsTextBetween, IsBetween, NamesTextPlace, NamesBytesPlace};
ghost use Rattle.smithy_cbor_values.specs.Standing.{Follows};
ghost use Rattle.smithy_cbor_values.specs.Borrowed.{BorrowsText, BorrowsBytes};
ghost use Rattle.smithy_cbor_values.specs.Private.ScalarAtPlace.{HasTextAt, IsBlobAt};
ghost use Rattle.smithy_cbor_codec.specs.Private.Spans.{IsMeantUpTo};

use crate::deserializer::CborDeserializer;
use smithy_cbor_values::values::{bytes_piece_at, text_piece_at};
use smithy_schema::{BytesSpan, PieceDeserializer, Schema, SerdeError, TextSpan};
use smithy_types::Blob;
use std::alloc::{AllocError, Global};
use std::borrow::{CowSlice, CowStr};

// The text whose item ends at the offset, by its place where it is borrowed: it ends where its item does.
#[inline(always)]
pub(crate) fn span_of(text: CowStr<'_, Global>, end: usize) -> TextSpan
    requires { IsBorrowedStr text → length (cow_str_bytes text) ≤ end }
    ensures text { IsMeantUpTo text_bytes IsTextPlaced IsTextBetween text.entry end result }
    ensures borrowed { NamesTextPlace result ↔ IsBorrowedStr text.entry }
{
    match text {
        CowStr::Borrowed(borrowed) => TextSpan::Placed(end - borrowed.len(), borrowed.len()),
        CowStr::Owned(owned) => TextSpan::Owned(owned),
    }
}

// The text at the offset, with the end of its item, where a value may end there.
#[inline(always)]
fn text_span_at(
    alloc: Global,
    input: &[u8],
    at: usize,
    depth: usize,
) -> Result<Option<(TextSpan, usize)>, AllocError>
    requires { at ≤ length input.now }
    ensures found { IfOk result (λ o. MatchOption o ((text : List ℕ) (e : ℕ) → HasTextAt text input.now at e → Follows depth input.now e → ⊥)
        (λ r. HasTextAt (text_bytes input.now r.0) input.now at r.1 × Follows depth input.now r.1)) }
    ensures placed { IfOk result (λ o. IfSome o (λ r. IsTextPlaced input.now r.0)) }
    ensures between { IfOk result (λ o. IfSome o (λ r. IsTextBetween at r.1 r.0)) }
    ensures borrowed { IfOk result (λ o. IfSome o (λ r. BorrowsText input.now at (NamesTextPlace r.0) r.1)) }
    ensures memory { IfErr result (λ e. BeginsIndefinite 3 (drop at input.now)) }
{
    let Some((text, end)) = text_piece_at(alloc, input, at, depth)? else {
        return Ok(None);
    };
    Ok(Some((span_of(text, end), end)))
}

// The bytes at the offset, with the end of their item, where a value may end there. Borrowed ones end where their item does.
#[inline(always)]
fn bytes_span_at(
    alloc: Global,
    input: &[u8],
    at: usize,
    depth: usize,
) -> Result<Option<(BytesSpan, usize)>, AllocError>
    requires { at ≤ length input.now }
    ensures found { IfOk result (λ o. MatchOption o ((blob : List ℕ) (e : ℕ) → IsBlobAt blob input.now at depth e → ⊥) (λ r. IsBlobAt (span_bytes input.now r.0) input.now at depth r.1)) }
    ensures placed { IfOk result (λ o. IfSome o (λ r. IsPlaced input.now r.0)) }
    ensures between { IfOk result (λ o. IfSome o (λ r. IsBetween at r.1 r.0)) }
    ensures borrowed { IfOk result (λ o. IfSome o (λ r. BorrowsBytes input.now at (NamesBytesPlace r.0) r.1)) }
    ensures memory { IfErr result (λ e. BeginsIndefinite 2 (drop at input.now)) }
{
    let Some((bytes, end)) = bytes_piece_at(alloc, input, at, depth)? else {
        return Ok(None);
    };
    match bytes {
        CowSlice::Borrowed(borrowed) => {
            let span = BytesSpan::Placed(end - borrowed.len(), borrowed.len());
            Ok(Some((span, end)))
        }
        CowSlice::Owned(owned) => Ok(Some((BytesSpan::Owned(Blob::new(owned)), end))),
    }
}

impl PieceDeserializer for CborDeserializer<'_> {
    ghost use Rattle.smithy_declarations.specs.declared.shape_type.Scalar.TheVariants as scalars;
    ghost use Rattle.smithy_declarations.specs.Value.{text, bytes};
    ghost use Rattle.smithy_shapes.specs.Site.{site_of};
    ghost use Rattle.smithy_schema.specs.Borrowing.{Borrows};
    ghost use Rattle.smithy_schema.specs.Reading.{ReadsScalar};
    ghost use Rattle.smithy_cbor_values.specs.Borrowed.{texts_borrow, bytes_borrow};
    ghost use Rattle.smithy_cbor_codec.specs.Cursor.{cursor_of, reading_settings_of};
    ghost use Rattle.smithy_cbor_values.specs.Standing.{cbor_reader};

    type Text = TextSpan;

    type Bytes = BytesSpan;

    fn take_text(&mut self, _schema: &Schema<'_>) -> Result<TextSpan, SerdeError>
        ensures same { reading_settings_of self.new ≡ reading_settings_of self.old }
        ensures read { ReadsScalar (cbor_reader (reading_settings_of self.old)) (cursor_of self.old) (cursor_of self.new) (site_of _schema.now) scalars.String (λ t. text (text_bytes (cursor_of self.old).input t)) result }
        ensures placed { IfOk result (IsTextPlaced (cursor_of self.old).input) }
        ensures between { IfOk result (IsTextBetween (cursor_of self.old).at (cursor_of self.new).at) }

        // A place is named exactly where the text is definite, and only an indefinite one takes memory.
        ensures borrows { Borrows texts_borrow NamesTextPlace (cursor_of self.old) (cursor_of self.new) result }
    {
        self.walk.ready()?;
        let found = text_span_at(
            self.alloc,
            self.walk.input,
            self.walk.position,
            self.end_depth(),
        );
        self.walk.take_found(found)
    }

    fn take_bytes(&mut self, _schema: &Schema<'_>) -> Result<BytesSpan, SerdeError>
        ensures same { reading_settings_of self.new ≡ reading_settings_of self.old }
        ensures read { ReadsScalar (cbor_reader (reading_settings_of self.old)) (cursor_of self.old) (cursor_of self.new) (site_of _schema.now) scalars.Blob (λ b. bytes (span_bytes (cursor_of self.old).input b)) result }
        ensures placed { IfOk result (IsPlaced (cursor_of self.old).input) }
        ensures between { IfOk result (IsBetween (cursor_of self.old).at (cursor_of self.new).at) }

        // A place is named exactly where the byte string is definite, and only an indefinite one takes memory.
        ensures borrows { Borrows bytes_borrow NamesBytesPlace (cursor_of self.old) (cursor_of self.new) result }
    {
        self.walk.ready()?;
        let found = bytes_span_at(
            self.alloc,
            self.walk.input,
            self.walk.position,
            self.end_depth(),
        );
        self.walk.take_found(found)
    }

    fn take_key(&mut self) -> Result<Option<TextSpan>, SerdeError> {
        self.next_key_as()
    }
}
