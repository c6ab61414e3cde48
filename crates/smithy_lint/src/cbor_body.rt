//! A data item of CBOR as a body.
ghost use Rattle.std.specs.Prelude.{◌≡◌, ◌≤◌, ◌<◌, ◌^◌, IfOk, length};
ghost use Rattle.smithy_wire.specs.Walking.{mark_of};
ghost use Rattle.smithy_cbor_values.specs.Standing.{mark_with};
ghost use Rattle.smithy_lint.specs.Private.CborVerdicts.{IsFinding};

use crate::body::{Beginning, Body, Next};
use crate::finding::Kind;
use crate::verdict::{finding_of, unless};
use smithy_cbor_values::instants::instant_at;
use smithy_cbor_values::numbers::{big_decimal_at, big_integer_at};
use smithy_cbor_values::places::{EntryOrEnd, array_at, entry_or_end, is_null_at, map_at};
use smithy_cbor_values::values::{blob_at, boolean_at, long_at, skipped_end, text_at};
use smithy_schema::{Scalar, Schema, TimestampFormat};
use smithy_wire::{Mark, byte_found, integer_found, short_found};
use std::alloc::{AllocError, Global};
use std::borrow::CowStr;

/// A data item.
#[derive(Clone, Copy)]
pub struct CborBody<'a> {
    pub(crate) bytes: &'a [u8],
    ghost bound: { length bytes.now < 2 ^ 64 },
}

// The mark of a container with `due` entries left, or of indefinite length.
fn mark(due: Option<u64>) -> Mark
    ensures { mark_of result ≡ mark_with due }
{
    Mark {
        entered: false,
        at_end: false,
        due,
    }
}

// What is found in the scalar at the offset, where one of the kind is due.
fn finding_at(
    alloc: Global,
    bytes: &[u8],
    kind: Scalar,
    at: usize,
    depth: usize,
) -> Result<Option<Kind>, AllocError>
    requires { at ≤ length bytes.now }
    ensures { IfOk result (IsFinding kind bytes.now at depth) }
{
    match kind {
        Scalar::Boolean => Ok(unless(boolean_at(bytes, at, depth).is_some())),
        Scalar::Byte => Ok(unless(byte_found(long_at(bytes, at, depth)).is_some())),
        Scalar::Short => Ok(unless(short_found(long_at(bytes, at, depth)).is_some())),
        Scalar::Integer => Ok(unless(integer_found(long_at(bytes, at, depth)).is_some())),
        Scalar::Long => Ok(unless(long_at(bytes, at, depth).is_some())),
        Scalar::String => Ok(unless(text_at(alloc, bytes, at)?.is_some())),
        Scalar::Blob => Ok(unless(blob_at(alloc, bytes, at, depth)?.is_some())),
        Scalar::Timestamp => Ok(finding_of(instant_at(bytes, at, depth), Kind::NotCarried)),
        Scalar::BigInteger => {
            let found = big_integer_at(alloc, bytes, at, depth)?;
            Ok(finding_of(found, Kind::Wide))
        }
        Scalar::BigDecimal => {
            let found = big_decimal_at(alloc, bytes, at, depth)?;
            Ok(finding_of(found, Kind::Wide))
        }
    }
}

impl Body for CborBody<'_> {
    ghost use Rattle.std.specs.Prelude.{refl};
    ghost use Rattle.cbor_item.specs.Item.{Item};
    ghost use Rattle.smithy_cbor_values.specs.Meaning.{rules_of};
    ghost use Rattle.smithy_cbor_body.specs.Codec.{strict_settings};
    ghost use Rattle.smithy_lint.specs.Private.CborBodies.{cbor_holding, cbor_whole, cbor_bounded};

    ghost Scalars = { Item };

    ghost rules = { λ b. rules_of strict_settings };

    ghost holding = { λ b. cbor_holding b.bytes.now };

    ghost limits = { λ b. (refl, refl) };

    ghost whole = { λ b depth at e lies. cbor_whole b.bytes.now depth at e lies };

    ghost bounded = { λ b at m. cbor_bounded b at };

    fn begins(&self, at: usize) -> Beginning {
        if is_null_at(self.bytes, at) {
            return Beginning::Null(at + 1);
        }
        if let Some(array) = array_at(self.bytes, at) {
            return Beginning::Array(array.inside, mark(array.due));
        }
        if let Some(map) = map_at(self.bytes, at) {
            return Beginning::Object(map.inside, mark(map.due));
        }
        Beginning::Scalar
    }

    fn next_element(&self, at: usize, inner: Mark, _depth: usize) -> Next {
        match entry_or_end(self.bytes, at, inner.due) {
            Some(EntryOrEnd::Entry(due)) => Next::Entry(at, at, mark(due)),
            Some(EntryOrEnd::End(end)) => Next::End(end),
            None => unreachable!(),
        }
    }

    fn next_entry(
        &self,
        alloc: Global,
        at: usize,
        inner: Mark,
        _depth: usize,
    ) -> Result<Next, AllocError> {
        match entry_or_end(self.bytes, at, inner.due) {
            Some(EntryOrEnd::Entry(due)) => {
                let Some(value) = skipped_end(alloc, self.bytes, at, 1)? else {
                    unreachable!()
                };
                Ok(Next::Entry(at, value, mark(due)))
            }
            Some(EntryOrEnd::End(end)) => Ok(Next::End(end)),
            None => unreachable!(),
        }
    }

    fn key_text(&self, alloc: Global, at: usize) -> Result<Option<CowStr<'_, Global>>, AllocError> {
        match text_at(alloc, self.bytes, at)? {
            Some((text, _)) => Ok(Some(text)),
            None => Ok(None),
        }
    }

    fn member_named<'s>(&self, schema: &Schema<'s>, text: &str) -> Option<Schema<'s>> {
        schema.member_schema(text)
    }

    fn keeps_null(&self, _member: &Option<Schema<'_>>) -> bool {
        false
    }

    fn scalar_finding(
        &self,
        alloc: Global,
        kind: Scalar,
        _time: Option<TimestampFormat>,
        at: usize,
        depth: usize,
    ) -> Result<Option<Kind>, AllocError> {
        finding_at(alloc, self.bytes, kind, at, depth)
    }

    fn has_documents(&self) -> bool {
        false
    }

    fn document_finding(
        &self,
        _alloc: Global,
        _at: usize,
        _depth: usize,
    ) -> Result<Option<Kind>, AllocError> {
        Ok(Some(Kind::NotCarried))
    }

    fn end(&self, alloc: Global, at: usize, depth: usize) -> Result<usize, AllocError> {
        let Some(end) = skipped_end(alloc, self.bytes, at, depth)? else {
            unreachable!()
        };
        Ok(end)
    }

    fn may_skip(&self, _at: usize, _depth: usize) -> bool {
        true
    }
}
