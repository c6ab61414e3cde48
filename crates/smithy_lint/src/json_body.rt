//! A JSON text as a body.
ghost use Rattle.std.specs.Prelude.{◌≡◌, ◌<◌, ◌^◌, length};
ghost use Rattle.smithy_json_codec.specs.WireSettings.{wire_settings};
ghost use Rattle.smithy_json_values.specs.Codec.{held_settings};

use crate::body::{Beginning, Body, Next};
use crate::finding::Kind;
use crate::verdict::{finding_of, unless};
use smithy_json_grammar::number_of_text;
use smithy_json_grammar::scan::skip_blanks;
use smithy_json_settings::Settings;
use smithy_json_values::input::Input;
use smithy_json_values::instants::instant_at;
use smithy_json_values::integers::integer_at;
use smithy_json_values::number_runs::{NumberSort, number_of};
use smithy_json_values::numbers::{big_decimal_at, big_integer_at};
use smithy_json_values::places::{InList, byte_end, next_in_list, next_name_place, null_end};
use smithy_json_values::skip::skipped_end;
use smithy_json_values::texts::{blob_at, text_of, text_piece_at};
use smithy_json_values::values::{boolean_at, string_of};
use smithy_schema::{Scalar, Schema, ShapeType, TimestampFormat};
use smithy_wire::{Mark, byte_found, integer_found, short_found};
use std::alloc::{AllocError, Global};
use std::borrow::CowStr;

// How many containers may be open where a value means something.
const MAX_DEPTH: usize = 128;

// The mark of a container that was opened, and that behind an entry.
const FRESH: Mark = Mark {
    entered: false,
    at_end: false,
    due: None,
};

const ENTERED: Mark = Mark {
    entered: true,
    at_end: false,
    due: None,
};

/// A JSON text in which at most 512 containers nest.
#[derive(Clone, Copy)]
pub struct JsonBody<'a> {
    pub(crate) bytes: &'a [u8],
    pub(crate) settings: Settings,
    // The same, where 512 containers may be open.
    pub(crate) nested: Settings,
    ghost standard: { held_settings settings ≡ wire_settings settings.use_json_name settings.allow_integral_float_numbers },
    ghost deeper: { held_settings nested ≡ record (held_settings settings) { max_depth = 512 } },
    ghost bound: { length bytes.now < 2 ^ 64 },
}

impl Body for JsonBody<'_> {
    ghost use Rattle.smithy_json_values.specs.Codec.{held_grammar};
    ghost use Rattle.smithy_json_values.specs.Scalar.{JsonScalar};
    ghost use Rattle.smithy_lint.specs.Private.JsonPlaces.{json_rules, json_holding, json_limits, no_missing, json_bounded};

    ghost Scalars = { JsonScalar };

    ghost rules = { json_rules };

    ghost holding = { json_holding };

    ghost limits = { json_limits };

    ghost whole = { λ b depth at e. no_missing (held_grammar b.settings) b.bytes.now depth at e };

    ghost bounded = { json_bounded };

    fn begins(&self, at: usize) -> Beginning {
        if let Some(inside) = byte_end(self.bytes, at, b'[') {
            return Beginning::Array(inside, FRESH);
        }
        if let Some(inside) = byte_end(self.bytes, at, b'{') {
            return Beginning::Object(inside, FRESH);
        }
        match null_end(self.bytes, at, &self.settings) {
            Some(end) => Beginning::Null(end),
            None => Beginning::Scalar,
        }
    }

    fn next_element(&self, at: usize, mark: Mark, depth: usize) -> Next {
        match next_in_list(self.bytes, at, mark.entered, depth, &self.settings) {
            Some(InList::Element(place)) => Next::Entry(place, place, ENTERED),
            Some(InList::End(end)) => Next::End(end),
            None => unreachable!(),
        }
    }

    fn next_entry(
        &self,
        _alloc: Global,
        at: usize,
        mark: Mark,
        depth: usize,
    ) -> Result<Next, AllocError> {
        match next_name_place(self.bytes, at, mark.entered, depth, &self.settings) {
            Some(InList::Element(place)) => {
                let start = skip_blanks(self.bytes, place);
                let Some(name) = string_of(self.bytes, start, &self.settings) else {
                    unreachable!()
                };
                let Some(value) = byte_end(self.bytes, name.closing + 1, b':') else {
                    unreachable!()
                };
                Ok(Next::Entry(start, value, ENTERED))
            }
            Some(InList::End(end)) => Ok(Next::End(end)),
            None => unreachable!(),
        }
    }

    fn key_text(&self, alloc: Global, at: usize) -> Result<Option<CowStr<'_, Global>>, AllocError> {
        let Some(string) = string_of(self.bytes, at, &self.settings) else {
            unreachable!()
        };
        text_of(alloc, string.text, string.has_escape)
    }

    fn member_named<'s>(&self, schema: &Schema<'s>, text: &str) -> Option<Schema<'s>> {
        if self.settings.use_json_name {
            schema.member_of_json_name(text)
        } else {
            schema.member_schema(text)
        }
    }

    fn keeps_null(&self, member: &Option<Schema<'_>>) -> bool {
        match member {
            Some(member) => member.shape_type() == ShapeType::Document,
            None => false,
        }
    }

    fn scalar_finding(
        &self,
        alloc: Global,
        kind: Scalar,
        time: Option<TimestampFormat>,
        at: usize,
        _depth: usize,
    ) -> Result<Option<Kind>, AllocError> {
        let bytes = self.bytes;
        let settings = &self.settings;
        match kind {
            Scalar::Boolean => Ok(unless(boolean_at(bytes, at, settings).is_some())),
            Scalar::Byte => Ok(unless(byte_found(integer_at(bytes, at, settings)).is_some())),
            Scalar::Short => Ok(unless(short_found(integer_at(bytes, at, settings)).is_some())),
            Scalar::Integer => Ok(unless(integer_found(integer_at(bytes, at, settings)).is_some())),
            Scalar::Long => Ok(unless(integer_at(bytes, at, settings).is_some())),
            Scalar::String => Ok(unless(text_piece_at(alloc, bytes, at, settings)?.is_some())),
            Scalar::Blob => Ok(unless(blob_at(alloc, bytes, at, settings)?.is_some())),
            Scalar::Timestamp => {
                let found = instant_at(alloc, bytes, at, time, settings)?;
                Ok(finding_of(found, Kind::NotCarried))
            }
            Scalar::BigInteger => {
                let found = big_integer_at(alloc, bytes, at, settings)?;
                Ok(finding_of(found, Kind::Wide))
            }
            Scalar::BigDecimal => {
                let found = big_decimal_at(alloc, bytes, at, settings)?;
                Ok(finding_of(found, Kind::Wide))
            }
        }
    }

    fn has_documents(&self) -> bool {
        true
    }

    fn document_finding(
        &self,
        alloc: Global,
        at: usize,
        _depth: usize,
    ) -> Result<Option<Kind>, AllocError> {
        if boolean_at(self.bytes, at, &self.settings).is_some() {
            return Ok(None);
        }
        let number = number_of(NumberSort::OfGrammar, self.bytes, at, &self.settings);
        let Some((raw, _)) = number else {
            let text = text_piece_at(alloc, self.bytes, at, &self.settings)?;
            return Ok(unless(text.is_some()));
        };
        match number_of_text(raw) {
            Some(_) => Ok(None),
            None => Ok(Some(Kind::NotCarried)),
        }
    }

    fn end(&self, _alloc: Global, at: usize, depth: usize) -> Result<usize, AllocError> {
        let input = Input {
            bytes: self.bytes,
            settings: self.nested,
        };
        match skipped_end(input, at, depth) {
            Ok(end) => Ok(end),
            Err(_) => unreachable!(),
        }
    }

    fn may_skip(&self, at: usize, depth: usize) -> bool {
        if depth > MAX_DEPTH {
            return false;
        }
        let input = Input {
            bytes: self.bytes,
            settings: self.settings,
        };
        skipped_end(input, at, depth).is_ok()
    }
}
