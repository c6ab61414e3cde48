//! Writing a body as a schema directs, without a prefix of its structures.
ghost use Rattle.std.specs.Prelude.{◌⊎◌, ◌≡◌, ◌++◌, Ok, Err, false, OnOk, OnErr, IsErrOf};
ghost use Rattle.smithy_schema.specs.declared.error.SerdeError.TheVariants.{NoMemory, TooWide};
ghost use Rattle.smithy_cbor.specs.declared.error.EncodeError.TheVariants as encoding;
ghost use Rattle.smithy_shapes.specs.Site.{site_of};
ghost use Rattle.smithy_schema.specs.Writing.{Makes, WritesEvent, after_value, after_text, document_of};
ghost use Rattle.smithy_schema.specs.Written.{list_of_wholes};
ghost use Rattle.smithy_types.specs.Document.{whole_document};
ghost use Rattle.smithy_types.specs.DocumentView.{document_view};
ghost use Rattle.smithy_cbor.specs.Written.{text_bytes, big_integer_bytes};
ghost use Rattle.smithy_cbor_body.specs.Canonical.{canonical_cbor, key_bytes};
ghost use Rattle.smithy_cbor_body.specs.Codec.{held_settings};
ghost use Rattle.smithy_cbor_body.specs.Body.{body_of, body_has_failed};
ghost use Rattle.smithy_cbor_body.specs.Lengths.{may_end};
ghost use Rattle.smithy_cbor_body.specs.Private.Beginning.{Begins};
ghost use Rattle.smithy_cbor_body.specs.Writing.{BodyState, fresh_body, key_in, closed, wrote, where_taken, where_writable, body_after};
ghost use Rattle.smithy_wire.specs.OpenContainers.{after_end};

use crate::lengths::{Length, begin_array, begin_map, begun, count_value, is_complete, write_end};
use crate::settings::CborCodecSettings;
use crate::whole_numbers::{write_whole_number, write_whole_numbers};
use smithy_cbor::{EncodeError, Encoder};
use smithy_schema::{FinishSerializer, Schema, SerdeError, ShapeSerializer};
use smithy_types::{BigDecimal, BigInteger, DateTime, Document};
use smithy_wire::{Container, OpenContainers};
use std::alloc::{AllocError, Global};

/// Writes one body: a value in its canonical encoding, without a prefix of its structures.
///
/// Members and the entries of a map are written by name; containers are of indefinite length, but for lists and maps whose length
/// is told where the settings say so.
#[derive(Debug, Drop)]
pub struct CborBody {
    settings: CborCodecSettings,
    encoder: Encoder,
    containers: OpenContainers<Length>,
}

// Writes the name of a member; nothing for what has none.
#[inline(never)]
fn write_name(encoder: &mut Encoder, schema: &Schema<'_>) -> Result<(), AllocError>
    ensures { OnOk result (encoder.new ≡ encoder.old ++ key_bytes (site_of schema.now).view) }
{
    match schema.member_name() {
        Some(name) => encoder.str(name),
        None => Ok(()),
    }
}

// The refusal of a number that isn't written.
fn refusal_of(error: EncodeError) -> SerdeError
    ensures wide { result ≡ TooWide → error ≡ encoding.TooWide }
    ensures kind { (result ≡ TooWide) ⊎ (result ≡ NoMemory) }
{
    match error {
        EncodeError::TooWide => SerdeError::TooWide,
        EncodeError::NoMemory => SerdeError::NoMemory,
    }
}

impl CborBody {
    /// A body of which nothing is written yet.
    pub fn new(settings: CborCodecSettings, alloc: Global) -> CborBody
        ensures state { body_of result ≡ fresh_body (held_settings settings) }
        ensures sound { body_has_failed result ≡ false }
    {
        CborBody {
            settings,
            encoder: Encoder::new(Vec::new(alloc)),
            containers: OpenContainers::new(alloc),
        }
    }

    // Begins the call of a value: with the name of a member. Where a map's key is due no value comes, and behind a map's
    // value a key is due.
    #[inline(always)]
    fn begin_value(&mut self, schema: &Schema<'_>) -> Result<(), SerdeError>
        ensures { Begins (after_value (body_of self.old).frames) (body_of self.old) (body_has_failed self.old) (body_of self.new) (body_has_failed self.new) (site_of schema.now).view result }
    {
        self.containers.begin()?;
        if let Some(Container::List) = self.containers.innermost() {
            count_value(&mut self.containers);
            return Ok(());
        }
        if let Some(Container::Structure) = self.containers.innermost() {
            write_name(&mut self.encoder, schema)?;
        }
        self.containers.pass_value()?;
        count_value(&mut self.containers);
        Ok(())
    }

    // Begins the call of a text, which is a key where a map's key is due: its value is due then.
    fn begin_text(&mut self, schema: &Schema<'_>) -> Result<(), SerdeError>
        ensures { Begins (after_text (body_of self.old).frames) (body_of self.old) (body_has_failed self.old) (body_of self.new) (body_has_failed self.new) (site_of schema.now).view result }
    {
        if let Some(Container::MapAtKey) = self.containers.innermost() {
            self.containers.begin()?;
            self.containers.pass_text()
        } else {
            self.begin_value(schema)
        }
    }

    // Writes a list of whole numbers.
    fn write_longs(&mut self, schema: &Schema<'_>, values: &[i64]) -> Result<(), SerdeError>
        ensures { Makes (where_taken (wrote (body_of self.old) (site_of schema.now).view (canonical_cbor (body_of self.old).settings.use_definite_lengths (site_of schema.now) (list_of_wholes values.now))) (after_value (body_of self.old).frames)) (body_has_failed self.old) (body_of self.new) (body_has_failed self.new) result }
    {
        self.begin_value(schema)?;
        let length = self.settings.written_length(Some(values.len()));
        write_whole_numbers(&mut self.encoder, length, values)?;
        self.containers.succeed();
        Ok(())
    }

    // Ends the innermost container, which has to be of this kind and, where its length is written, to be of this length.
    fn end_container(&mut self, container: Container) -> Result<(), SerdeError>
        ensures { Makes (where_writable (may_end (body_of self.old).lengths) (where_taken (closed (body_of self.old)) (after_end container (body_of self.old).frames))) (body_has_failed self.old) (body_of self.new) (body_has_failed self.new) result }
    {
        self.containers.begin()?;
        let length = self.containers.pop(container)?;
        if !is_complete(length) {
            return Err(SerdeError::Unwritable);
        }
        write_end(&mut self.encoder, length)?;
        self.containers.succeed();
        Ok(())
    }
}

impl ShapeSerializer for CborBody {
    ghost use Rattle.smithy_cbor_body.specs.Nesting.{body_nests, body_grows};

    ghost State = { BodyState };

    ghost state = { body_of };

    ghost failed = { body_has_failed };

    ghost out = { λ s. s.out };

    ghost open_in = { λ s. s.frames };

    ghost after = { body_after };

    ghost grows = { body_grows };

    ghost nested = { body_nests };

    fn fail(&mut self) {
        self.containers.fail();
    }

    fn begin_struct(&mut self, schema: &Schema<'_>) -> Result<(), SerdeError> {
        self.begin_value(schema)?;
        self.encoder.begin_map()?;
        self.containers
            .push(Container::Structure, Length::Unwritten)?;
        self.containers.succeed();
        Ok(())
    }

    fn end_struct(&mut self) -> Result<(), SerdeError> {
        self.end_container(Container::Structure)
    }

    fn begin_list(&mut self, schema: &Schema<'_>, length: Option<usize>) -> Result<(), SerdeError> {
        self.begin_value(schema)?;
        let length = self.settings.written_length(length);
        begin_array(&mut self.encoder, length)?;
        self.containers.push(Container::List, begun(length))?;
        self.containers.succeed();
        Ok(())
    }

    fn end_list(&mut self) -> Result<(), SerdeError> {
        self.end_container(Container::List)
    }

    fn begin_map(&mut self, schema: &Schema<'_>, length: Option<usize>) -> Result<(), SerdeError> {
        self.begin_value(schema)?;
        let length = self.settings.written_length(length);
        begin_map(&mut self.encoder, length)?;
        self.containers.push(Container::MapAtKey, begun(length))?;
        self.containers.succeed();
        Ok(())
    }

    fn end_map(&mut self) -> Result<(), SerdeError> {
        self.end_container(Container::MapAtKey)
    }

    fn write_null(&mut self, schema: &Schema<'_>) -> Result<(), SerdeError> {
        self.begin_value(schema)?;
        self.encoder.null()?;
        self.containers.succeed();
        Ok(())
    }

    fn write_boolean(&mut self, schema: &Schema<'_>, value: bool) -> Result<(), SerdeError> {
        self.begin_value(schema)?;
        self.encoder.boolean(value)?;
        self.containers.succeed();
        Ok(())
    }

    fn write_byte(&mut self, schema: &Schema<'_>, value: i8) -> Result<(), SerdeError> {
        self.write_long(schema, i64::from(value))
    }

    fn write_short(&mut self, schema: &Schema<'_>, value: i16) -> Result<(), SerdeError> {
        self.write_long(schema, i64::from(value))
    }

    fn write_integer(&mut self, schema: &Schema<'_>, value: i32) -> Result<(), SerdeError> {
        self.write_long(schema, i64::from(value))
    }

    fn write_long(&mut self, schema: &Schema<'_>, value: i64) -> Result<(), SerdeError> {
        self.begin_value(schema)?;
        write_whole_number(&mut self.encoder, value)?;
        self.containers.succeed();
        Ok(())
    }

    fn write_long_list(&mut self, schema: &Schema<'_>, values: &[i64]) -> Result<(), SerdeError> {
        self.write_longs(schema, values)
    }

    fn write_string(&mut self, schema: &Schema<'_>, value: &str) -> Result<(), SerdeError> {
        self.begin_text(schema)?;
        self.encoder.str(value)?;
        self.containers.succeed();
        Ok(())
    }

    fn write_bytes(&mut self, schema: &Schema<'_>, value: &[u8]) -> Result<(), SerdeError> {
        self.begin_value(schema)?;
        self.encoder.blob_bytes(value)?;
        self.containers.succeed();
        Ok(())
    }

    fn write_i128(&mut self, schema: &Schema<'_>, value: i128) -> Result<(), SerdeError> {
        self.begin_value(schema)?;
        self.encoder.whole(value)?;
        self.containers.succeed();
        Ok(())
    }

    fn write_decimal(
        &mut self,
        schema: &Schema<'_>,
        mantissa: i128,
        exponent: i64,
    ) -> Result<(), SerdeError> {
        self.begin_value(schema)?;
        self.encoder.decimal_fraction(exponent, mantissa)?;
        self.containers.succeed();
        Ok(())
    }

    fn write_big_integer(
        &mut self,
        schema: &Schema<'_>,
        value: &BigInteger,
    ) -> Result<(), SerdeError> {
        self.begin_value(schema)?;
        match self.encoder.big_integer(value) {
            Ok(()) => {
                self.containers.succeed();
                Ok(())
            }
            Err(error) => Err(refusal_of(error)),
        }
    }

    fn write_big_decimal(
        &mut self,
        schema: &Schema<'_>,
        value: &BigDecimal,
    ) -> Result<(), SerdeError> {
        self.begin_value(schema)?;
        match self.encoder.big_decimal(value) {
            Ok(()) => {
                self.containers.succeed();
                Ok(())
            }
            Err(error) => Err(refusal_of(error)),
        }
    }

    fn write_timestamp(&mut self, schema: &Schema<'_>, value: &DateTime) -> Result<(), SerdeError> {
        if value.has_subsec_nanos() {
            self.containers.begin()?;
            return Err(SerdeError::Unwritable);
        }
        self.begin_value(schema)?;
        self.encoder.timestamp(value)?;
        self.containers.succeed();
        Ok(())
    }

    // CBOR has no documents. It takes no memory.
    fn write_document(&mut self, _schema: &Schema<'_>, _value: &Document) -> Result<(), SerdeError>
        ensures writes { WritesEvent body_after (document_of (site_of _schema.now) (whole_document (document_view _value.now))) (body_of self.old) (body_has_failed self.old) (body_of self.new) (body_has_failed self.new) result }
        ensures memory { IsErrOf result NoMemory → ⊥ }
    {
        self.containers.begin()?;
        if let Some(Container::MapAtKey) = self.containers.innermost() {
            return Err(SerdeError::Unwritable);
        }
        Err(SerdeError::Unsupported)
    }
}

impl FinishSerializer for CborBody {
    fn finish(mut self) -> Result<Vec<u8>, SerdeError> {
        self.containers.begin()?;
        if !self.containers.is_empty() {
            return Err(SerdeError::Unwritable);
        }
        Ok(self.encoder.into_writer())
    }
}
