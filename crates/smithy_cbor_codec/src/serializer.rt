//! Writing a body as a schema directs, with a prefix of its structures.
ghost use Rattle.std.specs.Prelude.{◌≡◌, ◌↔◌, Ok, Err, true, false, OnOk, IfErr, IsErr, IsErrOf};
ghost use Rattle.smithy_schema.specs.declared.error.SerdeError.TheVariants.{Failed, NoMemory};
ghost use Rattle.smithy_schema.specs.Errors.{IsFault};
ghost use Rattle.smithy_schema.specs.Writing.{WritesEvent, begin_structure, document_of};
ghost use Rattle.smithy_types.specs.Document.{whole_document};
ghost use Rattle.smithy_types.specs.DocumentView.{document_view};
ghost use Rattle.smithy_shapes.specs.Site.{site_of};
ghost use Rattle.smithy_cbor_body.specs.Prefixes.{CborState, fresh_state, cbor_after};
ghost use Rattle.smithy_cbor_body.specs.Codec.{held_settings};
ghost use Rattle.smithy_cbor_codec.specs.Serializing.{state_of, body_in, prefix_in, has_failed};

use smithy_cbor_body::{CborBody, CborCodecSettings, NoPrefix, StructPrefix};
use smithy_schema::{FinishSerializer, Schema, SerdeError, ShapeSerializer};
use smithy_types::{BigDecimal, BigInteger, DateTime, Document};
use std::alloc::Global;

/// Writes one body: a value in its canonical encoding, and at the beginning of each structure and union what the prefix adds.
#[derive(Drop)]
pub struct CborSerializer<P> {
    body: CborBody,
    prefix: P,
}

impl CborSerializer<NoPrefix> {
    pub(crate) fn new(settings: CborCodecSettings, alloc: Global) -> CborSerializer<NoPrefix>
        ensures state { state_of result ≡ fresh_state (held_settings settings) }
        ensures sound { has_failed result ≡ false }
    {
        CborSerializer {
            body: CborBody::new(settings, alloc),
            prefix: NoPrefix,
        }
    }
}

impl<Q: StructPrefix + Copy> CborSerializer<Q> {
    /// The same serializer, which from now on writes this prefix at the beginning of each structure and union.
    pub fn with_struct_prefix<P: StructPrefix + Copy>(self, prefix: P) -> CborSerializer<P>
        ensures body { body_in result ≡ body_in self }
        ensures prefix { prefix_in result ≡ prefix }
        ensures sound { has_failed result ≡ has_failed self }
    {
        CborSerializer {
            body: self.body,
            prefix,
        }
    }
}

impl<P: StructPrefix + Copy> ShapeSerializer for CborSerializer<P> {
    ghost use Rattle.smithy_cbor_body.specs.Prefixes.{CborState, cbor_after};
    ghost use Rattle.smithy_cbor_codec.specs.Serializing.{body_in, prefix_in, has_failed};
    ghost use Rattle.smithy_cbor_body.specs.PrefixNesting.{cbor_nests, cbor_grows};

    ghost State = { CborState };

    ghost state = { λ s. record { body = body_in s; prefix = P.adds (prefix_in s) } };

    ghost failed = { has_failed };

    ghost out = { λ s. s.body.out };

    ghost open_in = { λ s. s.body.frames };

    ghost after = { cbor_after };

    ghost grows = { cbor_grows };

    ghost nested = { cbor_nests };

    fn fail(&mut self) {
        self.body.fail();
    }

    fn begin_struct(&mut self, schema: &Schema<'_>) -> Result<(), SerdeError> {
        self.body.begin_struct(schema)?;
        if let Err(error) = self.prefix.write(schema, &mut self.body) {
            self.body.fail();
            return Err(error);
        }
        Ok(())
    }

    fn end_struct(&mut self) -> Result<(), SerdeError> {
        self.body.end_struct()
    }

    fn begin_list(&mut self, schema: &Schema<'_>, length: Option<usize>) -> Result<(), SerdeError> {
        self.body.begin_list(schema, length)
    }

    fn end_list(&mut self) -> Result<(), SerdeError> {
        self.body.end_list()
    }

    fn begin_map(&mut self, schema: &Schema<'_>, length: Option<usize>) -> Result<(), SerdeError> {
        self.body.begin_map(schema, length)
    }

    fn end_map(&mut self) -> Result<(), SerdeError> {
        self.body.end_map()
    }

    fn write_null(&mut self, schema: &Schema<'_>) -> Result<(), SerdeError> {
        self.body.write_null(schema)
    }

    fn write_boolean(&mut self, schema: &Schema<'_>, value: bool) -> Result<(), SerdeError> {
        self.body.write_boolean(schema, value)
    }

    fn write_byte(&mut self, schema: &Schema<'_>, value: i8) -> Result<(), SerdeError> {
        self.body.write_byte(schema, value)
    }

    fn write_short(&mut self, schema: &Schema<'_>, value: i16) -> Result<(), SerdeError> {
        self.body.write_short(schema, value)
    }

    fn write_integer(&mut self, schema: &Schema<'_>, value: i32) -> Result<(), SerdeError> {
        self.body.write_integer(schema, value)
    }

    fn write_long(&mut self, schema: &Schema<'_>, value: i64) -> Result<(), SerdeError> {
        self.body.write_long(schema, value)
    }

    fn write_long_list(&mut self, schema: &Schema<'_>, values: &[i64]) -> Result<(), SerdeError> {
        self.body.write_long_list(schema, values)
    }

    fn write_string(&mut self, schema: &Schema<'_>, value: &str) -> Result<(), SerdeError> {
        self.body.write_string(schema, value)
    }

    fn write_bytes(&mut self, schema: &Schema<'_>, value: &[u8]) -> Result<(), SerdeError> {
        self.body.write_bytes(schema, value)
    }

    fn write_i128(&mut self, schema: &Schema<'_>, value: i128) -> Result<(), SerdeError> {
        self.body.write_i128(schema, value)
    }

    fn write_decimal(
        &mut self,
        schema: &Schema<'_>,
        mantissa: i128,
        exponent: i64,
    ) -> Result<(), SerdeError> {
        self.body.write_decimal(schema, mantissa, exponent)
    }

    fn write_big_integer(
        &mut self,
        schema: &Schema<'_>,
        value: &BigInteger,
    ) -> Result<(), SerdeError> {
        self.body.write_big_integer(schema, value)
    }

    fn write_big_decimal(
        &mut self,
        schema: &Schema<'_>,
        value: &BigDecimal,
    ) -> Result<(), SerdeError> {
        self.body.write_big_decimal(schema, value)
    }

    fn write_timestamp(&mut self, schema: &Schema<'_>, value: &DateTime) -> Result<(), SerdeError> {
        self.body.write_timestamp(schema, value)
    }

    // CBOR has no documents. It takes no memory.
    fn write_document(&mut self, schema: &Schema<'_>, value: &Document) -> Result<(), SerdeError>
        ensures writes { WritesEvent cbor_after (document_of (site_of schema.now) (whole_document (document_view value.now))) (record { body = body_in self.old; prefix = P.adds (prefix_in self.old) }) (has_failed self.old) (record { body = body_in self.new; prefix = P.adds (prefix_in self.new) }) (has_failed self.new) result }
        ensures memory { IsErrOf result NoMemory → ⊥ }
    {
        self.body.write_document(schema, value)
    }
}

impl<P: StructPrefix + Copy> FinishSerializer for CborSerializer<P> {
    fn finish(self) -> Result<Vec<u8>, SerdeError> {
        self.body.finish()
    }
}
