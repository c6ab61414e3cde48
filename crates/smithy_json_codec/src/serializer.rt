//! Writing a body as a schema directs.
ghost use Rattle.std.specs.Prelude.{◌≡◌, ◌↔◌, [], ◌∷◌, ◌++◌, Ok, Err, true, false, OnOk, IfErr, IsErr, IsErrOf};
ghost use Rattle.smithy_schema.specs.declared.error.SerdeError.TheVariants.{Failed, NoMemory};
ghost use Rattle.smithy_schema.specs.Errors.{IsFault};
ghost use Rattle.smithy_shapes.specs.Site.{site_of};
ghost use Rattle.smithy_schema.specs.Writing.{Makes, after_value, after_text, after_begin};
ghost use Rattle.smithy_schema.specs.Written.{list_of_wholes};
ghost use Rattle.smithy_texts.specs.Base64Text.{blob_text};
ghost use Rattle.smithy_types.specs.Document.{whole_document};
ghost use Rattle.smithy_types.specs.DocumentView.{document_view};
ghost use Rattle.smithy_json_grammar.specs.Ascii.{quotation_mark};
ghost use Rattle.smithy_texts.specs.Decimal.{exponent_text, decimal_text};
ghost use Rattle.smithy_json.specs.Escape.{quoted};
ghost use Rattle.smithy_json_codec.specs.Canonical.{canonical_json, in_form};
ghost use Rattle.smithy_wire.specs.OpenContainers.{open_of};
ghost use Rattle.smithy_json_values.specs.Codec.{held_settings};
ghost use Rattle.smithy_json_codec.specs.WrittenNumber.{normalized, written_number};
ghost use Rattle.smithy_json_codec.specs.Serializing.{state_of, has_failed};
ghost use Rattle.smithy_json_codec.specs.Writing.{JsonState, fresh_state, is_key_due, lead, wrote, wrote_any, key_wrote, opened, where_taken, json_after};

use crate::big_numbers::push_normalized;
use crate::digits::push_long;
use crate::long_lists::push_longs;
use crate::output::{
    form_at, push_base64, push_comma, push_key, push_name, push_quoted, push_whole_document,
};
use itoa::Buffer;
use smithy_json_grammar::number_text::is_number;
use smithy_json_settings::Settings;
use smithy_schema::{
    FinishSerializer, Schema, SerdeError, ShapeSerializer, TimestampFormat, instant_text,
};
use smithy_texts::push_decimal;
use smithy_types::{BigDecimal, BigInteger, DateTime, Document};
use smithy_wire::{Container, OpenContainers};
use std::alloc::{AllocError, Global};

/// Writes one body: a value in its canonical text.
///
/// Members and the entries of a map are written by name, with a comma between two, and without white space.
#[derive(Debug, Drop)]
pub struct JsonSerializer {
    settings: Settings,
    pub(crate) out: Vec<u8>,
    // Whether a comma stands before whatever comes next but an end.
    pub(crate) needs_comma: bool,
    pub(crate) containers: OpenContainers<()>,
}

impl JsonSerializer {
    pub(crate) fn new(settings: Settings, alloc: Global) -> JsonSerializer
        ensures state { state_of result ≡ fresh_state (held_settings settings) }
        ensures sound { has_failed result ≡ false }
    {
        JsonSerializer {
            settings,
            out: Vec::new(alloc),
            needs_comma: false,
            containers: OpenContainers::new(alloc),
        }
    }

    // Begins the call of a value: with a comma where one is due, and the name of a member. Where a map's key is due no value
    // comes, and behind a map's value a key is due.
    #[inline(always)]
    pub(crate) fn begin_value(&mut self, schema: &Schema<'_>) -> Result<(), SerdeError>
        ensures failed { IsErrOf result Failed ↔ (has_failed self.old ≡ true) }
        ensures broken { has_failed self.new ≡ true }
        ensures same { (state_of self.new).settings ≡ (state_of self.old).settings }
        ensures lead { OnOk result ((state_of self.new).out ≡ (state_of self.old).out ++ lead (state_of self.old) (site_of schema.now).view) }
        ensures taken { OnOk result (after_value (state_of self.old).frames ≡ Ok (state_of self.new).frames) }
        ensures refused { IfErr result (λ e. IsFault e → after_value (state_of self.old).frames ≡ Err e) }
    {
        self.containers.begin()?;
        push_comma(&mut self.out, self.needs_comma)?;
        if let Some(Container::Structure) | None = self.containers.innermost() {
            push_key(&mut self.out, self.settings.use_json_name, schema)?;
        }
        self.containers.pass_value()
    }

    fn begin_container(
        &mut self,
        schema: &Schema<'_>,
        container: Container,
        bracket: u8,
    ) -> Result<(), SerdeError>
        ensures { Makes (where_taken (opened (state_of self.old) (site_of schema.now).view bracket) (after_begin (open_of container) (state_of self.old).frames)) (has_failed self.old) (state_of self.new) (has_failed self.new) result }
    {
        self.begin_value(schema)?;
        self.out.push(bracket)?;
        self.containers.push(container, ())?;
        self.needs_comma = false;
        self.containers.succeed();
        Ok(())
    }

    // Writes a value that is no container.
    fn write_text(&mut self, schema: &Schema<'_>, text: &[u8]) -> Result<(), SerdeError>
        ensures { Makes (where_taken (wrote (state_of self.old) (site_of schema.now).view text.now) (after_value (state_of self.old).frames)) (has_failed self.old) (state_of self.new) (has_failed self.new) result }
    {
        self.begin_value(schema)?;
        self.out.extend_from_slice(text)?;
        self.needs_comma = true;
        self.containers.succeed();
        Ok(())
    }

    // Writes a list of whole numbers.
    fn write_longs(&mut self, schema: &Schema<'_>, values: &[i64]) -> Result<(), SerdeError>
        ensures { Makes (where_taken (wrote (state_of self.old) (site_of schema.now).view (canonical_json (state_of self.old).settings (site_of schema.now) (list_of_wholes values.now))) (after_value (state_of self.old).frames)) (has_failed self.old) (state_of self.new) (has_failed self.new) result }
    {
        self.begin_value(schema)?;
        push_longs(&mut self.out, values)?;
        self.needs_comma = true;
        self.containers.succeed();
        Ok(())
    }

    // Writes a big number whose text is no number of JSON by another text of the same number.
    fn write_normalized(&mut self, schema: &Schema<'_>, text: &str) -> Result<(), SerdeError>
        ensures { Makes (where_taken (wrote (state_of self.old) (site_of schema.now).view (normalized text.now)) (after_value (state_of self.old).frames)) (has_failed self.old) (state_of self.new) (has_failed self.new) result }
    {
        self.begin_value(schema)?;
        push_normalized(&mut self.out, text.as_bytes())?;
        self.needs_comma = true;
        self.containers.succeed();
        Ok(())
    }

    // Writes a big number by its text, as the settings say.
    #[tactic(auto, unfolding(crate::specs::WrittenNumber::written_number))]
    fn write_number(&mut self, schema: &Schema<'_>, text: &str) -> Result<(), SerdeError>
        ensures { Makes (wrote_any (state_of self.old) (site_of schema.now).view (written_number (state_of self.old).settings text.now)) (has_failed self.old) (state_of self.new) (has_failed self.new) result }
    {
        if self.settings.use_string_for_arbitrary_precision {
            return self.write_quoted(schema, text);
        }
        if is_number(text.as_bytes()) {
            return self.write_text(schema, text.as_bytes());
        }
        if self.settings.normalize_arbitrary_precision {
            return self.write_normalized(schema, text);
        }
        self.containers.begin()?;
        Err(SerdeError::Unwritable)
    }

    // Writes a text that is a value.
    fn write_quoted(&mut self, schema: &Schema<'_>, text: &str) -> Result<(), SerdeError>
        ensures { Makes (where_taken (wrote (state_of self.old) (site_of schema.now).view (quoted text.now)) (after_value (state_of self.old).frames)) (has_failed self.old) (state_of self.new) (has_failed self.new) result }
    {
        self.begin_value(schema)?;
        push_quoted(&mut self.out, text)?;
        self.needs_comma = true;
        self.containers.succeed();
        Ok(())
    }

    // Writes the text of an instant: a number of seconds, or a date as a string.
    fn write_in_form(
        &mut self,
        schema: &Schema<'_>,
        form: TimestampFormat,
        text: &str,
    ) -> Result<(), SerdeError>
        ensures { Makes (where_taken (wrote (state_of self.old) (site_of schema.now).view (in_form form text.now)) (after_value (state_of self.old).frames)) (has_failed self.old) (state_of self.new) (has_failed self.new) result }
    {
        match form {
            TimestampFormat::EpochSeconds => self.write_text(schema, text.as_bytes()),
            TimestampFormat::DateTime | TimestampFormat::HttpDate => {
                self.write_quoted(schema, text)
            }
        }
    }

    // Writes the key of an entry where one is due; its value is due then.
    fn write_key(&mut self, key: &str) -> Result<(), SerdeError>
        requires { is_key_due (state_of self.old).frames ≡ true }
        ensures failed { IsErrOf result Failed ↔ (has_failed self.old ≡ true) }
        ensures broken { IsErr result ↔ (has_failed self.new ≡ true) }
        ensures ok { OnOk result (where_taken (key_wrote (state_of self.old) key.now) (after_text (state_of self.old).frames) ≡ Ok (state_of self.new)) }
        ensures refused { IfErr result (λ e. IsFault e → ⊥) }
    {
        self.containers.begin()?;
        push_comma(&mut self.out, self.needs_comma)?;
        push_name(&mut self.out, key)?;
        self.containers.pass_text()?;
        self.needs_comma = false;
        self.containers.succeed();
        Ok(())
    }
}

impl ShapeSerializer for JsonSerializer {
    ghost use Rattle.smithy_json_codec.specs.Nesting.{json_nests, json_grows};

    ghost State = { JsonState };

    ghost state = { state_of };

    ghost failed = { has_failed };

    ghost out = { λ s. s.out };

    ghost open_in = { λ s. s.frames };

    ghost after = { json_after };

    ghost grows = { json_grows };

    ghost nested = { json_nests };

    fn fail(&mut self) {
        self.containers.fail();
    }

    fn begin_struct(&mut self, schema: &Schema<'_>) -> Result<(), SerdeError> {
        self.begin_container(schema, Container::Structure, b'{')
    }

    fn end_struct(&mut self) -> Result<(), SerdeError> {
        self.containers.begin()?;
        self.containers.pop(Container::Structure)?;
        self.out.push(b'}')?;
        self.needs_comma = true;
        self.containers.succeed();
        Ok(())
    }

    fn begin_list(
        &mut self,
        schema: &Schema<'_>,
        _length: Option<usize>,
    ) -> Result<(), SerdeError> {
        self.begin_container(schema, Container::List, b'[')
    }

    fn end_list(&mut self) -> Result<(), SerdeError> {
        self.containers.begin()?;
        self.containers.pop(Container::List)?;
        self.out.push(b']')?;
        self.needs_comma = true;
        self.containers.succeed();
        Ok(())
    }

    fn begin_map(&mut self, schema: &Schema<'_>, _length: Option<usize>) -> Result<(), SerdeError> {
        self.begin_container(schema, Container::MapAtKey, b'{')
    }

    fn end_map(&mut self) -> Result<(), SerdeError> {
        self.containers.begin()?;
        self.containers.pop(Container::MapAtKey)?;
        self.out.push(b'}')?;
        self.needs_comma = true;
        self.containers.succeed();
        Ok(())
    }

    fn write_null(&mut self, schema: &Schema<'_>) -> Result<(), SerdeError> {
        self.write_text(schema, b"null")
    }

    fn write_boolean(&mut self, schema: &Schema<'_>, value: bool) -> Result<(), SerdeError> {
        let text = if value { "true" } else { "false" };
        self.write_text(schema, text.as_bytes())
    }

    fn write_byte(&mut self, schema: &Schema<'_>, value: i8) -> Result<(), SerdeError> {
        self.write_long(schema, i64::from(value))
    }

    fn write_short(&mut self, schema: &Schema<'_>, value: i16) -> Result<(), SerdeError> {
        self.write_long(schema, i64::from(value))
    }

    fn write_integer(&mut self, schema: &Schema<'_>, value: i32) -> Result<(), SerdeError> {
        self.write_long(schema, i64::from(value))
    }

    fn write_long(&mut self, schema: &Schema<'_>, value: i64) -> Result<(), SerdeError> {
        self.begin_value(schema)?;
        push_long(&mut self.out, value)?;
        self.needs_comma = true;
        self.containers.succeed();
        Ok(())
    }

    fn write_long_list(&mut self, schema: &Schema<'_>, values: &[i64]) -> Result<(), SerdeError> {
        self.write_longs(schema, values)
    }

    fn write_string(&mut self, schema: &Schema<'_>, value: &str) -> Result<(), SerdeError> {
        if let Some(Container::MapAtKey) = self.containers.innermost() {
            self.write_key(value)
        } else {
            self.write_quoted(schema, value)
        }
    }

    fn write_bytes(&mut self, schema: &Schema<'_>, value: &[u8]) -> Result<(), SerdeError> {
        self.begin_value(schema)?;
        push_base64(&mut self.out, value)?;
        self.needs_comma = true;
        self.containers.succeed();
        Ok(())
    }

    fn write_i128(&mut self, schema: &Schema<'_>, value: i128) -> Result<(), SerdeError> {
        let mut buffer = Buffer::new();
        self.write_text(schema, buffer.format(value).as_bytes())
    }

    fn write_decimal(
        &mut self,
        schema: &Schema<'_>,
        mantissa: i128,
        exponent: i64,
    ) -> Result<(), SerdeError> {
        self.begin_value(schema)?;
        push_decimal(&mut self.out, mantissa, exponent)?;
        self.needs_comma = true;
        self.containers.succeed();
        Ok(())
    }

    fn write_big_integer(
        &mut self,
        schema: &Schema<'_>,
        value: &BigInteger,
    ) -> Result<(), SerdeError> {
        self.write_number(schema, value.as_ref())
    }

    fn write_big_decimal(
        &mut self,
        schema: &Schema<'_>,
        value: &BigDecimal,
    ) -> Result<(), SerdeError> {
        self.write_number(schema, value.as_ref())
    }

    fn write_timestamp(&mut self, schema: &Schema<'_>, value: &DateTime) -> Result<(), SerdeError> {
        self.containers.begin()?;
        let form = form_at(schema, self.settings.default_timestamp_format);
        let text = instant_text(*self.out.allocator(), form, value)?;
        self.containers.succeed();
        self.write_in_form(schema, form, text.as_str())
    }

    fn write_document(&mut self, schema: &Schema<'_>, value: &Document) -> Result<(), SerdeError> {
        self.begin_value(schema)?;
        push_whole_document(&mut self.out, value)?;
        self.needs_comma = true;
        self.containers.succeed();
        Ok(())
    }
}

impl FinishSerializer for JsonSerializer {
    fn finish(mut self) -> Result<Vec<u8>, SerdeError> {
        self.containers.begin()?;
        if !self.containers.is_empty() {
            return Err(SerdeError::Unwritable);
        }
        Ok(self.out)
    }
}
