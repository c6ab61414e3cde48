//! The reader of JSON values that a schema directs.
ghost use Rattle.std.specs.Prelude.{◌≡◌};

use crate::frames::{frame, is_structure, missing};
use smithy_json_settings::Settings;
use smithy_json_tokens::container_size;
use smithy_json_values::documents::standing_document_at;
use smithy_json_values::instants::instant_at;
use smithy_json_values::integers::integer_at;
use smithy_json_values::long_runs::longs_at;
use smithy_json_values::mismatch::{no_object, told};
use smithy_json_values::numbers::{big_decimal_at, big_integer_at};
use smithy_json_values::places::{InList, byte_end, is_over, next_in_list, null_end};
use smithy_json_values::skip::skipped_end;
use smithy_json_values::texts::{blob_at, text_at};
use smithy_json_values::values::{begins_null, boolean_at};
use smithy_schema::{Scalar, Schema, SerdeError, ShapeDeserializer, Step};
use smithy_types::{BigDecimal, BigInteger, Blob, DateTime, Document};
use smithy_wire::{ContainerKind, Walk, byte_found, integer_found, short_found};
use std::alloc::{AllocError, Global};

/// A reader of one JSON text.
#[derive(Drop)]
pub struct JsonDeserializer<'c, 'a> {
    pub(crate) walk: Walk<'a>,
    pub(crate) alloc: Global,
    pub(crate) settings: Settings,
    // The protocol that documents carry, and the namespace in which relative names of their shapes stand.
    pub(crate) protocol_id: &'c str,
    pub(crate) namespace: Option<&'c str>,
    // As many containers may be open as the settings say.
    ghost limit: { walk.max_depth ≡ settings.max_depth },
}

impl ShapeDeserializer for JsonDeserializer<'_, '_> {
    ghost use Rattle.std.specs.Prelude.{◌≡◌, ◌≤◌, ℕ, Some, true, false, refl, IfOk, IsOk, IsErrOf};
    ghost use Rattle.std.proofs.Common.{subst};
    ghost use Rattle.smithy_schema.specs.Errors.{IsRefused, IsInvalid};
    ghost use Rattle.smithy_schema.specs.Containers.{GoesOnInStructure};
    ghost use Rattle.smithy_schema.specs.Passing.{ReadsNull, SkipsValue};
    ghost use Rattle.smithy_schema.specs.Reading.{depth, in_structure, ReadsDocument, ReadsScalar, AnswersWide, NullsNot, SkipsNot, null_is_due};
    ghost use Rattle.smithy_declarations.specs.Table.{HasMembers};
    ghost use Rattle.smithy_shapes.specs.Site.{site_of, kind_at};
    ghost use Rattle.smithy_schema.specs.declared.error.SerdeError.TheVariants.{NoMemory, NotCarried, TooDeep};
    ghost use Rattle.smithy_json_codec.specs.Cursor.{cursor_of, reading_settings_of, reader_settings_of};
    ghost use Rattle.smithy_json_values.specs.Settings.{keep_limits, without_limits};
    ghost use Rattle.smithy_json_settings.specs.Settings.{CodecSettings};
    ghost use Rattle.smithy_json_values.specs.Standing.{json_grammar, json_relations, json_reader};
    ghost use Rattle.smithy_json_codec.specs.ContainerSize.{json_sizes};
    ghost use Rattle.smithy_json_values.specs.Deepest.{OpensTooDeep};
    ghost use Rattle.smithy_types.specs.DocumentView.{document_view};
    ghost use Rattle.std.specs.Prelude.{FitsSigned};
    ghost use Rattle.std.specs.Int.{w128};
    ghost use Rattle.smithy_texts.specs.Numeral.{number};
    ghost use Rattle.smithy_texts.specs.Decimal.{mantissa, net_exponent};
    ghost use Rattle.smithy_declarations.specs.declared.shape_type.Scalar.TheVariants as scalars;
    ghost use Rattle.smithy_declarations.specs.Value.{whole, decimal};
    ghost use Rattle.smithy_json_values.specs.NumberText.{NumberTextLies};
    ghost use Rattle.smithy_json_values.specs.Documents.{DocumentStands, NoDocumentStands, TreeDocumentStands, NoTreeDocumentStands, MeetsOtherNumber, OpensDocumentTooDeep};
    ghost use Rattle.smithy_json_values.specs.LexicalGrammar.{rfc_8259};
    ghost use Rattle.smithy_json_values.specs.Laws.{lawful as json_is_lawful, fit as json_fits, counts as json_counts, above as limits_are_above, drops_nulls as json_drops_nulls};

    ghost Settings = { CodecSettings };

    ghost settings = { reader_settings_of };

    ghost state = { cursor_of };

    // A reader keeps the limits, whatever the settings say of them.
    ghost reading = { λ c. json_reader (keep_limits c.json) };

    ghost lawful = { λ c. json_is_lawful (keep_limits c.json) };

    ghost lifted_lawful = { λ c. json_is_lawful (without_limits c.json) };

    ghost fit = { λ c. json_fits (keep_limits c.json) refl };

    ghost counts = { λ c strict. json_counts (keep_limits c.json) strict };

    ghost above = { λ c. limits_are_above (keep_limits c.json) };

    ghost sizes = { λ _. json_sizes };

    ghost dispatches_nulls = { λ c. c.json.dispatch_null_members };

    ghost with_nulls = { λ value c. record c { json = record c.json { dispatch_null_members = value } } };

    ghost sets = { λ c value. refl };

    ghost sets_back = { λ c value. refl };

    ghost stays_set = { λ c value is. subst (λ v. record c { json = record c.json { dispatch_null_members = v } } ≡ c) is refl };

    ghost drops_nulls = { λ c. json_drops_nulls (keep_limits (record c.json { dispatch_null_members = false })) refl };

    fn allocator(&self) -> Global {
        self.alloc
    }

    fn position(&self) -> usize {
        self.walk.position
    }

    fn fail(&mut self) {
        self.walk.failed = true;
    }

    fn dispatch_null_members(&mut self, value: bool) -> bool {
        let before = self.settings.dispatch_null_members;
        self.settings.dispatch_null_members = value;
        before
    }

    fn open_struct(&mut self, schema: &Schema<'_>) -> Result<(), SerdeError> {
        self.walk.ready()?;
        let input = self.walk.input;
        if is_over(input, self.walk.position, &self.settings) && is_structure(schema) {
            return self.walk.enter(input.len(), missing());
        }
        match byte_end(self.walk.input, self.walk.position, b'{') {
            Some(inside) => self
                .walk
                .enter(inside, frame(ContainerKind::Structure, false)),
            None => {
                let error = no_object(self.walk.input, self.walk.position, is_structure(schema));
                Err(self.walk.refuse(error))
            }
        }
    }

    fn next_member<'s>(&mut self, schema: &Schema<'s>) -> Result<Step<'s>, SerdeError>
        requires within { (cursor_of self.old).inner.within ≡ in_structure }
        requires place { HasMembers (kind_at (site_of schema.now)) }
        ensures same { reader_settings_of self.new ≡ reader_settings_of self.old }
        ensures goes_on { GoesOnInStructure (json_reader (reading_settings_of self.old)) (cursor_of self.old) (cursor_of self.new) (site_of schema.now) result }

        // `TooDeep` comes only of a container that begins at the greatest depth, in the value that is skipped here or in the
        // value of a mark behind it.
        ensures too_deep { IsErrOf result TooDeep
            → (q : ℕ) × ((cursor_of self.old).at ≤ q) × OpensTooDeep (json_grammar (reading_settings_of self.old)) (reading_settings_of self.old).max_depth (depth (cursor_of self.old)) (cursor_of self.old).input q }
    {
        if self.walk.failed {
            return Err(self.walk.refuse(SerdeError::Failed));
        }
        if self.walk.due {
            return self.step_past_unread(schema);
        }
        let at = self.walk.position;
        self.step_from(at, schema)
    }

    fn open_list(&mut self, _schema: &Schema<'_>) -> Result<(), SerdeError> {
        self.walk.ready()?;
        match byte_end(self.walk.input, self.walk.position, b'[') {
            Some(inside) => self.walk.enter(inside, frame(ContainerKind::List, false)),
            None => Err(self.walk.refuse(SerdeError::TypeMismatch)),
        }
    }

    #[inline(always)]
    fn next_element(&mut self) -> Result<bool, SerdeError> {
        if self.walk.failed {
            return Err(self.walk.refuse(SerdeError::Failed));
        }
        if self.walk.due {
            return Err(self.walk.refuse(SerdeError::InvalidInput));
        }
        match next_in_list(
            self.walk.input,
            self.walk.position,
            self.walk.inner.mark.entered,
            self.walk.depth(),
            &self.settings,
        ) {
            Some(InList::Element(at)) => {
                self.walk.go_on(at, frame(ContainerKind::List, true));
                Ok(true)
            }
            Some(InList::End(end)) => {
                self.walk.leave(end);
                Ok(false)
            }
            None => Err(self.walk.refuse(SerdeError::InvalidInput)),
        }
    }

    #[inline(always)]
    fn read_longs(&mut self, _schema: &Schema<'_>, room: &mut [i64]) -> usize {
        if self.walk.failed || self.walk.due {
            return 0;
        }
        let run = longs_at(
            self.walk.input,
            self.walk.position,
            self.walk.inner.mark.entered,
            room,
        );
        if run.count > 0 {
            self.walk.go_on(run.end, frame(ContainerKind::List, true));
            self.walk.pass(run.end);
        }
        run.count
    }

    fn open_map(&mut self, _schema: &Schema<'_>) -> Result<(), SerdeError> {
        self.walk.ready()?;
        match byte_end(self.walk.input, self.walk.position, b'{') {
            Some(inside) => self.walk.enter(inside, frame(ContainerKind::Map, false)),
            None => Err(self.walk.refuse(SerdeError::TypeMismatch)),
        }
    }

    #[inline(always)]
    fn next_key(&mut self) -> Result<Option<String>, SerdeError> {
        self.next_key_as()
    }

    fn is_null(&self) -> bool {
        self.walk.due && begins_null(self.walk.input, self.walk.position)
    }

    // Where no null is due, and the reader hasn't failed, the call does nothing.
    fn read_null(&mut self) -> Result<(), SerdeError>
        ensures same { reader_settings_of self.new ≡ reader_settings_of self.old }
        ensures reads { ReadsNull (json_reader (reading_settings_of self.old)) (cursor_of self.old) (cursor_of self.new) result }

        // A refusal speaks of the lifted limits where reading isn't strict, too.
        ensures none_without_limits { null_is_due (json_relations (reading_settings_of self.old)) (cursor_of self.old) ≡ true → IsInvalid result → NullsNot (json_relations (without_limits (reading_settings_of self.old))) (cursor_of self.old) }
        ensures unasked { null_is_due (json_relations (reading_settings_of self.old)) (cursor_of self.old) ≡ false → (cursor_of self.old).failed ≡ false → IsOk result }
    {
        if self.walk.failed {
            return Err(self.walk.refuse(SerdeError::Failed));
        }
        if !self.is_null() {
            return Ok(());
        }
        match null_end(self.walk.input, self.walk.position, &self.settings) {
            Some(end) => {
                self.walk.pass(end);
                Ok(())
            }
            None => Err(self.walk.refuse(SerdeError::InvalidInput)),
        }
    }

    // Skipping takes no memory, so it is never refused for want of memory.
    fn skip_value(&mut self) -> Result<(), SerdeError>
        ensures same { reader_settings_of self.new ≡ reader_settings_of self.old }
        ensures skips { SkipsValue (json_reader (reading_settings_of self.old)) (cursor_of self.old) (cursor_of self.new) result }

        // A refusal speaks of the lifted limits where reading isn't strict, too.
        ensures none_without_limits { IsInvalid result → (cursor_of self.old).due ≡ true → SkipsNot (json_relations (without_limits (reading_settings_of self.old))) (cursor_of self.old) }
        ensures memory { IsErrOf result NoMemory → ⊥ }

        // `TooDeep` comes only of a container that begins at the greatest depth, behind what is sound.
        ensures too_deep { IsErrOf result TooDeep → OpensTooDeep (json_grammar (reading_settings_of self.old)) (reading_settings_of self.old).max_depth (depth (cursor_of self.old)) (cursor_of self.old).input (cursor_of self.old).at }
    {
        self.walk.ready()?;
        match skipped_end(self.input(), self.walk.position, self.walk.depth()) {
            Ok(end) => {
                self.walk.pass(end);
                Ok(())
            }
            Err(fault) => Err(self.walk.refuse(fault.refusal())),
        }
    }

    fn container_size(&self) -> Result<Option<usize>, AllocError> {
        if self.walk.failed || !self.walk.due {
            return Ok(None);
        }
        container_size(self.alloc, &self.walk.input[self.walk.position..])
    }

    fn read_boolean(&mut self, _schema: &Schema<'_>) -> Result<bool, SerdeError> {
        self.walk.ready()?;
        let input = self.walk.input;
        let at = self.walk.position;
        let found = boolean_at(input, at, &self.settings);
        let answer = self.walk.take(found);
        told(answer, input, at, Scalar::Boolean, None, &self.settings)
    }

    fn read_byte(&mut self, _schema: &Schema<'_>) -> Result<i8, SerdeError> {
        self.walk.ready()?;
        let input = self.walk.input;
        let at = self.walk.position;
        let found = byte_found(integer_at(input, at, &self.settings));
        let answer = self.walk.take(found);
        told(answer, input, at, Scalar::Byte, None, &self.settings)
    }

    fn read_short(&mut self, _schema: &Schema<'_>) -> Result<i16, SerdeError> {
        self.walk.ready()?;
        let input = self.walk.input;
        let at = self.walk.position;
        let found = short_found(integer_at(input, at, &self.settings));
        let answer = self.walk.take(found);
        told(answer, input, at, Scalar::Short, None, &self.settings)
    }

    fn read_integer(&mut self, _schema: &Schema<'_>) -> Result<i32, SerdeError> {
        self.walk.ready()?;
        let input = self.walk.input;
        let at = self.walk.position;
        let found = integer_found(integer_at(input, at, &self.settings));
        let answer = self.walk.take(found);
        told(answer, input, at, Scalar::Integer, None, &self.settings)
    }

    fn read_long(&mut self, _schema: &Schema<'_>) -> Result<i64, SerdeError> {
        self.walk.ready()?;
        let input = self.walk.input;
        let at = self.walk.position;
        let found = integer_at(input, at, &self.settings);
        let answer = self.walk.take(found);
        told(answer, input, at, Scalar::Long, None, &self.settings)
    }

    fn read_string(&mut self, _schema: &Schema<'_>) -> Result<String, SerdeError> {
        self.walk.ready()?;
        let input = self.walk.input;
        let at = self.walk.position;
        let found = text_at(self.alloc, input, at, &self.settings);
        let answer = self.walk.take_found(found);
        told(answer, input, at, Scalar::String, None, &self.settings)
    }

    fn read_blob(&mut self, _schema: &Schema<'_>) -> Result<Blob, SerdeError> {
        self.walk.ready()?;
        let input = self.walk.input;
        let at = self.walk.position;
        let found = blob_at(self.alloc, input, at, &self.settings);
        let answer = self.walk.take_found(found);
        told(answer, input, at, Scalar::Blob, None, &self.settings)
    }

    fn read_big_integer(&mut self, _schema: &Schema<'_>) -> Result<BigInteger, SerdeError>
        ensures same { reader_settings_of self.new ≡ reader_settings_of self.old }
        ensures read { ReadsScalar (json_reader (reading_settings_of self.old)) (cursor_of self.old) (cursor_of self.new) (site_of _schema.now) scalars.BigInteger (λ n. whole (number n)) result }
        ensures wide { AnswersWide (json_relations (reading_settings_of self.old)) (cursor_of self.old) (site_of _schema.now) scalars.BigInteger result }
        ensures fits { IfOk result (λ n. FitsSigned w128 (number n)) }

        // The text is kept as it stands in the input: the number's, or what the string's bytes write.
        ensures text { IfOk result (λ n. NumberTextLies (json_grammar (reading_settings_of self.old)) scalars.BigInteger (cursor_of self.old).input (cursor_of self.old).at n (cursor_of self.new).at) }
    {
        self.walk.ready()?;
        let input = self.walk.input;
        let at = self.walk.position;
        let found = big_integer_at(self.alloc, input, at, &self.settings);
        let answer = self.walk.take_within(found, SerdeError::TooWide);
        told(answer, input, at, Scalar::BigInteger, None, &self.settings)
    }

    fn read_big_decimal(&mut self, _schema: &Schema<'_>) -> Result<BigDecimal, SerdeError>
        ensures same { reader_settings_of self.new ≡ reader_settings_of self.old }
        ensures read { ReadsScalar (json_reader (reading_settings_of self.old)) (cursor_of self.old) (cursor_of self.new) (site_of _schema.now) scalars.BigDecimal (λ n. decimal (mantissa n) (net_exponent n)) result }
        ensures wide { AnswersWide (json_relations (reading_settings_of self.old)) (cursor_of self.old) (site_of _schema.now) scalars.BigDecimal result }
        ensures fits { IfOk result (λ n. FitsSigned w128 (mantissa n)) }

        // The text is kept as it stands in the input: the number's, or what the string's bytes write.
        ensures text { IfOk result (λ n. NumberTextLies (json_grammar (reading_settings_of self.old)) scalars.BigDecimal (cursor_of self.old).input (cursor_of self.old).at n (cursor_of self.new).at) }
    {
        self.walk.ready()?;
        let input = self.walk.input;
        let at = self.walk.position;
        let found = big_decimal_at(self.alloc, input, at, &self.settings);
        let answer = self.walk.take_within(found, SerdeError::TooWide);
        told(answer, input, at, Scalar::BigDecimal, None, &self.settings)
    }

    fn read_timestamp(&mut self, schema: &Schema<'_>) -> Result<DateTime, SerdeError> {
        self.walk.ready()?;
        let time = schema.timestamp_format();
        let input = self.walk.input;
        let at = self.walk.position;
        let found = instant_at(self.alloc, input, at, time, &self.settings);
        let answer = self.walk.take_within(found, SerdeError::NotCarried);
        told(answer, input, at, Scalar::Timestamp, time, &self.settings)
    }

    fn read_document(&mut self, _schema: &Schema<'_>) -> Result<Document, SerdeError>
        ensures same { reader_settings_of self.new ≡ reader_settings_of self.old }
        ensures read { ReadsDocument (json_reader (reading_settings_of self.old)) (cursor_of self.old) (cursor_of self.new) (site_of _schema.now) result }

        // `TooDeep` comes only of a value of the document inside of as many containers as may be open. `NotCarried` comes only of
        // a number of the document that no document holds.
        ensures too_deep { IsErrOf result TooDeep → OpensDocumentTooDeep (json_grammar (reading_settings_of self.old)) (reading_settings_of self.old).max_depth (depth (cursor_of self.old)) (cursor_of self.old).input (cursor_of self.old).at }
        ensures other_number { IsErrOf result NotCarried → MeetsOtherNumber (json_grammar (reading_settings_of self.old)) (cursor_of self.old).input (cursor_of self.old).at }

        // What is read is the document that the JSON value there means, each number in its variant, and what is refused means none.
        ensures meaning { IfOk result (λ x. DocumentStands (json_grammar (reading_settings_of self.old)) (reading_settings_of self.old) (depth (cursor_of self.old)) (cursor_of self.old).input (cursor_of self.old).at (document_view x) (cursor_of self.new).at) }
        ensures no_meaning { IsRefused result → (cursor_of self.old).due ≡ true → NoDocumentStands (json_grammar (reading_settings_of self.old)) (reading_settings_of self.old) (depth (cursor_of self.old)) (cursor_of self.old).input (cursor_of self.old).at }
        ensures none_without_limits { IsInvalid result → (cursor_of self.old).due ≡ true → NoDocumentStands (json_grammar (reading_settings_of self.old)) (without_limits (reading_settings_of self.old)) (depth (cursor_of self.old)) (cursor_of self.old).input (cursor_of self.old).at }

        // Where JSON is read by RFC 8259, a tree of it means what is read, by the definition that holds for tokens too, and none
        // means what is refused.
        ensures tree_meaning { json_grammar (reading_settings_of self.old) ≡ rfc_8259 → IfOk result (λ x. TreeDocumentStands (Some (reading_settings_of self.old).max_depth) (depth (cursor_of self.old)) (cursor_of self.old).input (cursor_of self.old).at (document_view x) (cursor_of self.new).at) }
        ensures no_tree_meaning { json_grammar (reading_settings_of self.old) ≡ rfc_8259 → IsRefused result → (cursor_of self.old).due ≡ true → NoTreeDocumentStands (Some (reading_settings_of self.old).max_depth) (depth (cursor_of self.old)) (cursor_of self.old).input (cursor_of self.old).at }
    {
        self.walk.ready()?;
        match standing_document_at(
            self.alloc,
            self.input(),
            self.walk.position,
            self.walk.depth(),
        ) {
            Ok((document, end)) => {
                self.walk.pass(end);
                Ok(document)
            }
            Err(fault) => Err(self.walk.refuse(fault.refusal())),
        }
    }
}
