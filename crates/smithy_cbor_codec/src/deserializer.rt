//! The reader of CBOR values that a schema directs.
ghost use Rattle.std.specs.Prelude.{◌≡◌};

use crate::frames::{frame, is_missing, missing};
use smithy_cbor_body::CborCodecSettings;
use smithy_cbor_values::container_size::container_size_at;
use smithy_cbor_values::instants::instant_at;
use smithy_cbor_values::long_runs::longs_at;
use smithy_cbor_values::numbers::{big_decimal_at, big_integer_at};
use smithy_cbor_values::places::{
    EntryOrEnd, array_at, entry_or_end, is_null_at, map_at, null_end,
};
use smithy_cbor_values::values::{
    blob_at, boolean_at, item_stands, long_at, skipped_end, string_at,
};
use smithy_schema::{Schema, SerdeError, ShapeDeserializer, Step};
use smithy_types::{BigDecimal, BigInteger, Blob, DateTime, Document};
use smithy_wire::{ContainerKind, Walk, byte_found, integer_found, short_found};
use std::alloc::{AllocError, Global};

/// A reader of one CBOR item.
#[derive(Drop)]
pub struct CborDeserializer<'a> {
    pub(crate) walk: Walk<'a>,
    pub(crate) alloc: Global,
    pub(crate) settings: CborCodecSettings,
    // As many containers may be open as the settings say.
    ghost limit: { walk.max_depth ≡ settings.max_depth },
}

impl<'a> CborDeserializer<'a> {
    ghost use Rattle.std.specs.Prelude.{◌≡◌};
    ghost use Rattle.smithy_cbor_codec.specs.Cursor.{cursor_of};
    ghost use Rattle.smithy_wire.specs.Walking.{fresh_cursor};

    // A fresh reader.
    pub(crate) fn new(
        input: &'a [u8],
        alloc: Global,
        settings: CborCodecSettings,
    ) -> CborDeserializer<'a>
        ensures state { cursor_of result ≡ fresh_cursor input.now }
        ensures settings { result.settings ≡ settings }
    {
        CborDeserializer {
            walk: Walk::new(input, alloc, settings.max_depth as usize),
            alloc,
            settings,
        }
    }
}

impl ShapeDeserializer for CborDeserializer<'_> {
    ghost use Rattle.std.specs.Prelude.{◌≡◌, ℕ, FitsSigned, IfOk, IsOk, IsErr, IsErrOf, true, false, refl};
    ghost use Rattle.std.proofs.Common.{subst};
    ghost use Rattle.smithy_schema.specs.Errors.{IsInvalid};
    ghost use Rattle.smithy_schema.specs.Containers.{GoesOnInStructure};
    ghost use Rattle.smithy_schema.specs.Passing.{ReadsNull, SkipsValue};
    ghost use Rattle.smithy_schema.specs.Reading.{depth, in_structure, null_is_due, ReadsScalar, ReadsDocument, AnswersWide, AnswersUncarried, SkipsNot};
    ghost use Rattle.smithy_declarations.specs.Table.{HasMembers};
    ghost use Rattle.smithy_shapes.specs.Site.{site_of, kind_at};
    ghost use Rattle.smithy_schema.specs.declared.error.SerdeError.TheVariants.{NoMemory, NotCarried, TooDeep};
    ghost use Rattle.smithy_declarations.specs.declared.shape_type.Scalar.TheVariants as scalars;
    ghost use Rattle.smithy_declarations.specs.Value.{instant, whole, decimal};
    ghost use Rattle.std.specs.Fmt.{signed_decimal};
    ghost use Rattle.std.specs.Int.{w128};
    ghost use Rattle.smithy_texts.specs.Numeral.{number};
    ghost use Rattle.smithy_texts.specs.Decimal.{mantissa, net_exponent, decimal_text};
    ghost use Rattle.smithy_cbor_codec.specs.Cursor.{cursor_of, reading_settings_of};
    ghost use Rattle.smithy_cbor_values.specs.Settings.{Settings, keep_limits, without_limits};
    ghost use Rattle.smithy_cbor_values.specs.Standing.{cbor_relations, cbor_reader};
    ghost use Rattle.smithy_cbor_values.specs.ContainerSize.{cbor_sizes};
    ghost use Rattle.smithy_schema.specs.Sizes.{TellsSize};
    ghost use Rattle.smithy_cbor_values.specs.Laws.{lawful as cbor_is_lawful, fit as cbor_fits, counts as cbor_counts, above as limits_are_above, drops_nulls as cbor_drops_nulls};

    ghost Settings = { Settings };

    ghost settings = { reading_settings_of };

    ghost state = { cursor_of };

    // A reader keeps the limits, whatever the settings say of them.
    ghost reading = { λ c. cbor_reader (keep_limits c) };

    ghost lawful = { λ c. cbor_is_lawful (keep_limits c) };

    ghost lifted_lawful = { λ c. cbor_is_lawful (without_limits c) };

    ghost fit = { λ c. cbor_fits (keep_limits c) refl };

    ghost counts = { λ c strict. cbor_counts (keep_limits c) strict };

    ghost above = { λ c. limits_are_above (keep_limits c) };

    ghost sizes = { λ _. cbor_sizes };

    ghost dispatches_nulls = { λ c. c.dispatch_null_members };

    ghost with_nulls = { λ value c. record c { dispatch_null_members = value } };

    ghost sets = { λ c value. refl };

    ghost sets_back = { λ c value. refl };

    ghost stays_set = { λ c value is. subst (λ v. record c { dispatch_null_members = v } ≡ c) is refl };

    ghost drops_nulls = { λ c. cbor_drops_nulls (keep_limits (record c { dispatch_null_members = false })) refl };

    fn allocator(&self) -> Global {
        self.alloc
    }

    fn position(&self) -> usize {
        self.walk.position
    }

    fn fail(&mut self) {
        self.walk.failed = true;
    }

    fn dispatch_null_members(&mut self, value: bool) -> bool {
        let before = self.settings.dispatch_null_members;
        self.settings.dispatch_null_members = value;
        before
    }

    fn open_struct(&mut self, schema: &Schema<'_>) -> Result<(), SerdeError> {
        self.walk.ready()?;
        if is_missing(
            self.walk.input,
            self.walk.position,
            self.settings.enforce_strictness,
            schema,
        ) {
            let at = self.walk.position;
            return self.walk.enter(at, missing());
        }
        match map_at(self.walk.input, self.walk.position) {
            Some(opening) => self.walk.enter(
                opening.inside,
                frame(ContainerKind::Structure, opening.due),
            ),
            None => Err(self.walk.refuse(SerdeError::InvalidInput)),
        }
    }

    fn next_member<'s>(&mut self, schema: &Schema<'s>) -> Result<Step<'s>, SerdeError>
        requires within { (cursor_of self.old).inner.within ≡ in_structure }
        requires place { HasMembers (kind_at (site_of schema.now)) }
        ensures same { reading_settings_of self.new ≡ reading_settings_of self.old }
        ensures goes_on { GoesOnInStructure (cbor_reader (reading_settings_of self.old)) (cursor_of self.old) (cursor_of self.new) (site_of schema.now) result }

        // An unread member may nest to any depth.
        ensures shallow { IsErrOf result TooDeep → ⊥ }
    {
        if self.walk.failed {
            return Err(self.walk.refuse(SerdeError::Failed));
        }
        if !self.walk.due {
            let at = self.walk.position;
            return self.step_from(at, schema);
        }
        match skipped_end(
            self.alloc,
            self.walk.input,
            self.walk.position,
            self.end_depth(),
        ) {
            Ok(Some(end)) => self.step_from(end, schema),
            Ok(None) => Err(self.walk.refuse(SerdeError::InvalidInput)),
            Err(_) => Err(self.walk.refuse(SerdeError::NoMemory)),
        }
    }

    fn open_list(&mut self, _schema: &Schema<'_>) -> Result<(), SerdeError> {
        self.walk.ready()?;
        match array_at(self.walk.input, self.walk.position) {
            Some(opening) => self
                .walk
                .enter(opening.inside, frame(ContainerKind::List, opening.due)),
            None => Err(self.walk.refuse(SerdeError::InvalidInput)),
        }
    }

    fn next_element(&mut self) -> Result<bool, SerdeError> {
        if self.walk.failed {
            return Err(self.walk.refuse(SerdeError::Failed));
        }
        if self.walk.due {
            return Err(self.walk.refuse(SerdeError::InvalidInput));
        }
        match entry_or_end(
            self.walk.input,
            self.walk.position,
            self.walk.inner.mark.due,
        ) {
            Some(EntryOrEnd::Entry(due)) => {
                let at = self.walk.position;
                self.walk.go_on(at, frame(ContainerKind::List, due));
                Ok(true)
            }
            Some(EntryOrEnd::End(end)) => {
                if self.may_leave_at(end) {
                    self.walk.leave(end);
                    return Ok(false);
                }
                Err(self.walk.refuse(SerdeError::InvalidInput))
            }
            None => Err(self.walk.refuse(SerdeError::InvalidInput)),
        }
    }

    #[inline(always)]
    fn read_longs(&mut self, _schema: &Schema<'_>, room: &mut [i64]) -> usize {
        if self.walk.failed || self.walk.due {
            return 0;
        }
        if self.walk.depth() == 0 {
            return 0;
        }
        let run = longs_at(
            self.walk.input,
            self.walk.position,
            self.walk.inner.mark.due,
            room,
        );
        if run.count > 0 {
            self.walk
                .go_on(run.end, frame(ContainerKind::List, run.due));
            self.walk.pass(run.end);
        }
        run.count
    }

    fn open_map(&mut self, _schema: &Schema<'_>) -> Result<(), SerdeError> {
        self.walk.ready()?;
        match map_at(self.walk.input, self.walk.position) {
            Some(opening) => self
                .walk
                .enter(opening.inside, frame(ContainerKind::Map, opening.due)),
            None => Err(self.walk.refuse(SerdeError::InvalidInput)),
        }
    }

    fn next_key(&mut self) -> Result<Option<String>, SerdeError> {
        self.next_key_as()
    }

    fn is_null(&self) -> bool {
        self.walk.due && is_null_at(self.walk.input, self.walk.position)
    }

    fn read_null(&mut self) -> Result<(), SerdeError>
        ensures same { reading_settings_of self.new ≡ reading_settings_of self.old }
        ensures reads { ReadsNull (cbor_reader (reading_settings_of self.old)) (cursor_of self.old) (cursor_of self.new) result }

        // Where no null is due, the call is refused.
        ensures not_due { null_is_due (cbor_relations (reading_settings_of self.old)) (cursor_of self.old) ≡ false → IsErr result }
    {
        if self.walk.failed {
            return Err(self.walk.refuse(SerdeError::Failed));
        }
        if !self.is_null() {
            return Err(self.walk.refuse(SerdeError::InvalidInput));
        }
        match null_end(self.walk.input, self.walk.position, self.end_depth()) {
            Some(end) => {
                self.walk.pass(end);
                Ok(())
            }
            None => Err(self.walk.refuse(SerdeError::InvalidInput)),
        }
    }

    fn skip_value(&mut self) -> Result<(), SerdeError>
        ensures same { reading_settings_of self.new ≡ reading_settings_of self.old }
        ensures skips { SkipsValue (cbor_reader (reading_settings_of self.old)) (cursor_of self.old) (cursor_of self.new) result }

        // What is skipped may nest to any depth.
        ensures shallow { IsErrOf result TooDeep → ⊥ }
    {
        self.walk.ready()?;
        match skipped_end(
            self.alloc,
            self.walk.input,
            self.walk.position,
            self.end_depth(),
        ) {
            Ok(Some(end)) => {
                self.walk.pass(end);
                Ok(())
            }
            Ok(None) => Err(self.walk.refuse(SerdeError::InvalidInput)),
            Err(_) => Err(self.walk.refuse(SerdeError::NoMemory)),
        }
    }

    // It takes no memory.
    fn container_size(&self) -> Result<Option<usize>, AllocError>
        ensures size { IfOk result (TellsSize cbor_sizes (cursor_of self.now)) }
        ensures due { IsErr result → (cursor_of self.now).due ≡ true }
        ensures sound { IsErr result → (cursor_of self.now).failed ≡ false }
        ensures memory { IsOk result }
    {
        if self.walk.failed || !self.walk.due {
            return Ok(None);
        }
        Ok(container_size_at(self.walk.input, self.walk.position))
    }

    fn read_boolean(&mut self, _schema: &Schema<'_>) -> Result<bool, SerdeError> {
        self.walk.ready()?;
        let found = boolean_at(self.walk.input, self.walk.position, self.end_depth());
        self.walk.take(found)
    }

    fn read_byte(&mut self, _schema: &Schema<'_>) -> Result<i8, SerdeError> {
        self.walk.ready()?;
        let found = long_at(self.walk.input, self.walk.position, self.end_depth());
        self.walk.take(byte_found(found))
    }

    fn read_short(&mut self, _schema: &Schema<'_>) -> Result<i16, SerdeError> {
        self.walk.ready()?;
        let found = long_at(self.walk.input, self.walk.position, self.end_depth());
        self.walk.take(short_found(found))
    }

    fn read_integer(&mut self, _schema: &Schema<'_>) -> Result<i32, SerdeError> {
        self.walk.ready()?;
        let found = long_at(self.walk.input, self.walk.position, self.end_depth());
        self.walk.take(integer_found(found))
    }

    #[inline(always)]
    fn read_long(&mut self, _schema: &Schema<'_>) -> Result<i64, SerdeError> {
        self.walk.ready()?;
        let found = long_at(self.walk.input, self.walk.position, self.end_depth());
        self.walk.take(found)
    }

    fn read_string(&mut self, _schema: &Schema<'_>) -> Result<String, SerdeError> {
        self.walk.ready()?;
        let found = string_at(
            self.alloc,
            self.walk.input,
            self.walk.position,
            self.end_depth(),
        );
        self.walk.take_found(found)
    }

    fn read_blob(&mut self, _schema: &Schema<'_>) -> Result<Blob, SerdeError> {
        self.walk.ready()?;
        let found = blob_at(
            self.alloc,
            self.walk.input,
            self.walk.position,
            self.end_depth(),
        );
        self.walk.take_found(found)
    }

    fn read_big_integer(&mut self, _schema: &Schema<'_>) -> Result<BigInteger, SerdeError>
        ensures same { reading_settings_of self.new ≡ reading_settings_of self.old }
        ensures read { ReadsScalar (cbor_reader (reading_settings_of self.old)) (cursor_of self.old) (cursor_of self.new) (site_of _schema.now) scalars.BigInteger (λ n. whole (number n)) result }
        ensures wide { AnswersWide (cbor_relations (keep_limits (reading_settings_of self.old))) (cursor_of self.old) (site_of _schema.now) scalars.BigInteger result }
        ensures fits { IfOk result (λ n. FitsSigned w128 (number n)) }

        // The text is the one that a number without a text is written as.
        ensures text { IfOk result (λ n. n ≡ signed_decimal (number n)) }
    {
        self.walk.ready()?;
        let found = big_integer_at(
            self.alloc,
            self.walk.input,
            self.walk.position,
            self.end_depth(),
        );
        self.walk.take_within(found, SerdeError::TooWide)
    }

    fn read_big_decimal(&mut self, _schema: &Schema<'_>) -> Result<BigDecimal, SerdeError>
        ensures same { reading_settings_of self.new ≡ reading_settings_of self.old }
        ensures read { ReadsScalar (cbor_reader (reading_settings_of self.old)) (cursor_of self.old) (cursor_of self.new) (site_of _schema.now) scalars.BigDecimal (λ n. decimal (mantissa n) (net_exponent n)) result }
        ensures wide { AnswersWide (cbor_relations (keep_limits (reading_settings_of self.old))) (cursor_of self.old) (site_of _schema.now) scalars.BigDecimal result }
        ensures fits { IfOk result (λ n. FitsSigned w128 (mantissa n)) }

        // The text is the one that a number without a text is written as.
        ensures text { IfOk result (λ n. n ≡ decimal_text (mantissa n) (net_exponent n)) }
    {
        self.walk.ready()?;
        let found = big_decimal_at(
            self.alloc,
            self.walk.input,
            self.walk.position,
            self.end_depth(),
        );
        self.walk.take_within(found, SerdeError::TooWide)
    }

    // It takes no memory.
    fn read_timestamp(&mut self, _schema: &Schema<'_>) -> Result<DateTime, SerdeError>
        ensures same { reading_settings_of self.new ≡ reading_settings_of self.old }
        ensures read { ReadsScalar (cbor_reader (reading_settings_of self.old)) (cursor_of self.old) (cursor_of self.new) (site_of _schema.now) scalars.Timestamp instant result }
        ensures uncarried { AnswersUncarried (cbor_relations (keep_limits (reading_settings_of self.old))) (cursor_of self.old) (site_of _schema.now) scalars.Timestamp result }
        ensures memory { IsErrOf result NoMemory → ⊥ }
    {
        self.walk.ready()?;
        let found = instant_at(self.walk.input, self.walk.position, self.end_depth());
        self.walk.take_within(Ok(found), SerdeError::NotCarried)
    }

    // CBOR carries no documents: wherever an item stands, none is carried.
    fn read_document(&mut self, _schema: &Schema<'_>) -> Result<Document, SerdeError>
        ensures same { reading_settings_of self.new ≡ reading_settings_of self.old }
        ensures read { ReadsDocument (cbor_reader (reading_settings_of self.old)) (cursor_of self.old) (cursor_of self.new) (site_of _schema.now) result }
        ensures never { IsOk result → ⊥ }
        ensures shallow { IsErrOf result TooDeep → ⊥ }
        ensures lies { IsErrOf result NotCarried → (e : ℕ) × (cbor_relations (reading_settings_of self.old)).skips (cursor_of self.old).input (depth (cursor_of self.old)) (cursor_of self.old).at e }
        ensures nothing { IsInvalid result → (cursor_of self.old).due ≡ true → SkipsNot (cbor_relations (reading_settings_of self.old)) (cursor_of self.old) }
    {
        self.walk.ready()?;
        match item_stands(
            self.alloc,
            self.walk.input,
            self.walk.position,
            self.end_depth(),
        ) {
            Ok(true) => Err(self.walk.refuse(SerdeError::NotCarried)),
            Ok(false) => Err(self.walk.refuse(SerdeError::InvalidInput)),
            Err(_) => Err(self.walk.refuse(SerdeError::NoMemory)),
        }
    }
}
