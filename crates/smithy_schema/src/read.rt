//! Reading a value as a schema directs.
ghost use Rattle.std.specs.Prelude.{◌≡◌, ◌≤◌, length, take, Bool, true, false, IfOk, OnOk, IsErrOf, IsErr, string_bytes, FitsSigned};
ghost use Rattle.std.specs.Int.{w128};
ghost use Rattle.smithy_texts.specs.Numeral.{number};
ghost use Rattle.smithy_texts.specs.Decimal.{mantissa, net_exponent};
ghost use Rattle.smithy_declarations.specs.declared.shape_type.Scalar.TheVariants as scalars;
ghost use Rattle.smithy_declarations.specs.Table.{HasMembers, IsList, IsMap};
ghost use Rattle.smithy_declarations.specs.Value.{boolean, whole, text, bytes, decimal, instant};
ghost use Rattle.smithy_shapes.specs.Site.{site_of, kind_at};
ghost use Rattle.smithy_schema.specs.Containers.{Opens, GoesOnInStructure, GoesOnInList, GoesOnInMap};
ghost use Rattle.smithy_schema.specs.Passing.{ReadsNull, SkipsValue};
ghost use Rattle.smithy_schema.specs.Nulls.{DropsNulls, settings_for};
ghost use Rattle.smithy_schema.specs.Reading.{ReadsScalar, ReadsDocument, AnswersWide, AnswersUncarried, Cursor, Reader, IsLawful, StandsFit, CountsOpeners, IsBelow, null_is_due, failed_at, in_structure, in_list, in_map};
ghost use Rattle.smithy_schema.specs.declared.error.SerdeError.TheVariants.{NoMemory};
ghost use Rattle.smithy_schema.specs.Consuming.{ReadsEntries, by_member, by_element, by_key};
ghost use Rattle.smithy_schema.specs.Sizes.{Sizes, TellsSize};
ghost use Rattle.smithy_schema.specs.Elements.{ReadsList, items_of};
ghost use Rattle.smithy_schema.specs.Runs.{ReadsInTurn};
ghost use Rattle.smithy_schema.specs.TextMaps.{ReadsTexts, entries_of};

use crate::consume::{ListConsumer, MapConsumer, StructConsumer};
use crate::elements::read_elements;
use crate::entries::{each_element, each_entry, each_member};
use crate::error::SerdeError;
use crate::step::Step;
use crate::text_maps::read_texts;
use smithy_shapes::Schema;
use smithy_types::{BigDecimal, BigInteger, Blob, DateTime, Document};
use std::alloc::{AllocError, Global};
use std::collections::BTreeMap;

/// A reader of one input, which a schema directs call by call.
///
/// It has a stack of open containers. A value is due on a fresh reader, and after a step that gave a member, an unknown entry, an
/// element or a map's key, until it is read, opened or skipped. Positions are byte offsets from 0. After an answered error a reader has
/// failed: it stays where it is, and answers `Failed` from then on.
pub trait ShapeDeserializer {
    ghost Settings: { Type 0 };

    ghost settings: { Self → Settings };

    ghost state: { Self → Cursor };

    // What the calls are told by under the settings: the relations of the wire, with its limits and without them.
    ghost reading: { Settings → Reader };

    // What the wire tells of the sizes of containers before they are read.
    ghost sizes: { Settings → Sizes };

    // Whether the null of a member is handed on under the settings, and the settings under which it is or isn't, and which are these else.
    ghost dispatches_nulls: { Settings → Bool };

    ghost with_nulls: { Bool → Settings → Settings };

    /// What the reader takes memory from.
    fn allocator(&self) -> Global;

    /// The offset at which the reader stands, in bytes from 0.
    fn position(&self) -> usize
        ensures at { result ≡ (state self.now).at }
        ensures within { result ≤ length (state self.now).input };

    /// Makes the reader fail.
    fn fail(&mut self)
        ensures same { settings self.new ≡ settings self.old }
        ensures fails { state self.new ≡ failed_at (state self.old) };

    /// Hands on the null of a member from now on, or drops it, whatever the codec was asked for. A caller that calls it for a while sets
    /// back what it answers, which is what held before.
    fn dispatch_null_members(&mut self, value: bool) -> bool
        ensures set { settings self.new ≡ with_nulls value (settings self.old) }
        ensures stays { state self.new ≡ state self.old }
        ensures before { result ≡ dispatches_nulls (settings self.old) };

    /// Enters the structure or the union that is due. Where one begins here, it is `TooDeep` exactly at the greatest depth.
    fn open_struct(&mut self, schema: &Schema<'_>) -> Result<(), SerdeError>
        requires place { HasMembers (kind_at (site_of schema.now)) }
        ensures same { settings self.new ≡ settings self.old }
        ensures opens { Opens (reading (settings self.old)) (state self.old) (state self.new) (site_of schema.now) in_structure result };

    /// Goes on in the structure or the union, which is the one of this schema: to an entry whose value is due then, or
    /// to the end. Entries with a null are passed over, but for documents where the wire has a null document, and each
    /// `__type` that names no member. A value that is still due is skipped first.
    fn next_member<'s>(&mut self, schema: &Schema<'s>) -> Result<Step<'s>, SerdeError>
        requires within { (state self.old).inner.within ≡ in_structure }
        requires place { HasMembers (kind_at (site_of schema.now)) }
        ensures same { settings self.new ≡ settings self.old }
        ensures goes_on { GoesOnInStructure (reading (settings self.old)) (state self.old) (state self.new) (site_of schema.now) result };

    /// Enters the list that is due. Where a list begins here, it is `TooDeep` exactly at the greatest depth.
    fn open_list(&mut self, schema: &Schema<'_>) -> Result<(), SerdeError>
        requires place { IsList (kind_at (site_of schema.now)) }
        ensures same { settings self.new ≡ settings self.old }
        ensures opens { Opens (reading (settings self.old)) (state self.old) (state self.new) (site_of schema.now) in_list result };

    /// Goes on in the list: whether another element is due, or the list has ended. An element that was
    /// left unread is refused. It takes no memory.
    fn next_element(&mut self) -> Result<bool, SerdeError>
        requires within { (state self.old).inner.within ≡ in_list }
        ensures same { settings self.new ≡ settings self.old }
        ensures goes_on { GoesOnInList (reading (settings self.old)) (state self.old) (state self.new) result };

    /// Reads the longs that come next in the list, each as by `next_element` and `read_long`, as many as there is room for. It answers
    /// how many there were, which are the first in the room. It may stop before any element, and the element calls go on from there. It
    /// takes no memory. A reader without a loop of its own reads none.
    #[inline(always)]
    fn read_longs(&mut self, _schema: &Schema<'_>, _room: &mut [i64]) -> usize
        requires within { (state self.old).inner.within ≡ in_list }
        ensures same { settings self.new ≡ settings self.old }
        ensures room { length _room.new ≡ length _room.old }
        ensures count { result ≤ length _room.new }
        ensures reads { ReadsInTurn (reading (settings self.old)) (site_of _schema.now) scalars.Long (state self.old) (take result _room.new) (state self.new) }
    {
        0
    }

    /// Enters the map that is due. Where a map begins here, it is `TooDeep` exactly at the greatest depth.
    fn open_map(&mut self, schema: &Schema<'_>) -> Result<(), SerdeError>
        requires place { IsMap (kind_at (site_of schema.now)) }
        ensures same { settings self.new ≡ settings self.old }
        ensures opens { Opens (reading (settings self.old)) (state self.old) (state self.new) (site_of schema.now) in_map result };

    /// Goes on in the map: the key of the next entry, whose value is due then, or none where the map has ended. Keys
    /// come in the order of the input, equal ones each time. A value that was left unread is refused.
    fn next_key(&mut self) -> Result<Option<String>, SerdeError>
        requires within { (state self.old).inner.within ≡ in_map }
        ensures same { settings self.new ≡ settings self.old }
        ensures goes_on { GoesOnInMap (reading (settings self.old)) string_bytes (state self.old) (state self.new) result };

    /// Whether the value that is due is a null.
    fn is_null(&self) -> bool
        ensures { result ≡ null_is_due (reading (settings self.now)).wire (state self.now) };

    /// Reads the null that is due. Where none is due, a wire may do nothing or refuse. It takes no memory.
    fn read_null(&mut self) -> Result<(), SerdeError>
        ensures same { settings self.new ≡ settings self.old }
        ensures reads { ReadsNull (reading (settings self.old)) (state self.old) (state self.new) result };

    /// Skips the value that is due, whatever it is.
    fn skip_value(&mut self) -> Result<(), SerdeError>
        ensures same { settings self.new ≡ settings self.old }
        ensures skips { SkipsValue (reading (settings self.old)) (state self.old) (state self.new) result };

    /// How many elements or entries the list, map, structure or union has that is due, as far as the wire tells it before
    /// they are read: what is told needn't be true. The reader stays where it is, after want of memory too.
    fn container_size(&self) -> Result<Option<usize>, AllocError>
        ensures size { IfOk result (TellsSize (sizes (settings self.now)) (state self.now)) }
        ensures due { IsErr result → (state self.now).due ≡ true }
        ensures sound { IsErr result → (state self.now).failed ≡ false };

    /// Reads false or true. It takes no memory.
    fn read_boolean(&mut self, schema: &Schema<'_>) -> Result<bool, SerdeError>
        ensures same { settings self.new ≡ settings self.old }
        ensures read { ReadsScalar (reading (settings self.old)) (state self.old) (state self.new) (site_of schema.now) scalars.Boolean boolean result }
        ensures memory { IsErrOf result NoMemory → ⊥ };

    /// Reads a whole number from -2^7 to 2^7-1. It takes no memory.
    fn read_byte(&mut self, schema: &Schema<'_>) -> Result<i8, SerdeError>
        ensures same { settings self.new ≡ settings self.old }
        ensures read { ReadsScalar (reading (settings self.old)) (state self.old) (state self.new) (site_of schema.now) scalars.Byte whole result }
        ensures memory { IsErrOf result NoMemory → ⊥ };

    /// Reads a whole number from -2^15 to 2^15-1. It takes no memory.
    fn read_short(&mut self, schema: &Schema<'_>) -> Result<i16, SerdeError>
        ensures same { settings self.new ≡ settings self.old }
        ensures read { ReadsScalar (reading (settings self.old)) (state self.old) (state self.new) (site_of schema.now) scalars.Short whole result }
        ensures memory { IsErrOf result NoMemory → ⊥ };

    /// Reads a whole number from -2^31 to 2^31-1. It takes no memory.
    fn read_integer(&mut self, schema: &Schema<'_>) -> Result<i32, SerdeError>
        ensures same { settings self.new ≡ settings self.old }
        ensures read { ReadsScalar (reading (settings self.old)) (state self.old) (state self.new) (site_of schema.now) scalars.Integer whole result }
        ensures memory { IsErrOf result NoMemory → ⊥ };

    /// Reads a whole number from -2^63 to 2^63-1. It takes no memory.
    fn read_long(&mut self, schema: &Schema<'_>) -> Result<i64, SerdeError>
        ensures same { settings self.new ≡ settings self.old }
        ensures read { ReadsScalar (reading (settings self.old)) (state self.old) (state self.new) (site_of schema.now) scalars.Long whole result }
        ensures memory { IsErrOf result NoMemory → ⊥ };

    /// Reads a text.
    fn read_string(&mut self, schema: &Schema<'_>) -> Result<String, SerdeError>
        ensures same { settings self.new ≡ settings self.old }
        ensures read { ReadsScalar (reading (settings self.old)) (state self.old) (state self.new) (site_of schema.now) scalars.String (λ s. text (string_bytes s)) result };

    /// Reads bytes.
    fn read_blob(&mut self, schema: &Schema<'_>) -> Result<Blob, SerdeError>
        ensures same { settings self.new ≡ settings self.old }
        ensures read { ReadsScalar (reading (settings self.old)) (state self.old) (state self.new) (site_of schema.now) scalars.Blob bytes result };

    /// Reads a whole number of 128 bits. `TooWide` comes exactly where a whole number stands that leaves these bits.
    fn read_big_integer(&mut self, schema: &Schema<'_>) -> Result<BigInteger, SerdeError>
        ensures same { settings self.new ≡ settings self.old }
        ensures read { ReadsScalar (reading (settings self.old)) (state self.old) (state self.new) (site_of schema.now) scalars.BigInteger (λ n. whole (number n)) result }
        ensures wide { AnswersWide (reading (settings self.old)).wire (state self.old) (site_of schema.now) scalars.BigInteger result }
        ensures fits { IfOk result (λ n. FitsSigned w128 (number n)) };

    /// Reads a decimal number with a mantissa of 128 bits. `TooWide` comes exactly where a decimal number stands whose
    /// mantissa leaves these bits, or one of whose exponents, as it is written and net of the digits behind the point,
    /// leaves the range from -(2^63-1) to 2^63-1.
    fn read_big_decimal(&mut self, schema: &Schema<'_>) -> Result<BigDecimal, SerdeError>
        ensures same { settings self.new ≡ settings self.old }
        ensures read { ReadsScalar (reading (settings self.old)) (state self.old) (state self.new) (site_of schema.now) scalars.BigDecimal (λ n. decimal (mantissa n) (net_exponent n)) result }
        ensures wide { AnswersWide (reading (settings self.old)).wire (state self.old) (site_of schema.now) scalars.BigDecimal result }
        ensures fits { IfOk result (λ n. FitsSigned w128 (mantissa n)) };

    /// Reads an instant, in the form of its place where the wire has forms. `NotCarried` comes exactly where a number stands
    /// that the wire's instants don't carry.
    fn read_timestamp(&mut self, schema: &Schema<'_>) -> Result<DateTime, SerdeError>
        ensures same { settings self.new ≡ settings self.old }
        ensures read { ReadsScalar (reading (settings self.old)) (state self.old) (state self.new) (site_of schema.now) scalars.Timestamp instant result }
        ensures uncarried { AnswersUncarried (reading (settings self.old)).wire (state self.old) (site_of schema.now) scalars.Timestamp result };

    /// Reads a document, in which each value counts as depth, scalars too. `NotCarried` comes only where a number stands in it
    /// that a document doesn't carry, or where the wire carries no documents.
    fn read_document(&mut self, schema: &Schema<'_>) -> Result<Document, SerdeError>
        ensures same { settings self.new ≡ settings self.old }
        ensures read { ReadsDocument (reading (settings self.old)) (state self.old) (state self.new) (site_of schema.now) result };

    /// Reads the structure or the union that is due: the consumer is called for each entry, in order. Where it takes no nulls of members,
    /// they are dropped for the time of the call, even if the codec was asked for them.
    final fn read_struct<C: StructConsumer>(
        &mut self,
        schema: &Schema<'_>,
        consumer: &mut C,
    ) -> Result<(), SerdeError>
    where
        Self: Sized,
        requires place { HasMembers (kind_at (site_of schema.now)) }
        requires allowed { C.can_take consumer.old (site_of schema.now) }
        ensures same { settings self.new ≡ settings self.old }
        ensures reads { let r = reading (settings_for with_nulls C.takes_nulls (settings self.old)) in ReadsEntries r (site_of schema.now) in_structure (by_member r (site_of schema.now)) (C.call r) consumer.old (state self.old) result consumer.new (state self.new) }
        ensures allowed { OnOk result (C.can_take consumer.new (site_of schema.now)) }
    {
        if consumer.takes_nulls() {
            return each_member(self, schema, consumer);
        }
        let dispatched = self.dispatch_null_members(false);
        let result = each_member(self, schema, consumer);
        self.dispatch_null_members(dispatched);
        result
    }

    /// Reads the list that is due: the consumer is called for each element, in order. Nulls of members inside of it come to the consumer
    /// as by `read_struct`.
    final fn read_list<C: ListConsumer>(
        &mut self,
        schema: &Schema<'_>,
        consumer: &mut C,
    ) -> Result<(), SerdeError>
    where
        Self: Sized,
        requires place { IsList (kind_at (site_of schema.now)) }
        ensures same { settings self.new ≡ settings self.old }
        ensures reads { let r = reading (settings_for with_nulls C.takes_nulls (settings self.old)) in ReadsEntries r (site_of schema.now) in_list (by_element r (site_of schema.now)) (λ element. C.call r) consumer.old (state self.old) result consumer.new (state self.new) }
    {
        if consumer.takes_nulls() {
            return each_element(self, schema, consumer);
        }
        let dispatched = self.dispatch_null_members(false);
        let result = each_element(self, schema, consumer);
        self.dispatch_null_members(dispatched);
        result
    }

    /// Reads the map that is due: the consumer is called for each entry, in order. Nulls of members inside of it come to the consumer as
    /// by `read_struct`.
    final fn read_map<C: MapConsumer>(
        &mut self,
        schema: &Schema<'_>,
        consumer: &mut C,
    ) -> Result<(), SerdeError>
    where
        Self: Sized,
        requires place { IsMap (kind_at (site_of schema.now)) }
        ensures same { settings self.new ≡ settings self.old }
        ensures reads { let r = reading (settings_for with_nulls C.takes_nulls (settings self.old)) in ReadsEntries r (site_of schema.now) in_map (by_key r (site_of schema.now)) (C.call r) consumer.old (state self.old) result consumer.new (state self.new) }
    {
        if consumer.takes_nulls() {
            return each_entry(self, schema, consumer);
        }
        let dispatched = self.dispatch_null_members(false);
        let result = each_entry(self, schema, consumer);
        self.dispatch_null_members(dispatched);
        result
    }

    /// Reads a list of texts, as `read_list` with `read_string` for each element.
    final fn read_string_list(&mut self, schema: &Schema<'_>) -> Result<Vec<String>, SerdeError>
    where
        Self: Sized,
        requires place { IsList (kind_at (site_of schema.now)) }
        ensures same { settings self.new ≡ settings self.old }
        ensures read { ReadsList scalars.String (λ s. text (string_bytes s)) (reading (settings self.old)) (site_of schema.now) (state self.old) (items_of result) (state self.new) }
    {
        read_elements(self, schema)
    }

    /// Reads a list of bytes, as `read_list` with `read_blob` for each element.
    final fn read_blob_list(&mut self, schema: &Schema<'_>) -> Result<Vec<Blob>, SerdeError>
    where
        Self: Sized,
        requires place { IsList (kind_at (site_of schema.now)) }
        ensures same { settings self.new ≡ settings self.old }
        ensures read { ReadsList scalars.Blob bytes (reading (settings self.old)) (site_of schema.now) (state self.old) (items_of result) (state self.new) }
    {
        read_elements(self, schema)
    }

    /// Reads a list of whole numbers, as `read_list` with `read_integer` for each element.
    final fn read_integer_list(&mut self, schema: &Schema<'_>) -> Result<Vec<i32>, SerdeError>
    where
        Self: Sized,
        requires place { IsList (kind_at (site_of schema.now)) }
        ensures same { settings self.new ≡ settings self.old }
        ensures read { ReadsList scalars.Integer whole (reading (settings self.old)) (site_of schema.now) (state self.old) (items_of result) (state self.new) }
    {
        read_elements(self, schema)
    }

    /// Reads a list of whole numbers, as `read_list` with `read_long` for each element.
    final fn read_long_list(&mut self, schema: &Schema<'_>) -> Result<Vec<i64>, SerdeError>
    where
        Self: Sized,
        requires place { IsList (kind_at (site_of schema.now)) }
        ensures same { settings self.new ≡ settings self.old }
        ensures read { ReadsList scalars.Long whole (reading (settings self.old)) (site_of schema.now) (state self.old) (items_of result) (state self.new) }
    {
        read_elements(self, schema)
    }

    /// Reads a map of texts, as `read_map` with `read_string` for each entry. Of equal keys the last counts.
    final fn read_string_string_map(
        &mut self,
        schema: &Schema<'_>,
    ) -> Result<BTreeMap<String, String>, SerdeError>
    where
        Self: Sized,
        requires place { IsMap (kind_at (site_of schema.now)) }
        ensures same { settings self.new ≡ settings self.old }
        ensures read { ReadsTexts (reading (settings self.old)) (site_of schema.now) (state self.old) (entries_of result) (state self.new) }
    {
        read_texts(self, schema)
    }

    // Settings hold what was set last of nulls, and nothing is lost by setting it.
    ghost sets: { (c : Settings) (value : Bool) → dispatches_nulls (with_nulls value c) ≡ value };

    ghost sets_back: { (c : Settings) (value : Bool) → with_nulls (dispatches_nulls c) (with_nulls value c) ≡ c };

    ghost stays_set: { (c : Settings) (value : Bool) → dispatches_nulls c ≡ value → with_nulls value c ≡ c };

    // A null that isn't to be handed on comes to nobody.
    ghost drops_nulls: { (c : Settings) → DropsNulls (reading (with_nulls false c)).wire };

    // Each wire obeys the laws of reading, with its limits and with them lifted.
    ghost lawful: { (c : Settings) → IsLawful (reading c).wire };

    ghost lifted_lawful: { (c : Settings) → IsLawful (reading c).lifted };

    // What stands within the limits is a value of its place.
    ghost fit: { (c : Settings) → StandsFit (reading c).wire };

    ghost counts: { (c : Settings) → (reading c).tells_without_limits → CountsOpeners (reading c).wire };

    ghost above: { (c : Settings) → IsBelow (reading c).wire (reading c).lifted };
}
