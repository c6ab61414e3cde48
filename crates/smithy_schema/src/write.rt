//! Writing a value as a schema directs.
ghost use Rattle.std.specs.Prelude.{◌++◌, ◌≡◌, ◌≢◌, ◌↔◌, ℕ, List, [], Option, Bool, true, IfOk, IfErr, OnOk, IsErrOf, Result, Ok, Err};
ghost use Rattle.smithy_types.specs.Document.{whole_document};
ghost use Rattle.smithy_types.specs.DocumentView.{document_view};
ghost use Rattle.smithy_schema.specs.declared.error.SerdeError.{SerdeError};
ghost use Rattle.smithy_schema.specs.declared.error.SerdeError.TheVariants.{Failed, NoMemory, Unwritable};
ghost use Rattle.smithy_declarations.specs.Table.{IsList};
ghost use Rattle.smithy_shapes.specs.Site.{site_of, kind_at};
ghost use Rattle.smithy_declarations.specs.Value.{boolean, whole, text, bytes, decimal, instant};
ghost use Rattle.smithy_schema.specs.Errors.{IsFault};
ghost use Rattle.smithy_schema.specs.Writing.{Event, Writer, Open, IsNested, Makes, WritesEvent, begin_structure, end_structure, begin_list as list_begins, end_list as list_ends, begin_map as map_begins, end_map as map_ends, null_of, scalar_of, big_integer_of, big_decimal_of, document_of};
ghost use Rattle.smithy_schema.specs.Writing.{write, after_value, open_list, open_map_at_key};
ghost use Rattle.smithy_schema.specs.Written.{WritesContainer, list_of_wholes};

use crate::error::SerdeError;
use crate::written::{SerializableStruct, WriteElements};
use smithy_shapes::Schema;
use smithy_types::{BigDecimal, BigInteger, Blob, DateTime, Document};

/// A writer of one output, which is told of a value call by call, each with the schema of its place.
///
/// It has a stack of open containers. After an answered error a serializer has failed, and answers
/// `Failed` from then on.
pub trait ShapeSerializer {
    // What the calls depend on: the bytes so far, the open containers, the settings.
    ghost State: { Type 0 };

    ghost state: { Self → State };

    ghost failed: { Self → Bool };

    // The bytes so far.
    ghost out: { State → List ℕ };

    // The open containers, innermost first.
    ghost open_in: { State → List Open };

    // What a call makes of a state, or why it can't be written there.
    ghost after: { Writer State };

    /// Makes the serializer fail.
    fn fail(&mut self)
        ensures { failed self.new ≡ true };

    /// Begins a structure or a union.
    fn begin_struct(&mut self, schema: &Schema<'_>) -> Result<(), SerdeError>
        ensures { WritesEvent after (begin_structure (site_of schema.now)) (state self.old) (failed self.old) (state self.new) (failed self.new) result };

    /// Ends the structure or the union that is open.
    fn end_struct(&mut self) -> Result<(), SerdeError>
        ensures { WritesEvent after end_structure (state self.old) (failed self.old) (state self.new) (failed self.new) result };

    /// Begins a list, of a number of elements where that is told.
    fn begin_list(&mut self, schema: &Schema<'_>, length: Option<usize>) -> Result<(), SerdeError>
        ensures { WritesEvent after (list_begins (site_of schema.now) length) (state self.old) (failed self.old) (state self.new) (failed self.new) result };

    /// Ends the list that is open.
    fn end_list(&mut self) -> Result<(), SerdeError>
        ensures { WritesEvent after list_ends (state self.old) (failed self.old) (state self.new) (failed self.new) result };

    /// Begins a map, of a number of entries where that is told.
    fn begin_map(&mut self, schema: &Schema<'_>, length: Option<usize>) -> Result<(), SerdeError>
        ensures { WritesEvent after (map_begins (site_of schema.now) length) (state self.old) (failed self.old) (state self.new) (failed self.new) result };

    /// Ends the map that is open. Where the value of a key hasn't come it is `Unwritable`.
    fn end_map(&mut self) -> Result<(), SerdeError>
        ensures { WritesEvent after map_ends (state self.old) (failed self.old) (state self.new) (failed self.new) result };

    /// Writes a null element, or a null value of a map.
    fn write_null(&mut self, schema: &Schema<'_>) -> Result<(), SerdeError>
        ensures { WritesEvent after (null_of (site_of schema.now)) (state self.old) (failed self.old) (state self.new) (failed self.new) result };

    /// Writes false or true.
    fn write_boolean(&mut self, schema: &Schema<'_>, value: bool) -> Result<(), SerdeError>
        ensures { WritesEvent after (scalar_of (site_of schema.now) (boolean value)) (state self.old) (failed self.old) (state self.new) (failed self.new) result };

    /// Writes a whole number from -2^7 to 2^7-1.
    fn write_byte(&mut self, schema: &Schema<'_>, value: i8) -> Result<(), SerdeError>
        ensures { WritesEvent after (scalar_of (site_of schema.now) (whole value)) (state self.old) (failed self.old) (state self.new) (failed self.new) result };

    /// Writes a whole number from -2^15 to 2^15-1.
    fn write_short(&mut self, schema: &Schema<'_>, value: i16) -> Result<(), SerdeError>
        ensures { WritesEvent after (scalar_of (site_of schema.now) (whole value)) (state self.old) (failed self.old) (state self.new) (failed self.new) result };

    /// Writes a whole number from -2^31 to 2^31-1.
    fn write_integer(&mut self, schema: &Schema<'_>, value: i32) -> Result<(), SerdeError>
        ensures { WritesEvent after (scalar_of (site_of schema.now) (whole value)) (state self.old) (failed self.old) (state self.new) (failed self.new) result };

    /// Writes a whole number from -2^63 to 2^63-1.
    fn write_long(&mut self, schema: &Schema<'_>, value: i64) -> Result<(), SerdeError>
        ensures { WritesEvent after (scalar_of (site_of schema.now) (whole value)) (state self.old) (failed self.old) (state self.new) (failed self.new) result };

    /// Writes a text: in a map a key, and where its values are strings in turn a key and a value. In a key's place
    /// nothing else can be written.
    fn write_string(&mut self, schema: &Schema<'_>, value: &str) -> Result<(), SerdeError>
        ensures { WritesEvent after (scalar_of (site_of schema.now) (text value.now)) (state self.old) (failed self.old) (state self.new) (failed self.new) result };

    /// Writes bytes, which need not stand in a blob.
    fn write_bytes(&mut self, schema: &Schema<'_>, value: &[u8]) -> Result<(), SerdeError>
        ensures { WritesEvent after (scalar_of (site_of schema.now) (bytes value.now)) (state self.old) (failed self.old) (state self.new) (failed self.new) result };

    /// Writes the bytes of a blob.
    fn write_blob(&mut self, schema: &Schema<'_>, value: &Blob) -> Result<(), SerdeError>
        ensures { WritesEvent after (scalar_of (site_of schema.now) (bytes value.now)) (state self.old) (failed self.old) (state self.new) (failed self.new) result }
    {
        self.write_bytes(schema, value.as_ref())
    }

    /// Writes a whole number of 128 bits, which need not stand in a text.
    fn write_i128(&mut self, schema: &Schema<'_>, value: i128) -> Result<(), SerdeError>
        ensures { WritesEvent after (scalar_of (site_of schema.now) (whole value)) (state self.old) (failed self.old) (state self.new) (failed self.new) result };

    /// Writes the decimal number of a mantissa and a power of ten, which need not stand in a text.
    fn write_decimal(
        &mut self,
        schema: &Schema<'_>,
        mantissa: i128,
        exponent: i64,
    ) -> Result<(), SerdeError>
        ensures { WritesEvent after (scalar_of (site_of schema.now) (decimal mantissa exponent)) (state self.old) (failed self.old) (state self.new) (failed self.new) result };

    /// Writes a whole number of any size, by the text that it keeps: `Unwritable` where the wire can't carry this text, and
    /// `TooWide` where the number leaves what the wire can write.
    fn write_big_integer(
        &mut self,
        schema: &Schema<'_>,
        value: &BigInteger,
    ) -> Result<(), SerdeError>
        ensures { WritesEvent after (big_integer_of (site_of schema.now) value.now) (state self.old) (failed self.old) (state self.new) (failed self.new) result };

    /// Writes a decimal number of any size, by the text that it keeps: `Unwritable` where the wire can't carry this text, and
    /// `TooWide` where the number leaves what the wire can write.
    fn write_big_decimal(
        &mut self,
        schema: &Schema<'_>,
        value: &BigDecimal,
    ) -> Result<(), SerdeError>
        ensures { WritesEvent after (big_decimal_of (site_of schema.now) value.now) (state self.old) (failed self.old) (state self.new) (failed self.new) result };

    /// Writes an instant, in the form of its place where the wire has forms: `Unwritable` where the wire can't write it there.
    fn write_timestamp(&mut self, schema: &Schema<'_>, value: &DateTime) -> Result<(), SerdeError>
        ensures { WritesEvent after (scalar_of (site_of schema.now) (instant value.now)) (state self.old) (failed self.old) (state self.new) (failed self.new) result };

    /// Writes a document: `Unsupported` where the wire writes none.
    fn write_document(&mut self, schema: &Schema<'_>, value: &Document) -> Result<(), SerdeError>
        ensures { WritesEvent after (document_of (site_of schema.now) (whole_document (document_view value.now))) (state self.old) (failed self.old) (state self.new) (failed self.new) result };

    /// Writes a structure or a union: it begins, its members are written by one call, and it ends.
    final fn write_struct<V: SerializableStruct>(
        &mut self,
        schema: &Schema<'_>,
        value: &V,
    ) -> Result<(), SerdeError>
    where
        Self: Sized,
        ensures { WritesContainer after open_in (begin_structure (site_of schema.now)) end_structure (V.adds State after value.now) (state self.old) (failed self.old) (state self.new) (failed self.new) result }
    {
        self.begin_struct(schema)?;
        if let Err(error) = value.serialize_members(self) {
            self.fail();
            return Err(error);
        }
        self.end_struct()
    }

    /// Writes a list of no told length: it begins, its elements are written by one call, and it ends.
    final fn write_list<V: WriteElements>(
        &mut self,
        schema: &Schema<'_>,
        elements: &V,
    ) -> Result<(), SerdeError>
    where
        Self: Sized,
        requires { V.can_stand elements.now open_list }
        ensures { WritesContainer after open_in (list_begins (site_of schema.now) None) list_ends (V.adds State after elements.now) (state self.old) (failed self.old) (state self.new) (failed self.new) result }
    {
        self.begin_list(schema, None)?;
        if let Err(error) = elements.write(self) {
            self.fail();
            return Err(error);
        }
        self.end_list()
    }

    /// Writes a list of a told length.
    final fn write_list_with_length<V: WriteElements>(
        &mut self,
        schema: &Schema<'_>,
        length: usize,
        elements: &V,
    ) -> Result<(), SerdeError>
    where
        Self: Sized,
        requires { V.can_stand elements.now open_list }
        ensures { WritesContainer after open_in (list_begins (site_of schema.now) (Some length)) list_ends (V.adds State after elements.now) (state self.old) (failed self.old) (state self.new) (failed self.new) result }
    {
        self.begin_list(schema, Some(length))?;
        if let Err(error) = elements.write(self) {
            self.fail();
            return Err(error);
        }
        self.end_list()
    }

    /// Writes a map of no told length: it begins, its entries are written by one call, and it ends.
    final fn write_map<V: WriteElements>(
        &mut self,
        schema: &Schema<'_>,
        entries: &V,
    ) -> Result<(), SerdeError>
    where
        Self: Sized,
        requires { V.can_stand entries.now open_map_at_key }
        ensures { WritesContainer after open_in (map_begins (site_of schema.now) None) map_ends (V.adds State after entries.now) (state self.old) (failed self.old) (state self.new) (failed self.new) result }
    {
        self.begin_map(schema, None)?;
        if let Err(error) = entries.write(self) {
            self.fail();
            return Err(error);
        }
        self.end_map()
    }

    /// Writes a map of a told length.
    final fn write_map_with_length<V: WriteElements>(
        &mut self,
        schema: &Schema<'_>,
        length: usize,
        entries: &V,
    ) -> Result<(), SerdeError>
    where
        Self: Sized,
        requires { V.can_stand entries.now open_map_at_key }
        ensures { WritesContainer after open_in (map_begins (site_of schema.now) (Some length)) map_ends (V.adds State after entries.now) (state self.old) (failed self.old) (state self.new) (failed self.new) result }
    {
        self.begin_map(schema, Some(length))?;
        if let Err(error) = entries.write(self) {
            self.fail();
            return Err(error);
        }
        self.end_map()
    }

    /// Writes a list of whole numbers: it begins with its length, each number is written by `write_integer`, and it ends.
    final fn write_integer_list(
        &mut self,
        schema: &Schema<'_>,
        values: &[i32],
    ) -> Result<(), SerdeError>
    where
        Self: Sized,
        requires place { IsList (kind_at (site_of schema.now)) }
        ensures writes { Makes (write after (site_of schema.now) (list_of_wholes values.now) (state self.old)) (failed self.old) (state self.new) (failed self.new) result }
        ensures nests { OnOk result (after_value (open_in (state self.old)) ≡ Ok (open_in (state self.new))) }
    {
        let Some(member) = schema.member() else {
            unreachable!()
        };
        let element = member.nameless();
        self.begin_list(schema, Some(values.len()))?;
        for value in values {
            self.write_integer(&element, *value)?;
        }
        self.end_list()
    }

    /// Writes a list of whole numbers: it begins with its length, each number is written as by `write_long`, and it ends.
    fn write_long_list(&mut self, schema: &Schema<'_>, values: &[i64]) -> Result<(), SerdeError>
        requires place { IsList (kind_at (site_of schema.now)) }
        ensures { Makes (write after (site_of schema.now) (list_of_wholes values.now) (state self.old)) (failed self.old) (state self.new) (failed self.new) result }
    {
        let Some(member) = schema.member() else {
            unreachable!()
        };
        let element = member.nameless();
        self.begin_list(schema, Some(values.len()))?;
        for value in values {
            self.write_long(&element, *value)?;
        }
        self.end_list()
    }

    // No call takes back a byte.
    ghost grows: { (e : Event) (s t : State) → after e s ≡ Ok t → (more : List ℕ) × (out t ≡ out s ++ more) };

    // Calls nest, and in a map a key and its value come in turn.
    ghost nested: { IsNested after open_in };
}

/// A serializer that hands out what it wrote.
pub trait FinishSerializer: ShapeSerializer {
    /// The bytes, where no container is open; `Unwritable` where one is. It takes no memory.
    fn finish(self) -> Result<Vec<u8>, SerdeError>
        ensures failed { IsErrOf result Failed ↔ (Self.failed self ≡ true) }
        ensures ok { IfOk result (λ v. (v.items ≡ Self.out (Self.state self)) × (Self.open_in (Self.state self) ≡ [])) }
        ensures refused { IfErr result (λ e. IsFault e → (e ≡ Unwritable) × (Self.open_in (Self.state self) ≢ [])) }
        ensures memory { IsErrOf result NoMemory → ⊥ };
}
