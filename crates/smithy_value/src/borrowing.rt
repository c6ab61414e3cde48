//! A reader whose texts borrow, as one that names no lifetime in its bound.
use smithy_schema::{
    BorrowDeserializer, PieceDeserializer, Schema, SerdeError, ShapeDeserializer, Step,
};
use smithy_types::{BigDecimal, BigInteger, Blob, DateTime, Document};
use std::alloc::{AllocError, Global};
use std::borrow::{CowSlice, CowStr};

/// A reader of an input that lives for `'a`.
#[derive(Drop)]
pub(crate) struct Borrowing<'s, 'a, D> {
    pub source: &'s mut D,
    // Nothing: it only names the lifetime of the input. With a `PhantomData` callers would lose what stands behind `source`.
    nothing: &'a [u8],
}

impl<'s, 'a, D> Borrowing<'s, 'a, D> {
    ghost use Rattle.std.specs.Prelude.{◌≡◌};

    /// The reader behind the reference.
    pub fn new(source: &'s mut D) -> Borrowing<'s, 'a, D>
        ensures same_reference { result.source.ghost_name ≡ source.entry.ghost_name }
        ensures same { result.source.now ≡ source.old }
    {
        Borrowing {
            source,
            nothing: &[],
        }
    }
}

impl<D: ShapeDeserializer> ShapeDeserializer for Borrowing<'_, '_, D> {
    ghost use Rattle.std.specs.Prelude.{ℕ};
    ghost use Rattle.std.proofs.Common.{ap};

    // The name tells a caller that the reference is still the one that it passed.
    ghost Settings = { D.Settings × ℕ };

    ghost settings = { λ r. (D.settings r.source.now, r.source.ghost_name) };

    ghost state = { λ r. D.state r.source.now };

    ghost reading = { λ c. D.reading c.0 };

    ghost sizes = { λ c. D.sizes c.0 };

    ghost dispatches_nulls = { λ c. D.dispatches_nulls c.0 };

    ghost with_nulls = { λ value c. (D.with_nulls value c.0, c.1) };

    ghost sets = { λ c. D.sets c.0 };

    ghost sets_back = { λ c value. ap (λ (s : D.Settings). (s, c.1)) (D.sets_back c.0 value) };

    ghost stays_set = { λ c value is. ap (λ (s : D.Settings). (s, c.1)) (D.stays_set c.0 value is) };

    ghost drops_nulls = { λ c. D.drops_nulls c.0 };

    ghost lawful = { λ c. D.lawful c.0 };

    ghost lifted_lawful = { λ c. D.lifted_lawful c.0 };

    ghost fit = { λ c. D.fit c.0 };

    ghost counts = { λ c. D.counts c.0 };

    ghost above = { λ c. D.above c.0 };

    #[inline(always)]
    fn allocator(&self) -> Global {
        self.source.allocator()
    }

    #[inline(always)]
    fn position(&self) -> usize {
        self.source.position()
    }

    #[inline(always)]
    fn fail(&mut self) {
        self.source.fail();
    }

    #[inline(always)]
    fn dispatch_null_members(&mut self, value: bool) -> bool {
        self.source.dispatch_null_members(value)
    }

    #[inline(always)]
    fn open_struct(&mut self, schema: &Schema<'_>) -> Result<(), SerdeError> {
        self.source.open_struct(schema)
    }

    #[inline(always)]
    fn next_member<'m>(&mut self, schema: &Schema<'m>) -> Result<Step<'m>, SerdeError> {
        self.source.next_member(schema)
    }

    #[inline(always)]
    fn open_list(&mut self, schema: &Schema<'_>) -> Result<(), SerdeError> {
        self.source.open_list(schema)
    }

    #[inline(always)]
    fn next_element(&mut self) -> Result<bool, SerdeError> {
        self.source.next_element()
    }

    #[inline(always)]
    fn read_longs(&mut self, schema: &Schema<'_>, room: &mut [i64]) -> usize {
        self.source.read_longs(schema, room)
    }

    #[inline(always)]
    fn open_map(&mut self, schema: &Schema<'_>) -> Result<(), SerdeError> {
        self.source.open_map(schema)
    }

    #[inline(always)]
    fn next_key(&mut self) -> Result<Option<String>, SerdeError> {
        self.source.next_key()
    }

    #[inline(always)]
    fn is_null(&self) -> bool {
        self.source.is_null()
    }

    #[inline(always)]
    fn read_null(&mut self) -> Result<(), SerdeError> {
        self.source.read_null()
    }

    #[inline(always)]
    fn skip_value(&mut self) -> Result<(), SerdeError> {
        self.source.skip_value()
    }

    #[inline(always)]
    fn container_size(&self) -> Result<Option<usize>, AllocError> {
        self.source.container_size()
    }

    #[inline(always)]
    fn read_boolean(&mut self, schema: &Schema<'_>) -> Result<bool, SerdeError> {
        self.source.read_boolean(schema)
    }

    #[inline(always)]
    fn read_byte(&mut self, schema: &Schema<'_>) -> Result<i8, SerdeError> {
        self.source.read_byte(schema)
    }

    #[inline(always)]
    fn read_short(&mut self, schema: &Schema<'_>) -> Result<i16, SerdeError> {
        self.source.read_short(schema)
    }

    #[inline(always)]
    fn read_integer(&mut self, schema: &Schema<'_>) -> Result<i32, SerdeError> {
        self.source.read_integer(schema)
    }

    #[inline(always)]
    fn read_long(&mut self, schema: &Schema<'_>) -> Result<i64, SerdeError> {
        self.source.read_long(schema)
    }

    #[inline(always)]
    fn read_string(&mut self, schema: &Schema<'_>) -> Result<String, SerdeError> {
        self.source.read_string(schema)
    }

    #[inline(always)]
    fn read_blob(&mut self, schema: &Schema<'_>) -> Result<Blob, SerdeError> {
        self.source.read_blob(schema)
    }

    #[inline(always)]
    fn read_big_integer(&mut self, schema: &Schema<'_>) -> Result<BigInteger, SerdeError> {
        self.source.read_big_integer(schema)
    }

    #[inline(always)]
    fn read_big_decimal(&mut self, schema: &Schema<'_>) -> Result<BigDecimal, SerdeError> {
        self.source.read_big_decimal(schema)
    }

    #[inline(always)]
    fn read_timestamp(&mut self, schema: &Schema<'_>) -> Result<DateTime, SerdeError> {
        self.source.read_timestamp(schema)
    }

    #[inline(always)]
    fn read_document(&mut self, schema: &Schema<'_>) -> Result<Document, SerdeError> {
        self.source.read_document(schema)
    }
}

impl<'a, D: BorrowDeserializer<'a>> PieceDeserializer for Borrowing<'_, 'a, D> {
    type Text = CowStr<'a, Global>;

    type Bytes = CowSlice<'a, u8, Global>;

    #[inline(always)]
    fn take_text(&mut self, schema: &Schema<'_>) -> Result<CowStr<'a, Global>, SerdeError> {
        self.source.read_text(schema)
    }

    #[inline(always)]
    fn take_bytes(&mut self, schema: &Schema<'_>) -> Result<CowSlice<'a, u8, Global>, SerdeError> {
        self.source.read_bytes(schema)
    }

    #[inline(always)]
    fn take_key(&mut self) -> Result<Option<CowStr<'a, Global>>, SerdeError> {
        match self.source.next_key()? {
            Some(key) => Ok(Some(CowStr::Owned(key))),
            None => Ok(None),
        }
    }
}
