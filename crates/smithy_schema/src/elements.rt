//! Lists of scalars that are read in one call.
ghost use Rattle.std.specs.Prelude.{◌≡◌, [], true, false, IfOk, IsErr, string_bytes};
ghost use Rattle.smithy_declarations.specs.declared.shape_type.Scalar.{Scalar};
ghost use Rattle.smithy_declarations.specs.declared.shape_type.Scalar.TheVariants as scalars;
ghost use Rattle.smithy_declarations.specs.Table.{IsList};
ghost use Rattle.smithy_declarations.specs.Value.{ScalarValue, boolean, text, bytes, whole, instant};
ghost use Rattle.smithy_shapes.specs.Site.{site_of, kind_at};
ghost use Rattle.smithy_schema.specs.Reading.{ReadsScalar};
ghost use Rattle.smithy_schema.specs.Elements.{ReadsElement, ReadsList, items_of};

use crate::consume::ListConsumer;
use crate::error::SerdeError;
use crate::read::ShapeDeserializer;
use crate::sizes::capped_container_size;
use smithy_shapes::Schema;
use smithy_types::{Blob, DateTime};
use std::alloc::AllocError;

/// A scalar that a reader gives by one call.
pub trait ReadScalar {
    ghost kind: { Scalar };

    ghost scalar: { Self → ScalarValue };

    /// Reads the scalar that is due.
    fn read_from<D: ShapeDeserializer>(
        source: &mut D,
        schema: &Schema<'_>,
    ) -> Result<Self, SerdeError>
    where
        Self: Sized,
        ensures same { D.settings source.new ≡ D.settings source.old }
        ensures read { ReadsScalar (D.reading (D.settings source.old)) (D.state source.old) (D.state source.new) (site_of schema.now) kind scalar result };
}

impl ReadScalar for String {
    ghost kind = { scalars.String };

    ghost scalar = { λ s. text (string_bytes s) };

    fn read_from<D: ShapeDeserializer>(
        source: &mut D,
        schema: &Schema<'_>,
    ) -> Result<String, SerdeError> {
        source.read_string(schema)
    }
}

impl ReadScalar for Blob {
    ghost kind = { scalars.Blob };

    ghost scalar = { bytes };

    fn read_from<D: ShapeDeserializer>(
        source: &mut D,
        schema: &Schema<'_>,
    ) -> Result<Blob, SerdeError> {
        source.read_blob(schema)
    }
}

impl ReadScalar for bool {
    ghost kind = { scalars.Boolean };

    ghost scalar = { boolean };

    fn read_from<D: ShapeDeserializer>(
        source: &mut D,
        schema: &Schema<'_>,
    ) -> Result<bool, SerdeError> {
        source.read_boolean(schema)
    }
}

impl ReadScalar for i8 {
    ghost kind = { scalars.Byte };

    ghost scalar = { whole };

    fn read_from<D: ShapeDeserializer>(
        source: &mut D,
        schema: &Schema<'_>,
    ) -> Result<i8, SerdeError> {
        source.read_byte(schema)
    }
}

impl ReadScalar for i16 {
    ghost kind = { scalars.Short };

    ghost scalar = { whole };

    fn read_from<D: ShapeDeserializer>(
        source: &mut D,
        schema: &Schema<'_>,
    ) -> Result<i16, SerdeError> {
        source.read_short(schema)
    }
}

impl ReadScalar for i32 {
    ghost kind = { scalars.Integer };

    ghost scalar = { whole };

    fn read_from<D: ShapeDeserializer>(
        source: &mut D,
        schema: &Schema<'_>,
    ) -> Result<i32, SerdeError> {
        source.read_integer(schema)
    }
}

impl ReadScalar for i64 {
    ghost kind = { scalars.Long };

    ghost scalar = { whole };

    fn read_from<D: ShapeDeserializer>(
        source: &mut D,
        schema: &Schema<'_>,
    ) -> Result<i64, SerdeError> {
        source.read_long(schema)
    }
}

impl ReadScalar for DateTime {
    ghost kind = { scalars.Timestamp };

    ghost scalar = { instant };

    fn read_from<D: ShapeDeserializer>(
        source: &mut D,
        schema: &Schema<'_>,
    ) -> Result<DateTime, SerdeError> {
        source.read_timestamp(schema)
    }
}

/// Takes the elements of a list, each a scalar of one kind, in order.
#[derive(Drop)]
pub struct Elements<'s, T> {
    /// What each is read by.
    pub element: Schema<'s>,
    /// Those so far.
    pub items: Vec<T>,
}

impl<'s, T: ReadScalar + Drop> ListConsumer for Elements<'s, T> {
    ghost call = { λ r e c result f d. ReadsElement T.kind T.scalar r (site_of e.element) e.items.items c result f.items.items d × (site_of f.element ≡ site_of e.element) };

    fn takes_nulls(&self) -> bool {
        true
    }

    fn element<D: ShapeDeserializer>(&mut self, source: &mut D) -> Result<(), SerdeError> {
        let value = T::read_from(source, &self.element)?;
        self.items.push(value)?;
        Ok(())
    }
}

// Room for as many elements as the reader tells, where it tells a number.
fn room_for<T, D: ShapeDeserializer>(source: &D) -> Result<Vec<T>, AllocError>
    ensures empty { IfOk result (λ items. items.items ≡ []) }
    ensures due { IsErr result → (D.state source.now).due ≡ true }
    ensures sound { IsErr result → (D.state source.now).failed ≡ false }
{
    match source.container_size()? {
        Some(size) => Vec::with_capacity(source.allocator(), capped_container_size(size)),
        None => Ok(Vec::new(source.allocator())),
    }
}

// Reads the list that is due, each element as a scalar of one kind.
pub(crate) fn read_elements<T: ReadScalar + Drop, D: ShapeDeserializer>(
    source: &mut D,
    schema: &Schema<'_>,
) -> Result<Vec<T>, SerdeError>
    requires place { IsList (kind_at (site_of schema.now)) }
    ensures same { D.settings source.new ≡ D.settings source.old }
    ensures read { ReadsList T.kind T.scalar (D.reading (D.settings source.old)) (site_of schema.now) (D.state source.old) (items_of result) (D.state source.new) }
{
    let Some(element) = schema.member() else {
        unreachable!()
    };
    let items = match room_for(source) {
        Ok(items) => items,
        Err(error) => {
            source.fail();
            return Err(SerdeError::from(error));
        }
    };
    let mut elements = Elements { element, items };
    source.read_list(schema, &mut elements)?;
    Ok(elements.items)
}
