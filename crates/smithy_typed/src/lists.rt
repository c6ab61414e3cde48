//! Lists.
ghost use Rattle.std.specs.Prelude.{◌≡◌, ◌↔◌, true, false, IsTrue, map};
ghost use Rattle.smithy_declarations.specs.Value.{list, values_of};
ghost use Rattle.smithy_shapes.specs.Site.{site_of, element_of};
ghost use Rattle.smithy_schema.specs.Typed.{ReadsAs, WritesAs};
ghost use Rattle.smithy_schema.specs.Writing.{events};
ghost use Rattle.smithy_typed.specs.Places.{IsListOf};
ghost use Rattle.smithy_typed.specs.Values.{list_with};

use crate::typed::Typed;
use smithy_schema::{Schema, SerdeError, ShapeDeserializer, ShapeSerializer, ShapeType};

impl<T: Typed + Drop> Typed for Vec<T> {
    ghost value = { list_with T.value };

    ghost place = { IsListOf T.place };

    fn is_at(schema: &Schema<'_>) -> bool {
        is_list::<T>(schema)
    }

    fn read_from<D: ShapeDeserializer>(
        source: &mut D,
        schema: &Schema<'_>,
    ) -> Result<Vec<T>, SerdeError> {
        read_list(source, schema)
    }

    fn write_to<S: ShapeSerializer>(
        &self,
        sink: &mut S,
        schema: &Schema<'_>,
    ) -> Result<(), SerdeError> {
        write_list(sink, schema, self.as_slice())
    }
}

// Whether a list of such elements is there, none of which may be null.
fn is_list<T: Typed>(schema: &Schema<'_>) -> bool
    ensures { IsTrue result ↔ IsListOf T.place (site_of schema.now) }
{
    if schema.shape_type() != ShapeType::List || schema.is_sparse() {
        return false;
    }
    match schema.member() {
        Some(element) => T::is_at(&element),
        None => false,
    }
}

// Reads the list that is due.
fn read_list<T: Typed + Drop, D: ShapeDeserializer>(
    source: &mut D,
    schema: &Schema<'_>,
) -> Result<Vec<T>, SerdeError>
    requires due { (D.state source.old).due ≡ true }
    requires nulls { D.dispatches_nulls (D.settings source.old) ≡ false }
    requires there { IsListOf T.place (site_of schema.now) }
    ensures same { D.settings source.new ≡ D.settings source.old }
    ensures reads { ReadsAs (D.reading (D.settings source.old)).wire (D.state source.old) (D.state source.new) (site_of schema.now) (list_with T.value) result }
{
    let Some(inner) = schema.member() else {
        unreachable!()
    };
    source.open_list(schema)?;
    let mut values = Vec::new(source.allocator());
    while source.next_element()? {
        let value = T::read_from(source, &inner)?;
        if let Err(error) = values.push(value) {
            source.fail();
            return Err(SerdeError::from(error));
        }
    }
    Ok(values)
}

/// The schema of a list's elements, or if no list is there, the schema itself.
pub fn elements_under<'s>(shape: &Schema<'s>) -> Schema<'s>
    ensures { site_of result ≡ element_of (site_of shape.now) }
{
    match shape.element() {
        Some(element) => element.nameless(),
        None => *shape,
    }
}

// Writes a list.
fn write_list<T: Typed, S: ShapeSerializer>(
    sink: &mut S,
    schema: &Schema<'_>,
    values: &[T],
) -> Result<(), SerdeError>
    requires sound { S.failed sink.old ≡ false }
    ensures writes { WritesAs S.after (events (site_of schema.now) (list (values_of (map T.value values.now)))) (S.state sink.old) (S.failed sink.new) (S.state sink.new) result }
{
    let element_schema = elements_under(schema);
    sink.begin_list(schema, Some(values.len()))?;
    for value in values {
        value.write_to(sink, &element_schema)?;
    }
    sink.end_list()
}
