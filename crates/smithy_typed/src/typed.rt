//! A type whose values are read and written at some places of a table.
ghost use Rattle.std.specs.Prelude.{◌≡◌, ◌↔◌, true, false, IsTrue, IfSome, IfNone};
ghost use Rattle.smithy_declarations.specs.Value.{Value};
ghost use Rattle.smithy_shapes.specs.Declares.{IsDeclaredAs};
ghost use Rattle.smithy_shapes.specs.Site.{Site, site_of};
ghost use Rattle.smithy_schema.specs.Typed.{ReadsAs, WritesAs};
ghost use Rattle.smithy_schema.specs.Writing.{events};

use smithy_schema::{Schema, SerdeError, ShapeDeserializer, ShapeSerializer, Shapes};

/// A type of a client's own, or of a part of one.
pub trait Typed {
    // The value that it is in a body.
    ghost value: { Self → Value };

    // The places of a table where such values are.
    ghost place: { Site → Type 0 };

    /// Whether the place is one of such values.
    fn is_at(schema: &Schema<'_>) -> bool
        ensures { IsTrue result ↔ place (site_of schema.now) };

    /// Reads the value that is due. The reader drops the nulls of members.
    fn read_from<D: ShapeDeserializer>(
        source: &mut D,
        schema: &Schema<'_>,
    ) -> Result<Self, SerdeError>
    where
        Self: Sized,
        requires due { (D.state source.old).due ≡ true }
        requires nulls { D.dispatches_nulls (D.settings source.old) ≡ false }
        requires there { place (site_of schema.now) }
        ensures same { D.settings source.new ≡ D.settings source.old }
        ensures reads { ReadsAs (D.reading (D.settings source.old)).wire (D.state source.old) (D.state source.new) (site_of schema.now) value result };

    /// Writes the value.
    fn write_to<S: ShapeSerializer>(
        &self,
        sink: &mut S,
        schema: &Schema<'_>,
    ) -> Result<(), SerdeError>
        requires sound { S.failed sink.old ≡ false }
        ensures writes { WritesAs S.after (events (site_of schema.now) (value self.now)) (S.state sink.old) (S.failed sink.new) (S.state sink.new) result };

    /// The schema of the declaration of a name, if it is a place of such values. Values are read and written under this schema.
    final fn accept<'a>(shapes: &'a Shapes, name: &str) -> Option<Schema<'a>>
    where
        Self: Sized,
        ensures accepted { IfSome result (λ schema. IsDeclaredAs shapes.now name.now (site_of schema) × place (site_of schema)) }
        ensures none { IfNone result ((site : Site) → IsDeclaredAs shapes.now name.now site → place site → ⊥) }
    {
        let schema = shapes.schema(shapes.find(name)?);
        if !Self::is_at(&schema) {
            return None;
        }
        Some(schema)
    }
}
