//! Types of a client's own, and the places of a table where their values stand.
ghost use Rattle.std.specs.Prelude.{◌↔◌, IsTrue, IfSome, IfNone};
ghost use Rattle.smithy_shapes.specs.Declares.{IsDeclaredAs};
ghost use Rattle.smithy_shapes.specs.Site.{Site, site_of};

use smithy_shapes::{Schema, Shapes};

/// A type of a client's own, whose values stand at some places of a table.
pub trait Accept {
    // The places where such a value may be read and written.
    ghost place: { Site → Type 0 };

    /// Whether the place is one of such values.
    fn is_at(schema: &Schema<'_>) -> bool
        ensures { IsTrue result ↔ place (site_of schema.now) };

    /// The schema of the declaration of a name, where such values stand there. A value is then read and written under this schema.
    fn accept<'a>(shapes: &'a Shapes, name: &str) -> Option<Schema<'a>>
        ensures accepted { IfSome result (λ schema. IsDeclaredAs shapes.now name.now (site_of schema) × place (site_of schema)) }
        ensures none { IfNone result ((site : Site) → IsDeclaredAs shapes.now name.now site → place site → ⊥) }
    {
        let schema = shapes.schema(shapes.find(name)?);
        if !Self::is_at(&schema) {
            return None;
        }
        Some(schema)
    }
}
