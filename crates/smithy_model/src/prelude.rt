//! The shapes that each Smithy model may name without declaring them (Smithy 2.0, "Prelude").
ghost use Rattle.std.specs.Prelude.{◌≡◌, ◌++◌, [], codes, map, OnOk};
ghost use Rattle.smithy_model.specs.Model.{structure};
ghost use Rattle.smithy_model.specs.Prelude.{scalar_names, plain, kind_named, scalar_shape, prelude};
ghost use Rattle.smithy_model.specs.Views.{kind_view, shape_view};

use crate::model::{Kind, Shape};
use std::alloc::{AllocError, Global};

// The scalars and documents, by their names in a table; floats, which it has none of, by `float`.
const SCALARS: [(&str, &str); 20] = [
    ("smithy.api#String", "string"),
    ("smithy.api#Blob", "blob"),
    ("smithy.api#Boolean", "boolean"),
    ("smithy.api#PrimitiveBoolean", "boolean"),
    ("smithy.api#Byte", "byte"),
    ("smithy.api#PrimitiveByte", "byte"),
    ("smithy.api#Short", "short"),
    ("smithy.api#PrimitiveShort", "short"),
    ("smithy.api#Integer", "integer"),
    ("smithy.api#PrimitiveInteger", "integer"),
    ("smithy.api#Long", "long"),
    ("smithy.api#PrimitiveLong", "long"),
    ("smithy.api#BigInteger", "bigInteger"),
    ("smithy.api#BigDecimal", "bigDecimal"),
    ("smithy.api#Timestamp", "timestamp"),
    ("smithy.api#Document", "document"),
    ("smithy.api#Float", "float"),
    ("smithy.api#PrimitiveFloat", "float"),
    ("smithy.api#Double", "float"),
    ("smithy.api#PrimitiveDouble", "float"),
];

// A shape without traits.
fn plain<'a>(alloc: Global, id: &'a str, kind: Kind<'a>) -> Shape<'a>
    ensures { shape_view result ≡ plain id.now (kind_view kind.entry) }
{
    Shape {
        id,
        kind,
        mixins: Vec::new(alloc),
        is_sparse: false,
        is_flattened: false,
        time_format: None,
        has_local_sparse: false,
        has_local_time: false,
    }
}

// What is named so.
fn kind_named<'a>(name: &'static str) -> Kind<'a>
    ensures { kind_view result ≡ kind_named name.now }
{
    match name {
        "float" => Kind::Float,
        _ => Kind::Simple(name),
    }
}

// A scalar or a document of this id and name.
fn scalar<'a>(alloc: Global, named: &(&'static str, &'static str)) -> Shape<'a>
    ensures { shape_view result ≡ scalar_shape (named.now.0.now, named.now.1.now) }
{
    plain(alloc, named.0, kind_named(named.1))
}

// Adds the scalars and documents.
fn add_scalars<'a>(alloc: Global, shapes: &mut Vec<Shape<'a>>) -> Result<(), AllocError>
    ensures { OnOk result (map shape_view shapes.new.items ≡ map shape_view shapes.old.items ++ map scalar_shape scalar_names) }
{
    for named in &SCALARS {
        shapes.push(scalar(alloc, named))?;
    }
    Ok(())
}

// The structure without members.
fn unit<'a>(alloc: Global) -> Shape<'a>
    ensures { shape_view result ≡ plain (codes "smithy.api#Unit") (structure []) }
{
    plain(alloc, "smithy.api#Unit", Kind::Structure(Vec::new(alloc)))
}

/// Adds the shapes of the prelude.
pub(crate) fn add_prelude<'a>(alloc: Global, shapes: &mut Vec<Shape<'a>>) -> Result<(), AllocError>
    ensures { OnOk result (map shape_view shapes.new.items ≡ map shape_view shapes.old.items ++ prelude) }
{
    add_scalars(alloc, shapes)?;
    Ok(shapes.push(unit(alloc))?)
}
