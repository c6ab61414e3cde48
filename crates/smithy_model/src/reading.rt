//! Reads a model.
ghost use Rattle.std.specs.Prelude.{◌≡◌, ◌++◌, List, Some, IfOk, IfErr, OnOk, map};
ghost use Rattle.json.specs.Json.{Json, document};
ghost use Rattle.json.specs.Strict.{HasUniqueKeys};
ghost use Rattle.json.specs.Value.{value_view};
ghost use Rattle.smithy_model.specs.Model as kept;
ghost use Rattle.smithy_model.specs.Reading.{operations_name, AreWhole, undeclared, IsUnlinked, IsModelText};
ghost use Rattle.smithy_model.specs.Faults.{RefusesMixins, RefusesRoot, RefusesText};
ghost use Rattle.smithy_model.specs.Views.{form_view, shape_view, model_view};

use crate::fault::ModelFault;
use crate::format::Format;
use crate::links::link_model;
use crate::mixins::take_in_mixins;
use crate::model::{Model, Shape};
use crate::objects::entries;
use crate::parts::{read_operations, read_shapes};
use crate::prelude::add_prelude;
use crate::protocol::{format_of, has_http_bindings, is_ec2, is_service_json};
use json::{Scratch, Value};
use std::alloc::Global;
use std::str;

// The value that a text is.
fn read_value<'a>(
    alloc: Global,
    text: &'a [u8],
    scratch: &'a mut Scratch,
) -> Result<Value<'a>, ModelFault<'a>>
    ensures read { IfOk result (λ root. (document text.now ≡ Some (value_view root)) × HasUniqueKeys (value_view root)) }
    ensures refused { IfErr result (RefusesText text.now) }
{
    match str::from_utf8(text) {
        Ok(text) => Ok(Value::parse_strict(alloc, text, scratch)?),
        Err(_) => Err(ModelFault::NotJson),
    }
}

// The member of the root that has the operations.
fn operations_name(format: Format) -> &'static str
    ensures { result.now ≡ operations_name (form_view format) }
{
    match format {
        Format::Smithy => "shapes",
        _ => "operations",
    }
}

// Adds to the shapes of a Smithy model what stands elsewhere: the members of mixins, and the shapes of the prelude.
fn complete<'a>(
    alloc: Global,
    format: Format,
    shapes: &mut Vec<Shape<'a>>,
) -> Result<(), ModelFault<'a>>
    ensures whole { OnOk result ((whole : List kept.Shape) × AreWhole (form_view format) (map shape_view shapes.old.items) whole
        × (map shape_view shapes.new.items ≡ whole ++ undeclared (form_view format))) }
    ensures refused { IfErr result (RefusesMixins (map shape_view shapes.old.items)) }
{
    match format {
        Format::Smithy => {
            take_in_mixins(alloc, shapes)?;
            Ok(add_prelude(alloc, shapes)?)
        }
        Format::Json => Ok(()),
        Format::Xml => Ok(()),
        Format::Ec2 => Ok(()),
    }
}

// The model that a value is, in which no target has a number.
fn read_unlinked<'a>(alloc: Global, root: &Value<'a>) -> Result<Model<'a>, ModelFault<'a>>
    ensures read { IfOk result (λ model. IsUnlinked (value_view root.now) (model_view model)) }
    ensures refused { IfErr result (RefusesRoot (value_view root.now)) }
{
    let Some(format) = format_of(root) else {
        return Err(ModelFault::NotAModel);
    };
    let Some(parts) = entries(root, "shapes") else {
        return Err(ModelFault::NotAModel);
    };
    let Some(calls) = entries(root, operations_name(format)) else {
        return Err(ModelFault::NotAModel);
    };
    let mut shapes = read_shapes(alloc, format, parts)?;
    complete(alloc, format, &mut shapes)?;
    Ok(Model {
        shapes,
        operations: read_operations(alloc, format, calls)?,
        has_http_bindings: has_http_bindings(format, root, parts),
        is_ec2: is_ec2(format, root, parts),
        is_service_json: is_service_json(format),
    })
}

// The model of a text, in which no target has a number. The JSON value is let go before the targets get theirs.
fn read_parts<'a>(
    alloc: Global,
    text: &'a [u8],
    scratch: &'a mut Scratch,
) -> Result<Model<'a>, ModelFault<'a>>
    ensures read { IfOk result (λ model. (root : Json) × (document text.now ≡ Some root) × HasUniqueKeys root × IsUnlinked root (model_view model)) }
    ensures refused { IfErr result (RefusesText text.now) }
{
    let root = read_value(alloc, text, scratch)?;
    read_unlinked(alloc, &root)
}

/// Reads a model from its text: a Smithy 2.0 model as JSON, whose root has a member `smithy`, or a `service-2.json`,
/// whose root has a member `metadata`. `scratch` holds the texts with escapes.
pub fn read_model<'a>(
    alloc: Global,
    text: &'a [u8],
    scratch: &'a mut Scratch,
) -> Result<Model<'a>, ModelFault<'a>>
    ensures read { IfOk result (λ model. IsModelText text.now (model_view model)) }
    ensures refused { IfErr result (RefusesText text.now) }
{
    let mut model = read_parts(alloc, text, scratch)?;
    link_model(alloc, &mut model)?;
    Ok(model)
}
