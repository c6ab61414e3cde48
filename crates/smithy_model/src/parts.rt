//! The shapes and the operations of a model.
ghost use Rattle.std.specs.Prelude.{◌≡◌, map};
ghost use Rattle.json.specs.Value.{value_view};
ghost use Rattle.smithy_model.specs.Reading.{is_of_values, is_operation, shapes_among, operations_among};
ghost use Rattle.smithy_model.specs.Among.{ReadsAmong, AddsAmong};
ghost use Rattle.smithy_model.specs.Faults.{refusal_of, RefusesShapes, RefusesOperations};
ghost use Rattle.smithy_model.specs.Views.{entry_view, form_view, shape_view, operation_view};

use crate::fault::ModelFault;
use crate::format::Format;
use crate::model::{Operation, Shape};
use crate::objects::has_text;
use crate::shapes::{read_operation, read_shape};
use json::Value;
use std::alloc::Global;

// Whether this is a shape of values: in a Smithy model no operation, service or resource.
fn is_of_values(format: Format, spec: &Value<'_>) -> bool
    ensures { result ≡ is_of_values (form_view format) (value_view spec.now) }
{
    match format {
        Format::Smithy => {
            !(has_text(spec, "type", "operation")
                || has_text(spec, "type", "service")
                || has_text(spec, "type", "resource"))
        }
        _ => true,
    }
}

// Whether this is an operation.
fn is_operation(format: Format, spec: &Value<'_>) -> bool
    ensures { result ≡ is_operation (form_view format) (value_view spec.now) }
{
    match format {
        Format::Smithy => has_text(spec, "type", "operation"),
        _ => true,
    }
}

// Why what stands under an id is no shape.
fn fault_of<'a>(id: &'a str, spec: &Value<'_>) -> ModelFault<'a>
    ensures { result ≡ refusal_of id.entry (value_view spec.now) }
{
    if has_text(spec, "type", "apply") {
        ModelFault::Applied(id)
    } else {
        ModelFault::BadShape(id)
    }
}

// Adds what stands under an id to the shapes, if it is a shape of values.
fn add_shape<'a>(
    alloc: Global,
    format: Format,
    id: &'a str,
    spec: &Value<'a>,
    shapes: &mut Vec<Shape<'a>>,
) -> Result<(), ModelFault<'a>>
    ensures { AddsAmong (shapes_among (form_view format)) (RefusesShapes (form_view format)) (id.now, value_view spec.now) (map shape_view shapes.old.items) (map shape_view shapes.new.items) result }
{
    if !is_of_values(format, spec) {
        return Ok(());
    }
    match read_shape(alloc, format, id, spec)? {
        Some(shape) => Ok(shapes.push(shape)?),
        None => Err(fault_of(id, spec)),
    }
}

/// The shapes of values among these, in order, each with its own members.
pub(crate) fn read_shapes<'a>(
    alloc: Global,
    format: Format,
    entries: &[(&'a str, Value<'a>)],
) -> Result<Vec<Shape<'a>>, ModelFault<'a>>
    ensures { ReadsAmong (shapes_among (form_view format)) (RefusesShapes (form_view format)) (map entry_view entries.now) (λ shapes. map shape_view shapes.items) result }
{
    let mut shapes = Vec::new(alloc);
    for (id, spec) in entries {
        add_shape(alloc, format, *id, spec, &mut shapes)?;
    }
    Ok(shapes)
}

// Adds what stands under an id to the operations, if it is one.
fn add_operation<'a>(
    alloc: Global,
    format: Format,
    id: &'a str,
    spec: &Value<'a>,
    operations: &mut Vec<Operation<'a>>,
) -> Result<(), ModelFault<'a>>
    ensures { AddsAmong (operations_among (form_view format)) (RefusesOperations (form_view format)) (id.now, value_view spec.now) (map operation_view operations.old.items) (map operation_view operations.new.items) result }
{
    if !is_operation(format, spec) {
        return Ok(());
    }
    match read_operation(alloc, format, id, spec)? {
        Some(operation) => Ok(operations.push(operation)?),
        None => Err(ModelFault::BadShape(id)),
    }
}

/// The operations among these, in order.
pub(crate) fn read_operations<'a>(
    alloc: Global,
    format: Format,
    entries: &[(&'a str, Value<'a>)],
) -> Result<Vec<Operation<'a>>, ModelFault<'a>>
    ensures { ReadsAmong (operations_among (form_view format)) (RefusesOperations (form_view format)) (map entry_view entries.now) (λ operations. map operation_view operations.items) result }
{
    let mut operations = Vec::new(alloc);
    for (id, spec) in entries {
        add_operation(alloc, format, *id, spec, &mut operations)?;
    }
    Ok(operations)
}
