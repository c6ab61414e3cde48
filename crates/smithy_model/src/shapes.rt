//! Shapes and operations, as the text of a model has them.
ghost use Rattle.std.specs.Prelude.{◌≡◌, map, option_map, IfOk};
ghost use Rattle.json.specs.Value.{value_view};
ghost use Rattle.smithy_model.specs.Shapes.{references_in, reference_key, reference_to, reference_in, reference_if, errors_in, operation_with, operation_in, is_sparse_in, is_flattened_in, time_in, local_traits_in, is_text, is_local_in, shape_in};
ghost use Rattle.smithy_model.specs.Views.{reference_view, operation_view, shape_view, form_view};

use crate::format::Format;
use crate::kinds::read_kind;
use crate::members::service_time;
use crate::model::{Operation, Reference, Shape};
use crate::objects::{has_trait, is_no_array, is_set, items, text, trait_text};
use json::Value;
use std::alloc::{AllocError, Global};

// The ids that the items of an array refer to, if there is one: none where it is no array, or an item has no such member.
fn references<'a>(
    alloc: Global,
    spec: &Value<'a>,
    name: &str,
    key: &str,
) -> Result<Option<Vec<&'a str>>, AllocError>
    ensures { IfOk result (λ read. option_map (λ ids. map (λ t. t.now) ids.items) read ≡ references_in name.now key.now (value_view spec.now)) }
{
    if is_no_array(spec, name) {
        return Ok(None);
    }
    let mut ids = Vec::new(alloc);
    let Some(items) = items(spec, name) else {
        return Ok(Some(ids));
    };
    for item in items {
        match text(item, key) {
            Some(id) => ids.push(id)?,
            None => return Ok(None),
        }
    }
    Ok(Some(ids))
}

// The member by which others refer to a shape.
fn reference_key(format: Format) -> &'static str
    ensures { result.now ≡ reference_key (form_view format) }
{
    match format {
        Format::Smithy => "target",
        _ => "shape",
    }
}

// A reference to the shape of this id.
fn reference_to<'a>(id: &'a str) -> Reference<'a>
    ensures { reference_view result ≡ reference_to id.now }
{
    Reference {
        target: id,
        number: 0,
    }
}

// What a value refers to.
fn read_reference<'a>(spec: &Value<'a>, key: &str) -> Option<Reference<'a>>
    ensures { option_map reference_view result ≡ reference_in key.now (value_view spec.now) }
{
    Some(reference_to(text(spec, key)?))
}

// What the member of this name refers to, if there is one: none where it refers to nothing.
fn reference_if<'a>(spec: &Value<'a>, name: &str, key: &str) -> Option<Option<Reference<'a>>>
    ensures { option_map (λ r. option_map reference_view r) result ≡ reference_if name.now key.now (value_view spec.now) }
{
    match spec.get(name) {
        Some(value) => Some(Some(read_reference(value, key)?)),
        None => Some(None),
    }
}

// What the errors of an operation refer to: none where one of them is no reference.
fn read_errors<'a>(
    alloc: Global,
    spec: &Value<'a>,
    key: &str,
) -> Result<Option<Vec<Reference<'a>>>, AllocError>
    ensures { IfOk result (λ read. option_map (λ errors. map reference_view errors.items) read ≡ errors_in key.now (value_view spec.now)) }
{
    let Some(ids) = references(alloc, spec, "errors", key)? else {
        return Ok(None);
    };
    let mut errors = Vec::with_capacity(alloc, ids.len())?;
    for id in &ids {
        errors.push(reference_to(*id))?;
    }
    Ok(Some(errors))
}

// The operation of this id with these errors.
fn operation_with<'a>(
    id: &'a str,
    spec: &Value<'a>,
    key: &str,
    errors: Vec<Reference<'a>>,
) -> Option<Operation<'a>>
    ensures { option_map operation_view result ≡ operation_with key.now (id.now, value_view spec.now) (map reference_view errors.entry.items) }
{
    let input = reference_if(spec, "input", key)?;
    let output = reference_if(spec, "output", key)?;
    Some(Operation {
        id,
        input,
        output,
        errors,
    })
}

/// An operation of this id: none where one of its structures is no reference.
pub(crate) fn read_operation<'a>(
    alloc: Global,
    format: Format,
    id: &'a str,
    spec: &Value<'a>,
) -> Result<Option<Operation<'a>>, AllocError>
    ensures { IfOk result (λ read. option_map operation_view read ≡ operation_in (form_view format) (id.now, value_view spec.now)) }
{
    let key = reference_key(format);
    let Some(errors) = read_errors(alloc, spec, key)? else {
        return Ok(None);
    };
    Ok(operation_with(id, spec, key, errors))
}

// Whether the elements of a list, or the values of a map, may be null.
fn is_sparse(format: Format, spec: &Value<'_>) -> bool
    ensures { result ≡ is_sparse_in (form_view format) (value_view spec.now) }
{
    match format {
        Format::Smithy => has_trait(spec, "smithy.api#sparse"),
        _ => is_set(spec, "sparse"),
    }
}

// Whether a list of a `service-2.json` is flattened wherever it stands.
fn is_flattened(format: Format, spec: &Value<'_>) -> bool
    ensures { result ≡ is_flattened_in (form_view format) (value_view spec.now) }
{
    match format {
        Format::Smithy => false,
        _ => is_set(spec, "flattened"),
    }
}

// The time format of a shape.
fn time_format<'a>(format: Format, spec: &Value<'a>) -> Option<&'a str>
    ensures { option_map (λ t. t.now) result ≡ time_in (form_view format) (value_view spec.now) }
{
    match format {
        Format::Smithy => trait_text(spec, "smithy.api#timestampFormat"),
        _ => service_time(spec),
    }
}

// The traits that a mixin doesn't hand on.
fn local_traits<'v, 'a>(spec: &'v Value<'a>) -> Option<&'v [Value<'a>]>
    ensures { option_map (λ vs. map value_view vs.now) result ≡ local_traits_in (value_view spec.now) }
{
    items(spec.get("traits")?.get("smithy.api#mixin")?, "localTraits")
}

// Whether a value is this text.
fn is_text(value: &Value<'_>, wanted: &str) -> bool
    ensures { result ≡ is_text wanted.now (value_view value.now) }
{
    match value.as_str() {
        Some(given) => given == wanted,
        None => false,
    }
}

// Whether a mixin doesn't hand on the trait of this name.
fn is_local(spec: &Value<'_>, name: &str) -> bool
    ensures { result ≡ is_local_in name.now (value_view spec.now) }
{
    let Some(names) = local_traits(spec) else {
        return false;
    };
    for given in names {
        if is_text(given, name) {
            return true;
        }
    }
    false
}

/// A shape of this id, with its own members: none where it isn't as its type asks.
pub(crate) fn read_shape<'a>(
    alloc: Global,
    format: Format,
    id: &'a str,
    spec: &Value<'a>,
) -> Result<Option<Shape<'a>>, AllocError>
    ensures { IfOk result (λ read. option_map shape_view read ≡ shape_in (form_view format) (id.now, value_view spec.now)) }
{
    let Some(kind) = read_kind(alloc, format, spec)? else {
        return Ok(None);
    };
    let Some(mixins) = references(alloc, spec, "mixins", "target")? else {
        return Ok(None);
    };
    Ok(Some(Shape {
        id,
        kind,
        mixins,
        is_sparse: is_sparse(format, spec),
        is_flattened: is_flattened(format, spec),
        time_format: time_format(format, spec),
        has_local_sparse: is_local(spec, "smithy.api#sparse"),
        has_local_time: is_local(spec, "smithy.api#timestampFormat"),
    }))
}
