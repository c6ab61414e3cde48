//! Finding shapes and operations by their ids and names.
ghost use Rattle.std.specs.Prelude.{◌≡◌, None, map, IfOk, IfSome};
ghost use Rattle.smithy_model.specs.Reading.{ids_of};
ghost use Rattle.smithy_model.specs.Views.{model_view};
ghost use Rattle.smithy_model_table.specs.Naming.{name_in};
ghost use Rattle.smithy_model_table.specs.Wanted.{is_named, IsOnly, HasNotOne, operation_ids};

use smithy_model::Model;
use std::alloc::{AllocError, Global};

/// The name in an id: what stands behind `#`, or all of it.
pub(crate) fn name_in(id: &str) -> &str
    ensures { result.now ≡ name_in id.now }
{
    match id.split_once('#') {
        Some((_, name)) => name,
        None => id,
    }
}

// Whether the id or the name in it is this.
fn is_named(id: &str, name: &str) -> bool
    ensures { result ≡ is_named name.now id.now }
{
    id == name || name_in(id) == name
}

/// The ids of the shapes of a model.
pub(crate) fn shape_ids<'a>(alloc: Global, model: &Model<'a>) -> Result<Vec<&'a str>, AllocError>
    ensures { IfOk result (λ ids. map (λ t. t.now) ids.items ≡ ids_of (model_view model.now).shapes) }
{
    let mut ids = Vec::with_capacity(alloc, model.shapes.len())?;
    for shape in &model.shapes {
        ids.push(shape.id)?;
    }
    Ok(ids)
}

/// The ids of the operations of a model.
pub(crate) fn operation_ids<'a>(
    alloc: Global,
    model: &Model<'a>,
) -> Result<Vec<&'a str>, AllocError>
    ensures { IfOk result (λ ids. map (λ t. t.now) ids.items ≡ operation_ids (model_view model.now)) }
{
    let mut ids = Vec::with_capacity(alloc, model.operations.len())?;
    for operation in &model.operations {
        ids.push(operation.id)?;
    }
    Ok(ids)
}

/// The place of the only one of these ids that is this, or that has it as its name.
pub(crate) fn place_of_only(ids: &[&str], name: &str) -> Option<usize>
    ensures only { IfSome result (IsOnly (map (λ t. t.now) ids.now) name.now) }
    ensures others { result ≡ None → HasNotOne (map (λ t. t.now) ids.now) name.now }
{
    let mut found = None;
    for number in 0..ids.len() {
        if !is_named(ids[number], name) {
            continue;
        }
        if found.is_some() {
            return None;
        }
        found = Some(number);
    }
    found
}
