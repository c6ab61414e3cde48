//! The shapes that a table is wanted for.
ghost use Rattle.std.specs.Prelude.{◌≡◌, [], ◌∷◌, None, map, option_map, slice_get, IfOk, IfErr, IfSome};
ghost use Rattle.smithy_model.specs.Reading.{ids_of};
ghost use Rattle.smithy_model.specs.Views.{model_view, operation_view, kind_view};
ghost use Rattle.smithy_model_table.specs.Views.{wanted_view};
ghost use Rattle.smithy_model_table.specs.Naming.{is_declared};
ghost use Rattle.smithy_model_table.specs.Finding.{RefusesSearch};
ghost use Rattle.smithy_model_table.specs.Wanted.{shape, IsIdNamed, IsDeclared, IsOperationNamed, HasNotOne, IsUnknown, operation_ids, AreRoots};

use crate::bodies::{body_if, service_roots};
use crate::carried::is_marked;
use crate::fault::WantedFault;
use crate::finding::{operation_ids, place_of_only, shape_ids};
use crate::places::shape_at;
use smithy_model::{Kind, Model, Operation, place_of};
use std::alloc::{AllocError, Global};

/// What a table is wanted for.
#[derive(Clone, Copy)]
pub enum Wanted<'w> {
    /// The input of an operation, by its name or its id.
    Input(&'w str),
    /// The output of an operation.
    Output(&'w str),
    /// A shape, by its name or its id.
    Shape(&'w str),
    /// Each operation's input, output and errors.
    Service,
}

/// Whether a shape of this kind has a declaration.
pub(crate) fn is_declared(kind: &Kind<'_>) -> bool
    ensures { result ≡ is_declared (kind_view kind.now) }
{
    match kind {
        Kind::Structure(_) => true,
        Kind::Union(_) => true,
        Kind::List(_) => true,
        Kind::Map(_) => true,
        _ => false,
    }
}

// The number of the shape of this id, or of the only one of this name. `ids` are those of the model's shapes.
fn find_shape(ids: &[&str], name: &str) -> Option<usize>
    ensures found { IfSome result (IsIdNamed (map (λ t. t.now) ids.now) name.now) }
    ensures unknown { result ≡ None → IsUnknown (map (λ t. t.now) ids.now) name.now × HasNotOne (map (λ t. t.now) ids.now) name.now }
{
    match place_of(ids, name) {
        Some(number) => Some(number),
        None => place_of_only(ids, name),
    }
}

// The number of the shape of this id or name, where a table declares it.
fn find_declared(
    model: &Model<'_>,
    marks: &[bool],
    ids: &[&str],
    name: &str,
) -> Result<usize, WantedFault>
    requires { map (λ t. t.now) ids.now ≡ ids_of (model_view model.now).shapes }
    ensures found { IfOk result (IsDeclared (model_view model.now) marks.now name.now) }
    ensures refused { IfErr result (RefusesSearch (model_view model.now) marks.now (shape name.now)) }
{
    let Some(number) = find_shape(ids, name) else {
        return Err(WantedFault::NoSuchName);
    };
    let Some(shape) = shape_at(model, number) else {
        return Err(WantedFault::NoDeclaration);
    };
    if is_marked(marks, number) {
        return Err(WantedFault::NoDeclaration);
    }
    if !is_declared(&shape.kind) {
        return Err(WantedFault::NoDeclaration);
    }
    Ok(number)
}

// The operation of this number.
fn operation_at<'m, 'a>(model: &'m Model<'a>, number: usize) -> Option<&'m Operation<'a>>
    ensures { option_map (λ o. operation_view o.now) result ≡ slice_get (model_view model.now).operations number }
{
    model.operations.get(number)
}

// The only operation of this id or name.
fn find_operation<'m, 'a>(
    alloc: Global,
    model: &'m Model<'a>,
    name: &str,
) -> Result<Option<&'m Operation<'a>>, AllocError>
    ensures found { IfOk result (λ found. IfSome found (λ o. IsOperationNamed (model_view model.now) name.now (operation_view o.now))) }
    ensures lacks { IfOk result (λ found. found ≡ None → HasNotOne (operation_ids (model_view model.now)) name.now) }
{
    let ids = operation_ids(alloc, model)?;
    let Some(number) = place_of_only(&ids, name) else {
        return Ok(None);
    };
    Ok(operation_at(model, number))
}

// The one number.
fn one(alloc: Global, number: usize) -> Result<Vec<usize>, AllocError>
    ensures { IfOk result (λ numbers. numbers.items ≡ number ∷ []) }
{
    let mut numbers = Vec::new(alloc);
    numbers.push(number)?;
    Ok(numbers)
}

/// The numbers of the shapes that a table is wanted for.
pub(crate) fn roots_of(
    alloc: Global,
    model: &Model<'_>,
    marks: &[bool],
    wanted: Wanted<'_>,
) -> Result<Vec<usize>, WantedFault>
    ensures roots { IfOk result (λ roots. AreRoots (model_view model.now) marks.now (wanted_view wanted.entry) roots.items) }
    ensures refused { IfErr result (RefusesSearch (model_view model.now) marks.now (wanted_view wanted.entry)) }
{
    match wanted {
        Wanted::Input(name) => {
            let Some(operation) = find_operation(alloc, model, name)? else {
                return Err(WantedFault::NoSuchName);
            };
            let Some(number) = body_if(model, &operation.input) else {
                return Err(WantedFault::NoDeclaration);
            };
            Ok(one(alloc, number)?)
        }
        Wanted::Output(name) => {
            let Some(operation) = find_operation(alloc, model, name)? else {
                return Err(WantedFault::NoSuchName);
            };
            let Some(number) = body_if(model, &operation.output) else {
                return Err(WantedFault::NoDeclaration);
            };
            Ok(one(alloc, number)?)
        }
        Wanted::Shape(name) => {
            let ids = shape_ids(alloc, model)?;
            let number = find_declared(model, marks, &ids, name)?;
            Ok(one(alloc, number)?)
        }
        Wanted::Service => Ok(service_roots(alloc, model)?),
    }
}
