//! The structures that are the bodies of operations.
ghost use Rattle.std.specs.Prelude.{◌≡◌, ◌++◌, map, flat_map, option_map, option_to_list, IfOk, OnOk};
ghost use Rattle.std.specs.List.{find};
ghost use Rattle.smithy_model.specs.Model as kept;
ghost use Rattle.smithy_model.specs.Views.{model_view, operation_view, reference_view, member_view, kind_view};
ghost use Rattle.smithy_model_table.specs.Wanted.{members_of, structure_at, body_of, body_at, body_if, bodies_of};

use crate::places::shape_at;
use smithy_model::{Kind, Member, Model, Operation, Reference};
use std::alloc::{AllocError, Global};

// The members of a structure.
fn members_of<'s, 'a>(kind: &'s Kind<'a>) -> Option<&'s [Member<'a>]>
    ensures { option_map (λ ms. map member_view ms.now) result ≡ members_of (kind_view kind.now) }
{
    match kind {
        Kind::Structure(members) => Some(members.as_slice()),
        _ => None,
    }
}

// The members of the structure of this number.
fn structure_at<'m, 'a>(model: &'m Model<'a>, number: usize) -> Option<&'m [Member<'a>]>
    ensures { option_map (λ ms. map member_view ms.now) result ≡ structure_at (model_view model.now) number }
{
    match shape_at(model, number) {
        Some(shape) => members_of(&shape.kind),
        None => None,
    }
}

// The number of the target of the first member that is the whole body.
fn payload(members: &[Member<'_>]) -> Option<usize>
    ensures { result ≡ option_map (λ (p : kept.Member). p.number) (find (λ (p : kept.Member). p.is_payload) (map member_view members.now)) }
{
    for member in members {
        if member.is_payload {
            return Some(member.number);
        }
    }
    None
}

// The number of the body of a structure with these members.
fn body_of(model: &Model<'_>, number: usize, members: &[Member<'_>]) -> usize
    ensures { result ≡ body_of (model_view model.now) number (map member_view members.now) }
{
    if !model.has_http_bindings {
        return number;
    }
    match payload(members) {
        Some(inner) => inner,
        None => number,
    }
}

// The structure that is the body of the one of this number: with HTTP bindings its payload, where it has one.
fn body_at(model: &Model<'_>, number: usize) -> Option<usize>
    ensures { result ≡ body_at (model_view model.now) number }
{
    let members = structure_at(model, number)?;
    let root = body_of(model, number, members);
    match structure_at(model, root) {
        Some(_) => Some(root),
        None => None,
    }
}

/// The body of what an operation refers to, if it does.
pub(crate) fn body_if(model: &Model<'_>, given: &Option<Reference<'_>>) -> Option<usize>
    ensures { result ≡ body_if (model_view model.now) (option_map reference_view given.now) }
{
    match given {
        Some(reference) => body_at(model, reference.number),
        None => None,
    }
}

// Adds a number, where one is given.
fn add_if(numbers: &mut Vec<usize>, given: Option<usize>) -> Result<(), AllocError>
    ensures { OnOk result (numbers.new.items ≡ numbers.old.items ++ option_to_list given) }
{
    match given {
        Some(number) => Ok(numbers.push(number)?),
        None => Ok(()),
    }
}

// Adds the bodies of errors.
fn add_errors(
    model: &Model<'_>,
    errors: &[Reference<'_>],
    roots: &mut Vec<usize>,
) -> Result<(), AllocError>
    ensures { OnOk result (roots.new.items ≡ roots.old.items ++ flat_map (λ (r : kept.Reference). option_to_list (body_at (model_view model.now) r.number)) (map reference_view errors.now)) }
{
    for error in errors {
        add_if(roots, body_at(model, error.number))?;
    }
    Ok(())
}

// Adds the bodies of an operation.
fn add_bodies(
    model: &Model<'_>,
    operation: &Operation<'_>,
    roots: &mut Vec<usize>,
) -> Result<(), AllocError>
    ensures { OnOk result (roots.new.items ≡ roots.old.items ++ bodies_of (model_view model.now) (operation_view operation.now)) }
{
    add_if(roots, body_if(model, &operation.input))?;
    add_if(roots, body_if(model, &operation.output))?;
    add_errors(model, &operation.errors, roots)
}

/// The bodies of the operations.
pub(crate) fn service_roots(alloc: Global, model: &Model<'_>) -> Result<Vec<usize>, AllocError>
    ensures { IfOk result (λ roots. roots.items ≡ flat_map (bodies_of (model_view model.now)) (model_view model.now).operations) }
{
    let mut roots = Vec::new(alloc);
    for operation in &model.operations {
        add_bodies(model, operation, &mut roots)?;
    }
    Ok(roots)
}
