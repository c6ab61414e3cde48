//! The shapes that roots reach.
ghost use Rattle.std.specs.Prelude.{◌∷◌, [], map, OnOk, IfOk};
ghost use Rattle.smithy_model.specs.Views.{model_view, member_view};
ghost use Rattle.smithy_model_table.specs.Reaching.{held_targets, targets_at, AreReached};
ghost use Rattle.smithy_model_table.specs.Roles.{KnowsRoles};
ghost use Rattle.smithy_model_table.specs.Views.{bindings_view};
ghost use Rattle.smithy_model_table.specs.Visiting.{Visits};

use crate::bindings::{Bindings, bindings_of, no_bindings};
use crate::carried::is_left_out;
use crate::places::shape_at;
use crate::roles::Roles;
use smithy_model::{Kind, Member, Model};
use std::alloc::{AllocError, Global};

// Adds a shape unless it is there, or the model has none of this number.
fn visit(seen: &mut Vec<bool>, order: &mut Vec<usize>, number: usize) -> Result<(), AllocError>
    ensures { OnOk result (Visits seen.old.items order.old.items seen.new.items order.new.items (number ∷ [])) }
{
    if number >= seen.len() {
        return Ok(());
    }
    if seen[number] {
        return Ok(());
    }
    seen[number] = true;
    Ok(order.push(number)?)
}

// Adds the shapes that a table is wanted for.
fn visit_all(
    seen: &mut Vec<bool>,
    order: &mut Vec<usize>,
    numbers: &[usize],
) -> Result<(), AllocError>
    ensures { OnOk result (Visits seen.old.items order.old.items seen.new.items order.new.items numbers.now) }
{
    for number in numbers {
        visit(seen, order, *number)?;
    }
    Ok(())
}

// Adds the targets of members that a table holds.
fn visit_members(
    marks: &[bool],
    counting: Bindings,
    seen: &mut Vec<bool>,
    order: &mut Vec<usize>,
    members: &[Member<'_>],
) -> Result<(), AllocError>
    ensures { OnOk result (Visits seen.old.items order.old.items seen.new.items order.new.items (held_targets marks.now (bindings_view counting) (map member_view members.now))) }
{
    for member in members {
        if is_left_out(marks, counting, member) {
            continue;
        }
        visit(seen, order, member.number)?;
    }
    Ok(())
}

// Adds the shapes that the declaration of the shape of this number leads to.
fn visit_targets(
    model: &Model<'_>,
    roles: &Roles,
    marks: &[bool],
    seen: &mut Vec<bool>,
    order: &mut Vec<usize>,
    number: usize,
) -> Result<(), AllocError>
    requires { KnowsRoles (model_view model.now) roles.now }
    ensures { OnOk result (Visits seen.old.items order.old.items seen.new.items order.new.items (targets_at (model_view model.now) marks.now number)) }
{
    let Some(shape) = shape_at(model, number) else {
        return Ok(());
    };
    match &shape.kind {
        Kind::Structure(members) => {
            let counting = bindings_of(model, roles, number);
            visit_members(marks, counting, seen, order, members)
        }
        Kind::Union(members) => visit_members(marks, no_bindings(), seen, order, members),
        Kind::List(element) => visit(seen, order, element.number),
        Kind::Map(entry) => visit(seen, order, entry.value.number),
        _ => Ok(()),
    }
}

/// The numbers of the shapes that the roots reach, each once: breadth first, and members in the order of the model.
pub(crate) fn reached(
    alloc: Global,
    model: &Model<'_>,
    roles: &Roles,
    marks: &[bool],
    roots: &[usize],
) -> Result<Vec<usize>, AllocError>
    requires { KnowsRoles (model_view model.now) roles.now }
    ensures { IfOk result (λ order. AreReached (model_view model.now) marks.now roots.now order.items) }
{
    let mut seen = Vec::from_elem(alloc, false, model.shapes.len())?;
    let mut order = Vec::new(alloc);
    visit_all(&mut seen, &mut order, roots)?;
    let mut turn = 0;
    while turn < order.len() {
        let number = order[turn];
        visit_targets(model, roles, marks, &mut seen, &mut order, number)?;
        turn += 1;
    }
    Ok(order)
}
