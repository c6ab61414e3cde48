//! Marks shapes in the order in which that follows, so that none is looked at for each mark.
ghost use Rattle.std.specs.Prelude.{ℕ, List, [], OnOk};
ghost use Rattle.smithy_model.specs.Views.{model_view};
ghost use Rattle.smithy_model_table.specs.Marking.{Marks};

use crate::carried::is_uncarried;
use crate::places::shape_at;
use smithy_model::{Kind, Member, Model, Users};
use std::alloc::{AllocError, Global};

// Adds that a shape has the targets of these members as its parts.
fn add_members(users: &mut Users, members: &[Member<'_>], user: usize) -> Result<(), AllocError> {
    for member in members {
        users.add(member.number, user)?;
    }
    Ok(())
}

// Adds that a shape has its parts, whose marks decide about it.
fn add_parts(users: &mut Users, kind: &Kind<'_>, user: usize) -> Result<(), AllocError> {
    match kind {
        Kind::List(element) => users.add(element.number, user),
        Kind::Map(entry) => users.add(entry.value.number, user),
        Kind::Union(members) => add_members(users, members, user),
        _ => Ok(()),
    }
}

// Which shapes are parts of which.
fn users_of(alloc: Global, model: &Model<'_>) -> Result<Users, AllocError> {
    let mut users = Users::none(alloc, model.shapes.len())?;
    for user in 0..model.shapes.len() {
        add_parts(&mut users, &model.shapes[user].kind, user)?;
    }
    Ok(users)
}

// Marks the shape of this number, where that follows from the marks, and adds it to those that were marked.
fn mark(
    model: &Model<'_>,
    marks: &mut Vec<bool>,
    order: &mut Vec<usize>,
    number: usize,
) -> Result<(), AllocError>
    ensures { OnOk result (Marks (model_view model.now) marks.old.items order.old.items marks.new.items order.new.items) }
{
    let Some(shape) = shape_at(model, number) else {
        return Ok(());
    };
    if number >= marks.len() {
        return Ok(());
    }
    if marks[number] {
        return Ok(());
    }
    if !is_uncarried(marks, shape) {
        return Ok(());
    }
    marks[number] = true;
    Ok(order.push(number)?)
}

// Marks those shapes of which the last part without a mark was this one.
fn mark_users(
    alloc: Global,
    model: &Model<'_>,
    users: &mut Users,
    part: usize,
    marks: &mut Vec<bool>,
    order: &mut Vec<usize>,
) -> Result<(), AllocError>
    ensures { OnOk result (Marks (model_view model.now) marks.old.items order.old.items marks.new.items order.new.items) }
{
    let waiting = users.take(alloc, part);
    for user in &waiting {
        if !users.is_last(*user) {
            continue;
        }
        mark(model, marks, order, *user)?;
    }
    Ok(())
}

// Marks the shapes for which it follows from the marks at first.
fn mark_first(
    model: &Model<'_>,
    marks: &mut Vec<bool>,
    order: &mut Vec<usize>,
) -> Result<(), AllocError>
    ensures { OnOk result (Marks (model_view model.now) marks.old.items order.old.items marks.new.items order.new.items) }
{
    for number in 0..model.shapes.len() {
        mark(model, marks, order, number)?;
    }
    Ok(())
}

/// Marks shapes of which nothing can stand in a table. From no marks at first it marks them all.
pub(crate) fn mark_in_order(
    alloc: Global,
    model: &Model<'_>,
    marks: &mut Vec<bool>,
) -> Result<(), AllocError>
    ensures { OnOk result ((order : List ℕ) × Marks (model_view model.now) marks.old.items [] marks.new.items order) }
{
    let mut users = users_of(alloc, model)?;
    let mut order = Vec::new(alloc);
    mark_first(model, marks, &mut order)?;
    let mut turn = 0;
    while turn < order.len() {
        let number = order[turn];
        mark_users(alloc, model, &mut users, number, marks, &mut order)?;
        turn += 1;
    }
    Ok(())
}
