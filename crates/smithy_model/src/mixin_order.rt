//! Takes in mixins in the order in which shapes get them, so that no shape is looked at for each of its mixins.
ghost use Rattle.std.specs.Prelude.{◌≡◌, map, OnOk, IfErr};
ghost use Rattle.smithy_model.specs.Mixing.{TakesMixins, TakesInMore, RefusesHere};
ghost use Rattle.smithy_model.specs.Reading.{ids_of};
ghost use Rattle.smithy_model.specs.Views.{shape_view, numbers_view};

use crate::fault::ModelFault;
use crate::mixins::take_in;
use crate::model::Shape;
use crate::numbers::Numbers;
use crate::users::Users;
use std::alloc::{AllocError, Global};

// The numbers of the shapes that take in none.
fn shapes_without_mixins(alloc: Global, shapes: &[Shape<'_>]) -> Result<Vec<usize>, AllocError> {
    let mut numbers = Vec::new(alloc);
    for number in 0..shapes.len() {
        if shapes[number].mixins.is_empty() {
            numbers.push(number)?;
        }
    }
    Ok(numbers)
}

// Adds that a shape takes in its mixins, as far as these are there.
fn add_mixins<'a>(
    users: &mut Users,
    numbers: &Numbers<'a>,
    shape: &Shape<'a>,
    user: usize,
) -> Result<(), AllocError> {
    for id in &shape.mixins {
        if let Some(mixin) = numbers.place(*id) {
            users.add(mixin, user)?;
        }
    }
    Ok(())
}

// Which shapes take in which mixins, as far as these are there.
fn users_of<'a>(
    alloc: Global,
    shapes: &[Shape<'a>],
    numbers: &Numbers<'a>,
) -> Result<Users, AllocError> {
    let mut users = Users::none(alloc, shapes.len())?;
    for user in 0..shapes.len() {
        add_mixins(&mut users, numbers, &shapes[user], user)?;
    }
    Ok(users)
}

// Takes in the mixins of those shapes of which the last mixin is this one, which is done, and adds them to the order.
fn take_in_users<'a>(
    alloc: Global,
    shapes: &mut Vec<Shape<'a>>,
    numbers: &Numbers<'a>,
    users: &mut Users,
    mixin: usize,
    done: &mut Vec<bool>,
    order: &mut Vec<usize>,
) -> Result<(), ModelFault<'a>>
    requires { numbers_view numbers.now ≡ ids_of (map shape_view shapes.now.items) }
    ensures mixed { OnOk result (TakesInMore (map shape_view shapes.old.items) done.old.items order.old.items (map shape_view shapes.new.items) done.new.items order.new.items) }
    ensures refused { IfErr result (RefusesHere (map shape_view shapes.old.items) done.old.items) }
{
    let waiting = users.take(alloc, mixin);
    for user in &waiting {
        if !users.is_last(*user) {
            continue;
        }
        if !take_in(alloc, shapes, numbers, done, *user)? {
            continue;
        }
        order.push(*user)?;
    }
    Ok(())
}

/// Takes in the mixins of shapes, of each behind those of its mixins. Where none is in a circle and each mixin is there, these are meant
/// to be all shapes; `take_in_all` shows it.
pub(crate) fn take_in_order<'a>(
    alloc: Global,
    shapes: &mut Vec<Shape<'a>>,
    numbers: &Numbers<'a>,
    done: &mut Vec<bool>,
) -> Result<(), ModelFault<'a>>
    requires { numbers_view numbers.now ≡ ids_of (map shape_view shapes.now.items) }
    ensures { TakesMixins (map shape_view shapes.old.items) (map shape_view shapes.new.items) done.old.items done.new.items result }
{
    let mut users = users_of(alloc, shapes, numbers)?;
    let mut order = shapes_without_mixins(alloc, shapes)?;
    let mut turn = 0;
    while turn < order.len() {
        let number = order[turn];
        take_in_users(alloc, shapes, numbers, &mut users, number, done, &mut order)?;
        turn += 1;
    }
    Ok(())
}
