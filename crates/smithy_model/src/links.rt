//! The number of each member's target.
ghost use Rattle.std.specs.Prelude.{map, OnOk, IfErr};
ghost use Rattle.smithy_model.specs.Reading.{IsNumbered, IsShapeNumbered, AreTargetsNumbered, IsLinked};
ghost use Rattle.smithy_model.specs.Faults.{is_target, is_target_in, RefusesLinks};
ghost use Rattle.smithy_model.specs.Linking.{Links, LinksAll, is_target_of};
ghost use Rattle.smithy_model.specs.Views.{member_view, shape_view, model_view, numbers_view};

use crate::fault::ModelFault;
use crate::model::{Kind, Member, Model, Shape};
use crate::numbers::Numbers;
use crate::references::link_operations;
use std::alloc::Global;

// Gives a member the number of its target, or answers the target, which no shape is.
fn link<'a>(numbers: &Numbers<'a>, member: &mut Member<'a>) -> Result<(), &'a str>
    ensures { Links (numbers_view numbers.now) IsNumbered is_target (member_view member.old) (member_view member.new) result }
{
    let Some(number) = numbers.number(member.target) else {
        return Err(member.target);
    };
    member.number = number;
    Ok(())
}

// Gives members the numbers of their targets.
fn link_all<'a>(numbers: &Numbers<'a>, members: &mut Vec<Member<'a>>) -> Result<(), &'a str>
    ensures { LinksAll (numbers_view numbers.now) IsNumbered is_target (map member_view members.old.items) (map member_view members.new.items) result }
{
    for place in 0..members.len() {
        link(numbers, &mut members[place])?;
    }
    Ok(())
}

// Gives the members of a shape the numbers of their targets.
fn link_shape<'a>(numbers: &Numbers<'a>, shape: &mut Shape<'a>) -> Result<(), &'a str>
    ensures { Links (numbers_view numbers.now) IsShapeNumbered is_target_of (shape_view shape.old) (shape_view shape.new) result }
{
    match &mut shape.kind {
        Kind::Simple(_) => Ok(()),
        Kind::Float => Ok(()),
        Kind::EventStream => Ok(()),
        Kind::Structure(members) => {
            link_all(numbers, members)?;
            Ok(())
        }
        Kind::Union(members) => {
            link_all(numbers, members)?;
            Ok(())
        }
        Kind::List(element) => {
            link(numbers, element)?;
            Ok(())
        }
        Kind::Map(entry) => {
            link(numbers, &mut entry.key)?;
            link(numbers, &mut entry.value)?;
            Ok(())
        }
    }
}

// Gives the members of shapes the numbers of their targets.
fn link_shapes<'a>(numbers: &Numbers<'a>, shapes: &mut Vec<Shape<'a>>) -> Result<(), &'a str>
    ensures { LinksAll (numbers_view numbers.now) IsShapeNumbered is_target_of (map shape_view shapes.old.items) (map shape_view shapes.new.items) result }
{
    for number in 0..shapes.len() {
        link_shape(numbers, &mut shapes[number])?;
    }
    Ok(())
}

// Gives all members of a model, and the structures of its operations, the numbers of their targets.
fn link_targets<'a>(numbers: &Numbers<'a>, model: &mut Model<'a>) -> Result<(), &'a str>
    ensures { Links (numbers_view numbers.now) AreTargetsNumbered is_target_in (model_view model.old) (model_view model.new) result }
{
    link_shapes(numbers, &mut model.shapes)?;
    link_operations(numbers, &mut model.operations)?;
    Ok(())
}

/// Gives each target in a model its number, and each structure of an operation.
pub(crate) fn link_model<'a>(alloc: Global, model: &mut Model<'a>) -> Result<(), ModelFault<'a>>
    ensures linked { OnOk result (IsLinked (model_view model.old) (model_view model.new)) }
    ensures refused { IfErr result (RefusesLinks (model_view model.old)) }
{
    let numbers = Numbers::of(alloc, &model.shapes)?;
    match link_targets(&numbers, model) {
        Ok(()) => Ok(()),
        Err(id) => Err(ModelFault::UnknownTarget(id)),
    }
}
