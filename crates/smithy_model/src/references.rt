//! The number of each structure of an operation.
ghost use Rattle.std.specs.Prelude.{map, option_map};
ghost use Rattle.smithy_model.specs.Reading.{IsReferenceNumbered, IsNumberedIf, IsOperationNumbered};
ghost use Rattle.smithy_model.specs.Faults.{refers_to, has_structure};
ghost use Rattle.smithy_model.specs.Linking.{Links, LinksAll, refers_if};
ghost use Rattle.smithy_model.specs.Views.{reference_view, operation_view, numbers_view};

use crate::model::{Operation, Reference};
use crate::numbers::Numbers;

// Gives a reference the number of its shape, or answers the id, which no shape has.
fn link_reference<'a>(numbers: &Numbers<'a>, given: &mut Reference<'a>) -> Result<(), &'a str>
    ensures { Links (numbers_view numbers.now) IsReferenceNumbered refers_to (reference_view given.old) (reference_view given.new) result }
{
    let Some(number) = numbers.number(given.target) else {
        return Err(given.target);
    };
    given.number = number;
    Ok(())
}

// The same of one that may be missing.
fn link_if<'a>(numbers: &Numbers<'a>, given: &mut Option<Reference<'a>>) -> Result<(), &'a str>
    ensures { Links (numbers_view numbers.now) IsNumberedIf refers_if (option_map reference_view given.old) (option_map reference_view given.new) result }
{
    match given {
        Some(reference) => {
            link_reference(numbers, reference)?;
            Ok(())
        }
        None => Ok(()),
    }
}

// Gives errors the numbers of their shapes.
fn link_errors<'a>(numbers: &Numbers<'a>, errors: &mut Vec<Reference<'a>>) -> Result<(), &'a str>
    ensures { LinksAll (numbers_view numbers.now) IsReferenceNumbered refers_to (map reference_view errors.old.items) (map reference_view errors.new.items) result }
{
    for place in 0..errors.len() {
        link_reference(numbers, &mut errors[place])?;
    }
    Ok(())
}

// Gives an operation the numbers of its structures.
fn link_operation<'a>(numbers: &Numbers<'a>, operation: &mut Operation<'a>) -> Result<(), &'a str>
    ensures { Links (numbers_view numbers.now) IsOperationNumbered has_structure (operation_view operation.old) (operation_view operation.new) result }
{
    link_if(numbers, &mut operation.input)?;
    link_if(numbers, &mut operation.output)?;
    link_errors(numbers, &mut operation.errors)?;
    Ok(())
}

/// Gives operations the numbers of their structures, or answers an id that no shape has.
pub(crate) fn link_operations<'a>(
    numbers: &Numbers<'a>,
    operations: &mut Vec<Operation<'a>>,
) -> Result<(), &'a str>
    ensures { LinksAll (numbers_view numbers.now) IsOperationNumbered has_structure (map operation_view operations.old.items) (map operation_view operations.new.items) result }
{
    for place in 0..operations.len() {
        link_operation(numbers, &mut operations[place])?;
    }
    Ok(())
}
