//! Which shapes the operations and the shapes of a model name.
ghost use Rattle.std.specs.Prelude.{◌≡◌, ◌==◌, ◌++◌, ℕ, List, [], ◌∷◌, false, map, option_map, bytes_eq, IfOk, OnOk};
ghost use Rattle.std.specs.List.{list_any};
ghost use Rattle.std.specs.Option.{option_map_or};
ghost use Rattle.smithy_model.specs.Model as kept;
ghost use Rattle.smithy_model.specs.Views.{model_view, member_view, kind_view, reference_view, operation_view};
ghost use Rattle.smithy_model_table.specs.Bindings.{leads_to, is_nested};
ghost use Rattle.smithy_model_table.specs.Roles.{has_id, has_number, Gains, AreNamedBy, KnowsRoles};

use smithy_model::{Kind, Member, Model, Operation, Reference};
use std::alloc::{AllocError, Global};
use std::collections::BTreeSet;

/// The numbers of the shapes that operations name as inputs, outputs and errors, and of those that are targets.
#[derive(Drop)]
pub(crate) struct Roles {
    pub(crate) inputs: BTreeSet<usize>,
    pub(crate) outputs: BTreeSet<usize>,
    pub(crate) errors: BTreeSet<usize>,
    pub(crate) nested: BTreeSet<usize>,
}

/// Adds an id.
pub(crate) fn add_id<'a>(ids: &mut BTreeSet<&'a str>, id: &'a str) -> Result<(), AllocError>
    ensures { OnOk result (Gains (λ other. bytes_eq id.now other) (has_id ids.old) (has_id ids.new)) }
{
    ids.insert(id)?;
    Ok(())
}

// Adds a number.
fn add_number(numbers: &mut BTreeSet<usize>, number: usize) -> Result<(), AllocError>
    ensures { OnOk result (Gains (λ other. number == other) (has_number numbers.old) (has_number numbers.new)) }
{
    numbers.insert(number)?;
    Ok(())
}

// Adds the shape that is referred to, if there is one.
fn add_given(numbers: &mut BTreeSet<usize>, given: &Option<Reference<'_>>) -> Result<(), AllocError>
    ensures { OnOk result (Gains (λ other. option_map_or (λ (r : kept.Reference). r.number == other) (option_map reference_view given.now) false) (has_number numbers.old) (has_number numbers.new)) }
{
    match given {
        Some(reference) => add_number(numbers, reference.number),
        None => Ok(()),
    }
}

// Adds the shapes that are referred to.
fn add_all(numbers: &mut BTreeSet<usize>, given: &[Reference<'_>]) -> Result<(), AllocError>
    ensures { OnOk result (Gains (λ other. list_any (λ (r : kept.Reference). r.number == other) (map reference_view given.now)) (has_number numbers.old) (has_number numbers.new)) }
{
    for reference in given {
        add_number(numbers, reference.number)?;
    }
    Ok(())
}

// Adds the targets of these members.
fn add_members(numbers: &mut BTreeSet<usize>, members: &[Member<'_>]) -> Result<(), AllocError>
    ensures { OnOk result (Gains (λ other. list_any (λ part. part.number == other) (map member_view members.now)) (has_number numbers.old) (has_number numbers.new)) }
{
    for member in members {
        add_number(numbers, member.number)?;
    }
    Ok(())
}

// Adds the targets of the parts of a shape.
fn add_targets(numbers: &mut BTreeSet<usize>, kind: &Kind<'_>) -> Result<(), AllocError>
    ensures { OnOk result (Gains (λ other. leads_to other (kind_view kind.now)) (has_number numbers.old) (has_number numbers.new)) }
{
    match kind {
        Kind::Structure(members) => add_members(numbers, members),
        Kind::Union(members) => add_members(numbers, members),
        Kind::List(element) => add_number(numbers, element.number),
        Kind::Map(entry) => {
            add_number(numbers, entry.key.number)?;
            add_number(numbers, entry.value.number)
        }
        _ => Ok(()),
    }
}

// The numbers of the shapes whose bodies may stand inside of others.
fn nested(alloc: Global, model: &Model<'_>) -> Result<BTreeSet<usize>, AllocError>
    ensures { IfOk result (λ numbers. (number : ℕ) → has_number numbers number ≡ is_nested (model_view model.now) number) }
{
    let mut numbers = BTreeSet::new(alloc);
    for shape in &model.shapes {
        add_targets(&mut numbers, &shape.kind)?;
    }
    Ok(numbers)
}

impl Roles {
    // None at all.
    fn none(alloc: Global) -> Roles
        ensures { AreNamedBy [] result }
    {
        Roles {
            inputs: BTreeSet::new(alloc),
            outputs: BTreeSet::new(alloc),
            errors: BTreeSet::new(alloc),
            nested: BTreeSet::new(alloc),
        }
    }

    // Adds the structures of an operation.
    fn add_operation(&mut self, operation: &Operation<'_>) -> Result<(), AllocError>
        ensures { OnOk result ((before : List kept.Operation) → AreNamedBy before self.old → AreNamedBy (before ++ operation_view operation.now ∷ []) self.new) }
    {
        add_given(&mut self.inputs, &operation.input)?;
        add_given(&mut self.outputs, &operation.output)?;
        add_all(&mut self.errors, &operation.errors)?;
        Ok(())
    }

    /// Those of this model. Without HTTP bindings no one asks for them, and nothing is gathered.
    pub(crate) fn of(alloc: Global, model: &Model<'_>) -> Result<Roles, AllocError>
        ensures { IfOk result (KnowsRoles (model_view model.now)) }
    {
        let mut roles = Roles::none(alloc);
        if !model.has_http_bindings {
            return Ok(roles);
        }
        for operation in &model.operations {
            roles.add_operation(operation)?;
        }
        roles.nested = nested(alloc, model)?;
        Ok(roles)
    }
}
