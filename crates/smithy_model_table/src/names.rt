//! The names of shapes in a table.
ghost use Rattle.std.specs.Prelude.{◌≡◌, ◌||◌, ◌++◌, ℕ, List, [], ◌∷◌, if◌then◌else◌, IfOk, OnOk};
ghost use Rattle.smithy_model.specs.Model as model;
ghost use Rattle.smithy_model.specs.Views.{model_view, shape_view};
ghost use Rattle.smithy_model_table.specs.Declaring.{name_of};
ghost use Rattle.smithy_model_table.specs.Naming.{name_in, is_shared, names_of};
ghost use Rattle.smithy_declarations.specs.Names.{is_reserved};
ghost use Rattle.smithy_model_table.specs.Roles.{has_id, AreShared};
ghost use Rattle.smithy_model_table.specs.Views.{names_view};

use crate::finding::name_in;
use crate::roles::add_id;
use crate::wanted::is_declared;
use smithy_declarations::acceptance::words::is_reserved;
use smithy_model::{Model, Shape};
use std::alloc::{AllocError, Global};
use std::collections::BTreeSet;

/// The names of the shapes of a model, by the numbers of the shapes.
#[derive(Drop)]
pub(crate) struct Names<'a> {
    pub(crate) names: Vec<&'a str>,
}

// Adds the name in a shape's id to those that are there, or to those that are there twice, where it has a declaration.
fn add_shape<'a>(
    shape: &Shape<'a>,
    there: &mut BTreeSet<&'a str>,
    shared: &mut BTreeSet<&'a str>,
) -> Result<(), AllocError>
    ensures { OnOk result ((before : List model.Shape) → AreShared before there.old shared.old → AreShared (before ++ shape_view shape.now ∷ []) there.new shared.new) }
{
    if !is_declared(&shape.kind) {
        return Ok(());
    }
    let name = name_in(shape.id);
    if there.contains(name) {
        return add_id(shared, name);
    }
    add_id(there, name)
}

// The names that two shapes with a declaration have in their ids.
fn shared_names<'a>(alloc: Global, model: &Model<'a>) -> Result<BTreeSet<&'a str>, AllocError>
    ensures { IfOk result (λ shared. (name : List ℕ) → has_id shared name ≡ is_shared (model_view model.now).shapes name) }
{
    let mut there = BTreeSet::new(alloc);
    let mut shared = BTreeSet::new(alloc);
    for shape in &model.shapes {
        add_shape(shape, &mut there, &mut shared)?;
    }
    Ok(shared)
}

// The name of a shape: the one in its id, but the whole id where no declaration may have that, or it is shared.
fn name_for<'a>(shared: &BTreeSet<&'a str>, id: &'a str) -> &'a str
    ensures { result.now ≡ (if is_reserved (name_in id.now) || has_id shared.now (name_in id.now) then id.now else name_in id.now) }
{
    let name = name_in(id);
    if is_reserved(name) {
        return id;
    }
    if shared.contains(name) {
        return id;
    }
    name
}

impl<'a> Names<'a> {
    /// The names of the shapes of this model.
    pub(crate) fn of(alloc: Global, model: &Model<'a>) -> Result<Names<'a>, AllocError>
        ensures { IfOk result (λ names. names_view names ≡ names_of (model_view model.now)) }
    {
        let shared = shared_names(alloc, model)?;
        let mut names = Vec::with_capacity(alloc, model.shapes.len())?;
        for shape in &model.shapes {
            names.push(name_for(&shared, shape.id))?;
        }
        Ok(Names { names })
    }

    /// The name of the shape of this number.
    pub(crate) fn name(&self, number: usize) -> &'a str
        ensures { result.now ≡ name_of (names_view self.now) number }
    {
        match self.names.get(number) {
            Some(name) => *name,
            None => "",
        }
    }
}
