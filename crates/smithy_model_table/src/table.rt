//! The table of what is wanted of a model.
ghost use Rattle.std.specs.Prelude.{map, IfOk, IfErr};
ghost use Rattle.smithy_model.specs.Views.{model_view};
ghost use Rattle.smithy_declarations.specs.DeclViews.{decl_of};
ghost use Rattle.smithy_model_table.specs.ModelTable.{IsMade, IsTableOf};
ghost use Rattle.smithy_model_table.specs.Visiting.{DeclaresReached};
ghost use Rattle.smithy_model_table.specs.Refusals.{RefusesWanted};
ghost use Rattle.smithy_model_table.specs.Views.{left_view, wanted_view};

use crate::carried::uncarried;
use crate::declaring::{Declared, declare_all};
use crate::fault::WantedFault;
use crate::left::Left;
use crate::names::Names;
use crate::reached::reached;
use crate::roles::Roles;
use crate::wanted::{Wanted, roots_of};
use smithy_model::Model;
use smithy_table_text::text_of;
use std::alloc::{AllocError, Global};

// The most shapes of a model.
const MAX_SHAPES: usize = 65_535;

/// The text of a table, and the members that it leaves out.
#[derive(Drop)]
pub struct ModelTable<'a> {
    pub text: Vec<u8>,
    pub left: Vec<Left<'a>>,
}

// The declarations of the shapes that these reach, and what they leave out.
fn declare_reached<'a>(
    alloc: Global,
    model: &Model<'a>,
    marks: &[bool],
    roots: &[usize],
) -> Result<Declared<'a>, AllocError>
    ensures { IfOk result (λ d. DeclaresReached (model_view model.now) marks.now roots.now (map decl_of d.decls.items) (map left_view d.left.items)) }
{
    let roles = Roles::of(alloc, model)?;
    let order = reached(alloc, model, &roles, marks, roots)?;
    let names = Names::of(alloc, model)?;
    declare_all(alloc, model, &roles, marks, &names, &order)
}

// The declarations of what is wanted of a model, and what they leave out.
fn declare<'a>(
    alloc: Global,
    model: &Model<'a>,
    wanted: Wanted<'_>,
) -> Result<Declared<'a>, WantedFault>
    ensures made { IfOk result (λ d. IsMade (model_view model.now) (wanted_view wanted.entry) (map decl_of d.decls.items) (map left_view d.left.items)) }
    ensures refused { IfErr result (RefusesWanted (model_view model.now) (wanted_view wanted.entry)) }
{
    if model.shapes.len() > MAX_SHAPES {
        return Err(WantedFault::TooLong);
    }
    let marks = uncarried(alloc, model)?;
    let roots = roots_of(alloc, model, &marks, wanted)?;
    Ok(declare_reached(alloc, model, &marks, &roots)?)
}

/// The table of what is wanted of a model: the shapes that are reached from it. The model is let go before the text is made, so that
/// both are never held at a time.
pub fn table_of<'a>(
    alloc: Global,
    model: Model<'a>,
    wanted: Wanted<'_>,
) -> Result<ModelTable<'a>, WantedFault>
    ensures table { IfOk result (λ t. IsTableOf (model_view model.entry) (wanted_view wanted.entry) t.text.items (map left_view t.left.items)) }
    ensures refused { IfErr result (RefusesWanted (model_view model.entry) (wanted_view wanted.entry)) }
{
    let declared = declare(alloc, &model, wanted)?;
    drop(model);
    let text = text_of(alloc, &declared.decls)?;
    Ok(ModelTable {
        text,
        left: declared.left,
    })
}
