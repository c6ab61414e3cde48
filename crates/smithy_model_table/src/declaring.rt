//! The declarations of shapes.
ghost use Rattle.std.specs.Prelude.{◌≡◌, ◌++◌, List, map as list_map, option_map, option_to_list, IfOk, OnOk};
ghost use Rattle.smithy_model.specs.Views.{model_view, member_view, shape_view};
ghost use Rattle.smithy_model_table.specs.Declaring.{is_sparse, list_decl, map_decl};
ghost use Rattle.smithy_model_table.specs.Outcomes.{LeftOut, IsPartAt, AreParts};
ghost use Rattle.smithy_model_table.specs.Roles.{KnowsRoles};
ghost use Rattle.smithy_model_table.specs.Views.{names_view, left_view};
ghost use Rattle.smithy_declarations.specs.Decl.{list, map};
ghost use Rattle.smithy_declarations.specs.DeclViews.{decl_of};

use crate::bindings::{bindings_of, no_bindings};
use crate::left::Left;
use crate::names::Names;
use crate::outcomes::{Owner, declare_members};
use crate::places::{owned, owned_if, part_name, shape_at, target_word, time_of};
use crate::roles::Roles;
use smithy_model::{Entry, Kind, Member, Model, Shape};
use smithy_shapes::Decl;
use std::alloc::{AllocError, Global};

/// The declarations so far, and the members that they leave out.
#[derive(Drop)]
pub(crate) struct Declared<'a> {
    pub(crate) decls: Vec<Decl>,
    pub(crate) left: Vec<Left<'a>>,
}

// Whether a list or a map is sparse. A null is a document, so one of documents isn't.
fn is_sparse<'a>(model: &Model<'a>, names: &Names<'a>, shape: &Shape<'a>, part: &Member<'a>) -> bool
    ensures { result ≡ is_sparse (model_view model.now) (names_view names.now) (shape_view shape.now) (member_view part.now) }
{
    shape.is_sparse && target_word(model, names, part) != "document"
}

// The declaration of a list.
fn declare_list<'a>(
    alloc: Global,
    model: &Model<'a>,
    names: &Names<'a>,
    name: &'a str,
    shape: &Shape<'a>,
    element: &Member<'a>,
) -> Result<Decl, AllocError>
    ensures { IfOk result (λ d. decl_of d ≡ record { name = name.now; form = list (list_decl (model_view model.now) (names_view names.now) (shape_view shape.now) (member_view element.now)) }) }
{
    Ok(Decl::List {
        name: owned(alloc, name)?,
        target: owned(alloc, target_word(model, names, element))?,
        sparse: is_sparse(model, names, shape, element),
        xml: part_name(alloc, model, "member", element)?,
        time: owned_if(alloc, time_of(model, element))?,
    })
}

// The declaration of a map.
fn declare_map<'a>(
    alloc: Global,
    model: &Model<'a>,
    names: &Names<'a>,
    name: &'a str,
    shape: &Shape<'a>,
    entry: &Entry<'a>,
) -> Result<Decl, AllocError>
    ensures { IfOk result (λ d. decl_of d ≡ record { name = name.now; form = map (map_decl (model_view model.now) (names_view names.now) (shape_view shape.now) (member_view entry.now.key) (member_view entry.now.value)) }) }
{
    Ok(Decl::Map {
        name: owned(alloc, name)?,
        target: owned(alloc, target_word(model, names, &entry.value))?,
        sparse: is_sparse(model, names, shape, &entry.value),
        key: part_name(alloc, model, "key", &entry.key)?,
        value: part_name(alloc, model, "value", &entry.value)?,
        time: owned_if(alloc, time_of(model, &entry.value))?,
    })
}

// The declaration of the shape of this number: none of a scalar, a document or a stream. What it leaves out is added to `left`.
fn declare_shape<'a>(
    alloc: Global,
    model: &Model<'a>,
    roles: &Roles,
    marks: &[bool],
    names: &Names<'a>,
    number: usize,
    left: &mut Vec<Left<'a>>,
) -> Result<Option<Decl>, AllocError>
    requires { KnowsRoles (model_view model.now) roles.now }
    ensures { IfOk result (λ d. (added : List LeftOut) × (list_map left_view left.new.items ≡ list_map left_view left.old.items ++ added)
        × IsPartAt (model_view model.now) marks.now (names_view names.now) number (record { decls = option_to_list (option_map decl_of d); left = added })) }
{
    let Some(shape) = shape_at(model, number) else {
        return Ok(None);
    };
    let name = names.name(number);
    match &shape.kind {
        Kind::Structure(members) => {
            let owner = Owner {
                id: shape.id,
                counting: bindings_of(model, roles, number),
            };
            Ok(Some(Decl::Structure {
                name: owned(alloc, name)?,
                members: declare_members(alloc, model, marks, names, &owner, members, left)?,
            }))
        }
        Kind::Union(members) => {
            let owner = Owner {
                id: shape.id,
                counting: no_bindings(),
            };
            Ok(Some(Decl::Union {
                name: owned(alloc, name)?,
                members: declare_members(alloc, model, marks, names, &owner, members, left)?,
            }))
        }
        Kind::List(element) => Ok(Some(declare_list(alloc, model, names, name, shape, element)?)),
        Kind::Map(entry) => Ok(Some(declare_map(alloc, model, names, name, shape, entry)?)),
        _ => Ok(None),
    }
}

// Adds a declaration, if there is one.
fn add_decl(decls: &mut Vec<Decl>, decl: Option<Decl>) -> Result<(), AllocError>
    ensures { OnOk result (list_map decl_of decls.new.items ≡ list_map decl_of decls.old.items ++ option_to_list (option_map decl_of decl)) }
{
    match decl {
        Some(decl) => Ok(decls.push(decl)?),
        None => Ok(()),
    }
}

/// The declarations of the shapes of these numbers, in this order, and what they leave out.
pub(crate) fn declare_all<'a>(
    alloc: Global,
    model: &Model<'a>,
    roles: &Roles,
    marks: &[bool],
    names: &Names<'a>,
    order: &[usize],
) -> Result<Declared<'a>, AllocError>
    requires { KnowsRoles (model_view model.now) roles.now }
    ensures { IfOk result (λ all. AreParts (model_view model.now) marks.now (names_view names.now) order.now (list_map decl_of all.decls.items) (list_map left_view all.left.items)) }
{
    let mut decls = Vec::new(alloc);
    let mut left = Vec::new(alloc);
    for number in order {
        let decl = declare_shape(alloc, model, roles, marks, names, *number, &mut left)?;
        add_decl(&mut decls, decl)?;
    }
    Ok(Declared { decls, left })
}
