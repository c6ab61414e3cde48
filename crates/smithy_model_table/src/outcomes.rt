//! What becomes of the members of a structure or a union.
ghost use Rattle.std.specs.Prelude.{◌≡◌, ◌++◌, List, [], ◌∷◌, map, option_map, IfOk, OnOk};
ghost use Rattle.smithy_model.specs.Views.{model_view, member_view};
ghost use Rattle.smithy_model_table.specs.Leaving.{reason_of};
ghost use Rattle.smithy_model_table.specs.Outcomes.{LeftOut, IsOutcome, AreOutcomes, declared_of, left_of};
ghost use Rattle.smithy_model_table.specs.Taken.{AreTaken};
ghost use Rattle.smithy_model_table.specs.Views.{bindings_view, names_view, reason_view, left_view, outcome_view};
ghost use Rattle.smithy_declarations.specs.Decl as declared;
ghost use Rattle.smithy_declarations.specs.DeclViews.{member_decl_of};

use crate::bindings::Bindings;
use crate::carried::{is_marked, is_outside};
use crate::left::{Left, Reason};
use crate::members::declare_member;
use crate::names::Names;
use crate::taken::TakenNames;
use smithy_model::{Kind, Member, Model};
use smithy_shapes::MemberDecl;
use std::alloc::{AllocError, Global};

/// The structure or the union that has members: its id, and which bindings count in it.
#[derive(Clone, Copy)]
pub(crate) struct Owner<'a> {
    pub(crate) id: &'a str,
    pub(crate) counting: Bindings,
}

/// What becomes of a member.
#[derive(Drop)]
pub(crate) enum Outcome {
    Declared(MemberDecl),
    Left(Reason),
}

// Why a member is left out, whatever stands before it.
fn reason(
    model: &Model<'_>,
    marks: &[bool],
    counting: Bindings,
    member: &Member<'_>,
) -> Option<Reason>
    ensures { option_map reason_view result ≡ reason_of (model_view model.now) marks.now (bindings_view counting) (member_view member.now) }
{
    if is_outside(counting, member) {
        return Some(Reason::Outside);
    }
    if !is_marked(marks, member.number) {
        return None;
    }
    let Some(shape) = model.shapes.get(member.number) else {
        return Some(Reason::Float);
    };
    match &shape.kind {
        Kind::EventStream => Some(Reason::EventStream),
        _ => Some(Reason::Float),
    }
}

// What becomes of a member behind those that have these names.
fn decide<'a>(
    alloc: Global,
    model: &Model<'a>,
    marks: &[bool],
    names: &Names<'a>,
    counting: Bindings,
    taken: &TakenNames,
    member: &Member<'a>,
) -> Result<Outcome, AllocError>
    ensures { IfOk result (λ o. (earlier : List declared.MemberDecl) → AreTaken earlier taken.now
        → IsOutcome (model_view model.now) marks.now (names_view names.now) (bindings_view counting) earlier (member_view member.now) (outcome_view member.now.name.now o)) }
{
    if let Some(reason) = reason(model, marks, counting, member) {
        return Ok(Outcome::Left(reason));
    }
    let decl = declare_member(alloc, model, names, member)?;
    if taken.clash_with(&decl) {
        return Ok(Outcome::Left(Reason::Clash));
    }
    Ok(Outcome::Declared(decl))
}

// Adds what becomes of the member of this name.
fn add_outcome<'a>(
    alloc: Global,
    shape: &'a str,
    member: &'a str,
    outcome: Outcome,
    taken: &mut TakenNames,
    decls: &mut Vec<MemberDecl>,
    left: &mut Vec<Left<'a>>,
) -> Result<(), AllocError>
    ensures declared { OnOk result (map member_decl_of decls.new.items ≡ map member_decl_of decls.old.items ++ declared_of (outcome_view member.now outcome ∷ [])) }
    ensures left { OnOk result (map left_view left.new.items ≡ map left_view left.old.items ++ left_of shape.now (outcome_view member.now outcome ∷ [])) }
    ensures taken { OnOk result ((earlier : List declared.MemberDecl) → AreTaken earlier taken.old → AreTaken (earlier ++ declared_of (outcome_view member.now outcome ∷ [])) taken.new) }
{
    match outcome {
        Outcome::Declared(decl) => {
            taken.add(alloc, &decl)?;
            Ok(decls.push(decl)?)
        }
        Outcome::Left(reason) => Ok(left.push(Left {
            shape,
            member,
            reason,
        })?),
    }
}

/// The declarations of the members that a table holds, in the model's order. The others are added to `left`.
pub(crate) fn declare_members<'a>(
    alloc: Global,
    model: &Model<'a>,
    marks: &[bool],
    names: &Names<'a>,
    owner: &Owner<'a>,
    members: &[Member<'a>],
    left: &mut Vec<Left<'a>>,
) -> Result<Vec<MemberDecl>, AllocError>
    ensures { IfOk result (λ decls. (added : List LeftOut) × (map left_view left.new.items ≡ map left_view left.old.items ++ added)
        × AreOutcomes (model_view model.now) marks.now (names_view names.now) (bindings_view owner.now.counting) owner.now.id.now (map member_view members.now) (map member_decl_of decls.items) added) }
{
    let mut taken = TakenNames::none(alloc);
    let mut decls = Vec::new(alloc);
    for member in members {
        let outcome = decide(alloc, model, marks, names, owner.counting, &taken, member)?;
        add_outcome(
            alloc,
            owner.id,
            member.name,
            outcome,
            &mut taken,
            &mut decls,
            left,
        )?;
    }
    Ok(decls)
}
