//! Which shapes a table can hold.
ghost use Rattle.std.specs.Prelude.{◌≡◌, ◌<◌, true, false, length, map, IfOk};
ghost use Rattle.std.specs.List.{list_all};
ghost use Rattle.smithy_model.specs.Views.{model_view, member_view, kind_view};
ghost use Rattle.smithy_model_table.specs.Leaving.{is_marked, has_mark, is_outside, is_left_out, is_uncarried, IsNoFurther, AreFewest};
ghost use Rattle.smithy_model_table.specs.Marking.{AreSupported, AreClosed, count_of_unmarked};
ghost use Rattle.smithy_model_table.specs.Views.{bindings_view};

use crate::bindings::Bindings;
use crate::marking::mark_in_order;
use smithy_model::{Kind, Member, Model, Shape};
use std::alloc::{AllocError, Global};

/// Whether a shape is marked; one that isn't there is.
pub(crate) fn is_marked(marks: &[bool], number: usize) -> bool
    ensures { result ≡ is_marked marks.now number }
{
    match marks.get(number) {
        Some(mark) => *mark,
        None => true,
    }
}

/// Whether a member travels outside of the body, where these bindings count.
pub(crate) fn is_outside(counting: Bindings, member: &Member<'_>) -> bool
    ensures { result ≡ is_outside (bindings_view counting) (member_view member.now) }
{
    counting.headers && member.in_headers
        || counting.request_line && member.in_request_line
        || counting.status_line && member.in_status_line
}

/// Whether no table has a member: its target is marked, or it travels outside.
pub(crate) fn is_left_out(marks: &[bool], counting: Bindings, member: &Member<'_>) -> bool
    ensures { result ≡ is_left_out marks.now (bindings_view counting) (member_view member.now) }
{
    is_marked(marks, member.number) || is_outside(counting, member)
}

// Whether the targets of all of these members are marked.
fn are_marked(marks: &[bool], members: &[Member<'_>]) -> bool
    ensures { result ≡ list_all (has_mark marks.now) (map member_view members.now) }
{
    for member in members {
        if !is_marked(marks, member.number) {
            return false;
        }
    }
    true
}

/// Whether nothing of a shape can stand in a table: it is a float or a stream of events, or a list, a map or a union of
/// nothing but such.
pub(crate) fn is_uncarried(marks: &[bool], shape: &Shape<'_>) -> bool
    ensures { result ≡ is_uncarried marks.now (kind_view shape.now.kind) }
{
    match &shape.kind {
        Kind::Float => true,
        Kind::EventStream => true,
        Kind::List(element) => is_marked(marks, element.number),
        Kind::Map(entry) => is_marked(marks, entry.value.number),
        Kind::Union(members) => are_marked(marks, members),
        _ => false,
    }
}

// Marks what follows from the marks so far, and tells whether there was some.
fn mark_more(model: &Model<'_>, marks: &mut Vec<bool>) -> bool
    requires { length marks.now.items ≡ length model.now.shapes.items }
    ensures further { IsNoFurther (model_view model.now) marks.old.items marks.new.items }
    ensures supported { AreSupported (model_view model.now) marks.old.items → AreSupported (model_view model.now) marks.new.items }
    ensures long { length marks.new.items ≡ length marks.old.items }
    ensures fewer { result ≡ true → count_of_unmarked marks.new.items < count_of_unmarked marks.old.items }
    ensures closed { result ≡ false → AreClosed (model_view model.now) marks.new.items }
{
    let mut found = false;
    for number in 0..model.shapes.len() {
        if marks[number] {
            continue;
        }
        if !is_uncarried(marks, &model.shapes[number]) {
            continue;
        }
        marks[number] = true;
        found = true;
    }
    found
}

/// For each shape whether nothing of it can stand in a table. The loop ends at once, as no mark is left for it to make; that it ends with
/// such marks is what it shows.
pub(crate) fn uncarried(alloc: Global, model: &Model<'_>) -> Result<Vec<bool>, AllocError>
    ensures { IfOk result (λ marks. AreFewest (model_view model.now) marks.items) }
{
    let mut marks = Vec::from_elem(alloc, false, model.shapes.len())?;
    mark_in_order(alloc, model, &mut marks)?;
    while mark_more(model, &mut marks) {}
    Ok(marks)
}
