//! The walk through a body, by the places of a table.
ghost use Rattle.std.specs.Prelude.{◌≡◌, ◌≤◌, true, false, IfOk};
ghost use Rattle.smithy_declarations.specs.Table.{HasMembers};
ghost use Rattle.smithy_shapes.specs.Site.{site_of, kind_at};
ghost use Rattle.smithy_wire.specs.Node.{as_array, as_object};
ghost use Rattle.smithy_lint.specs.Private.Bodies.{HasValue, HasRest, HasKey};
ghost use Rattle.smithy_lint.specs.Private.Walks.{Passes, Visits, VisitsCollected, VisitsEntries, VisitsMembers, VisitsEntry, VisitsMember, IsMemberSite, IsVariantEntry, IsContainerOf};

use crate::body::{Beginning, Body, Next};
use crate::documents::visit_document;
use crate::elements::{dropped_end, pass_under, pass_with};
use crate::finding::Kind;
use crate::linter::{Label, Linter};
use crate::scalars::{Opened, open_container, scalar_of, visit_scalar};
use smithy_schema::{Schema, ShapeType};
use smithy_wire::Mark;
use std::alloc::{AllocError, Global};

// Goes through the value at the offset.
#[cycle(walk)]
pub(crate) fn visit<'b, B: Body>(
    alloc: Global,
    body: &'b B,
    linter: &mut Linter<'b>,
    schema: &Schema<'_>,
    at: usize,
    depth: usize,
) -> Result<usize, AllocError>
    requires there { HasValue (B.holding body.now) depth at }
    requires shallow { depth ≤ 128 }
    ensures { IfOk result (Visits (B.holding body.now) (B.rules body.now) (site_of schema.now).table (site_of schema.now).place depth at linter.old linter.new) }
{
    let kind = schema.shape_type();
    if let Some(scalar) = scalar_of(kind) {
        return visit_scalar(alloc, body, linter, schema, scalar, at, depth);
    }
    match kind {
        ShapeType::Document => visit_document(alloc, body, linter, at, depth),
        ShapeType::List => visit_list(alloc, body, linter, schema, at, depth),
        ShapeType::Map => visit_map(alloc, body, linter, schema, at, depth),
        _ => visit_structure(alloc, body, linter, schema, at, depth),
    }
}

#[cycle(walk)]
fn visit_list<'b, B: Body>(
    alloc: Global,
    body: &'b B,
    linter: &mut Linter<'b>,
    schema: &Schema<'_>,
    at: usize,
    depth: usize,
) -> Result<usize, AllocError>
    requires kind { IsContainerOf (kind_at (site_of schema.now)) true }
    requires there { HasValue (B.holding body.now) depth at }
    requires shallow { depth ≤ 128 }
    ensures { IfOk result (Visits (B.holding body.now) (B.rules body.now) (site_of schema.now).table (site_of schema.now).place depth at linter.old linter.new) }
{
    match open_container(alloc, body, linter, schema, true, at, depth)? {
        Opened::Past(end) => Ok(end),
        Opened::Inside(inside, mark) => {
            visit_elements(alloc, body, linter, schema, inside, mark, depth + 1)
        }
    }
}

// Goes through the elements of a list.
#[cycle(walk)]
fn visit_elements<'b, B: Body>(
    alloc: Global,
    body: &'b B,
    linter: &mut Linter<'b>,
    schema: &Schema<'_>,
    at: usize,
    mark: Mark,
    depth: usize,
) -> Result<usize, AllocError>
    requires kind { IsContainerOf (kind_at (site_of schema.now)) true }
    requires there { HasRest (B.holding body.now) as_array depth at mark }
    requires shallow { depth ≤ 128 }
    ensures { IfOk result (VisitsEntries (B.holding body.now) (B.rules body.now) (site_of schema.now).table (site_of schema.now).place as_array depth at mark linter.old linter.new) }
{
    let mut at = at;
    let mut mark = mark;
    let mut index: u64 = 0;
    'elements: loop {
        match body.next_element(at, mark, depth) {
            Next::End(end) => return Ok(end),
            Next::Entry(_, value, behind) => {
                linter.enter(Label::Element(index))?;
                at = visit_collected(alloc, body, linter, schema, value, depth)?;
                linter.leave();
                mark = behind;
                index += 1;
            }
        }
    }
}

// Goes through an element of a list or a value of a map.
#[cycle(walk)]
fn visit_collected<'b, B: Body>(
    alloc: Global,
    body: &'b B,
    linter: &mut Linter<'b>,
    schema: &Schema<'_>,
    at: usize,
    depth: usize,
) -> Result<usize, AllocError>
    requires there { HasValue (B.holding body.now) depth at }
    requires shallow { depth ≤ 128 }
    ensures { IfOk result (VisitsCollected (B.holding body.now) (B.rules body.now) (site_of schema.now) depth at linter.old linter.new) }
{
    let Some(element) = schema.member() else {
        return pass_with(alloc, body, linter, Kind::Mismatch, at, depth);
    };
    let Beginning::Null(end) = body.begins(at) else {
        return visit(alloc, body, linter, &element, at, depth);
    };
    if schema.is_sparse() {
        return Ok(end);
    }
    if element.shape_type() == ShapeType::Document {
        return visit(alloc, body, linter, &element, at, depth);
    }
    pass_with(alloc, body, linter, Kind::Null, at, depth)
}

#[cycle(walk)]
fn visit_map<'b, B: Body>(
    alloc: Global,
    body: &'b B,
    linter: &mut Linter<'b>,
    schema: &Schema<'_>,
    at: usize,
    depth: usize,
) -> Result<usize, AllocError>
    requires kind { IsContainerOf (kind_at (site_of schema.now)) false }
    requires map { HasMembers (kind_at (site_of schema.now)) → ⊥ }
    requires there { HasValue (B.holding body.now) depth at }
    requires shallow { depth ≤ 128 }
    ensures { IfOk result (Visits (B.holding body.now) (B.rules body.now) (site_of schema.now).table (site_of schema.now).place depth at linter.old linter.new) }
{
    match open_container(alloc, body, linter, schema, false, at, depth)? {
        Opened::Past(end) => Ok(end),
        Opened::Inside(inside, mark) => {
            visit_entries(alloc, body, linter, schema, inside, mark, depth + 1)
        }
    }
}

// Goes through the entries of a map.
#[cycle(walk)]
fn visit_entries<'b, B: Body>(
    alloc: Global,
    body: &'b B,
    linter: &mut Linter<'b>,
    schema: &Schema<'_>,
    at: usize,
    mark: Mark,
    depth: usize,
) -> Result<usize, AllocError>
    requires kind { IsContainerOf (kind_at (site_of schema.now)) false }
    requires map { HasMembers (kind_at (site_of schema.now)) → ⊥ }
    requires there { HasRest (B.holding body.now) as_object depth at mark }
    requires shallow { depth ≤ 128 }
    ensures { IfOk result (VisitsEntries (B.holding body.now) (B.rules body.now) (site_of schema.now).table (site_of schema.now).place as_object depth at mark linter.old linter.new) }
{
    let mut at = at;
    let mut mark = mark;
    'entries: loop {
        match body.next_entry(alloc, at, mark, depth)? {
            Next::End(end) => return Ok(end),
            Next::Entry(key, value, behind) => {
                at = visit_map_entry(alloc, body, linter, schema, key, value, depth)?;
                mark = behind;
            }
        }
    }
}

// Goes through one entry of a map.
#[cycle(walk)]
fn visit_map_entry<'b, B: Body>(
    alloc: Global,
    body: &'b B,
    linter: &mut Linter<'b>,
    schema: &Schema<'_>,
    key: usize,
    at: usize,
    depth: usize,
) -> Result<usize, AllocError>
    requires kind { IsContainerOf (kind_at (site_of schema.now)) false }
    requires map { HasMembers (kind_at (site_of schema.now)) → ⊥ }
    requires key { HasKey (B.holding body.now) key }
    requires there { HasValue (B.holding body.now) depth at }
    requires shallow { depth ≤ 128 }
    ensures passes { IfOk result (Passes (B.holding body.now) depth at linter.old linter.new) }
    ensures found { IfOk result (VisitsEntry (B.holding body.now) (B.rules body.now) (site_of schema.now) depth key at linter.old linter.new) }
{
    let Some(text) = body.key_text(alloc, key)? else {
        return pass_with(alloc, body, linter, Kind::Key, at, depth);
    };
    linter.enter(Label::Key(text))?;
    let end = visit_collected(alloc, body, linter, schema, at, depth)?;
    linter.leave();
    Ok(end)
}

// Goes through a structure or a union.
#[cycle(walk)]
fn visit_structure<'b, B: Body>(
    alloc: Global,
    body: &'b B,
    linter: &mut Linter<'b>,
    schema: &Schema<'_>,
    at: usize,
    depth: usize,
) -> Result<usize, AllocError>
    requires kind { HasMembers (kind_at (site_of schema.now)) }
    requires there { HasValue (B.holding body.now) depth at }
    requires shallow { depth ≤ 128 }
    ensures { IfOk result (Visits (B.holding body.now) (B.rules body.now) (site_of schema.now).table (site_of schema.now).place depth at linter.old linter.new) }
{
    match open_container(alloc, body, linter, schema, false, at, depth)? {
        Opened::Past(end) => Ok(end),
        Opened::Inside(inside, mark) => {
            visit_members(alloc, body, linter, schema, inside, mark, depth + 1)
        }
    }
}

// Goes through the entries of a structure or a union, and tells where a union doesn't have one member.
#[cycle(walk)]
fn visit_members<'b, B: Body>(
    alloc: Global,
    body: &'b B,
    linter: &mut Linter<'b>,
    schema: &Schema<'_>,
    at: usize,
    mark: Mark,
    depth: usize,
) -> Result<usize, AllocError>
    requires kind { HasMembers (kind_at (site_of schema.now)) }
    requires there { HasRest (B.holding body.now) as_object depth at mark }
    requires shallow { depth ≤ 128 }
    ensures { IfOk result (VisitsMembers (B.holding body.now) (B.rules body.now) (site_of schema.now).table (site_of schema.now).place depth at mark linter.old linter.new) }
{
    let mut at = at;
    let mut mark = mark;
    let mut variants: u64 = 0;
    'members: loop {
        match body.next_entry(alloc, at, mark, depth)? {
            Next::End(end) => {
                if schema.shape_type() == ShapeType::Union && variants != 1 {
                    linter.report(alloc, Kind::Union)?;
                }
                return Ok(end);
            }
            Next::Entry(key, value, behind) => {
                let (end, is_variant) = visit_entry(
                    alloc, body, linter, schema, key, value, depth,
                )?;
                at = end;
                mark = behind;
                if is_variant {
                    variants += 1;
                }
            }
        }
    }
}

// Goes through one entry of a structure or a union, and tells whether it is neither dropped nor a mark.
#[cycle(walk)]
fn visit_entry<'b, B: Body>(
    alloc: Global,
    body: &'b B,
    linter: &mut Linter<'b>,
    schema: &Schema<'_>,
    key: usize,
    at: usize,
    depth: usize,
) -> Result<(usize, bool), AllocError>
    requires kind { HasMembers (kind_at (site_of schema.now)) }
    requires key { HasKey (B.holding body.now) key }
    requires there { HasValue (B.holding body.now) depth at }
    requires shallow { depth ≤ 128 }
    ensures passes { IfOk result (λ a. Passes (B.holding body.now) depth at linter.old linter.new a.0) }
    ensures found { IfOk result (λ a. VisitsEntry (B.holding body.now) (B.rules body.now) (site_of schema.now) depth key at linter.old linter.new a.0) }
    ensures variant { IfOk result (λ a. IsVariantEntry (B.holding body.now) (B.rules body.now) (kind_at (site_of schema.now)) depth key at a.1) }
{
    let beginning = body.begins(at);
    let Some(text) = body.key_text(alloc, key)? else {
        let is_absent = dropped_end(beginning, body.keeps_null(&None)).is_some();
        let end = pass_with(alloc, body, linter, Kind::Key, at, depth)?;
        return Ok((end, !is_absent));
    };
    let member = body.member_named(schema, text.as_str());
    if let Some(end) = dropped_end(beginning, body.keeps_null(&member)) {
        return Ok((end, false));
    }
    let Some(inner) = &member else {
        return pass_under(alloc, body, linter, text, at, depth);
    };
    let end = visit_member(alloc, body, linter, inner, at, depth)?;
    Ok((end, true))
}

// Goes through the value of a member.
#[cycle(walk)]
fn visit_member<'b, B: Body>(
    alloc: Global,
    body: &'b B,
    linter: &mut Linter<'b>,
    schema: &Schema<'_>,
    at: usize,
    depth: usize,
) -> Result<usize, AllocError>
    requires member { IsMemberSite (site_of schema.now) }
    requires there { HasValue (B.holding body.now) depth at }
    requires shallow { depth ≤ 128 }
    ensures { IfOk result (VisitsMember (B.holding body.now) (B.rules body.now) (site_of schema.now) depth at linter.old linter.new) }
{
    let Some(position) = schema.member_index() else {
        unreachable!()
    };
    linter.enter(Label::Member(position))?;
    let end = visit(alloc, body, linter, schema, at, depth)?;
    linter.leave();
    Ok(end)
}
