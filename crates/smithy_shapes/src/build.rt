//! Builds a table of declarations that pass every test.
ghost use Rattle.std.specs.Prelude.{◌≡◌, ◌≤◌, length, map, unwrap_or, bytes_eq, position as first_position, IfOk};
ghost use Rattle.smithy_declarations.specs.Decl.{Decl as SpecDecl};
ghost use Rattle.smithy_declarations.specs.Acceptance.{places_of, place_of, target_of};
ghost use Rattle.smithy_declarations.specs.DeclViews.{decl_of, member_decl_of, place_words_of};
ghost use Rattle.smithy_shapes.specs.Views.{member_of, declaration_of};
ghost use Rattle.smithy_declarations.specs.Private.DeclNames.{declared_name};
ghost use Rattle.smithy_declarations.specs.Private.Order.{IsOrderOf};
ghost use Rattle.smithy_shapes.specs.Private.Placed.{members_with, declaration_with, table_with};

use crate::members::{MemberList, MemberShape};
use crate::shapes::{Declaration, ListShape, MapShape, Shape, Shapes};
use crate::targets::Sought;
use smithy_declarations::acceptance::check;
use smithy_declarations::acceptance::names::DeclaredNames;
use smithy_declarations::acceptance::places::{PlaceWords, Places};
use smithy_declarations::acceptance::words::{simple_target, time_format_of};
use smithy_declarations::names::{order_of, position_of};
use smithy_declarations::{Decl, MemberDecl, Place, ShapeRef, TableFault, Target};
use std::alloc::{AllocError, Global};

impl Shapes {
    ghost use Rattle.std.specs.Prelude.{IfErr};
    ghost use Rattle.smithy_declarations.specs.Acceptance.{build_of, accepted};
    ghost use Rattle.smithy_declarations.specs.DeclViews.{IsRefusedBy};

    /// The table of these declarations, or the first of the tests that some declaration fails, with the
    /// number of the first declaration that fails it, from 1.
    pub fn build(alloc: Global, decls: Vec<Decl>) -> Result<Shapes, TableFault>
        ensures built { IfOk result (λ shapes. build_of (map decl_of decls.items) ≡ accepted shapes) }
        ensures refused { IfErr result (IsRefusedBy (build_of (map decl_of decls.items))) }
    {
        let by_name = order_of(alloc, &DeclaredNames(decls.as_slice()))?;
        check(alloc, decls.as_slice(), by_name.as_slice())?;
        let places = all_places(alloc, decls.as_slice(), by_name.as_slice())?;
        let declarations = declarations_with(alloc, decls, places.as_slice())?;
        let has_timestamps = Sought::Timestamps.stand_in(declarations.as_slice());
        let has_documents = Sought::Documents.stand_in(declarations.as_slice());
        Ok(Shapes {
            declarations,
            by_name,
            has_timestamps,
            has_documents,
        })
    }
}

// The places of each declaration.
fn all_places(alloc: Global, decls: &[Decl], order: &[usize]) -> Result<Vec<Vec<Place>>, AllocError>
    requires few { length decls.now ≤ 65535 }
    requires in_order { IsOrderOf (map declared_name decls.now) order.now }
    ensures { IfOk result (λ all. map (λ p. p.items) all.items
        ≡ map (λ d. map (place_of (map decl_of decls.now)) (places_of (decl_of d).form)) decls.now) }
{
    let mut all = Vec::with_capacity(alloc, decls.len())?;
    for decl in decls {
        all.push(places_of(alloc, decls, order, decl)?)?;
    }
    Ok(all)
}

// The places of a declaration.
fn places_of(
    alloc: Global,
    decls: &[Decl],
    order: &[usize],
    decl: &Decl,
) -> Result<Vec<Place>, AllocError>
    requires few { length decls.now ≤ 65535 }
    requires in_order { IsOrderOf (map declared_name decls.now) order.now }
    ensures { IfOk result (λ places. places.items ≡ map (place_of (map decl_of decls.now)) (places_of (decl_of decl.now).form)) }
{
    let named = Places(decl);
    let mut places = Vec::with_capacity(alloc, named.count())?;
    for position in 0..named.count() {
        places.push(place_of(decls, order, named.at(position)))?;
    }
    Ok(places)
}

// The place that words name.
fn place_of(decls: &[Decl], order: &[usize], place: PlaceWords<'_>) -> Place
    requires few { length decls.now ≤ 65535 }
    requires in_order { IsOrderOf (map declared_name decls.now) order.now }
    ensures { result ≡ place_of (map decl_of decls.now) (place_words_of place.entry) }
{
    Place {
        target: target_of(decls, order, place.target),
        time: place.time.and_then(time_format_of),
    }
}

// The scalar, the document or the declaration of that name.
fn target_of(decls: &[Decl], order: &[usize], name: &str) -> Target
    requires few { length decls.now ≤ 65535 }
    requires in_order { IsOrderOf (map declared_name decls.now) order.now }
    ensures { result ≡ target_of (map decl_of decls.now) name.now }
{
    match simple_target(name) {
        Some(target) => target,
        None => Target::Declared(ShapeRef(number_of(decls, order, name))),
    }
}

// The number of the first declaration of that name, or 0.
fn number_of(decls: &[Decl], order: &[usize], name: &str) -> u32
    requires few { length decls.now ≤ 65535 }
    requires in_order { IsOrderOf (map declared_name decls.now) order.now }
    ensures { result ≡ unwrap_or (first_position (λ (d : SpecDecl). bytes_eq d.name name.now) (map decl_of decls.now)) 0 }
{
    match position_of(&DeclaredNames(decls), order, name) {
        Some(number) => number as u32,
        None => 0,
    }
}

// The declarations with their places.
fn declarations_with(
    alloc: Global,
    decls: Vec<Decl>,
    all: &[Vec<Place>],
) -> Result<Vec<Declaration>, AllocError>
    requires { map (λ p. length p.items) all.now ≡ map (λ d. length (places_of (decl_of d).form)) decls.items }
    ensures { IfOk result (λ v. map declaration_of v.items ≡ table_with (map decl_of decls.items) (map (λ p. p.items) all.now)) }
{
    let mut declarations = Vec::with_capacity(alloc, decls.len())?;
    for decl in decls {
        let places = &all[declarations.len()];
        declarations.push(declaration_with(alloc, decl, places.as_slice())?)?;
    }
    Ok(declarations)
}

// A declaration with its places.
fn declaration_with(alloc: Global, decl: Decl, places: &[Place]) -> Result<Declaration, AllocError>
    requires { length (places_of (decl_of decl).form) ≤ length places.now }
    ensures { IfOk result (λ v. declaration_of v ≡ declaration_with (decl_of decl) places.now) }
{
    match decl {
        Decl::Structure { name, members } => Ok(Declaration {
            name,
            shape: Shape::Structure(member_list_with(alloc, members, places)?),
        }),
        Decl::Union { name, members } => Ok(Declaration {
            name,
            shape: Shape::Union(member_list_with(alloc, members, places)?),
        }),
        Decl::List {
            name,
            sparse,
            xml,
            ..
        } => Ok(Declaration {
            name,
            shape: Shape::List(ListShape {
                place: places[0],
                sparse,
                xml_name: xml,
            }),
        }),
        Decl::Map {
            name,
            sparse,
            key,
            value,
            ..
        } => Ok(Declaration {
            name,
            shape: Shape::Map(MapShape {
                place: places[0],
                sparse,
                key_name: key,
                value_name: value,
            }),
        }),
    }
}

fn member_list_with(
    alloc: Global,
    members: Vec<MemberDecl>,
    places: &[Place],
) -> Result<MemberList, AllocError>
    requires { length members.items ≤ length places.now }
    ensures { IfOk result (λ v. map member_of v.items.items ≡ members_with (map member_decl_of members.items) places.now) }
{
    MemberList::new(alloc, members_with(alloc, members, places)?)
}

// The members with their places.
fn members_with(
    alloc: Global,
    members: Vec<MemberDecl>,
    places: &[Place],
) -> Result<Vec<MemberShape>, AllocError>
    requires { length members.items ≤ length places.now }
    ensures { IfOk result (λ v. map member_of v.items ≡ members_with (map member_decl_of members.items) places.now) }
{
    let mut shapes: Vec<MemberShape> = Vec::with_capacity(alloc, members.len())?;
    for member in members {
        let place = places[shapes.len()];
        shapes.push(MemberShape {
            name: member.name,
            json_name: member.json,
            xml_name: member.xml,
            flat: member.flat,
            place,
        })?;
    }
    Ok(shapes)
}
