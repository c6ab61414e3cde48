//! The tests that declarations have to pass to be a table.
ghost use Rattle.std.specs.Prelude.{◌≡◌, ◌+◌, ◌&&◌, [], take, map, not, IfOk, IfErr, OnOk, None};
ghost use Rattle.std.specs.List.{list_any, list_all};
ghost use Rattle.smithy_declarations.specs.Names.{is_simple_name, is_query_name};
ghost use Rattle.smithy_declarations.specs.Acceptance.{refused, is_duplicate, is_declared, has_clash as has_clash_of_members, has_unfit_name, has_one_entry_name, has_sparse_documents, query_name_of, places_of, first_failing, first_fault, tests, build_of};
ghost use Rattle.smithy_declarations.specs.Private.PlaceTests.{has_unknown_time};
ghost use Rattle.smithy_declarations.specs.DeclViews.{decl_of, member_decl_of, place_words_of, IsRefusedBy};
ghost use Rattle.smithy_declarations.specs.Private.DeclNames.{declared_name};
ghost use Rattle.smithy_declarations.specs.Private.Order.{IsOrderOf};
ghost use Rattle.smithy_declarations.specs.Private.Tests.{place_test_of, test_of, fault_of};

pub mod names;
pub mod places;
pub mod words;

use crate::decl::{Decl, MemberDecl};
use crate::fault::TableFault;
use crate::names::{Named, has_clash, position_of};
use names::{DeclaredNames, JsonNames, MemberNames, QueryNames, given_or};
use places::{PlaceWords, Places};
use std::alloc::{AllocError, Global};
use words::{is_float_name, is_query_name, is_reserved, simple_target, time_format_of};

/// The most declarations of a table, and members of a declaration.
const LIMIT: usize = 65_535;

/// A test that each declaration has to pass.
#[derive(Clone, Copy)]
pub enum Test {
    FloatShape,
    UnknownTarget,
    UnknownTimeFormat,
    DuplicateShape,
    NameClash,
    QueryName,
    KeyValueName,
    SparseDocument,
    TooMany,
}

/// The tests in the order in which they are made.
const TESTS: [Test; 9] = [
    Test::FloatShape,
    Test::UnknownTarget,
    Test::UnknownTimeFormat,
    Test::DuplicateShape,
    Test::NameClash,
    Test::QueryName,
    Test::KeyValueName,
    Test::SparseDocument,
    Test::TooMany,
];

/// A test that each place of a declaration has to pass.
#[derive(Clone, Copy)]
pub enum PlaceTest {
    FloatTarget,
    UnknownTarget,
    UnknownTime,
}

/// Makes the tests one after the other over all declarations, which `order` has in the order of their names.
pub fn check(alloc: Global, decls: &[Decl], order: &[usize]) -> Result<(), TableFault>
    requires { IsOrderOf (map declared_name decls.now) order.now }
    ensures passed { OnOk result (first_fault (map decl_of decls.now) tests ≡ None) }
    ensures refused { IfErr result (IsRefusedBy (build_of (map decl_of decls.now))) }
{
    for test in TESTS {
        if let Some(number) = first_failing(alloc, test, decls, order)? {
            return Err(test.fault(number));
        }
    }
    Ok(())
}

// The number of the first declaration that fails the test, from 1.
fn first_failing(
    alloc: Global,
    test: Test,
    decls: &[Decl],
    order: &[usize],
) -> Result<Option<u64>, AllocError>
    requires { IsOrderOf (map declared_name decls.now) order.now }
    ensures { IfOk result (λ number. number ≡ first_failing (map decl_of decls.now) (test_of test)) }
{
    for (position, decl) in decls.iter().enumerate() {
        if test.fails(alloc, decls, order, position, decl)? {
            return Ok(Some(position as u64 + 1));
        }
    }
    Ok(None)
}

impl Test {
    // The declaration at that position, from 0, fails the test.
    fn fails(
        self,
        alloc: Global,
        decls: &[Decl],
        order: &[usize],
        position: usize,
        decl: &Decl,
    ) -> Result<bool, AllocError>
        requires { IsOrderOf (map declared_name decls.now) order.now }
        ensures { IfOk result (λ fails. fails ≡ test_of self (map decl_of decls.now) (position + 1) (decl_of decl.now)) }
    {
        match self {
            Test::FloatShape => Ok(PlaceTest::FloatTarget.fails_at_some(decls, order, decl)),
            Test::UnknownTarget => Ok(PlaceTest::UnknownTarget.fails_at_some(decls, order, decl)),
            Test::UnknownTimeFormat => Ok(PlaceTest::UnknownTime.fails_at_some(decls, order, decl)),
            Test::DuplicateShape => Ok(is_duplicate(decls, order, position, decl)),
            Test::NameClash => has_clash_of_members(alloc, decl),
            Test::QueryName => Ok(has_unfit_name(decl)),
            Test::KeyValueName => Ok(has_one_entry_name(decl)),
            Test::SparseDocument => Ok(has_sparse_documents(decl)),
            Test::TooMany => Ok(decl.members().len() > LIMIT || position == LIMIT),
        }
    }

    // The fault of a declaration that fails the test.
    fn fault(self, number: u64) -> TableFault
        ensures { IsRefusedBy (refused (fault_of self) number) result }
    {
        match self {
            Test::FloatShape => TableFault::FloatShape(number),
            Test::UnknownTarget => TableFault::UnknownTarget(number),
            Test::UnknownTimeFormat => TableFault::UnknownTimeFormat(number),
            Test::DuplicateShape => TableFault::DuplicateShape(number),
            Test::NameClash => TableFault::NameClash(number),
            Test::QueryName => TableFault::QueryName(number),
            Test::KeyValueName => TableFault::KeyValueName(number),
            Test::SparseDocument => TableFault::SparseDocument(number),
            Test::TooMany => TableFault::TooMany(number),
        }
    }
}

impl PlaceTest {
    // Some place of the declaration fails the test.
    fn fails_at_some(self, decls: &[Decl], order: &[usize], decl: &Decl) -> bool
        requires { IsOrderOf (map declared_name decls.now) order.now }
        ensures { result ≡ list_any (place_test_of self (map decl_of decls.now)) (places_of (decl_of decl.now).form) }
    {
        let places = Places(decl);
        for position in 0..places.count() {
            if self.fails(decls, order, places.at(position)) {
                return true;
            }
        }
        false
    }

    // The place fails the test.
    fn fails(self, decls: &[Decl], order: &[usize], place: PlaceWords<'_>) -> bool
        requires { IsOrderOf (map declared_name decls.now) order.now }
        ensures { result ≡ place_test_of self (map decl_of decls.now) (place_words_of place.entry) }
    {
        match self {
            PlaceTest::FloatTarget => is_float_name(place.target),
            PlaceTest::UnknownTarget => is_unknown(decls, order, place.target),
            PlaceTest::UnknownTime => has_unknown_time(place),
        }
    }
}

// The time form is none of the three.
fn has_unknown_time(place: PlaceWords<'_>) -> bool
    ensures { result ≡ has_unknown_time (place_words_of place.entry) }
{
    match place.time {
        Some(word) => time_format_of(word).is_none(),
        None => false,
    }
}

// The target is neither a scalar, nor a document, nor a declared name.
fn is_unknown(decls: &[Decl], order: &[usize], target: &str) -> bool
    requires { IsOrderOf (map declared_name decls.now) order.now }
    ensures { result ≡ (not (is_simple_name target.now) && not (is_declared (map decl_of decls.now) target.now)) }
{
    simple_target(target).is_none() && position_of(&DeclaredNames(decls), order, target).is_none()
}

// The name is reserved, or that of a declaration before that position.
fn is_duplicate(decls: &[Decl], order: &[usize], position: usize, decl: &Decl) -> bool
    requires { IsOrderOf (map declared_name decls.now) order.now }
    ensures { result ≡ is_duplicate (map decl_of decls.now) (position + 1) (decl_of decl.now) }
{
    is_reserved(decl.name()) || is_declared_before(decls, order, position, decl.name())
}

fn is_declared_before(decls: &[Decl], order: &[usize], position: usize, name: &str) -> bool
    requires { IsOrderOf (map declared_name decls.now) order.now }
    ensures { result ≡ is_declared (take position (map decl_of decls.now)) name.now }
{
    match position_of(&DeclaredNames(decls), order, name) {
        Some(first) => first < position,
        None => false,
    }
}

// Two members have one name, one JSON name or one name in a form.
fn has_clash_of_members(alloc: Global, decl: &Decl) -> Result<bool, AllocError>
    ensures { IfOk result (λ clash. clash ≡ has_clash_of_members [] 0 (decl_of decl.now)) }
{
    let members = decl.members();
    Ok(
        has_clash(alloc, &MemberNames(members))?
            || has_clash(alloc, &JsonNames(members))?
            || has_clash(alloc, &QueryNames(members))?,
    )
}

// A name can't stand in the path of a form.
fn has_unfit_name(decl: &Decl) -> bool
    ensures { result ≡ has_unfit_name [] 0 (decl_of decl.now) }
{
    match decl {
        Decl::Structure { members, .. } => has_unfit_member(members.as_slice()),
        Decl::Union { members, .. } => has_unfit_member(members.as_slice()),
        Decl::List { xml, .. } => !is_query_name(given_or(xml, "member")),
        Decl::Map { key, value, .. } => {
            !is_query_name(given_or(key, "key")) || !is_query_name(given_or(value, "value"))
        }
    }
}

// A name of some member can't stand in the path of a form.
fn has_unfit_member(members: &[MemberDecl]) -> bool
    ensures { result ≡ not (list_all is_query_name (map query_name_of (map member_decl_of members.now))) }
{
    let names = QueryNames(members);
    for position in 0..names.count() {
        if !is_query_name(names.name_at(position)) {
            return true;
        }
    }
    false
}

// The keys and the values of a map have one name.
fn has_one_entry_name(decl: &Decl) -> bool
    ensures { result ≡ has_one_entry_name (decl_of decl.now).form }
{
    match decl {
        Decl::Map { key, value, .. } => given_or(key, "key") == given_or(value, "value"),
        _ => false,
    }
}

// A sparse list or map has documents.
fn has_sparse_documents(decl: &Decl) -> bool
    ensures { result ≡ has_sparse_documents (decl_of decl.now).form }
{
    match decl {
        Decl::List { target, sparse, .. } => *sparse && target.as_str() == "document",
        Decl::Map { target, sparse, .. } => *sparse && target.as_str() == "document",
        _ => false,
    }
}
