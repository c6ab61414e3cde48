//! The parts of a value or a document, one after another.
ghost use Rattle.std.specs.Prelude.{◌≡◌, ◌<◌, ◌^◌, suc, drop};
ghost use Rattle.smithy_compare.specs.FirstPath.{step_cmp};
ghost use Rattle.smithy_compare.specs.Private.Nodes.{step_at, elements_from, numbers_from, entries_in, members_in, items_from, parts_of};
ghost use Rattle.smithy_compare.specs.Private.Standing.{ChildrenStand, PartsStand};
ghost use Rattle.smithy_compare.specs.Private.Taking.{TakesPart};

use crate::node::Node;
use smithy_tree::{Pool, Slot};
use smithy_types::Document;
use std::cmp::Ordering;
use std::collections::btree_map::Iter;

/// One step to a part, with a key where it is kept.
#[derive(Clone, Copy)]
pub enum Label<'v> {
    /// To the member at this position.
    Member(u32),
    /// To the element at this index.
    Element(usize),
    /// To the value of this key.
    Key(&'v str),
}

impl Label<'_> {
    // Which of two steps comes first.
    pub(crate) fn order(&self, other: &Label<'_>) -> Ordering
        ensures { result ≡ step_cmp (step_at self.now) (step_at other.now) }
    {
        match self {
            Label::Member(position) => match other {
                Label::Member(at) => position.cmp(at),
                Label::Element(_) | Label::Key(_) => Ordering::Less,
            },
            Label::Element(index) => match other {
                Label::Member(_) => Ordering::Greater,
                Label::Element(at) => index.cmp(at),
                Label::Key(_) => Ordering::Less,
            },
            Label::Key(key) => match other {
                Label::Member(_) | Label::Element(_) => Ordering::Greater,
                Label::Key(at) => (*key).cmp(*at),
            },
        }
    }
}

/// The parts that are left.
#[derive(Drop)]
pub enum Parts<'v> {
    /// None.
    Nothing,
    /// The elements of a list from an index on.
    Elements(&'v Pool<'v>, usize, &'v [Slot]),
    /// The whole numbers of a list from an index on.
    Numbers(usize, &'v [i64]),
    /// The entries that are left of a map.
    Entries(&'v Pool<'v>, &'v [Slot]),
    /// The members that are left of a structure.
    Members(&'v Pool<'v>, &'v [Slot]),
    /// The member of a union, until it was given.
    Only(&'v Pool<'v>, &'v Slot),
    /// The elements of an array from an index on.
    Items(usize, &'v [Document]),
    /// The properties that are left of an object.
    Properties(Iter<'v, String, Document>),
}

// The step to the element at an index, which goes on to the one behind it.
fn step_past<'v>(index: &mut usize) -> Label<'v>
    requires room { suc index.now < 2 ^ 64 }
    ensures step { result ≡ Label.Element index.old }
    ensures next { index.new ≡ suc index.old }
{
    let at = *index;
    *index = at + 1;
    Label::Element(at)
}

// Takes the next element of a list in a pool.
#[inline(always)]
fn next_element<'v>(
    pool: &'v Pool<'v>,
    index: &mut usize,
    elements: &'v [Slot],
) -> Option<(Label<'v>, Node<'v>)>
    requires stands { ChildrenStand pool.now (drop index.old elements.now) }
    ensures { TakesPart result (elements_from pool.now index.old elements.now) (elements_from pool.now index.new elements.now) (ChildrenStand pool.now (drop index.new elements.now)) }
{
    let element = elements.get(*index)?;
    Some((step_past(index), Node::Value(pool, element)))
}

// Takes the next number of a list.
#[inline(always)]
fn next_number<'v>(index: &mut usize, numbers: &'v [i64]) -> Option<(Label<'v>, Node<'v>)>
    ensures { TakesPart result (numbers_from index.old numbers.now) (numbers_from index.new numbers.now) (Unit {0}) }
{
    let number = numbers.get(*index)?;
    Some((step_past(index), Node::Number(*number)))
}

// Takes the next entry of a map in a pool.
#[inline(always)]
fn next_entry<'v>(pool: &'v Pool<'v>, entries: &mut &'v [Slot]) -> Option<(Label<'v>, Node<'v>)>
    requires stands { ChildrenStand pool.now entries.old.now }
    ensures { TakesPart result (entries_in pool.now entries.old.now) (entries_in pool.now entries.new.now) (ChildrenStand pool.now entries.new.now) }
{
    let (entry, more) = entries.split_first()?;
    *entries = more;
    let key = pool.key(entry.first, entry.second);
    Some((Label::Key(key), Node::Value(pool, entry)))
}

// Takes the next member of a structure in a pool.
#[inline(always)]
fn next_member<'v>(pool: &'v Pool<'v>, members: &mut &'v [Slot]) -> Option<(Label<'v>, Node<'v>)>
    requires stands { ChildrenStand pool.now members.old.now }
    ensures { TakesPart result (members_in pool.now members.old.now) (members_in pool.now members.new.now) (ChildrenStand pool.now members.new.now) }
{
    let (member, more) = members.split_first()?;
    *members = more;
    Some((Label::Member(member.first), Node::Value(pool, member)))
}

// Takes the next element of an array.
#[inline(always)]
fn next_item<'v>(index: &mut usize, items: &'v [Document]) -> Option<(Label<'v>, Node<'v>)>
    ensures { TakesPart result (items_from index.old items.now) (items_from index.new items.now) (Unit {0}) }
{
    let item = items.get(*index)?;
    Some((step_past(index), Node::Document(item)))
}

impl<'v> Parts<'v> {
    // The next part, after the step to it.
    #[inline(always)]
    pub(crate) fn next_part(&mut self) -> Option<(Label<'v>, Node<'v>)>
        requires stands { PartsStand self.old }
        ensures { TakesPart result (parts_of self.old) (parts_of self.new) (PartsStand self.new) }
    {
        match self {
            Parts::Nothing => None,
            Parts::Elements(pool, index, elements) => next_element(*pool, index, *elements),
            Parts::Numbers(index, numbers) => next_number(index, *numbers),
            Parts::Entries(pool, entries) => next_entry(*pool, entries),
            Parts::Members(pool, members) => next_member(*pool, members),
            Parts::Only(pool, value) => {
                let only = (Label::Member(value.first), Node::Value(*pool, *value));
                *self = Parts::Nothing;
                Some(only)
            }
            Parts::Items(index, items) => next_item(index, *items),
            Parts::Properties(properties) => {
                let (name, document) = properties.next()?;
                Some((Label::Key(name.as_str()), Node::Document(document)))
            }
        }
    }
}
