//! Trees in a pool, which keep neither their texts nor their children themselves.
ghost use Rattle.smithy_value.specs.Pooled.{IsPoolOf, Keeps, Begun, BegunElements, slot_view, key_in, waiting_entries, waiting_members};
ghost use Rattle.smithy_value.specs.PoolLaws.{kept_lawfully, begun_elements_lawfully, begun_entries_lawfully, begun_members_lawfully};
ghost use Rattle.std.specs.Prelude.{◌≡◌, ℕ, List};
ghost use Rattle.smithy_declarations.specs.Value.{Value, scalar_value, boolean, whole, instant, null_element};
ghost use Rattle.smithy_tree.specs.Nodes.{rare_value};
ghost use Rattle.smithy_tree.specs.Seen.{HoldsSlot, elements_in};
ghost use Rattle.smithy_tree.specs.declared.pool.Pool.{Pool};
ghost use Rattle.smithy_tree.specs.declared.node.Slot.{Slot};
ghost use Rattle.smithy_value.specs.Tree.{part_view, PartStands};

use crate::entries::{Entries, Members};
use crate::placing::{place_bytes, place_text};
use crate::tree::{Part, Trees};
use smithy_schema::{BytesSpan, SerdeError, TextSpan};
use smithy_tree::{Elements, Node, Pool, Rare, Slot};
use smithy_types::{DateTime, Document};
use std::alloc::Global;

impl<'a> Trees for Pool<'a> {
    type Tree = Slot;

    type Text = TextSpan;

    type Bytes = BytesSpan;

    type Elements = Elements;

    // Where the first of them waits.
    type Entries = usize;

    type Members = usize;

    ghost sound = { IsPoolOf };

    ghost keeps = { Keeps };

    ghost keeps_lawfully = { kept_lawfully };

    ghost stands = { HoldsSlot };

    ghost view = { slot_view };

    ghost key_of = { key_in };

    ghost position_of = { λ s. s.first };

    ghost begun_elements = { BegunElements };

    ghost view_elements = { elements_in };

    ghost elements_grow_lawfully = { begun_elements_lawfully };

    ghost begun_entries = { Begun };

    ghost view_entries = { waiting_entries };

    ghost entries_grow_lawfully = { begun_entries_lawfully };

    ghost begun_members = { Begun };

    ghost view_members = { waiting_members };

    ghost members_grow_lawfully = { begun_members_lawfully };

    #[inline(always)]
    fn boolean(value: bool) -> Slot
        ensures stands { (p : Pool) → HoldsSlot p result }
        ensures shows { (p : Pool) → slot_view p result ≡ scalar_value (boolean value) }
    {
        Slot::of(Node::Boolean(value))
    }

    #[inline(always)]
    fn whole(number: i64) -> Slot
        ensures stands { (p : Pool) → HoldsSlot p result }
        ensures shows { (p : Pool) → slot_view p result ≡ scalar_value (whole number) }
    {
        Slot::of(Node::Whole(number))
    }

    #[inline(always)]
    fn timestamp(value: DateTime) -> Slot
        ensures stands { (p : Pool) → HoldsSlot p result }
        ensures shows { (p : Pool) → slot_view p result ≡ scalar_value (instant value) }
    {
        Slot::of(Node::Timestamp(value.subsec_nanos(), value.secs()))
    }

    #[inline(always)]
    fn null() -> Slot
        ensures stands { (p : Pool) → HoldsSlot p result }
        ensures shows { (p : Pool) → slot_view p result ≡ null_element }
    {
        Slot::of(Node::Null)
    }

    #[inline(always)]
    fn text(&mut self, content: TextSpan) -> Result<Slot, SerdeError> {
        let (at, size) = place_text(self, content)?;
        Ok(Slot::of(Node::Text(at, size)))
    }

    #[inline(always)]
    fn bytes(&mut self, content: BytesSpan) -> Result<Slot, SerdeError> {
        let (at, size) = place_bytes(self, content)?;
        Ok(Slot::of(Node::Bytes(at, size)))
    }

    fn big_integer(&mut self, number: i128) -> Result<Slot, SerdeError> {
        match i64::try_from(number) {
            Ok(small) => Ok(Slot::of(Node::Whole(small))),
            Err(_) => Ok(Slot::of(self.keep(Rare::Large(number))?)),
        }
    }

    fn decimal(&mut self, mantissa: i128, exponent: i64) -> Result<Slot, SerdeError> {
        Ok(Slot::of(self.keep(Rare::Decimal(mantissa, exponent))?))
    }

    fn document(&mut self, value: Document) -> Result<Slot, SerdeError> {
        Ok(Slot::of(self.keep(Rare::Document(value))?))
    }

    #[inline(always)]
    fn no_elements(&self, _alloc: Global) -> Elements {
        Pool::no_elements(self)
    }

    #[inline(always)]
    fn push_element(&mut self, elements: &mut Elements, value: Slot) -> Result<(), SerdeError> {
        Pool::push_element(self, elements, value)?;
        Ok(())
    }

    #[inline(always)]
    fn push_numbers(&mut self, elements: &mut Elements, numbers: &[i64]) -> Result<(), SerdeError> {
        Pool::push_numbers(self, elements, numbers)?;
        Ok(())
    }

    #[inline(always)]
    fn list(&mut self, elements: Elements) -> Result<Slot, SerdeError> {
        Ok(Slot::of(self.close_elements(elements)?))
    }

    #[inline(always)]
    fn no_entries(&self, _alloc: Global) -> usize {
        self.count_waiting()
    }

    #[inline(always)]
    fn set_entry(
        &mut self,
        _alloc: Global,
        _entries: &mut usize,
        key: TextSpan,
        value: Slot,
    ) -> Result<(), SerdeError> {
        let (first, second) = place_text(self, key)?;
        self.wait(Slot {
            first,
            second,
            node: value.node,
        })?;
        Ok(())
    }

    #[inline(always)]
    fn map(&mut self, alloc: Global, entries: usize) -> Result<Slot, SerdeError> {
        let (at, count) = self.close_entries(alloc, entries)?;
        Ok(Slot::of(Node::Map(at, count)))
    }

    #[inline(always)]
    fn no_members(&self, _alloc: Global) -> usize {
        self.count_waiting()
    }

    #[inline(always)]
    fn set_member(
        &mut self,
        _members: &mut usize,
        index: u32,
        value: Slot,
    ) -> Result<(), SerdeError> {
        self.wait(Slot {
            first: index,
            second: 0,
            node: value.node,
        })?;
        Ok(())
    }

    #[inline(always)]
    fn structure(&mut self, alloc: Global, members: usize) -> Result<Slot, SerdeError> {
        let (at, count) = self.close_members(alloc, members)?;
        Ok(Slot::of(Node::Structure(at, count)))
    }

    #[inline(always)]
    fn union(&mut self, _alloc: Global, index: u32, value: Slot) -> Result<Slot, SerdeError> {
        let begin = self.count_waiting();
        self.wait(Slot {
            first: index,
            second: 0,
            node: value.node,
        })?;
        let (at, _) = self.close(begin)?;
        Ok(Slot::of(Node::Union(at)))
    }

    #[inline(always)]
    fn part<'v>(&'v self, tree: &'v Slot) -> Part<'v, Slot> {
        match tree.node {
            Node::Boolean(value) => Part::Boolean(value),
            Node::Whole(number) => Part::Whole(i128::from(number)),
            Node::Timestamp(nanos, secs) => {
                Part::Timestamp(DateTime::from_secs_and_nanos(secs, nanos))
            }
            Node::Text(at, size) => Part::Text(self.text(at, size)),
            Node::Bytes(at, size) => Part::Bytes(self.bytes(at, size)),
            Node::List(at, count) => Part::List(self.children(at, count)),
            Node::Numbers(at, count) => Part::Numbers(self.numbers(at, count)),
            Node::Map(at, count) => Part::Map(Entries::Slice(self.children(at, count))),
            Node::Structure(at, count) => Part::Structure(Members::Slice(self.children(at, count))),
            Node::Union(at) => {
                let child = self.child(at);
                Part::Union(child.first, child)
            }
            Node::Null => Part::Null,
            Node::Rare(place) => rare_part(self.rare(place)),
        }
    }

    #[inline(always)]
    fn key<'v>(&'v self, tree: &'v Slot) -> &'v str {
        Pool::key(self, tree.first, tree.second)
    }

    #[inline(always)]
    fn position(tree: &Slot) -> u32
        ensures { result ≡ tree.now.first }
    {
        tree.first
    }
}

// What a value is that takes more room than a node has.
#[inline(never)]
fn rare_part<'v>(rare: &'v Rare) -> Part<'v, Slot>
    ensures shows { (view : Slot → Value) → (key : Slot → List ℕ) → (position : Slot → ℕ) → part_view view key position result ≡ rare_value rare.now }
    ensures parts { (p : Pool) → PartStands (HoldsSlot p) result }
{
    match rare {
        Rare::Large(number) => Part::Whole(*number),
        Rare::Decimal(mantissa, exponent) => Part::Decimal(*mantissa, *exponent),
        Rare::Document(value) => Part::Document(value),
    }
}
