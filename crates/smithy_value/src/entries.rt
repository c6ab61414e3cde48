//! The entries of a map and the members of a structure, where a tree keeps them.
ghost use Rattle.std.specs.Prelude.{◌≡◌, ℕ, List};
ghost use Rattle.smithy_schema.specs.Writing.{entry_count};
ghost use Rattle.smithy_declarations.specs.Value.{Value};
ghost use Rattle.smithy_value.specs.Tree.{entries_view, entries_left, members_view, members_left, trees_in, trees_left, member_trees, member_trees_left};

use crate::entry_iter::{EntryIter, MemberIter};
use std::collections::BTreeMap;

/// The entries of a map in the order of their keys.
#[derive(Drop)]
pub enum Entries<'v, T> {
    /// Those of a map of the library.
    Map(&'v BTreeMap<String, T>),
    /// Trees that are kept with their keys.
    Slice(&'v [T]),
}

impl<'v, T> Entries<'v, T> {
    /// How many entries there are.
    pub fn len(&self) -> usize
        ensures { (view : T → Value) → (key : T → List ℕ) → result ≡ entry_count (entries_view view key self.now) }
    {
        match self {
            Entries::Map(map) => map.len(),
            Entries::Slice(slice) => slice.len(),
        }
    }

    /// The entries one after another.
    pub fn iter(&self) -> EntryIter<'v, T>
        ensures shows { (view : T → Value) → (key : T → List ℕ) → entries_left view key result ≡ entries_view view key self.now }
        ensures trees { trees_left result ≡ trees_in self.now }
    {
        match self {
            Entries::Map(map) => EntryIter::Map(map.iter()),
            Entries::Slice(slice) => EntryIter::Slice(*slice),
        }
    }
}

/// The members of a structure in the order of their positions.
#[derive(Drop)]
pub enum Members<'v, T> {
    /// Those of a map of the library.
    Map(&'v BTreeMap<u32, T>),
    /// Trees that are kept with their positions.
    Slice(&'v [T]),
}

impl<'v, T> Members<'v, T> {
    /// The members one after another.
    pub fn iter(&self) -> MemberIter<'v, T>
        ensures shows { (view : T → Value) → (position : T → ℕ) → members_left view position result ≡ members_view view position self.now }
        ensures trees { member_trees_left result ≡ member_trees self.now }
    {
        match self {
            Members::Map(map) => MemberIter::Map(map.iter()),
            Members::Slice(slice) => MemberIter::Slice(*slice),
        }
    }
}
