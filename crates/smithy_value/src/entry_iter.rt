//! The entries of a map and the members of a structure, one after another.
ghost use Rattle.std.specs.Prelude.{◌≡◌, ℕ, List, [], ◌∷◌, MatchOption};
ghost use Rattle.smithy_declarations.specs.Value.{Value, no_map_entries, map_entry, no_member_values, member_value};
ghost use Rattle.smithy_value.specs.Tree.{entries_left, members_left, member_trees_left, EntriesLeftStand};

use crate::tree::Trees;
use std::collections::btree_map::Iter;

/// The entries that are left, in the order of their keys.
#[derive(Drop)]
pub enum EntryIter<'v, T> {
    /// Those that are left of a map of the library.
    Map(Iter<'v, String, T>),
    /// Those that are left of trees with their keys.
    Slice(&'v [T]),
}

impl<'v, T> EntryIter<'v, T> {
    /// The next entry, as its key and its value.
    #[inline(always)]
    pub fn next_entry<P: Trees<Tree = T>>(&mut self, trees: &'v P) -> Option<(&'v str, &'v T)>
        requires sound { (i : List ℕ) × P.sound trees.now i }
        requires stands { EntriesLeftStand (P.stands trees.now) self.old }
        ensures shows { let left = entries_left (P.view trees.now) (P.key_of trees.now) in MatchOption result (left self.old ≡ no_map_entries) (λ e. left self.old ≡ map_entry e.0.now (P.view trees.now e.1.now) (left self.new)) }
        ensures stands { MatchOption result (Unit {0}) (λ e. P.stands trees.now e.1.now × EntriesLeftStand (P.stands trees.now) self.new) }
    {
        match self {
            EntryIter::Map(rest) => {
                let Some((key, value)) = rest.next() else {
                    return None;
                };
                Some((key.as_str(), value))
            }
            EntryIter::Slice(rest) => {
                let Some((entry, more)) = rest.split_first() else {
                    return None;
                };
                *rest = more;
                Some((trees.key(entry), entry))
            }
        }
    }
}

/// The members that are left, in the order of their positions.
#[derive(Drop)]
pub enum MemberIter<'v, T> {
    /// Those that are left of a map of the library.
    Map(Iter<'v, u32, T>),
    /// Those that are left of trees with their positions.
    Slice(&'v [T]),
}

impl<'v, T> MemberIter<'v, T> {
    /// The next member, as its position and its value.
    #[inline(always)]
    pub fn next_member<P: Trees<Tree = T>>(&mut self) -> Option<(u32, &'v T)>
        ensures shows { (view : T → Value) → MatchOption result (members_left view P.position_of self.old ≡ no_member_values) (λ m. members_left view P.position_of self.old ≡ member_value m.0 (view m.1.now) (members_left view P.position_of self.new)) }
        ensures trees { MatchOption result (member_trees_left self.old ≡ []) (λ m. member_trees_left self.old ≡ m.1.now ∷ member_trees_left self.new) }
    {
        match self {
            MemberIter::Map(rest) => {
                let Some((position, value)) = rest.next() else {
                    return None;
                };
                Some((*position, value))
            }
            MemberIter::Slice(rest) => {
                let Some((member, more)) = rest.split_first() else {
                    return None;
                };
                *rest = more;
                Some((P::position(member), member))
            }
        }
    }
}
