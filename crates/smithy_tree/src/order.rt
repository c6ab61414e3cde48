//! Children in the order of their labels, of which the last of equal ones counts.
ghost use Rattle.std.specs.Prelude.{◌≡◌, ◌≤◌, ◌<◌, ◌++◌, [], length, insert, slice_set, IfOk, OnOk, IsTrue, MatchResult};
ghost use Rattle.smithy_tree.specs.Nodes.{IsLabel};
ghost use Rattle.smithy_tree.specs.Order.{label_cmp, put_slot, put_slots, AreLabelled};

use crate::bytes::key_at;
use crate::in_maps::{by_keys, by_positions};
use crate::node::Slot;
use std::alloc::{AllocError, Global};
use std::cmp::Ordering;

// At most so many children are put in order by moving those behind a new one, so that no number of them takes time that grows with its
// square.
const MOVED_AT_MOST: usize = 32;

/// What children are ordered by.
#[derive(Clone, Copy)]
pub(crate) enum Order {
    /// The positions of members.
    Positions,
    /// The keys of entries.
    Keys,
}

// How the label of a child stands to that of another.
#[inline(always)]
fn compare(order: Order, input: &[u8], side: &[u8], one: Slot, other: Slot) -> Ordering
    requires one { IsLabel input.now side.now one.first one.second }
    requires other { IsLabel input.now side.now other.first other.second }
    ensures { result ≡ label_cmp order (input.now ++ side.now) one other }
{
    match order {
        Order::Positions => one.first.cmp(&other.first),
        Order::Keys => {
            let key = key_at(input, side, one.first, one.second);
            key.cmp(key_at(input, side, other.first, other.second))
        }
    }
}

// Whether each child stands before the next already.
#[inline(always)]
pub(crate) fn is_ordered(order: Order, input: &[u8], side: &[u8], slots: &[Slot]) -> bool
    requires labels { AreLabelled input.now side.now slots.now }
    ensures { IsTrue result → put_slots (label_cmp order (input.now ++ side.now)) [] slots.now ≡ slots.now }
{
    for place in 1..slots.len() {
        if !compare(order, input, side, slots[place - 1], slots[place]).is_lt() {
            return false;
        }
    }
    true
}

// Where the child's label stands among those that are in order, or where it would.
fn place_of(
    order: Order,
    input: &[u8],
    side: &[u8],
    ordered: &[Slot],
    slot: Slot,
) -> Result<usize, usize>
    requires labels { AreLabelled input.now side.now ordered.now }
    requires label { IsLabel input.now side.now slot.first slot.second }
    ensures bounds { MatchResult result (λ i. i < length ordered.now) (λ i. i ≤ length ordered.now) }
    ensures place { MatchResult result (λ i. slice_set ordered.now i slot ≡ put_slot (label_cmp order (input.now ++ side.now)) slot ordered.now)
        (λ i. insert ordered.now i slot ≡ put_slot (label_cmp order (input.now ++ side.now)) slot ordered.now) }
{
    for place in 0..ordered.len() {
        match compare(order, input, side, slot, ordered[place]) {
            Ordering::Less => return Err(place),
            Ordering::Equal => return Ok(place),
            Ordering::Greater => {}
        }
    }
    Err(ordered.len())
}

// Puts a child among those that are in order.
fn put(
    order: Order,
    input: &[u8],
    side: &[u8],
    ordered: &mut Vec<Slot>,
    slot: Slot,
) -> Result<(), AllocError>
    requires labels { AreLabelled input.now side.now ordered.old.items }
    requires label { IsLabel input.now side.now slot.first slot.second }
    ensures ok { OnOk result (ordered.new.items ≡ put_slot (label_cmp order (input.now ++ side.now)) slot ordered.old.items) }
{
    match place_of(order, input, side, ordered.as_slice(), slot) {
        Ok(place) => ordered[place] = slot,
        Err(place) => ordered.insert(place, slot)?,
    }
    Ok(())
}

// Few children in their order.
fn by_moving(
    alloc: Global,
    order: Order,
    input: &[u8],
    side: &[u8],
    slots: &[Slot],
) -> Result<Vec<Slot>, AllocError>
    requires labels { AreLabelled input.now side.now slots.now }
    ensures ok { IfOk result (λ v. v.items ≡ put_slots (label_cmp order (input.now ++ side.now)) [] slots.now) }
{
    let mut ordered = Vec::new(alloc);
    ordered.reserve(slots.len())?;
    for slot in slots {
        put(order, input, side, &mut ordered, *slot)?;
    }
    Ok(ordered)
}

// Children in their order.
#[inline(never)]
pub(crate) fn in_order(
    alloc: Global,
    order: Order,
    input: &[u8],
    side: &[u8],
    slots: &[Slot],
) -> Result<Vec<Slot>, AllocError>
    requires labels { AreLabelled input.now side.now slots.now }
    ensures ok { IfOk result (λ v. v.items ≡ put_slots (label_cmp order (input.now ++ side.now)) [] slots.now) }
{
    if slots.len() <= MOVED_AT_MOST {
        return by_moving(alloc, order, input, side, slots);
    }
    match order {
        Order::Positions => by_positions(alloc, slots),
        Order::Keys => by_keys(alloc, input, side, slots),
    }
}
