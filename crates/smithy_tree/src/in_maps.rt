//! Many children in the order of their labels, by way of a map of the library.
ghost use Rattle.std.specs.Prelude.{◌≡◌, ◌++◌, [], map as mapped, IfOk};
ghost use Rattle.smithy_tree.specs.Order.{position_cmp, key_cmp, put_slots, AreLabelled, second};

use crate::bytes::key_at;
use crate::node::Slot;
use std::alloc::{AllocError, Global};
use std::collections::BTreeMap;

// The children of a map.
fn children<K: Ord + Drop>(alloc: Global, map: BTreeMap<K, Slot>) -> Result<Vec<Slot>, AllocError>
    ensures ok { IfOk result (λ v. v.items ≡ mapped second map.entries) }
{
    let mut slots = Vec::new(alloc);
    slots.reserve(map.len())?;
    for (_, slot) in map {
        slots.push(slot)?;
    }
    Ok(slots)
}

// Members in the order of their positions.
pub(crate) fn by_positions(alloc: Global, slots: &[Slot]) -> Result<Vec<Slot>, AllocError>
    ensures ok { IfOk result (λ v. v.items ≡ put_slots position_cmp [] slots.now) }
{
    let mut map = BTreeMap::new(alloc);
    for slot in slots {
        map.insert(slot.first, *slot)?;
    }
    children(alloc, map)
}

// Entries in the order of their keys.
pub(crate) fn by_keys(
    alloc: Global,
    input: &[u8],
    side: &[u8],
    slots: &[Slot],
) -> Result<Vec<Slot>, AllocError>
    requires labels { AreLabelled input.now side.now slots.now }
    ensures ok { IfOk result (λ v. v.items ≡ put_slots (key_cmp (input.now ++ side.now)) [] slots.now) }
{
    let mut map = BTreeMap::new(alloc);
    for slot in slots {
        map.insert(key_at(input, side, slot.first, slot.second), *slot)?;
    }
    children(alloc, map)
}
