//! The pool of a tree.
use crate::bytes::{bytes_at, key_at, text_at};
use crate::node::{Node, Rare, Slot};
use crate::order::{Order, in_order, is_ordered};
use std::alloc::{AllocError, Global};

/// The nodes of a tree over its input. The children of a container stand one behind another, before the container; those of a
/// container that is half built wait.
///
/// Places are 32 bits wide: what would leave them is refused as memory that isn't there. Of a pool nothing is known after a call that was
/// refused.
#[derive(Drop)]
pub struct Pool<'a> {
    pub(crate) input: &'a [u8],
    // What doesn't stand in the input as it is meant. Its places go on from the input's end.
    pub(crate) side: Vec<u8>,
    pub(crate) rare: Vec<Rare>,
    // The whole numbers of lists that begin with such.
    pub(crate) numbers: Vec<i64>,
    pub(crate) nodes: Vec<Slot>,
    pub(crate) waiting: Vec<Slot>,
}

impl<'a> Pool<'a> {
    ghost use Rattle.std.specs.Prelude.{◌≡◌, ◌≤◌, ◌<◌, ◌+◌, [], length, take, drop, get_or, OnOk, IfOk};
    ghost use Rattle.smithy_declarations.specs.Value.{null_element};
    ghost use Rattle.smithy_tree.specs.Items.{nothing};
    ghost use Rattle.smithy_tree.specs.Nodes.{slice_of, IsPart, IsSpan, IsLabel, AreNodes, values_over, rare_value};
    ghost use Rattle.smithy_tree.specs.Seen.{store, bytes_of, values, item_in, view, waiting, HoldsSlot, IsSound, Waits, HasBytes, Closes, ClosesMembers, ClosesEntries, Adds};
    ghost use Rattle.smithy_tree.specs.Order.{Arranges, label_cmp};

    /// A pool with nothing in it.
    pub fn new(alloc: Global, input: &'a [u8]) -> Pool<'a>
        ensures sound { IsSound result }
        ensures input { result.input.now ≡ input.now }
        ensures empty { waiting result ≡ [] }
    {
        Pool {
            input,
            side: Vec::new(alloc),
            rare: Vec::new(alloc),
            numbers: Vec::new(alloc),
            nodes: Vec::new(alloc),
            waiting: Vec::new(alloc),
        }
    }

    /// How many wait.
    #[inline(always)]
    pub fn count_waiting(&self) -> usize
        ensures count { result ≡ length (waiting self.now) }
    {
        self.waiting.len()
    }

    /// Lets a child wait for its container, behind the others that do.
    #[inline(always)]
    pub fn wait(&mut self, slot: Slot) -> Result<(), AllocError>
        requires sound { IsSound self.old }
        requires holds { HoldsSlot self.old slot }
        ensures ok { OnOk result (Waits self.old self.new (item_in self.old slot)) }
    {
        self.waiting.push(slot)?;
        Ok(())
    }

    /// Makes children of those that wait from a place on, in their order: where the first of them stands, and how many they are.
    #[inline(always)]
    #[tactic(auto, using(crate::proofs::Growing::length_values_over))]
    pub fn close(&mut self, begin: usize) -> Result<(u32, u32), AllocError>
        requires sound { IsSound self.old }
        requires begins { begin ≤ length (waiting self.old) }
        ensures ok { IfOk result (λ r. Closes self.old self.new begin r.0 r.1) }
    {
        let start = self.nodes.len();
        let count = self.waiting.len() - begin;
        if start > u32::MAX as usize || count > u32::MAX as usize {
            return Err(AllocError);
        }
        self.nodes.extend_from_slice(&self.waiting[begin..])?;
        self.waiting.truncate(begin);
        Ok((start as u32, count as u32))
    }

    // Puts those that wait from a place on in order, of which the last of equal labels counts.
    #[inline(always)]
    #[tactic(auto, using(crate::proofs::Growing::length_values_over))]
    fn arrange(&mut self, alloc: Global, order: Order, begin: usize) -> Result<(), AllocError>
        requires sound { IsSound self.old }
        requires begins { begin ≤ length (waiting self.old) }
        ensures ok { OnOk result (Arranges self.old self.new (label_cmp order (bytes_of self.old)) begin) }
    {
        let slots = &self.waiting[begin..];
        if is_ordered(order, self.input, self.side.as_slice(), slots) {
            return Ok(());
        }
        let ordered = in_order(alloc, order, self.input, self.side.as_slice(), slots)?;
        self.waiting.truncate(begin);
        self.waiting.extend_from_slice(ordered.as_slice())?;
        Ok(())
    }

    /// Makes the members of a structure of those that wait from a place on, in the order of their positions.
    pub fn close_members(&mut self, alloc: Global, begin: usize) -> Result<(u32, u32), AllocError>
        requires sound { IsSound self.old }
        requires begins { begin ≤ length (waiting self.old) }
        ensures ok { IfOk result (λ r. ClosesMembers self.old self.new begin r.0 r.1) }
    {
        self.arrange(alloc, Order::Positions, begin)?;
        self.close(begin)
    }

    /// Makes the entries of a map of those that wait from a place on, in the order of their keys.
    pub fn close_entries(&mut self, alloc: Global, begin: usize) -> Result<(u32, u32), AllocError>
        requires sound { IsSound self.old }
        requires begins { begin ≤ length (waiting self.old) }
        ensures ok { IfOk result (λ r. ClosesEntries self.old self.new begin r.0 r.1) }
    {
        self.arrange(alloc, Order::Keys, begin)?;
        self.close(begin)
    }

    /// The children that stand from a place on.
    #[inline(always)]
    pub fn children(&self, at: u32, count: u32) -> &[Slot]
        requires sound { IsSound self.now }
        requires within { at + count ≤ length self.now.nodes.items }
        ensures stand { AreNodes (store self.now) (length self.now.nodes.items) result.now }
        ensures show { values_over (store self.now) (values self.now) result.now ≡ take count (drop at (values self.now)) }
    {
        let begin = at as usize;
        &self.nodes[begin..begin + count as usize]
    }

    /// The child at a place.
    #[inline(always)]
    pub fn child(&self, at: u32) -> &Slot
        requires sound { IsSound self.now }
        requires within { at < length self.now.nodes.items }
        ensures stands { HoldsSlot self.now result.now }
        ensures shows { item_in self.now result.now ≡ get_or (values self.now) at nothing }
    {
        &self.nodes[at as usize]
    }

    /// Copies bytes that don't stand in the input as they are meant: where the copy begins, and how many they are.
    pub fn copy(&mut self, bytes: &[u8]) -> Result<(u32, u32), AllocError>
        requires sound { IsSound self.old }
        ensures ok { IfOk result (λ r. HasBytes self.old self.new r.0 r.1 bytes.now) }
    {
        let begin = self.input.len().saturating_add(self.side.len());
        let size = bytes.len();
        if begin > u32::MAX as usize || size > u32::MAX as usize {
            return Err(AllocError);
        }
        self.side.extend_from_slice(bytes)?;
        Ok((begin as u32, size as u32))
    }

    /// Keeps a value that takes more room than a node has.
    pub fn keep(&mut self, rare: Rare) -> Result<Node, AllocError>
        requires sound { IsSound self.old }
        ensures ok { IfOk result (λ n. Adds self.old self.new n × (view self.new n ≡ rare_value rare)) }
    {
        let place = self.rare.len();
        if place > u32::MAX as usize {
            return Err(AllocError);
        }
        self.rare.push(rare)?;
        Ok(Node::Rare(place as u32))
    }

    /// The rare value of a number.
    pub fn rare(&self, place: u32) -> &Rare
        requires within { place < length self.now.rare.items }
        ensures value { rare_value result.now ≡ get_or (store self.now).rare place null_element }
    {
        &self.rare[place as usize]
    }

    /// The bytes of a node.
    #[inline(always)]
    pub fn bytes(&self, at: u32, size: u32) -> &[u8]
        requires part { IsPart self.now.input.now self.now.side.items at size }
        ensures bytes { result.now ≡ slice_of (bytes_of self.now) at size }
    {
        bytes_at(self.input, self.side.as_slice(), at, size)
    }

    /// The text of a node.
    #[inline(always)]
    pub fn text(&self, at: u32, size: u32) -> &str
        requires span { IsSpan self.now.input.now self.now.side.items at size }
        ensures text { result.now ≡ slice_of (bytes_of self.now) at size }
    {
        text_at(self.input, self.side.as_slice(), at, size)
    }

    /// The key of a label.
    #[inline(always)]
    pub fn key(&self, at: u32, size: u32) -> &str
        requires label { IsLabel self.now.input.now self.now.side.items at size }
        ensures text { result.now ≡ slice_of (bytes_of self.now) at size }
    {
        key_at(self.input, self.side.as_slice(), at, size)
    }
}
