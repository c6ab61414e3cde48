//! The elements of lists.
ghost use Rattle.std.specs.Prelude.{◌≡◌, ◌++◌, map as mapped, OnOk};
ghost use Rattle.smithy_tree.specs.Nodes.{number_slot};

use crate::node::{Node, Slot};
use crate::pool::Pool;
use std::alloc::AllocError;

/// The elements of a list that is half built: first whole numbers, which stand among the numbers of the pool, and behind them those that
/// wait.
#[derive(Clone, Copy)]
pub struct Elements {
    // Where the numbers begin, and where they end.
    pub(crate) numbers_from: usize,
    pub(crate) numbers_to: usize,
    // Where those begin that wait.
    pub(crate) waiting_from: usize,
}

impl<'a> Pool<'a> {
    ghost use Rattle.std.specs.Prelude.{◌≡◌, ◌≤◌, ◌+◌, ◌-◌, [], length, OnOk, OnErr, IfOk, take, drop};
    ghost use Rattle.smithy_tree.specs.Items.{whole_values};
    ghost use Rattle.smithy_tree.specs.Nodes.{LeavesPlaces};
    ghost use Rattle.smithy_tree.specs.Seen.{store, view, waiting, HoldsSlot, IsSound, elements_in, ElementsStand, AreNumbersAlone, PutsElement, PutsElements, ClosesElements};

    /// The elements of a list that has none yet.
    #[inline(always)]
    pub fn no_elements(&self) -> Elements
        ensures half { ElementsStand self.now result }
        ensures begins { result.waiting_from ≡ length (waiting self.now) }
        ensures none { elements_in self.now result ≡ [] }
    {
        let numbers = self.numbers.len();
        Elements {
            numbers_from: numbers,
            numbers_to: numbers,
            waiting_from: self.count_waiting(),
        }
    }

    /// Puts an element behind those of a list.
    #[inline(always)]
    pub fn push_element(&mut self, elements: &mut Elements, slot: Slot) -> Result<(), AllocError>
        requires sound { IsSound self.old }
        requires half { ElementsStand self.old elements.old }
        requires holds { HoldsSlot self.old slot }
        ensures ok { OnOk result (PutsElement self.old self.new elements.old elements.new (view self.old slot.node)) }
    {
        let Node::Whole(number) = slot.node else {
            return self.wait(slot);
        };
        if self.waiting.len() != elements.waiting_from
            || self.numbers.len() != elements.numbers_to
        {
            return self.wait(slot);
        }
        self.numbers.push(number)?;
        elements.numbers_to = self.numbers.len();
        Ok(())
    }

    /// Puts whole numbers behind the elements of a list, in their order.
    #[inline(always)]
    pub fn push_numbers(
        &mut self,
        elements: &mut Elements,
        numbers: &[i64],
    ) -> Result<(), AllocError>
        requires sound { IsSound self.old }
        requires half { ElementsStand self.old elements.old }
        ensures ok { OnOk result (PutsElements self.old self.new elements.old elements.new (whole_values numbers.now)) }
    {
        if self.waiting.len() == elements.waiting_from
            && self.numbers.len() == elements.numbers_to
        {
            self.numbers.extend_from_slice(numbers)?;
            elements.numbers_to = self.numbers.len();
            return Ok(());
        }
        self.wait_all(elements, numbers)
    }

    // Lets whole numbers wait behind the elements of a list, in their order.
    #[inline(never)]
    fn wait_all(&mut self, elements: &mut Elements, numbers: &[i64]) -> Result<(), AllocError>
        requires sound { IsSound self.old }
        requires half { ElementsStand self.old elements.old }
        ensures ok { OnOk result (PutsElements self.old self.new elements.old elements.new (whole_values numbers.now)) }
    {
        for number in numbers {
            self.push_element(elements, Slot::of(Node::Whole(*number)))?;
        }
        Ok(())
    }

    /// Makes a list of these elements. It is refused where memory is wanting, or a place leaves 32 bits.
    #[inline(always)]
    pub fn close_elements(&mut self, elements: Elements) -> Result<Node, AllocError>
        requires sound { IsSound self.old }
        requires half { ElementsStand self.old elements }
        ensures ok { IfOk result (λ n. ClosesElements self.old self.new elements n) }
        ensures limit { OnErr result (AreNumbersAlone self.old elements → LeavesPlaces elements.numbers_from (elements.numbers_to - elements.numbers_from)) }
    {
        let count = elements.numbers_to - elements.numbers_from;
        if count == 0 {
            let (at, count) = self.close(elements.waiting_from)?;
            return Ok(Node::List(at, count));
        }
        if self.waiting.len() != elements.waiting_from {
            return self.close_mixed(elements);
        }
        if elements.numbers_from > u32::MAX as usize || count > u32::MAX as usize {
            return Err(AllocError);
        }
        Ok(Node::Numbers(elements.numbers_from as u32, count as u32))
    }

    // Makes a list of numbers, which become nodes of their own, and of those that wait.
    #[inline(never)]
    fn close_mixed(&mut self, elements: Elements) -> Result<Node, AllocError>
        requires sound { IsSound self.old }
        requires half { ElementsStand self.old elements }
        ensures ok { IfOk result (λ n. ClosesElements self.old self.new elements n) }
    {
        let start = self.nodes.len();
        let numbers = &self.numbers[elements.numbers_from..elements.numbers_to];
        push_numbers(&mut self.nodes, numbers)?;
        let (at, count) = self.close(elements.waiting_from)?;
        let all = at as usize - start + count as usize;
        if all > u32::MAX as usize {
            return Err(AllocError);
        }
        Ok(Node::List(start as u32, all as u32))
    }

    /// The whole numbers that stand from a place on.
    #[inline(always)]
    pub fn numbers(&self, at: u32, count: u32) -> &[i64]
        requires within { at + count ≤ length self.now.numbers.items }
        ensures numbers { result.now ≡ take count (drop at (store self.now).numbers) }
    {
        let begin = at as usize;
        &self.numbers[begin..begin + count as usize]
    }
}

// Puts numbers as nodes behind others.
fn push_numbers(nodes: &mut Vec<Slot>, numbers: &[i64]) -> Result<(), AllocError>
    ensures ok { OnOk result (nodes.new.items ≡ nodes.old.items ++ mapped number_slot numbers.now) }
{
    for number in numbers {
        nodes.push(Slot::of(Node::Whole(*number)))?;
    }
    Ok(())
}
