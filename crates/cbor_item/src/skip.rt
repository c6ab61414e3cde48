//! Skipping one item, however deep it nests, with a stack of its own.

ghost use Rattle.std.specs.Prelude.{◌≡◌, ◌≤◌, ◌<◌, ◌+◌, ◌-◌, ◌*◌, [], ◌∷◌, ◌++◌, IfOk, IfErr, List, true, drop, length, vec_len};
ghost use Rattle.cbor_item.specs.Private.Chunk.{begins_with_break};
ghost use Rattle.cbor_item.specs.declared.skip.Due.{Due};
ghost use Rattle.cbor_item.specs.Fault.{IsItemFault};
ghost use Rattle.cbor_item.specs.WellFormed.{HoldsOneItem};
ghost use Rattle.cbor_item.specs.Private.Skip.{after_head, at_item, between, next, part_state, part_unless_break, stack_of, EndsWithin, IsStepAnswer};

use crate::chunk::{end_of_payload, is_break, read_chunk};
use crate::error::ItemError;
use crate::head::read_head;
use std::alloc::Global;

/// What is still due before a string, an array, a map or a tag ends.
#[derive(Clone, Copy)]
pub(crate) enum Due {
    /// This many items: the elements of an array, or the one item behind a tag.
    Items(u64),
    /// This many keys of a map, each with its value.
    Pairs(u64),
    /// The value of a map's key, and then this many keys, each with its value.
    ValueAndPairs(u64),
    /// Items, and then a break.
    ItemsUntilBreak,
    /// Keys, each with its value, and then a break.
    PairsUntilBreak,
    /// A value, and then keys, each with its value, and then a break.
    ValueUntilBreak,
    /// Chunks of this major type, and then a break.
    ChunksUntilBreak(u8),
}

/// What comes next where something is due.
#[derive(Clone, Copy)]
enum Part {
    /// What was due has ended, at this offset.
    Ended(usize),
    /// An item comes. Behind it this is due in place of what was due.
    Item(Due),
    /// A chunk of this major type comes. Behind it chunks are due as before it.
    Chunk(u8),
}

/// The end of the well-formed item that begins at the offset. It takes no recursion: what is open
/// stands in a list.
pub fn skip_item(alloc: Global, input: &[u8], at: usize) -> Result<usize, ItemError>
    requires { at ≤ length input.now }
    ensures found { IfOk result (λ end. HoldsOneItem input.now at end) }
    ensures fault { IfErr result (IsItemFault input.now at) }
{
    let mut due = Vec::new(alloc);
    let mut end = skip_head(input, at, &mut due)?;
    'open: while let Some(innermost) = due.pop() {
        end = go_on(input, end, innermost, &mut due)?;
    }
    Ok(end)
}

/// Goes on where the innermost is due, which the list holds no more: it ends here, or one more part
/// of it is skipped up to what that part opens.
fn go_on(input: &[u8], at: usize, innermost: Due, due: &mut Vec<Due>) -> Result<usize, ItemError>
    requires { at ≤ length input.now }
    ensures step { IsStepAnswer (between (innermost ∷ stack_of due.old.items) (drop at input.now)) due.new.items input.now result }
    ensures smaller { IfOk result (λ end. vec_len due.new + 2 * (length input.now - end) < vec_len due.old + 1 + 2 * (length input.now - at)) }
{
    match next_part(input, at, innermost) {
        Part::Ended(end) => Ok(end),
        Part::Item(after) => skip_item_then(input, at, after, due),
        Part::Chunk(major) => {
            due.push(innermost)?;
            Ok(read_chunk(input, at, major)?.end)
        }
    }
}

/// What comes next where the innermost is due.
fn next_part(input: &[u8], at: usize, innermost: Due) -> Part
    requires { at ≤ length input.now }
    ensures next { (due : List Due) → next (innermost ∷ due) (drop at input.now) ≡ part_state result innermost due input.now at }
    ensures within { EndsWithin at (length input.now) result }
{
    match innermost {
        Due::Items(0) => Part::Ended(at),
        Due::Pairs(0) => Part::Ended(at),
        Due::Items(count) => Part::Item(Due::Items(count - 1)),
        Due::Pairs(count) => Part::Item(Due::ValueAndPairs(count - 1)),
        Due::ValueAndPairs(count) => Part::Item(Due::Pairs(count)),
        Due::ItemsUntilBreak => unless_break(input, at, Part::Item(Due::ItemsUntilBreak)),
        Due::PairsUntilBreak => unless_break(input, at, Part::Item(Due::ValueUntilBreak)),
        Due::ValueUntilBreak => Part::Item(Due::PairsUntilBreak),
        Due::ChunksUntilBreak(major) => unless_break(input, at, Part::Chunk(major)),
    }
}

/// The part, unless a break is next, which ends what is due.
fn unless_break(input: &[u8], at: usize, part: Part) -> Part
    requires { at ≤ length input.now }
    ensures next { result ≡ part_unless_break (drop at input.now) at part }
    ensures within { begins_with_break (drop at input.now) ≡ true → at < length input.now }
{
    if is_break(input, at) {
        Part::Ended(at + 1)
    } else {
        part
    }
}

/// Skips an item as `skip_head` does, with what is due after it below what it opens.
fn skip_item_then(
    input: &[u8],
    at: usize,
    after: Due,
    due: &mut Vec<Due>,
) -> Result<usize, ItemError>
    requires { at ≤ length input.now }
    ensures step { IsStepAnswer (at_item (after ∷ stack_of due.old.items) (drop at input.now)) due.new.items input.now result }
    ensures smaller { IfOk result (λ end. (at < end) × (vec_len due.new ≤ vec_len due.old + 2)) }
{
    due.push(after)?;
    skip_head(input, at, due)
}

/// Skips the item that begins here up to what it opens, which becomes the innermost that is due.
fn skip_head(input: &[u8], at: usize, due: &mut Vec<Due>) -> Result<usize, ItemError>
    requires { at ≤ length input.now }
    ensures step { IsStepAnswer (at_item (stack_of due.old.items) (drop at input.now)) due.new.items input.now result }
    ensures smaller { IfOk result (λ end. (at < end) × (vec_len due.new ≤ vec_len due.old + 1)) }
{
    let head = read_head(input, at)?;
    open_item(
        input,
        at + usize::from(head.length),
        head.major,
        head.argument,
        due,
    )
}

/// Skips what stands after a head, up to what that head opens.
fn open_item(
    input: &[u8],
    body: usize,
    major: u8,
    argument: Option<u64>,
    due: &mut Vec<Due>,
) -> Result<usize, ItemError>
    requires { body ≤ length input.now }
    ensures step { IsStepAnswer (after_head major argument (stack_of due.old.items) (drop body input.now)) due.new.items input.now result }
    ensures smaller { IfOk result (λ end. (body ≤ end) × (vec_len due.new ≤ vec_len due.old + 1)) }
{
    match (major, argument) {
        (2 | 3, Some(announced)) => end_of_payload(input, body, announced),
        (2 | 3, None) => opened(due, Due::ChunksUntilBreak(major), body),
        (4, Some(count)) => opened(due, Due::Items(count), body),
        (4, None) => opened(due, Due::ItemsUntilBreak, body),
        (5, Some(count)) => opened(due, Due::Pairs(count), body),
        (5, None) => opened(due, Due::PairsUntilBreak, body),
        (6, _) => opened(due, Due::Items(1), body),
        (_, Some(_)) => Ok(body),
        (_, None) => Err(ItemError::NotWellFormed),
    }
}

/// Opens what is due from the offset on.
fn opened(due: &mut Vec<Due>, contents: Due, body: usize) -> Result<usize, ItemError>
    ensures ok { IfOk result (λ end. (end ≡ body) × (due.new.items ≡ due.old.items ++ contents ∷ [])) }
    ensures err { IfErr result (λ e. e ≡ ItemError.NoMemory) }
{
    due.push(contents)?;
    Ok(body)
}
