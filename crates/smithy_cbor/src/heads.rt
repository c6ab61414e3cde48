//! Heads that are wanted at a place of an input.

ghost use Rattle.std.specs.Prelude.{◌≤◌, ◌↔◌, IfOk, IfErr, IsTrue, Some, length};
ghost use Rattle.cbor_item.specs.HeadView.{head_read};
ghost use Rattle.smithy_cbor.specs.Reading.{OpensAt, IsBreakAt, IsHeadFault, IsTag, IsBreakHead};

use crate::initial::{SIMPLE, TAG};
use cbor_item::{Head, ItemError, read_head};

/// The item under this tag that begins at the offset: where the tag's head ends.
pub(crate) fn tag_at(input: &[u8], at: usize, number: u64) -> Result<usize, ItemError>
    requires { at ≤ length input.now }
    ensures found { IfOk result (OpensAt 6 (Some number) input.now at) }
    ensures within { IfOk result (λ end. end ≤ length input.now) }
    ensures refused { IfErr result (IsHeadFault (IsTag number) input.now at) }
{
    let head = read_head(input, at)?;
    if !is_tag(head, number) {
        return Err(ItemError::WrongType);
    }
    Ok(at + usize::from(head.length))
}

/// Where the break ends that stands at the offset.
pub(crate) fn break_at(input: &[u8], at: usize) -> Result<usize, ItemError>
    requires { at ≤ length input.now }
    ensures found { IfOk result (IsBreakAt input.now at) }
    ensures within { IfOk result (λ end. end ≤ length input.now) }
    ensures refused { IfErr result (IsHeadFault IsBreakHead input.now at) }
{
    let head = read_head(input, at)?;
    if !is_break(head) {
        return Err(ItemError::WrongType);
    }
    Ok(at + 1)
}

// Whether the head is that of this tag.
fn is_tag(head: Head, number: u64) -> bool
    ensures { IsTrue result ↔ IsTag number (head_read head) }
{
    head.major == TAG && head.argument == Some(number)
}

// Whether the head is a break.
fn is_break(head: Head) -> bool
    ensures { IsTrue result ↔ IsBreakHead (head_read head) }
{
    head.major == SIMPLE && head.argument.is_none()
}
