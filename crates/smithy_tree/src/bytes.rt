//! The bytes that nodes name.
ghost use Rattle.std.specs.Prelude.{◌≡◌, ◌++◌, take, drop};
ghost use Rattle.smithy_tree.specs.Nodes.{IsPart, IsSpan, IsLabel};

use std::str;

// So many bytes from a place on, where a place counts on from the end of the input in the bytes beside it.
#[inline(always)]
pub(crate) fn bytes_at<'t>(input: &'t [u8], side: &'t [u8], at: u32, size: u32) -> &'t [u8]
    requires part { IsPart input.now side.now at size }
    ensures { result.now ≡ take size (drop at (input.now ++ side.now)) }
{
    let begin = at as usize;
    let end = begin + size as usize;
    let known = input.len();
    if end <= known {
        return &input[begin..end];
    }
    &side[begin - known..end - known]
}

// The text that stands there.
#[inline(always)]
pub(crate) fn text_at<'t>(input: &'t [u8], side: &'t [u8], at: u32, size: u32) -> &'t str
    requires span { IsSpan input.now side.now at size }
    ensures { result.now ≡ take size (drop at (input.now ++ side.now)) }
{
    // A span is a text in UTF-8.
    unsafe { str::from_utf8_unchecked(bytes_at(input, side, at, size)) }
}

// The key of a label that begins there.
#[inline(always)]
pub(crate) fn key_at<'t>(input: &'t [u8], side: &'t [u8], at: u32, size: u32) -> &'t str
    requires label { IsLabel input.now side.now at size }
    ensures { result.now ≡ take size (drop at (input.now ++ side.now)) }
{
    if size == 0 {
        return "";
    }
    text_at(input, side, at, size)
}
