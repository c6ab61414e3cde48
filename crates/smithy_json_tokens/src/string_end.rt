//! Where the text of a string ends.

ghost use Rattle.std.specs.Prelude.{◌≡◌, ◌≤◌, ◌<◌, ◌+◌, ◌-◌, ◌/◌, ◌^◌, length, drop, map, true, false};
ghost use Rattle.std.specs.List.{prefix_len};
ghost use Rattle.std.specs.Simd.Lanes.{mask_l, chunk};
ghost use Rattle.smithy_json_grammar.specs.Private.Chars.{is_plain, ends_run};
ghost use Rattle.smithy_json_tokens.specs.TokenRules.{text_length};

use smithy_json_grammar::lanes::ends;
use smithy_json_grammar::scan::stop;
use std::simd::prelude::*;

// The first byte that doesn't stand for itself from the offset on, by the mask of the bytes up to `behind`.
#[inline(always)]
fn plain_stop(input: &[u8], at: usize, behind: usize, rest: u64) -> usize
    requires ordered { at ≤ behind }
    requires within { behind ≤ length input.now }
    requires short { behind ≤ at + 16 }
    requires some { 0 < rest }
    requires rest { rest ≡ mask_l (map (ends_run true false) (chunk at (behind - at) input.now)) }
    ensures value { result ≡ at + prefix_len is_plain (drop at input.now) }
    ensures bound { result ≤ length input.now }
{
    at + rest.trailing_zeros() as usize
}

// The mask without so many of its lowest bits.
#[inline(always)]
fn without_lowest(mask: u64, count: usize) -> u64
    requires { count < 64 }
    ensures { result ≡ mask / 2 ^ count }
{
    mask >> count
}

// Where the text ends that goes on at the offset, and true; or where it goes on behind the 16 bytes there,
// by the mask of those that don't stand for themselves. An escape is passed by a shift of the mask.
#[inline(always)]
fn pass_block(input: &[u8], at: usize, stops: u64) -> (usize, bool)
    requires block { at + 16 ≤ length input.now }
    requires stops { stops ≡ mask_l (map (ends_run true false) (chunk at 16 input.now)) }
    ensures same_text { at + text_length (drop at input.now) ≡ result.0 + text_length (drop result.0 input.now) }
    ensures ends { result.1 ≡ true → text_length (drop result.0 input.now) ≡ 0 }
    ensures goes_on { result.1 ≡ false → at < result.0 }
    ensures within { result.0 ≤ length input.now }
{
    let behind = at + 16;
    let mut end = at;
    let mut rest = stops;
    while rest != 0 {
        let stop = plain_stop(input, end, behind, rest);
        if stop == input.len() {
            return (stop, true);
        }
        if input[stop] != b'\\' {
            return (stop, true);
        }
        if input.len() - stop < 2 {
            return (input.len(), true);
        }
        let next = stop + 2;
        if next >= behind {
            return (next, false);
        }
        rest = without_lowest(rest, next - end);
        end = next;
    }
    (behind, false)
}

// Where the text of a string ends that goes on at the offset, by the runs between its escapes.
fn text_end_by_escapes(input: &[u8], at: usize) -> usize
    requires { at ≤ length input.now }
    ensures value { result ≡ at + text_length (drop at input.now) }
    ensures within { result ≤ length input.now }
{
    let mut end = stop(input, at, true);
    while input.len() - end > 1 && input[end] == b'\\' {
        end = stop(input, end + 2, true);
    }
    if end < input.len() && input[end] == b'\\' {
        return input.len();
    }
    end
}

// Where the text of a string ends that goes on at the offset, with an escape.
#[inline(never)]
fn text_end_by_blocks(input: &[u8], at: usize) -> usize
    requires { at ≤ length input.now }
    ensures value { result ≡ at + text_length (drop at input.now) }
    ensures within { result ≤ length input.now }
{
    let mut end = at;
    while input.len() - end >= 16 {
        let stops = ends(u8x16::from_slice(&input[end..]), true, false);
        let (next, ends) = pass_block(input, end, stops);
        if ends {
            return next;
        }
        end = next;
    }
    text_end_by_escapes(input, end)
}

// Where the text of a string ends that goes on at the offset.
pub(crate) fn text_end(input: &[u8], at: usize) -> usize
    requires { at ≤ length input.now }
    ensures value { result ≡ at + text_length (drop at input.now) }
    ensures within { result ≤ length input.now }
{
    let first = stop(input, at, true);
    if first >= input.len() {
        return first;
    }
    if input[first] != b'\\' {
        return first;
    }
    text_end_by_blocks(input, first)
}
