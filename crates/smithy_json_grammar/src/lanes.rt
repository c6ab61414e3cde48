//! Where a run of bytes in a string's text ends, found many bytes at a time.

ghost use Rattle.std.specs.Prelude.{◌≡◌, ◌≤◌, ◌+◌, ◌*◌, length, map, IfSome, IfNone};
ghost use Rattle.std.specs.Simd.Lanes.{mask_l};
ghost use Rattle.smithy_json_grammar.specs.Private.Chars.{ends_run, run_end};

use std::simd::prelude::*;

/// A bit for each of N bytes that is a quotation mark or a backslash, the first byte's lowest; where `controls` is set also for those
/// below 0x20, and where `ascii` is set for those past ASCII.
#[inline(always)]
pub fn ends<const N: usize>(bytes: Simd<u8, N>, controls: bool, ascii: bool) -> u64
    requires { N ≤ 64 }
    ensures { result ≡ mask_l (map (ends_run controls ascii) bytes.entry) }
{
    (bytes.simd_eq(Simd::splat(b'"'))
        | bytes.simd_eq(Simd::splat(b'\\'))
        | (bytes.simd_lt(Simd::splat(0x20)) & Mask::splat(controls))
        | (bytes.simd_gt(Simd::splat(0x7f)) & Mask::splat(ascii))).to_bitmask()
}

// Where the run ends among the next N bytes, unless it goes on behind them.
#[inline(always)]
fn end_in<const N: usize, const CONTROLS: bool, const ASCII: bool>(
    input: &[u8],
    at: usize,
) -> Option<usize>
    requires within { at + N ≤ length input.now }
    requires lanes { N ≤ 64 }
    ensures found { IfSome result (λ end. end ≡ run_end CONTROLS ASCII input.now at) }
    ensures none { IfNone result (run_end CONTROLS ASCII input.now at ≡ run_end CONTROLS ASCII input.now (at + N)) }
{
    let found = ends(Simd::<u8, N>::from_slice(&input[at..]), CONTROLS, ASCII);
    if found == 0 {
        return None;
    }
    Some(at + found.trailing_zeros() as usize)
}

fn ends_run(byte: u8, controls: bool, ascii: bool) -> bool
    ensures { result ≡ ends_run controls ascii byte }
{
    (ascii && byte > 0x7f) || byte == b'"' || byte == b'\\' || (controls && byte < 0x20)
}

// Where the run ends, a byte at a time.
fn end_by_byte<const CONTROLS: bool, const ASCII: bool>(input: &[u8], at: usize) -> usize
    requires { at ≤ length input.now }
    ensures { result ≡ run_end CONTROLS ASCII input.now at }
{
    let mut end = at;
    while end < input.len() && !ends_run(input[end], CONTROLS, ASCII) {
        end += 1;
    }
    end
}

// Where the run ends, where N to two times N bytes are left: the first N of them, and the last N.
#[inline(always)]
fn end_in_two<const N: usize, const CONTROLS: bool, const ASCII: bool>(
    input: &[u8],
    at: usize,
) -> usize
    requires many { at + N ≤ length input.now }
    requires few { length input.now ≤ at + 2 * N }
    requires lanes { N ≤ 64 }
    ensures { result ≡ run_end CONTROLS ASCII input.now at }
{
    if let Some(end) = end_in::<N, CONTROLS, ASCII>(input, at) {
        return end;
    }
    match end_in::<N, CONTROLS, ASCII>(input, input.len() - N) {
        Some(end) => end,
        None => input.len(),
    }
}

// Where the run ends, where at most 32 bytes are left.
#[inline(never)]
fn end_in_few<const CONTROLS: bool, const ASCII: bool>(input: &[u8], at: usize) -> usize
    requires within { at ≤ length input.now }
    requires few { length input.now ≤ at + 32 }
    ensures { result ≡ run_end CONTROLS ASCII input.now at }
{
    let left = input.len() - at;
    if left >= 16 {
        return end_in_two::<16, CONTROLS, ASCII>(input, at);
    }
    if left >= 8 {
        return end_in_two::<8, CONTROLS, ASCII>(input, at);
    }
    if left >= 4 {
        return end_in_two::<4, CONTROLS, ASCII>(input, at);
    }
    end_by_byte::<CONTROLS, ASCII>(input, at)
}

// Where the run ends, where at least 32 bytes are left: by 32, and at last the last 32 of them.
#[inline(never)]
fn end_in_many<const CONTROLS: bool, const ASCII: bool>(input: &[u8], at: usize) -> usize
    requires { at + 32 ≤ length input.now }
    ensures { result ≡ run_end CONTROLS ASCII input.now at }
{
    let mut end = at;
    while input.len() - end > 32 {
        if let Some(stop) = end_in::<32, CONTROLS, ASCII>(input, end) {
            return stop;
        }
        end += 32;
    }
    match end_in::<32, CONTROLS, ASCII>(input, input.len() - 32) {
        Some(stop) => stop,
        None => input.len(),
    }
}

/// Where the run ends. As most strings are short, the first 16 bytes come alone.
#[inline(always)]
pub fn run_end<const CONTROLS: bool, const ASCII: bool>(input: &[u8], at: usize) -> usize
    requires { at ≤ length input.now }
    ensures value { result ≡ run_end CONTROLS ASCII input.now at }
    ensures bound { result ≤ length input.now }
{
    if input.len() - at < 32 {
        return end_in_few::<CONTROLS, ASCII>(input, at);
    }
    if let Some(end) = end_in::<16, CONTROLS, ASCII>(input, at) {
        return end;
    }
    end_in_many::<CONTROLS, ASCII>(input, at)
}
