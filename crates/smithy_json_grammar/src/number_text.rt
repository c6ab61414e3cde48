//! Where the text of a number ends, and the whole number that it writes (RFC 8259, section 6).

ghost use Rattle.std.specs.Prelude.{◌≡◌, ◌↔◌, ◌≤◌, ◌<◌, ◌+◌, ℕ, ℤ, length, drop, slice_range, is_some, IsTrue, IfSome, IfNone};
ghost use Rattle.smithy_json_grammar.specs.Ascii.{is_e};
ghost use Rattle.smithy_json_grammar.specs.Grammar.{IsNumber};
ghost use Rattle.smithy_json_grammar.specs.Number.{whole_number};
ghost use Rattle.smithy_json_grammar.specs.NumberText.{is_number};
ghost use Rattle.smithy_json_grammar.specs.Private.Numeral.{first_byte, digit_count, after_digits, after_minus, after_sign, after_int, after_frac, after_exp, after_whole, after_frac_and_exp, EndsAt, EndsBefore, ReadsNatural, is_int_between, long_of};
ghost use Rattle.smithy_json_grammar.specs.Standing.{StandsAt, IsLongAt};

use crate::scan::is_boundary;

/// A number that stands in an input.
#[derive(Clone, Copy, Debug, PartialEq, Eq)]
pub struct ScannedNumber {
    /// The offset behind the number's last byte.
    pub end: usize,
    /// Whether the number has neither a fraction nor an exponent.
    pub is_whole: bool,
}

/// The byte at the offset, and 0 at the input's end.
#[inline(always)]
pub fn byte_at(input: &[u8], at: usize) -> u8
    requires { at ≤ length input.now }
    ensures { result ≡ first_byte (drop at input.now) }
{
    if at < input.len() { input[at] } else { 0 }
}

/// Where the digits end that come at the offset.
#[inline(always)]
pub fn digit_run_end(input: &[u8], at: usize) -> usize
    requires { at ≤ length input.now }
    ensures value { result ≡ at + digit_count (drop at input.now) }
    ensures within { result ≤ length input.now }
{
    let mut end = at;
    while end < input.len() && input[end].is_ascii_digit() {
        end += 1;
    }
    end
}

#[inline(always)]
pub fn digits_end(input: &[u8], at: usize) -> Option<usize>
    requires { at ≤ length input.now }
    ensures { EndsAt input.now at result (after_digits (drop at input.now)) }
{
    let end = digit_run_end(input, at);
    (at < end).then_some(end)
}

#[inline(always)]
pub fn minus_end(input: &[u8], at: usize) -> usize
    requires { at ≤ length input.now }
    ensures { EndsBefore input.now at result (after_minus (drop at input.now)) }
{
    if byte_at(input, at) == b'-' {
        at + 1
    } else {
        at
    }
}

#[inline(always)]
pub fn sign_end(input: &[u8], at: usize) -> usize
    requires { at ≤ length input.now }
    ensures { EndsBefore input.now at result (after_sign (drop at input.now)) }
{
    if matches!(byte_at(input, at), b'-' | b'+') {
        at + 1
    } else {
        at
    }
}

#[inline(always)]
fn int_end(input: &[u8], at: usize) -> Option<usize>
    requires { at ≤ length input.now }
    ensures { EndsAt input.now at result (after_int (drop at input.now)) }
{
    if byte_at(input, at) == b'0' {
        Some(at + 1)
    } else {
        digits_end(input, at)
    }
}

#[inline(always)]
fn frac_end(input: &[u8], at: usize) -> Option<usize>
    requires { at ≤ length input.now }
    ensures { EndsAt input.now at result (after_frac (drop at input.now)) }
{
    if byte_at(input, at) == b'.' {
        digits_end(input, at + 1)
    } else {
        Some(at)
    }
}

#[inline(always)]
fn is_e(byte: u8) -> bool
    ensures { result ≡ is_e byte }
{
    matches!(byte, b'e' | b'E')
}

#[inline(always)]
pub fn exp_end(input: &[u8], at: usize) -> Option<usize>
    requires { at ≤ length input.now }
    ensures { EndsAt input.now at result (after_exp (drop at input.now)) }
{
    if is_e(byte_at(input, at)) {
        digits_end(input, sign_end(input, at + 1))
    } else {
        Some(at)
    }
}

fn whole_end(input: &[u8], at: usize) -> Option<usize>
    requires { at ≤ length input.now }
    ensures { EndsAt input.now at result (after_whole (drop at input.now)) }
{
    int_end(input, minus_end(input, at))
}

fn frac_and_exp_end(input: &[u8], at: usize) -> Option<usize>
    requires { at ≤ length input.now }
    ensures { EndsAt input.now at result (after_frac_and_exp (drop at input.now)) }
{
    exp_end(input, frac_end(input, at)?)
}

/// The number that stands at the offset, where a value may end behind it.
pub fn scan_number(input: &[u8], at: usize) -> Option<ScannedNumber>
    requires { at ≤ length input.now }
    ensures found { IfSome result (λ n. StandsAt IsNumber input.now at n.end) }
    ensures is_whole { IfSome result (λ n. n.is_whole ≡ is_some (whole_number (slice_range input.now at n.end))) }
    ensures none { IfNone result ((end : ℕ) → StandsAt IsNumber input.now at end → ⊥) }
{
    let whole_end = whole_end(input, at)?;
    let end = frac_and_exp_end(input, whole_end)?;
    if !is_boundary(input, end) {
        return None;
    }
    Some(ScannedNumber {
        end,
        is_whole: whole_end == end,
    })
}

// Whether nothing is left behind the number that begins the text.
fn is_number_alone(text: &[u8]) -> bool
    ensures { result ≡ is_number text.now }
{
    let Some(whole_end) = whole_end(text, 0) else {
        return false;
    };
    match frac_and_exp_end(text, whole_end) {
        Some(end) => end == text.len(),
        None => false,
    }
}

/// Whether the whole text is a number.
#[tactic(auto, using(crate::proofs::NumberTextLemmas::tells_numbers))]
pub fn is_number(text: &[u8]) -> bool
    ensures test { result ≡ is_number text.now }
    ensures grammar { IsTrue result ↔ IsNumber text.now }
{
    is_number_alone(text)
}

/// The number of the digits that come at the offset, with their end. There is none where no digit
/// comes, or where they write 2^64 or more.
#[inline(always)]
pub fn read_natural(input: &[u8], at: usize) -> Option<(u64, usize)>
    requires { at ≤ length input.now }
    ensures { ReadsNatural input.now at result }
{
    let mut value: u64 = 0;
    let mut end = at;
    while end < input.len() && input[end].is_ascii_digit() {
        let digit = u64::from(input[end] - b'0');
        value = value.checked_mul(10)?.checked_add(digit)?;
        end += 1;
    }
    if end == at { None } else { Some((value, end)) }
}

// Whether the digits between the offsets are an int: they don't begin with 0, or are it.
#[inline(always)]
fn is_int_between(input: &[u8], start: usize, end: usize) -> bool
    requires { start < length input.now }
    ensures { result ≡ is_int_between input.now start end }
{
    input[start] != b'0' || end <= start + 1
}

/// The number with this magnitude, where it is one of 64 bits.
#[inline(always)]
pub fn signed(is_negative: bool, magnitude: u64) -> Option<i64>
    ensures { result ≡ long_of is_negative magnitude }
{
    if is_negative {
        0i64.checked_sub_unsigned(magnitude)
    } else {
        0i64.checked_add_unsigned(magnitude)
    }
}

/// The whole number of 64 bits that stands at the offset, with its end, where a value may end behind
/// it.
#[inline(always)]
pub fn read_long(input: &[u8], at: usize) -> Option<(i64, usize)>
    requires { at ≤ length input.now }
    ensures found { IfSome result (λ r. IsLongAt input.now at r.1 r.0) }
    ensures none { IfNone result ((n : ℤ) (end : ℕ) → IsLongAt input.now at end n → ⊥) }
{
    let start = minus_end(input, at);
    let (magnitude, end) = read_natural(input, start)?;
    if !is_int_between(input, start, end) {
        return None;
    }
    if !is_boundary(input, end) {
        return None;
    }
    let n = signed(at < start, magnitude)?;
    Some((n, end))
}
