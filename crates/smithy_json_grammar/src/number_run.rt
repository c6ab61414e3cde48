//! The longest run of bytes that numbers have, and the whole number that one writes in a lenient way.

ghost use Rattle.std.specs.Prelude.{◌≡◌, ◌≤◌, ℕ, ℤ, length, drop, IfSome, IfNone};
ghost use Rattle.smithy_json_grammar.specs.Ascii.{is_numeric};
ghost use Rattle.smithy_json_grammar.specs.Number.{integral_number};
ghost use Rattle.smithy_json_grammar.specs.Private.Numeral.{first_byte};
ghost use Rattle.smithy_json_grammar.specs.Standing.{IsRunAt, IsSignedAt};

use crate::number_text::{byte_at, read_natural, sign_end, signed};
use crate::scan::is_boundary;
use smithy_instants::read_epoch;

#[inline(always)]
fn is_numeric(byte: u8) -> bool
    ensures { result ≡ is_numeric byte }
{
    byte.is_ascii_digit() || matches!(byte, b'-' | b'+' | b'.' | b'e' | b'E')
}

/// The offset of the first byte from `at` on that is neither a digit nor one of `-`, `+`, `.`, `e` and `E`, or the input's length.
pub fn number_run_end(input: &[u8], at: usize) -> usize
    requires { at ≤ length input.now }
    ensures { IsRunAt is_numeric input.now at result }
{
    let mut end = at;
    while end < input.len() && is_numeric(input[end]) {
        end += 1;
    }
    end
}

// Whether a byte of numbers stands at the offset. Mostly one that may follow a value does, so that is asked first.
#[inline(always)]
#[tactic(auto, using(crate::proofs::SignedLemmas::boundary_stops))]
fn run_goes_on(input: &[u8], at: usize) -> bool
    requires { at ≤ length input.now }
    ensures { result ≡ is_numeric (first_byte (drop at input.now)) }
{
    !is_boundary(input, at) && is_numeric(byte_at(input, at))
}

/// The whole number of 64 bits, written by an optional sign and digits, that the longest run of bytes of numbers at the offset is,
/// with the run's end.
#[inline(always)]
pub fn read_signed(input: &[u8], at: usize) -> Option<(i64, usize)>
    requires { at ≤ length input.now }
    ensures found { IfSome result (λ r. IsSignedAt input.now at r.1 r.0) }
    ensures none { IfNone result ((n : ℤ) (end : ℕ) → IsSignedAt input.now at end n → ⊥) }
{
    let start = sign_end(input, at);
    let (magnitude, end) = read_natural(input, start)?;
    if run_goes_on(input, end) {
        return None;
    }
    let n = signed(byte_at(input, at) == b'-', magnitude)?;
    Some((n, end))
}

/// The whole number of 64 bits that a decimal text is equal to, as 15 of `1.5e1`. There is none where the exponent that is written
/// leaves 64 bits. A decimal text may have a plus and a point at either end, so a grammar of numbers is asked for beside this.
pub fn integral_number(text: &[u8]) -> Option<i64>
    ensures { result ≡ integral_number text.now }
{
    // the instant of so many seconds has nine decimals, which have to be zeros
    let Ok(instant) = read_epoch(text) else {
        return None;
    };
    if instant.has_subsec_nanos() {
        return None;
    }
    Some(instant.secs())
}
