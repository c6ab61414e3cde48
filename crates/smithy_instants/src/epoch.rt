//! Instants as texts of seconds from the epoch on.

ghost use Rattle.std.specs.Prelude.{◌≡◌, ◌≢◌, ◌≤◌, ◌<◌, ◌*◌, ◌^◌, ◌%◌, ◌⊎◌, ◌≤ℤ◌, unsigned_abs, take, length, true, pos, neg_ℤ, ◌+ℤ◌, IfSome, IsTrue, FitsSigned};
ghost use Rattle.std.specs.Option.{SomeIff};
ghost use Rattle.std.specs.Int.{is_in_range, w64, w128};
ghost use Rattle.std.specs.Str.{byte};
ghost use Rattle.smithy_texts.specs.Numeral.{are_digits, magnitude, begins_with, signed};
ghost use Rattle.smithy_texts.specs.Decimal.{coefficient, net_exponent};
ghost use Rattle.smithy_instants.specs.Epoch.{is_epoch};
ghost use Rattle.smithy_instants.specs.Instant.{is_instant};
ghost use Rattle.smithy_instants.specs.Answers.{ReadsEpoch};

use crate::DateTime;
use smithy_texts::decimal_text::{after_point, coefficient, is_decimal, written_exponent};
use smithy_texts::numeral::{begins_with, magnitude, signed};

/// Why a text is no instant.
#[derive(Debug, Clone, Copy, PartialEq, Eq, thiserror::Error)]
pub enum EpochError {
    /// The text is no number of whole nanoseconds, or its exponent leaves 64 bits.
    #[error("NotWhole")]
    NotWhole,
    /// The seconds leave 64 bits.
    #[error("OutOfRange")]
    OutOfRange,
}

fn is_significant(byte: u8) -> bool
    ensures { result ≡ is_in_range 49 57 byte }
{
    byte >= b'1' && byte <= b'9'
}

// The exponent less the digits after the point, of a decimal text whose written exponent is a number
// of 64 bits.
fn epoch_exponent(text: &[u8]) -> Option<i128>
    ensures value { SomeIff result (IsTrue (is_epoch text.now)) (net_exponent text.now) }
    ensures bounds { IfSome result (λ e. (neg_ℤ (pos (2 ^ 65)) ≤ℤ e) × (e ≤ℤ pos (2 ^ 65))) }
{
    if !is_decimal(text) {
        return None;
    }
    let written = written_exponent(text)?;
    Some(i128::from(written) - after_point(coefficient(text)).len() as i128)
}

// Where the last digit other than 0 ends, and how many zeros stand behind it.
fn significant_end(text: &[u8]) -> (usize, usize)
    ensures within { result.0 ≤ length text.now }
    ensures value { magnitude text.now ≡ magnitude (take result.0 text.now) * 10 ^ result.1 }
    ensures last { (result.0 ≡ 0) ⊎ (magnitude (take result.0 text.now) % 10 ≢ 0) }
    ensures zeros { result.1 ≤ length text.now }
{
    let mut end = text.len();
    let mut zeros = 0;
    while end > 0 && !is_significant(text[end - 1]) {
        if text[end - 1] == b'0' {
            zeros += 1;
        }
        end -= 1;
    }
    (end, zeros)
}

// The product with a power of ten, where it is a number of 128 bits.
fn times_power_of_ten(value: u128, power: i128) -> Option<u128>
    requires power { pos 0 ≤ℤ power }
    requires value { 0 < value }
    ensures { SomeIff result (value * 10 ^ unsigned_abs power < 2 ^ 128) (value * 10 ^ unsigned_abs power) }
{
    if power >= 39 {
        return None;
    }
    value.checked_mul(10u128.pow(power as u32))
}

// The power of ten by which the digits before the last zeros count nanoseconds.
fn nanos_power(exponent: i128, zeros: usize) -> i128
    requires low { neg_ℤ (pos (2 ^ 65)) ≤ℤ exponent }
    requires high { exponent ≤ℤ pos (2 ^ 65) }
    ensures value { result ≡ exponent +ℤ pos 9 +ℤ pos zeros }
    ensures fits { FitsSigned w128 result }
{
    exponent + 9 + zeros as i128
}

// The number of a text of one to eighteen digits and nothing else.
fn few_digits(text: &[u8]) -> Option<i64>
    ensures digits { IfSome result (λ n. (are_digits text.now ≡ true) × (n ≡ pos (magnitude text.now))) }
    ensures fits { IfSome result (λ n. FitsSigned w64 n) }
{
    if text.is_empty() || text.len() > 18 {
        return None;
    }
    let mut value: u64 = 0;
    for byte in text {
        if !byte.is_ascii_digit() {
            return None;
        }
        value = value * 10 + u64::from(byte - b'0');
    }
    i64::try_from(value).ok()
}

/// The instant of a decimal text in seconds.
pub fn read_epoch(text: &[u8]) -> Result<DateTime, EpochError>
    ensures { ReadsEpoch text.now result }
{
    match few_digits(text) {
        Some(seconds) => Ok(DateTime::from_secs(seconds)),
        None => read_decimal(text),
    }
}

// The instant of a decimal text in seconds, whatever its form.
#[inline(never)]
fn read_decimal(text: &[u8]) -> Result<DateTime, EpochError>
    ensures { ReadsEpoch text.now result }
{
    let Some(exponent) = epoch_exponent(text) else {
        return Err(EpochError::NotWhole);
    };
    let coefficient = coefficient(text);
    let (end, zeros) = significant_end(coefficient);
    if end == 0 {
        return Ok(DateTime::from_secs(0));
    }
    let power = nanos_power(exponent, zeros);
    if power < 0 {
        return Err(EpochError::NotWhole);
    }
    match scaled_instant(begins_with(b'-', coefficient), &coefficient[..end], power) {
        Some(instant) => Ok(instant),
        None => Err(EpochError::OutOfRange),
    }
}

// The instant of a sign, digits and a power of ten.
fn scaled_instant(is_negative: bool, digits: &[u8], power: i128) -> Option<DateTime>
    requires power { pos 0 ≤ℤ power }
    requires positive { 0 < magnitude digits.now }
    ensures { SomeIff result
        (IsTrue (is_instant (signed is_negative (magnitude digits.now * 10 ^ unsigned_abs power))))
        (signed is_negative (magnitude digits.now * 10 ^ unsigned_abs power)) }
{
    let nanos = times_power_of_ten(magnitude(digits)?, power)?;
    DateTime::from_nanos(signed(is_negative, nanos)?).ok()
}
