//! The parts of a decimal text: a coefficient with a point, and an exponent.

ghost use Rattle.std.specs.Prelude.{◌≡◌, ◌+◌, ◌≤◌, length, drop, IsTrue, FitsSigned};
ghost use Rattle.std.specs.Option.{SomeIff};
ghost use Rattle.std.specs.Int.{w64};
ghost use Rattle.std.specs.List.{position_or_len, after_first};
ghost use Rattle.smithy_texts.specs.Decimal.{is_point, is_exponent_mark, are_digits_with_point, is_exponent_part, coefficient, is_decimal, written_exponent, net_exponent, exponents_fit};

use crate::numeral::{all_digits, are_digits, number, without_sign};

fn is_point(byte: u8) -> bool
    ensures { result ≡ is_point byte }
{
    byte == b'.'
}

fn is_exponent_mark(byte: u8) -> bool
    ensures { result ≡ is_exponent_mark byte }
{
    matches!(byte, b'e' | b'E')
}

/// Where the first point stands, or the length.
pub fn point_at(text: &[u8]) -> usize
    ensures place { result ≡ position_or_len is_point text.now }
    ensures within { result ≤ length text.now }
{
    let mut at = 0;
    while at < text.len() && !is_point(text[at]) {
        at += 1;
    }
    at
}

// Where the mark of the exponent stands, or the length.
fn mark_at(text: &[u8]) -> usize
    ensures place { result ≡ position_or_len is_exponent_mark text.now }
    ensures within { result ≤ length text.now }
{
    let mut at = 0;
    while at < text.len() && !is_exponent_mark(text[at]) {
        at += 1;
    }
    at
}

// The text behind this place.
fn behind(text: &[u8], at: usize) -> &[u8]
    requires { at ≤ length text.now }
    ensures { result.now ≡ drop (at + 1) text.now }
{
    if at < text.len() {
        &text[at + 1..]
    } else {
        &text[at..]
    }
}

/// The text before the mark of the exponent.
pub fn coefficient(text: &[u8]) -> &[u8]
    ensures { result.now ≡ coefficient text.now }
{
    &text[..mark_at(text)]
}

/// What comes after the first point.
pub fn after_point(text: &[u8]) -> &[u8]
    ensures { result.now ≡ after_first is_point text.now }
{
    behind(text, point_at(text))
}

fn are_digits_with_point(text: &[u8]) -> bool
    ensures { result ≡ are_digits_with_point text.now }
{
    let whole = &text[..point_at(text)];
    let fraction = after_point(text);
    !(whole.is_empty() && fraction.is_empty()) && all_digits(whole) && all_digits(fraction)
}

fn is_exponent_part(text: &[u8]) -> bool
    ensures { result ≡ is_exponent_part text.now }
{
    text.is_empty() || are_digits(without_sign(&text[1..]))
}

/// Whether the text has the form of a decimal number.
pub fn is_decimal(text: &[u8]) -> bool
    ensures { result ≡ is_decimal text.now }
{
    let mark = mark_at(text);
    are_digits_with_point(without_sign(&text[..mark])) && is_exponent_part(&text[mark..])
}

/// The number after the mark of the exponent, where it is one of 64 bits, and 0 where no mark stands.
pub fn written_exponent(text: &[u8]) -> Option<i64>
    ensures { SomeIff result (FitsSigned w64 (written_exponent text.now)) (written_exponent text.now) }
{
    i64::try_from(number(behind(text, mark_at(text)))?).ok()
}

/// The exponent less the digits after the point, where both exponents are within their limits.
pub fn net_exponent(text: &[u8]) -> Option<i64>
    ensures { SomeIff result (IsTrue (exponents_fit text.now)) (net_exponent text.now) }
{
    let written = written_exponent(text)?;
    let digits = after_point(coefficient(text)).len();
    let net = written.checked_sub_unsigned(digits as u64)?;
    (net != i64::MIN).then_some(net)
}
