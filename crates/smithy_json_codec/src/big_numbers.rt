//! Big numbers whose text is no number of RFC 8259, as they are rewritten.
ghost use Rattle.std.specs.Prelude.{◌≡◌, ◌++◌, OnOk, drop};
ghost use Rattle.std.specs.List.{prefix_len};
ghost use Rattle.std.specs.Prelude.{◌==◌, length, ◌≤◌};
ghost use Rattle.smithy_json_grammar.specs.Ascii.{digit_zero};
ghost use Rattle.smithy_json_codec.specs.WrittenNumber.{without_zeros, fraction_of, exponent_of, minus_of, normalized};

use smithy_texts::decimal_text::{after_point, coefficient, point_at};
use smithy_texts::numeral::{begins_with, without_sign};
use std::alloc::AllocError;

// How many zeros come first.
fn zero_count(digits: &[u8]) -> usize
    ensures value { result ≡ prefix_len (λ b. b == digit_zero) digits.now }
    ensures within { result ≤ length digits.now }
{
    let mut count = 0;
    while count < digits.len() && digits[count] == b'0' {
        count += 1;
    }
    count
}

fn push_without_zeros(out: &mut Vec<u8>, digits: &[u8]) -> Result<(), AllocError>
    ensures { OnOk result (out.new.items ≡ out.old.items ++ without_zeros digits.now) }
{
    let kept = &digits[zero_count(digits)..];
    if kept.is_empty() {
        out.push(b'0')?;
        return Ok(());
    }
    out.extend_from_slice(kept)?;
    Ok(())
}

fn push_fraction(out: &mut Vec<u8>, digits: &[u8]) -> Result<(), AllocError>
    ensures { OnOk result (out.new.items ≡ out.old.items ++ fraction_of digits.now) }
{
    if digits.is_empty() {
        return Ok(());
    }
    out.push(b'.')?;
    out.extend_from_slice(digits)?;
    Ok(())
}

fn push_exponent(out: &mut Vec<u8>, exponent: &[u8]) -> Result<(), AllocError>
    ensures { OnOk result (out.new.items ≡ out.old.items ++ exponent_of exponent.now) }
{
    if exponent.is_empty() {
        return Ok(());
    }
    out.push(b'e')?;
    out.extend_from_slice(&exponent[1..])?;
    Ok(())
}

fn push_minus(out: &mut Vec<u8>, text: &[u8]) -> Result<(), AllocError>
    ensures { OnOk result (out.new.items ≡ out.old.items ++ minus_of text.now) }
{
    if begins_with(b'-', text) {
        out.push(b'-')?;
    }
    Ok(())
}

// A decimal text as a number of RFC 8259, section 6.
#[tactic(auto, unfolding(crate::specs::WrittenNumber::normalized))]
pub(crate) fn push_normalized(out: &mut Vec<u8>, text: &[u8]) -> Result<(), AllocError>
    ensures { OnOk result (out.new.items ≡ out.old.items ++ normalized text.now) }
{
    let front = coefficient(text);
    let digits = without_sign(front);
    push_minus(out, text)?;
    push_without_zeros(out, &digits[..point_at(digits)])?;
    push_fraction(out, after_point(digits))?;
    push_exponent(out, &text[front.len()..])
}
