//! Decimal fractions at a place of an input (RFC 8949, section 3.4.4): the parts that stand there, of
//! any size, and where the item ends.

ghost use Rattle.std.specs.Prelude.{◌≡◌, ◌≤◌, true, IfOk, IfSome, FitsSigned, length};
ghost use Rattle.std.specs.Option.{SomeIff};
ghost use Rattle.std.specs.Int.{w64};
ghost use Rattle.smithy_texts.specs.Ranges.{is_exponent};
ghost use Rattle.smithy_cbor.specs.Reading.{IsDecimalAt, AreParts, AreNoParts, AreNoPartsUntilBreak, IsNoPair, IsNoDecimal};
ghost use Rattle.smithy_cbor.specs.Private.DecimalPlaces.{ArePartsUntilBreak, IsPairAt};
ghost use Rattle.smithy_cbor.specs.Private.Finding.{FindsParts};

use crate::heads::{break_at, tag_at};
use crate::initial::{ARRAY, DECIMAL_FRACTION};
use crate::tagged::{big_integer_at, integer_at};
use cbor_item::{ItemError, read_head};

/// Exponent, mantissa where 128 bits hold it, and where the item ends.
type Parts = (i128, Option<i128>, usize);

/// The decimal fraction that begins at the offset.
pub(crate) fn decimal_at(input: &[u8], at: usize) -> Result<Parts, ItemError>
    requires { at ≤ length input.now }
    ensures { FindsParts IsDecimalAt IsNoDecimal input.now at result }
{
    let body = tag_at(input, at, DECIMAL_FRACTION)?;
    pair_at(input, body)
}

// The array of exponent and mantissa that begins at the offset.
fn pair_at(input: &[u8], at: usize) -> Result<Parts, ItemError>
    requires { at ≤ length input.now }
    ensures { FindsParts IsPairAt IsNoPair input.now at result }
{
    let head = read_head(input, at)?;
    let body = at + usize::from(head.length);
    match (head.major, head.argument) {
        (ARRAY, Some(count)) if count == 2 => parts_at(input, body),
        (ARRAY, None) => parts_until_break(input, body),
        _ => Err(ItemError::WrongType),
    }
}

// The exponent and the mantissa that begin at the offset, and the break behind them.
fn parts_until_break(input: &[u8], at: usize) -> Result<Parts, ItemError>
    requires { at ≤ length input.now }
    ensures { FindsParts ArePartsUntilBreak AreNoPartsUntilBreak input.now at result }
{
    let (exponent, mantissa, end) = parts_at(input, at)?;
    let end = break_at(input, end)?;
    Ok((exponent, mantissa, end))
}

// The exponent and the mantissa that begin at the offset.
fn parts_at(input: &[u8], at: usize) -> Result<Parts, ItemError>
    requires { at ≤ length input.now }
    ensures finds { FindsParts AreParts AreNoParts input.now at result }
    ensures within { IfOk result (λ r. r.2 ≤ length input.now) }
{
    let (exponent, next) = integer_at(input, at)?;
    let (mantissa, end) = big_integer_at(input, next)?;
    Ok((exponent, mantissa, end))
}

/// The exponent, where it is within its limits.
pub(crate) fn exponent_of(z: i128) -> Option<i64>
    ensures value { SomeIff result (is_exponent z ≡ true) z }
    ensures fits { IfSome result (FitsSigned w64) }
{
    if z.unsigned_abs() < 0x8000_0000_0000_0000 {
        Some(z as i64)
    } else {
        None
    }
}
