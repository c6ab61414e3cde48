//! Integers, bignums and dates at a place of an input (RFC 8949, section 3.4): what
//! stands there, of any size, and where it ends.

ghost use Rattle.std.specs.Prelude.{◌≡◌, ◌≤◌, ℕ, List, [], ◌∷◌, IfOk, IfErr, IfSome, MatchOption, Some, FitsSigned, drop, length};
ghost use Rattle.std.specs.Option.{SomeIff};
ghost use Rattle.std.specs.Int.{w128};
ghost use Rattle.cbor_item.specs.Head.{BeginsWithHead};
ghost use Rattle.cbor_item.specs.Item.{definite, byte_string, float};
ghost use Rattle.cbor_item.specs.WellFormed.{IsItemAt};
ghost use Rattle.smithy_cbor.specs.Scalar.{big_endian};
ghost use Rattle.smithy_cbor.specs.Reading.{IsIntegerAt, IsInteger, IsHeadFault, IsBytesFault, IsNoBigInteger, IsDateAt, IsNoDate, IsSeconds};
ghost use Rattle.smithy_cbor.specs.Private.HeadNumber.{number_of};
ghost use Rattle.smithy_cbor.specs.Private.Finding.{FindsAt, IsWideAt, IsBignumAt};

use crate::big_endian::big_endian;
use crate::heads::tag_at;
use crate::initial::{
    BYTES, EPOCH_SECONDS, NEGATIVE, NEGATIVE_BIGNUM, SIMPLE, TAG, UNSIGNED, UNSIGNED_BIGNUM,
};
use cbor_item::{ItemError, read_head};

/// The integer that begins at the offset.
pub(crate) fn integer_at(input: &[u8], at: usize) -> Result<(i128, usize), ItemError>
    requires { at ≤ length input.now }
    ensures finds { FindsAt IsIntegerAt (IsHeadFault IsInteger) input.now at result }
    ensures fits { IfOk result (λ r. FitsSigned w128 r.0) }
{
    let head = read_head(input, at)?;
    let end = at + usize::from(head.length);
    match (head.major, head.argument) {
        (UNSIGNED, Some(n)) => Ok((integer_of(UNSIGNED, n), end)),
        (NEGATIVE, Some(n)) => Ok((integer_of(NEGATIVE, n), end)),
        _ => Err(ItemError::WrongType),
    }
}

/// The integer or bignum that begins at the offset: no number where it leaves 128 bits.
pub(crate) fn big_integer_at(input: &[u8], at: usize) -> Result<(Option<i128>, usize), ItemError>
    requires { at ≤ length input.now }
    ensures { FindsAt IsWideAt IsNoBigInteger input.now at result }
{
    let head = read_head(input, at)?;
    let end = at + usize::from(head.length);
    match (head.major, head.argument) {
        (UNSIGNED, Some(n)) => Ok((Some(integer_of(UNSIGNED, n)), end)),
        (NEGATIVE, Some(n)) => Ok((Some(integer_of(NEGATIVE, n)), end)),
        (TAG, Some(number)) if number == UNSIGNED_BIGNUM => bignum_at(input, end, UNSIGNED),
        (TAG, Some(number)) if number == NEGATIVE_BIGNUM => bignum_at(input, end, NEGATIVE),
        _ => Err(ItemError::WrongType),
    }
}

/// The date under tag 1 that begins at the offset: no seconds where they are a float.
pub(crate) fn date_at(input: &[u8], at: usize) -> Result<(Option<i128>, usize), ItemError>
    requires { at ≤ length input.now }
    ensures found { IfOk result (λ r. IsDateAt r.0 input.now at r.1) }
    ensures refused { IfErr result (IsNoDate input.now at) }
{
    let body = tag_at(input, at, EPOCH_SECONDS)?;
    seconds_at(input, body)
}

// The integer or float that begins at the offset: no number where it is a float.
fn seconds_at(input: &[u8], at: usize) -> Result<(Option<i128>, usize), ItemError>
    requires { at ≤ length input.now }
    ensures found { IfOk result (λ r. MatchOption r.0
        ((digits : List ℕ) × IsItemAt (float digits) input.now at r.1)
        (λ seconds. IsIntegerAt seconds input.now at r.1)) }
    ensures refused { IfErr result (IsHeadFault IsSeconds input.now at) }
{
    let head = read_head(input, at)?;
    let end = at + usize::from(head.length);
    match (head.major, head.argument) {
        (UNSIGNED, Some(n)) => Ok((Some(integer_of(UNSIGNED, n)), end)),
        (NEGATIVE, Some(n)) => Ok((Some(integer_of(NEGATIVE, n)), end)),
        (SIMPLE, _) if head.length > 2 => Ok((None, end)),
        _ => Err(ItemError::WrongType),
    }
}

// The byte string that begins at the offset as a number, or as -1 less the number.
fn bignum_at(input: &[u8], at: usize, major: u8) -> Result<(Option<i128>, usize), ItemError>
    requires inside { at ≤ length input.now }
    requires integer_type { major ≤ 1 }
    ensures { FindsAt (IsBignumAt major) IsBytesFault input.now at result }
{
    let (bytes, end) = definite_bytes(input, at)?;
    Ok((bignum(major, bytes), end))
}

// The definite byte string that begins at the offset.
fn definite_bytes(input: &[u8], at: usize) -> Result<(&[u8], usize), ItemError>
    requires { at ≤ length input.now }
    ensures { FindsAt (λ bytes. IsItemAt (byte_string definite (bytes.now ∷ []))) IsBytesFault input.now at result }
{
    let head = read_head(input, at)?;
    match (head.major, head.argument) {
        (BYTES, Some(announced)) => bytes_behind(input, at, head.length, announced),
        _ => Err(ItemError::WrongType),
    }
}

// The bytes behind the head of a definite byte string.
fn bytes_behind(
    input: &[u8],
    at: usize,
    head: u8,
    announced: u64,
) -> Result<(&[u8], usize), ItemError>
    requires inside { at ≤ length input.now }
    requires head { BeginsWithHead (drop at input.now) (record { major = 2; argument = Some announced; length = head }) }
    ensures { FindsAt (λ bytes. IsItemAt (byte_string definite (bytes.now ∷ []))) IsBytesFault input.now at result }
{
    let start = at + usize::from(head);
    if announced > (input.len() - start) as u64 {
        return Err(ItemError::Truncated);
    }
    let end = start + announced as usize;
    Ok((&input[start..end], end))
}

// The number of an integer's head.
fn integer_of(major: u8, argument: u64) -> i128
    requires { major ≤ 1 }
    ensures value { result ≡ number_of major argument }
    ensures fits { FitsSigned w128 result }
{
    if major == UNSIGNED {
        i128::from(argument)
    } else {
        -1 - i128::from(argument)
    }
}

// The number n that the bytes write in big-endian order, or -1 - n for the major type 1, where a signed integer of 128 bits holds
// it.
fn bignum(major: u8, bytes: &[u8]) -> Option<i128>
    requires { major ≤ 1 }
    ensures { SomeIff result (FitsSigned w128 (number_of major (big_endian bytes.now))) (number_of major (big_endian bytes.now)) }
{
    signed(major, big_endian(bytes)?)
}

// The number n, or -1 - n, where 128 bits hold it.
fn signed(major: u8, n: u128) -> Option<i128>
    requires { major ≤ 1 }
    ensures value { SomeIff result (FitsSigned w128 (number_of major n)) (number_of major n) }
    ensures fits { IfSome result (FitsSigned w128) }
{
    if n > i128::MAX as u128 {
        return None;
    }
    let value = n as i128;
    Some(if major == UNSIGNED { value } else { -1 - value })
}
