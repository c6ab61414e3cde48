//! Big numbers: the text of a number or a string, and what it is as one.

ghost use Rattle.std.specs.Prelude.{◌≡◌, ◌≤◌, true, length, IfOk, FitsSigned};
ghost use Rattle.std.specs.Cow.{cow_str_bytes};
ghost use Rattle.std.specs.Int.{w128};
ghost use Rattle.smithy_declarations.specs.declared.shape_type.Scalar.TheVariants as scalars;
ghost use Rattle.smithy_declarations.specs.Value.{whole, decimal, scalar_value};
ghost use Rattle.smithy_texts.specs.Numeral.{number as number_of};
ghost use Rattle.smithy_texts.specs.Decimal.{mantissa, net_exponent};
ghost use Rattle.smithy_json_values.specs.Codec.{held_settings};
ghost use Rattle.smithy_json_values.specs.LexicalGrammar.{grammar_of};
ghost use Rattle.smithy_json_values.specs.Scalar.{big_number};
ghost use Rattle.smithy_json_values.specs.NumberText.{NumberTextLies};
ghost use Rattle.smithy_json_values.specs.Private.NumberSorts.{is_big_sort, kind_of_sort};
ghost use Rattle.smithy_json_values.specs.Private.ScalarAtPlace.{Finds, FindsWithin};
ghost use Rattle.smithy_wire.specs.Rules.{means, no_meaning, wide};
ghost use Rattle.smithy_wire.specs.Finding.{MatchFound};

use crate::number_runs::{NumberSort, number_of};
use crate::texts::text_of;
use crate::values::string_at;
use smithy_json_settings::Settings;
use smithy_types::{BigDecimal, BigInteger, BigNumberError};
use smithy_wire::Found;
use std::alloc::{AllocError, Global};
use std::borrow::CowStr;

// The text of the number of the sort, or of the string, that comes first behind blanks, with its end.
fn number_text_at<'a>(
    alloc: Global,
    sort: NumberSort,
    input: &'a [u8],
    at: usize,
    settings: &Settings,
) -> Result<Option<(CowStr<'a, Global>, usize)>, AllocError>
    requires within { at ≤ length input.now }
    requires big { is_big_sort sort ≡ true }
    ensures { IfOk result (Finds (NumberTextLies (grammar_of (held_settings settings.now)) (kind_of_sort sort) input.now at) cow_str_bytes) }
{
    if let Some((text, end)) = number_of(sort, input, at, settings) {
        return Ok(Some((CowStr::Borrowed(text), end)));
    }
    let Some(string) = string_at(input, at, settings) else {
        return Ok(None);
    };
    let Some(text) = text_of(alloc, string.text, string.has_escape)? else {
        return Ok(None);
    };
    Ok(Some((text, string.closing + 1)))
}

// The whole number that a text writes, where 128 bits hold it.
fn big_integer_of(alloc: Global, text: &str) -> Result<Found<BigInteger>, AllocError>
    ensures answer { IfOk result (λ f. MatchFound f (λ n. big_number scalars.BigInteger text.now ≡ means (scalar_value (whole (number_of n)))) (big_number scalars.BigInteger text.now ≡ no_meaning) (big_number scalars.BigInteger text.now ≡ wide)) }
    ensures text { IfOk result (λ f. MatchFound f (λ n. n ≡ text.now) (Unit {0}) (Unit {0})) }
    ensures fits { IfOk result (λ f. MatchFound f (λ n. FitsSigned w128 (number_of n)) (Unit {0}) (Unit {0})) }
{
    match BigInteger::from_str(alloc, text) {
        Ok(number) => match number.to_i128() {
            Ok(_) => Ok(Found::Value(number)),
            Err(_) => Ok(Found::Beyond),
        },
        Err(BigNumberError::InvalidFormat) => Ok(Found::Nothing),
        Err(_) => Err(AllocError),
    }
}

// The decimal number that a text writes, where its parts are within their limits.
fn big_decimal_of(alloc: Global, text: &str) -> Result<Found<BigDecimal>, AllocError>
    ensures answer { IfOk result (λ f. MatchFound f (λ n. big_number scalars.BigDecimal text.now ≡ means (scalar_value (decimal (mantissa n) (net_exponent n)))) (big_number scalars.BigDecimal text.now ≡ no_meaning) (big_number scalars.BigDecimal text.now ≡ wide)) }
    ensures text { IfOk result (λ f. MatchFound f (λ n. n ≡ text.now) (Unit {0}) (Unit {0})) }
    ensures fits { IfOk result (λ f. MatchFound f (λ n. FitsSigned w128 (mantissa n)) (Unit {0}) (Unit {0})) }
{
    match BigDecimal::from_str(alloc, text) {
        Ok(number) => match number.to_parts() {
            Ok(_) => Ok(Found::Value(number)),
            Err(_) => Ok(Found::Beyond),
        },
        Err(BigNumberError::InvalidFormat) => Ok(Found::Nothing),
        Err(BigNumberError::ExponentOutOfRange) => Ok(Found::Beyond),
        Err(BigNumberError::NoMemory) => Err(AllocError),
    }
}

/// The whole number that comes first behind blanks as a big integer is read, with its end.
pub fn big_integer_at(
    alloc: Global,
    input: &[u8],
    at: usize,
    settings: &Settings,
) -> Result<Found<(BigInteger, usize)>, AllocError>
    requires { at ≤ length input.now }
    ensures found { IfOk result (FindsWithin (grammar_of (held_settings settings.now)) scalars.BigInteger (λ n. whole (number_of n)) input.now at) }
    ensures text { IfOk result (λ f. MatchFound f (λ r. NumberTextLies (grammar_of (held_settings settings.now)) scalars.BigInteger input.now at r.0 r.1) (Unit {0}) (Unit {0})) }
    ensures fits { IfOk result (λ f. MatchFound f (λ r. FitsSigned w128 (number_of r.0)) (Unit {0}) (Unit {0})) }
{
    let Some((text, end)) = number_text_at(alloc, NumberSort::BigInteger, input, at, settings)?
    else {
        return Ok(Found::Nothing);
    };
    match big_integer_of(alloc, text.as_str())? {
        Found::Value(number) => Ok(Found::Value((number, end))),
        Found::Nothing => Ok(Found::Nothing),
        Found::Beyond => Ok(Found::Beyond),
    }
}

/// The decimal number that comes first behind blanks as a big decimal is read, with its end.
pub fn big_decimal_at(
    alloc: Global,
    input: &[u8],
    at: usize,
    settings: &Settings,
) -> Result<Found<(BigDecimal, usize)>, AllocError>
    requires { at ≤ length input.now }
    ensures found { IfOk result (FindsWithin (grammar_of (held_settings settings.now)) scalars.BigDecimal (λ n. decimal (mantissa n) (net_exponent n)) input.now at) }
    ensures text { IfOk result (λ f. MatchFound f (λ r. NumberTextLies (grammar_of (held_settings settings.now)) scalars.BigDecimal input.now at r.0 r.1) (Unit {0}) (Unit {0})) }
    ensures fits { IfOk result (λ f. MatchFound f (λ r. FitsSigned w128 (mantissa r.0)) (Unit {0}) (Unit {0})) }
{
    let Some((text, end)) = number_text_at(alloc, NumberSort::Decimal, input, at, settings)? else {
        return Ok(Found::Nothing);
    };
    match big_decimal_of(alloc, text.as_str())? {
        Found::Value(number) => Ok(Found::Value((number, end))),
        Found::Nothing => Ok(Found::Nothing),
        Found::Beyond => Ok(Found::Beyond),
    }
}
