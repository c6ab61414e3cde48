//! Big numbers that stand at a place of an input.

ghost use Rattle.std.specs.Prelude.{◌≡◌, ◌≤◌, length, IfOk, FitsSigned};
ghost use Rattle.std.specs.Fmt.{signed_decimal};
ghost use Rattle.std.specs.Int.{w128};
ghost use Rattle.smithy_declarations.specs.declared.shape_type.Scalar.TheVariants as scalars;
ghost use Rattle.smithy_declarations.specs.Value.{whole, decimal};
ghost use Rattle.smithy_texts.specs.Numeral.{number as number_of};
ghost use Rattle.smithy_texts.specs.Decimal.{mantissa, net_exponent, decimal_text};
ghost use Rattle.smithy_cbor_values.specs.Private.ScalarAtPlace.{FindsWithin, IsUnread};
ghost use Rattle.smithy_wire.specs.Finding.{MatchFound};

use crate::places::{decoder_at, may_end};
use crate::values::item_stands;
use smithy_cbor::DecodeKind;
use smithy_types::{BigDecimal, BigInteger};
use smithy_wire::Found;
use std::alloc::{AllocError, Global};

// What is found where a decoder reads no big number for this cause: one that leaves its limits, where a value may end
// behind it, or nothing.
fn unread_number<T>(
    kind: DecodeKind,
    alloc: Global,
    input: &[u8],
    at: usize,
    depth: usize,
) -> Result<Found<T>, AllocError>
    requires { at ≤ length input.now }
    ensures { IfOk result (IsUnread kind input.now at depth) }
{
    match kind {
        DecodeKind::TooWide => {
            if item_stands(alloc, input, at, depth)? {
                return Ok(Found::Beyond);
            }
            Ok(Found::Nothing)
        }
        DecodeKind::NoMemory => Err(AllocError),
        _ => Ok(Found::Nothing),
    }
}

/// The big integer at the offset, with its end, where a value may end there.
pub fn big_integer_at(
    alloc: Global,
    input: &[u8],
    at: usize,
    depth: usize,
) -> Result<Found<(BigInteger, usize)>, AllocError>
    requires { at ≤ length input.now }
    ensures found { IfOk result (FindsWithin scalars.BigInteger (λ n. whole (number_of n)) input.now at depth) }
    ensures fits { IfOk result (λ f. MatchFound f (λ r. FitsSigned w128 (number_of r.0)) (Unit {0}) (Unit {0})) }
    ensures text { IfOk result (λ f. MatchFound f (λ r. r.0 ≡ signed_decimal (number_of r.0)) (Unit {0}) (Unit {0})) }
{
    let mut decoder = decoder_at(input, at);
    match decoder.big_integer(alloc) {
        Ok(number) => {
            let end = decoder.position();
            if !may_end(input, end, depth) {
                return Ok(Found::Nothing);
            }
            Ok(Found::Value((number, end)))
        }
        Err(error) => unread_number(error.kind, alloc, input, at, depth),
    }
}

/// The big decimal at the offset, with its end, where a value may end there.
pub fn big_decimal_at(
    alloc: Global,
    input: &[u8],
    at: usize,
    depth: usize,
) -> Result<Found<(BigDecimal, usize)>, AllocError>
    requires { at ≤ length input.now }
    ensures found { IfOk result (FindsWithin scalars.BigDecimal (λ n. decimal (mantissa n) (net_exponent n)) input.now at depth) }
    ensures fits { IfOk result (λ f. MatchFound f (λ r. FitsSigned w128 (mantissa r.0)) (Unit {0}) (Unit {0})) }
    ensures text { IfOk result (λ f. MatchFound f (λ r. r.0 ≡ decimal_text (mantissa r.0) (net_exponent r.0)) (Unit {0}) (Unit {0})) }
{
    let mut decoder = decoder_at(input, at);
    match decoder.big_decimal(alloc) {
        Ok(number) => {
            let end = decoder.position();
            if !may_end(input, end, depth) {
                return Ok(Found::Nothing);
            }
            Ok(Found::Value((number, end)))
        }
        Err(error) => unread_number(error.kind, alloc, input, at, depth),
    }
}
