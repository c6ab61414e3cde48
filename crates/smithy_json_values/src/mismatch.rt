//! Refusals that tell whether what comes is of another type than the wanted one: it doesn't begin as a value of the kind does.

ghost use Rattle.std.specs.Prelude.{◌≡◌, ◌≤◌, ◌==◌, ◌||◌, length, drop, true, if◌then◌else◌};
ghost use Rattle.std.specs.List.{prefix_len};
ghost use Rattle.smithy_json_grammar.specs.Ascii.{decimal_point, is_e};
ghost use Rattle.smithy_json_values.specs.Codec.{held_settings};
ghost use Rattle.smithy_json_values.specs.Standing.{without_ws};
ghost use Rattle.smithy_json_values.specs.TypeMismatch.{begins_by, begins_with_true, begins_with_false, begins_as_string, begins_as_number, begins_as_instant, is_signed_digit, begins_as_no_integer, integer_mismatches, scalar_mismatches};
ghost use Rattle.smithy_schema.specs.Errors.{FindsNone, TellsType};
ghost use Rattle.smithy_wire.specs.Finding.{told, told_as};

use crate::instants::{string_form, takes_seconds};
use smithy_json_grammar::scan::skip_blanks;
use smithy_json_settings::Settings;
use smithy_schema::{Scalar, SerdeError, TimestampFormat};

/// Whether `true` comes first.
pub fn begins_with_true(bytes: &[u8]) -> bool
    ensures { result ≡ begins_with_true bytes.now }
{
    match bytes {
        [t, r, u, e, ..] => *t == b't' && *r == b'r' && *u == b'u' && *e == b'e',
        _ => false,
    }
}

/// Whether `false` comes first.
pub fn begins_with_false(bytes: &[u8]) -> bool
    ensures { result ≡ begins_with_false bytes.now }
{
    match bytes {
        [f, a, l, s, e, ..] => *f == b'f' && *a == b'a' && *l == b'l' && *s == b's' && *e == b'e',
        _ => false,
    }
}

fn begins_as_string(bytes: &[u8]) -> bool
    ensures { result ≡ begins_as_string bytes.now }
{
    match bytes {
        [first, ..] => *first == b'"',
        [] => false,
    }
}

/// Whether a minus or a digit comes first.
pub fn begins_as_number(bytes: &[u8]) -> bool
    ensures { result ≡ begins_as_number bytes.now }
{
    match bytes {
        [first, ..] => *first == b'-' || first.is_ascii_digit(),
        [] => false,
    }
}

// Whether a fraction or an exponent comes.
fn begins_as_fraction(bytes: &[u8]) -> bool
    ensures { result ≡ begins_by (λ b. (b == decimal_point) || is_e b) bytes.now }
{
    match bytes {
        [first, ..] => matches!(*first, b'.' | b'e' | b'E'),
        [] => false,
    }
}

fn is_signed_digit(byte: u8) -> bool
    ensures { result ≡ is_signed_digit byte }
{
    byte.is_ascii_digit() || byte == b'-' || byte == b'+'
}

// How many digits and signs come first.
fn signed_digits(bytes: &[u8]) -> usize
    ensures value { result ≡ prefix_len is_signed_digit bytes.now }
    ensures within { result ≤ length bytes.now }
{
    let mut count = 0;
    while count < bytes.len() && is_signed_digit(bytes[count]) {
        count += 1;
    }
    count
}

// Whether no digit and no sign comes first, or a fraction or an exponent behind them.
fn begins_as_no_integer(rest: &[u8]) -> bool
    ensures { result ≡ begins_as_no_integer rest.now }
{
    let run = signed_digits(rest);
    run == 0 || begins_as_fraction(&rest[run..])
}

// Whether no integer begins so, where integers are told so.
fn is_no_integer(rest: &[u8], settings: &Settings) -> bool
    ensures { result ≡ integer_mismatches (held_settings settings.now) rest.now }
{
    !(settings.enforce_strictness || settings.allow_integral_float_numbers)
        && begins_as_no_integer(rest)
}

// Whether an instant may begin so at a place with this form or none.
fn begins_as_instant(rest: &[u8], time: Option<TimestampFormat>, settings: &Settings) -> bool
    ensures { result ≡ begins_as_instant (held_settings settings.now) time rest.now }
{
    (takes_seconds(settings, time) && begins_as_number(rest))
        || (string_form(settings, time).is_some() && begins_as_string(rest))
}

// Whether bytes behind blanks begin as no scalar of the kind does, at a place with this form of instants or none.
fn is_mismatch(
    rest: &[u8],
    kind: Scalar,
    time: Option<TimestampFormat>,
    settings: &Settings,
) -> bool
    ensures { result ≡ scalar_mismatches (held_settings settings.now) kind time rest.now }
{
    match kind {
        Scalar::Boolean => !begins_with_true(rest) && !begins_with_false(rest),
        Scalar::String | Scalar::Blob => !begins_as_string(rest),
        Scalar::BigInteger | Scalar::BigDecimal => {
            !begins_as_number(rest) && !begins_as_string(rest)
        }
        Scalar::Timestamp => !begins_as_instant(rest, time, settings),
        Scalar::Byte | Scalar::Short | Scalar::Integer | Scalar::Long => {
            is_no_integer(rest, settings)
        }
    }
}

// A refusal of a scalar at the offset, as it is told.
#[inline(never)]
fn told_refusal(
    error: SerdeError,
    input: &[u8],
    at: usize,
    kind: Scalar,
    time: Option<TimestampFormat>,
    settings: &Settings,
) -> SerdeError
    requires { at ≤ length input.now }
    ensures { result ≡ told_as (scalar_mismatches (held_settings settings.now) kind time (without_ws (drop at input.now))) error }
{
    let SerdeError::InvalidInput = error else {
        return error;
    };
    if is_mismatch(&input[skip_blanks(input, at)..], kind, time, settings) {
        SerdeError::TypeMismatch
    } else {
        SerdeError::InvalidInput
    }
}

/// The answer of a read of a scalar at the offset, as it is told. What was read passes through.
#[inline(always)]
pub fn told<T: Drop>(
    answer: Result<T, SerdeError>,
    input: &[u8],
    at: usize,
    kind: Scalar,
    time: Option<TimestampFormat>,
    settings: &Settings,
) -> Result<T, SerdeError>
    requires { at ≤ length input.now }
    ensures { result ≡ told (scalar_mismatches (held_settings settings.now) kind time (without_ws (drop at input.now))) answer }
{
    match answer {
        Ok(value) => Ok(value),
        Err(error) => Err(told_refusal(error, input, at, kind, time, settings)),
    }
}

/// The refusal where no object begins at the offset, and a structure or a union is due: where nothing comes, a structure isn't
/// refused by its type.
pub fn no_object(input: &[u8], at: usize, is_structure: bool) -> SerdeError
    requires { at ≤ length input.now }
    ensures told { TellsType (if is_structure then begins_by (λ b. true) (without_ws (drop at input.now)) else true) result }
    ensures fault { FindsNone result }
{
    if !is_structure {
        return SerdeError::TypeMismatch;
    }
    if skip_blanks(input, at) == input.len() {
        SerdeError::InvalidInput
    } else {
        SerdeError::TypeMismatch
    }
}
