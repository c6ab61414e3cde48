//! The number of a text that a document holds: a whole one of 64 bits, with or without a sign.

ghost use Rattle.std.specs.Prelude.{◌≡◌, ◌≢◌, ◌<◌, length, slice_index, unsigned_abs, if◌then◌else◌};
ghost use Rattle.smithy_json_grammar.specs.Ascii.{minus_sign, plus_sign};
ghost use Rattle.smithy_json_grammar.specs.HeldNumber.{number_of};
ghost use Rattle.smithy_types.specs.declared.number.Number.TheVariants.{NegInt, PosInt};

use smithy_types::Number;

fn neg_int(value: i64) -> Number
    ensures { result ≡ NegInt value }
{
    Number::NegInt(value)
}

fn pos_int(value: i64) -> Number
    ensures { result ≡ PosInt (unsigned_abs value) }
{
    Number::PosInt(value.unsigned_abs())
}

/// The number that is written with a minus, or without one.
#[inline(always)]
pub fn number_of_long(with_minus: bool, value: i64) -> Number
    ensures { result ≡ (if with_minus then NegInt value else PosInt (unsigned_abs value)) }
{
    if with_minus {
        neg_int(value)
    } else {
        pos_int(value)
    }
}

fn negative_number(text: &str) -> Option<Number>
    requires some { 0 < length text.now }
    requires begins { slice_index text.now 0 ≡ minus_sign }
    ensures { result ≡ number_of text.now }
{
    match text.parse::<i64>() {
        Ok(value) => Some(neg_int(value)),
        Err(_) => None,
    }
}

fn natural_number(text: &str) -> Option<Number>
    requires some { 0 < length text.now }
    requires no_minus { slice_index text.now 0 ≢ minus_sign }
    requires no_plus { slice_index text.now 0 ≢ plus_sign }
    ensures { result ≡ number_of text.now }
{
    match text.parse::<u64>() {
        Ok(value) => Some(Number::PosInt(value)),
        Err(_) => None,
    }
}

/// The number of the whole text, an optional minus and digits, where it is one of 64 bits.
pub fn number_of_text(text: &str) -> Option<Number>
    ensures { result ≡ number_of text.now }
{
    if text.is_empty() {
        return None;
    }
    let first = text.as_bytes()[0];
    if first == b'-' {
        return negative_number(text);
    }
    // `parse` reads a plus
    if first == b'+' {
        return None;
    }
    natural_number(text)
}
