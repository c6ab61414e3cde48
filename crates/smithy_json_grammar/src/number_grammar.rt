//! Numbers with what a reader may allow beyond the standard (RFC 8259, section 6), and where they end.

ghost use Rattle.std.specs.Prelude.{◌≡◌, ◌↔◌, ◌≤◌, ℕ, length, drop, IsTrue, IfSome, IfNone};
ghost use Rattle.smithy_json_grammar.specs.Ascii.{is_numeric};
ghost use Rattle.smithy_json_grammar.specs.NumberGrammar.{standard_numbers, IsNumberOf};
ghost use Rattle.smithy_json_grammar.specs.NumberText.{is_number_of};
ghost use Rattle.smithy_json_grammar.specs.Private.Numeral.{EndsAt};
ghost use Rattle.smithy_json_grammar.specs.Private.AllowedNumeral.{omits_int, after_int_of, after_whole_of, after_decimals_of, after_frac_of, after_number_of};
ghost use Rattle.smithy_json_grammar.specs.Standing.{IsRunAt, StandsAt};

use crate::number_text::{byte_at, digit_run_end, digits_end, exp_end, minus_end};
use crate::scan::is_boundary;

/// What a reader allows in numbers beyond RFC 8259, section 6. By default that is nothing.
#[derive(Clone, Copy, Debug, PartialEq, Eq)]
pub struct NumberGrammar {
    /// Zeros before another digit of the integer part, as in `007`.
    pub allow_leading_zeros: bool,
    /// A decimal point without a digit behind it, as in `12.`.
    pub allow_trailing_decimal_point: bool,
    /// No integer part between a minus and a decimal point with a digit behind it, as in `-.5`.
    pub allow_empty_integer_part: bool,
}

impl Default for NumberGrammar {
    ghost is_default = { λ g. g ≡ standard_numbers };

    fn default() -> NumberGrammar {
        NumberGrammar {
            allow_leading_zeros: false,
            allow_trailing_decimal_point: false,
            allow_empty_integer_part: false,
        }
    }
}

#[inline(always)]
fn int_end(grammar: NumberGrammar, input: &[u8], at: usize) -> Option<usize>
    requires { at ≤ length input.now }
    ensures { EndsAt input.now at result (after_int_of grammar (drop at input.now)) }
{
    if !grammar.allow_leading_zeros && byte_at(input, at) == b'0' {
        Some(at + 1)
    } else {
        digits_end(input, at)
    }
}

// Whether a fraction comes behind a minus, and the integer part between them may be left out.
#[inline(always)]
fn omits_int(grammar: NumberGrammar, input: &[u8], at: usize) -> bool
    requires { at ≤ length input.now }
    ensures { result ≡ omits_int grammar (drop at input.now) }
{
    grammar.allow_empty_integer_part
        && byte_at(input, at) == b'-'
        && byte_at(input, at + 1) == b'.'
        && byte_at(input, at + 2).is_ascii_digit()
}

fn whole_end(grammar: NumberGrammar, input: &[u8], at: usize) -> Option<usize>
    requires { at ≤ length input.now }
    ensures { EndsAt input.now at result (after_whole_of grammar (drop at input.now)) }
{
    if omits_int(grammar, input, at) {
        Some(at + 1)
    } else {
        int_end(grammar, input, minus_end(input, at))
    }
}

#[inline(always)]
fn decimals_end(grammar: NumberGrammar, input: &[u8], at: usize) -> Option<usize>
    requires { at ≤ length input.now }
    ensures { EndsAt input.now at result (after_decimals_of grammar (drop at input.now)) }
{
    let end = digit_run_end(input, at);
    if !grammar.allow_trailing_decimal_point && end == at {
        None
    } else {
        Some(end)
    }
}

#[inline(always)]
fn frac_end(grammar: NumberGrammar, input: &[u8], at: usize) -> Option<usize>
    requires { at ≤ length input.now }
    ensures { EndsAt input.now at result (after_frac_of grammar (drop at input.now)) }
{
    if byte_at(input, at) == b'.' {
        decimals_end(grammar, input, at + 1)
    } else {
        Some(at)
    }
}

fn number_end(grammar: NumberGrammar, input: &[u8], at: usize) -> Option<usize>
    requires { at ≤ length input.now }
    ensures { EndsAt input.now at result (after_number_of grammar (drop at input.now)) }
{
    let whole_end = whole_end(grammar, input, at)?;
    exp_end(input, frac_end(grammar, input, whole_end)?)
}

/// The end of the number of the grammar that stands at the offset, where a value may end behind it.
pub fn scan_number_of(grammar: NumberGrammar, input: &[u8], at: usize) -> Option<usize>
    requires { at ≤ length input.now }
    ensures found { IfSome result (λ end. StandsAt (IsNumberOf grammar) input.now at end) }
    ensures run { IfSome result (λ end. IsRunAt is_numeric input.now at end) }
    ensures none { IfNone result ((end : ℕ) → StandsAt (IsNumberOf grammar) input.now at end → ⊥) }
{
    let end = number_end(grammar, input, at)?;
    if !is_boundary(input, end) {
        return None;
    }
    Some(end)
}

// Whether nothing is left behind the number of the grammar that begins the text.
fn is_number_of_alone(grammar: NumberGrammar, text: &[u8]) -> bool
    ensures { result ≡ is_number_of grammar text.now }
{
    match number_end(grammar, text, 0) {
        Some(end) => end == text.len(),
        None => false,
    }
}

/// Whether the whole text is a number of the grammar.
#[tactic(auto, using(crate::proofs::AllowedNumberLemmas::tells_numbers_of))]
pub fn is_number_of(grammar: NumberGrammar, text: &[u8]) -> bool
    ensures test { result ≡ is_number_of grammar text.now }
    ensures grammar { IsTrue result ↔ IsNumberOf grammar text.now }
{
    is_number_of_alone(grammar, text)
}
