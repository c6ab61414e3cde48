//! Integers, as the settings have them read.

ghost use Rattle.std.specs.Prelude.{◌≡◌, ◌≤◌, ℕ, ℤ, length, IfSome, IfNone, true, false};
ghost use Rattle.smithy_json_values.specs.Codec.{held_settings};
ghost use Rattle.smithy_json_values.specs.LexicalGrammar.{grammar_of};
ghost use Rattle.smithy_json_values.specs.Private.NumberAtPlace.{IntegerStands};
ghost use Rattle.smithy_json_values.specs.Private.ScalarAtPlace.{IntegerLies};

use crate::number_runs::{NumberSort, number_end_of};
use smithy_json_grammar::number_grammar::scan_number_of;
use smithy_json_grammar::number_run::{integral_number, read_signed};
use smithy_json_grammar::number_text::read_long;
use smithy_json_grammar::scan::skip_blanks;
use smithy_json_settings::Settings;

// The whole number of 64 bits that the number of the grammar at the offset writes, with its end.
#[inline(never)]
fn whole_of_grammar(input: &[u8], start: usize, settings: &Settings) -> Option<(i64, usize)>
    requires within { start ≤ length input.now }
    requires strict { (held_settings settings.now).enforce_strictness ≡ true }
    requires whole { (held_settings settings.now).allow_integral_float_numbers ≡ false }
    ensures found { IfSome result (λ r. IntegerStands (held_settings settings.now) input.now start r.1 r.0) }
    ensures none { IfNone result ((n : ℤ) (e : ℕ) → IntegerStands (held_settings settings.now) input.now start e n → ⊥) }
{
    scan_number_of(settings.numbers, input, start)?;
    read_signed(input, start)
}

// The whole number of 64 bits that the number of the grammar at the offset is equal to, with its end.
#[inline(never)]
fn integral_of_grammar(input: &[u8], start: usize, settings: &Settings) -> Option<(i64, usize)>
    requires within { start ≤ length input.now }
    requires integral { (held_settings settings.now).allow_integral_float_numbers ≡ true }
    ensures found { IfSome result (λ r. IntegerStands (held_settings settings.now) input.now start r.1 r.0) }
    ensures none { IfNone result ((n : ℤ) (e : ℕ) → IntegerStands (held_settings settings.now) input.now start e n → ⊥) }
{
    let end = number_end_of(NumberSort::OfGrammar, input, start, settings)?;
    let number = integral_number(&input[start..end])?;
    Some((number, end))
}

// The integer of 64 bits at the offset, with its end: a number of the grammar that is equal to a whole one, or that is one, or where
// nothing is strict a sign and digits, whatever comes behind them but a byte of numbers.
#[inline(never)]
fn any_integer(input: &[u8], start: usize, settings: &Settings) -> Option<(i64, usize)>
    requires { start ≤ length input.now }
    ensures found { IfSome result (λ r. IntegerStands (held_settings settings.now) input.now start r.1 r.0) }
    ensures none { IfNone result ((n : ℤ) (e : ℕ) → IntegerStands (held_settings settings.now) input.now start e n → ⊥) }
{
    if settings.allow_integral_float_numbers {
        return integral_of_grammar(input, start, settings);
    }
    if !settings.enforce_strictness {
        return read_signed(input, start);
    }
    whole_of_grammar(input, start, settings)
}

// The same, with the call in a function of its own: what it takes of the stack is set to zero where it is needed alone.
#[inline(always)]
fn rare_integer(input: &[u8], start: usize, settings: &Settings) -> Option<(i64, usize)>
    requires { start ≤ length input.now }
    ensures found { IfSome result (λ r. IntegerStands (held_settings settings.now) input.now start r.1 r.0) }
    ensures none { IfNone result ((n : ℤ) (e : ℕ) → IntegerStands (held_settings settings.now) input.now start e n → ⊥) }
{
    let found = any_integer(input, start, settings)?;
    Some(found)
}

// The integer of 64 bits at the offset, with its end. A whole number of RFC 8259 is read in line, as it is one under all settings.
#[inline(always)]
fn standing_integer(input: &[u8], start: usize, settings: &Settings) -> Option<(i64, usize)>
    requires { start ≤ length input.now }
    ensures found { IfSome result (λ r. IntegerStands (held_settings settings.now) input.now start r.1 r.0) }
    ensures none { IfNone result ((n : ℤ) (e : ℕ) → IntegerStands (held_settings settings.now) input.now start e n → ⊥) }
{
    if let Some(plain) = read_long(input, start) {
        return Some(plain);
    }
    rare_integer(input, start, settings)
}

/// The integer of 64 bits that comes first behind blanks, with its end.
pub fn integer_at(input: &[u8], at: usize, settings: &Settings) -> Option<(i64, usize)>
    requires { at ≤ length input.now }
    ensures found { IfSome result (λ r. IntegerLies (grammar_of (held_settings settings.now)) (held_settings settings.now) 64 input.now at r.0 r.1) }
    ensures none { IfNone result ((n : ℤ) (e : ℕ) → IntegerLies (grammar_of (held_settings settings.now)) (held_settings settings.now) 64 input.now at n e → ⊥) }
{
    standing_integer(input, skip_blanks(input, at), settings)
}
