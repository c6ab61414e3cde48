//! Where a number ends, as one of a sort is read under the settings.

ghost use Rattle.std.specs.Prelude.{◌≡◌, ◌≤◌, ℕ, List, false, length, IfSome, IfNone};
ghost use Rattle.smithy_json_values.specs.Codec.{held_settings};
ghost use Rattle.smithy_json_values.specs.LexicalGrammar.{number_test};
ghost use Rattle.smithy_json_values.specs.Private.NumberSorts.{lenient_test};
ghost use Rattle.smithy_json_values.specs.Private.NumberAtPlace.{NumberStands, NumberLies};

use crate::mismatch::begins_as_number;
use smithy_json_grammar::number_grammar::{NumberGrammar, is_number_of, scan_number_of};
use smithy_json_grammar::number_run::number_run_end;
use smithy_json_grammar::scan::skip_blanks;
use smithy_json_settings::Settings;
use smithy_texts::decimal_text::is_decimal;
use smithy_texts::numeral::{are_digits, without_minus};
use std::str;

/// Which texts are numbers of a sort where nothing is strict. Where something is, all are of the grammar of numbers.
#[derive(Clone, Copy)]
pub enum NumberSort {
    /// Numbers of the grammar.
    OfGrammar,
    /// Digits, or a minus and digits.
    BigInteger,
    /// Decimal texts that begin with a minus or a digit.
    Decimal,
}

// Whether the text is a number of the sort where nothing is strict.
fn is_lenient(sort: NumberSort, numbers: NumberGrammar, text: &[u8]) -> bool
    ensures { result ≡ lenient_test sort numbers text.now }
{
    match sort {
        NumberSort::OfGrammar => is_number_of(numbers, text),
        NumberSort::BigInteger => are_digits(without_minus(text)),
        NumberSort::Decimal => begins_as_number(text) && is_decimal(text),
    }
}

// The end of the longest run of bytes of numbers at the offset, where it is a number of the sort.
fn lenient_end(
    sort: NumberSort,
    numbers: NumberGrammar,
    input: &[u8],
    start: usize,
) -> Option<usize>
    requires { start ≤ length input.now }
    ensures found { IfSome result (λ e. NumberStands false (lenient_test sort numbers) input.now start e) }
    ensures none { IfNone result ((e : ℕ) → NumberStands false (lenient_test sort numbers) input.now start e → ⊥) }
{
    let end = number_run_end(input, start);
    if end == start {
        return None;
    }
    if !is_lenient(sort, numbers, &input[start..end]) {
        return None;
    }
    Some(end)
}

/// The end of the number of the sort at the offset.
pub fn number_end_of(
    sort: NumberSort,
    input: &[u8],
    start: usize,
    settings: &Settings,
) -> Option<usize>
    requires { start ≤ length input.now }
    ensures found { IfSome result (λ e. NumberStands (held_settings settings.now).enforce_strictness (number_test (held_settings settings.now) (lenient_test sort (held_settings settings.now).numbers)) input.now start e) }
    ensures none { IfNone result ((e : ℕ) → NumberStands (held_settings settings.now).enforce_strictness (number_test (held_settings settings.now) (lenient_test sort (held_settings settings.now).numbers)) input.now start e → ⊥) }
{
    if settings.enforce_strictness {
        scan_number_of(settings.numbers, input, start)
    } else {
        lenient_end(sort, settings.numbers, input, start)
    }
}

/// The text of the number of the sort that comes first behind blanks, with its end.
pub fn number_of<'a>(
    sort: NumberSort,
    input: &'a [u8],
    at: usize,
    settings: &Settings,
) -> Option<(&'a str, usize)>
    requires { at ≤ length input.now }
    ensures found { IfSome result (λ r. NumberLies (held_settings settings.now).enforce_strictness (number_test (held_settings settings.now) (lenient_test sort (held_settings settings.now).numbers)) input.now at r.0.now r.1) }
    ensures none { IfNone result ((raw : List ℕ) (e : ℕ) → NumberLies (held_settings settings.now).enforce_strictness (number_test (held_settings settings.now) (lenient_test sort (held_settings settings.now).numbers)) input.now at raw e → ⊥) }
{
    let start = skip_blanks(input, at);
    let end = number_end_of(sort, input, start, settings)?;
    let text = unsafe { str::from_utf8_unchecked(&input[start..end]) };
    Some((text, end))
}
