//! Where strings, nulls and booleans lie in an input, and where a value may end.

ghost use Rattle.std.specs.Prelude.{◌≡◌, ◌≤◌, ◌+◌, ◌-◌, ◌↔◌, ℕ, List, Bool, length, drop, IsTrue, IfSome, IfNone};
ghost use Rattle.smithy_declarations.specs.declared.shape_type.Scalar.TheVariants as scalars;
ghost use Rattle.smithy_json_grammar.specs.Standing.{IsStringAt};
ghost use Rattle.smithy_json_grammar.specs.FoundString.{FindsString};
ghost use Rattle.smithy_json_grammar.specs.Unescape.{has_escape};
ghost use Rattle.smithy_json_values.specs.Codec.{held_settings, held_grammar};
ghost use Rattle.smithy_json_values.specs.LexicalGrammar.{LiesInGrammar, frames_of};
ghost use Rattle.smithy_json_values.specs.Scalar.{a_boolean, a_string};
ghost use Rattle.smithy_json_values.specs.Spans.{begins_with_null, begins_with_alphanumeric, without_ws};
ghost use Rattle.smithy_json_values.specs.Tokens.{BoundaryBy};
ghost use Rattle.smithy_json_values.specs.Private.PlacedTexts.{StandsFrom};

use crate::mismatch::{begins_with_false, begins_with_true};
use smithy_json_grammar::quoted_text::scan_lenient_string;
use smithy_json_grammar::scan::{is_boundary, skip_blanks};
use smithy_json_grammar::string_text::{ScannedString, scan_string};
use smithy_json_settings::Settings;

/// Whether a value may end at the offset.
#[inline(always)]
pub fn may_follow(input: &[u8], at: usize, settings: &Settings) -> bool
    requires { at ≤ length input.now }
    ensures { IsTrue result ↔ BoundaryBy (held_settings settings.now).enforce_strictness (drop at input.now) }
{
    if settings.enforce_strictness {
        is_boundary(input, at)
    } else {
        true
    }
}

// The string at the offset, where it is none of RFC 8259.
#[cold]
#[inline(never)]
fn other_string<'a>(input: &'a [u8], start: usize, settings: &Settings) -> Option<ScannedString<'a>>
    requires within { start ≤ length input.now }
    requires other { (closing : ℕ) → IsStringAt input.now start closing → ⊥ }
    ensures { FindsString (held_grammar settings.now).is_text input.now start result }
{
    if settings.enforce_strictness {
        None
    } else {
        scan_lenient_string(input, start)
    }
}

/// The string at the offset, as it is read: one of RFC 8259, and where nothing is strict also one that holds bytes below 0x20.
#[inline(always)]
pub fn string_of<'a>(
    input: &'a [u8],
    start: usize,
    settings: &Settings,
) -> Option<ScannedString<'a>>
    requires { start ≤ length input.now }
    ensures { FindsString (held_grammar settings.now).is_text input.now start result }
{
    match scan_string(input, start) {
        Some(string) => Some(string),
        None => {
            let other = other_string(input, start, settings)?;
            Some(other)
        }
    }
}

/// The string that comes first behind blanks.
#[inline(always)]
pub fn string_at<'a>(input: &'a [u8], at: usize, settings: &Settings) -> Option<ScannedString<'a>>
    requires { at ≤ length input.now }
    ensures found { IfSome result (λ s. LiesInGrammar (held_grammar settings.now) scalars.String (a_string s.text.now) input.now at (s.closing + 1)) }
    ensures begins { IfSome result (λ s. length s.text.now ≤ s.closing) }
    ensures stands { IfSome result (λ s. StandsFrom input.now at (s.closing + 1) (s.closing - length s.text.now) s.text.now) }
    ensures has_escape { IfSome result (λ s. s.has_escape ≡ has_escape s.text.now) }
    ensures none { IfNone result ((raw : List ℕ) (e : ℕ) → LiesInGrammar (held_grammar settings.now) scalars.String (a_string raw) input.now at e → ⊥) }
{
    let string = string_of(input, skip_blanks(input, at), settings)?;
    may_follow(input, string.closing + 1, settings).then_some(string)
}

// Whether an ASCII letter or digit comes first.
fn begins_with_alphanumeric(bytes: &[u8]) -> bool
    ensures { result ≡ begins_with_alphanumeric bytes.now }
{
    match bytes {
        [first, ..] => first.is_ascii_alphanumeric(),
        [] => false,
    }
}

/// Whether `null` comes first, and no ASCII letter or digit behind it.
pub fn begins_with_null(bytes: &[u8]) -> bool
    ensures { result ≡ begins_with_null bytes.now }
{
    match bytes {
        [n, u, l, k, rest @ ..] => {
            *n == b'n' && *u == b'u' && *l == b'l' && *k == b'l' && !begins_with_alphanumeric(rest)
        }
        _ => false,
    }
}

/// Whether `null` comes first behind blanks, and no ASCII letter or digit behind it.
pub fn begins_null(input: &[u8], at: usize) -> bool
    requires { at ≤ length input.now }
    ensures { result ≡ begins_with_null (without_ws (drop at input.now)) }
{
    begins_with_null(&input[skip_blanks(input, at)..])
}

/// The boolean that comes first behind blanks, with its end.
pub fn boolean_at(input: &[u8], at: usize, settings: &Settings) -> Option<(bool, usize)>
    requires { at ≤ length input.now }
    ensures found { IfSome result (λ r. (frames_of (held_grammar settings.now)).scalar input.now 0 (a_boolean r.0) at r.1) }
    ensures none { IfNone result ((b : Bool) (e : ℕ) → (frames_of (held_grammar settings.now)).scalar input.now 0 (a_boolean b) at e → ⊥) }
{
    let start = skip_blanks(input, at);
    if begins_with_true(&input[start..]) {
        return may_follow(input, start + 4, settings).then_some((true, start + 4));
    }
    if begins_with_false(&input[start..]) {
        return may_follow(input, start + 5, settings).then_some((false, start + 5));
    }
    None
}
