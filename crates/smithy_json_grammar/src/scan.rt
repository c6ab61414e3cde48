//! Where blanks and literals end, where a value may end, and where a string's text stops.

ghost use Rattle.std.specs.Prelude.{◌≡◌, ◌≤◌, ◌↔◌, ℕ, Bool, IsTrue, length, drop, true, false, codes, IfSome, IfNone};
ghost use Rattle.smithy_json_grammar.specs.Ascii.{is_ws};
ghost use Rattle.smithy_json_grammar.specs.Grammar.{IsBoundary, IsValue};
ghost use Rattle.smithy_json_grammar.specs.Private.Literal.{EndsLiteral};
ghost use Rattle.smithy_json_grammar.specs.Standing.{IsRunAt, StandsAt};
ghost use Rattle.smithy_json_grammar.specs.Stops.{first_stop};
ghost use Rattle.smithy_json_grammar.specs.Tree.{null, boolean};

use crate::lanes::run_end;

// RFC 8259 calls these bytes `ws`. None is above the space, and most bytes of a text are.
#[inline(always)]
fn is_blank(byte: u8) -> bool
    ensures { result ≡ is_ws byte }
{
    byte <= b' ' && matches!(byte, b' ' | b'\t' | b'\n' | b'\r')
}

/// The offset of the first byte from `at` on that is no blank, or the input's length.
pub fn skip_blanks(input: &[u8], at: usize) -> usize
    requires { at ≤ length input.now }
    ensures { IsRunAt is_ws input.now at result }
{
    let mut end = at;
    while end < input.len() && is_blank(input[end]) {
        end += 1;
    }
    end
}

/// Whether a value may end at the offset: the input ends there, or a blank, a comma or a closing
/// bracket stands there.
#[inline(always)]
pub fn is_boundary(input: &[u8], at: usize) -> bool
    requires { at ≤ length input.now }
    ensures { IsTrue result ↔ IsBoundary (drop at input.now) }
{
    at >= input.len() || matches!(input[at], b',' | b']' | b'}') || is_blank(input[at])
}

// The end of the literal that stands at the offset, where a value may end behind it.
#[inline(always)]
fn literal_end(input: &[u8], at: usize, literal: &[u8]) -> Option<usize>
    requires { at ≤ length input.now }
    ensures { EndsLiteral literal.now input.now at result }
{
    if !input[at..].starts_with(literal) {
        return None;
    }
    let end = at + literal.len();
    is_boundary(input, end).then_some(end)
}

/// The end of the literal `null` that stands at the offset, where a value may end behind it.
pub fn read_null(input: &[u8], at: usize) -> Option<usize>
    requires { at ≤ length input.now }
    ensures found { IfSome result (λ end. StandsAt (IsValue null) input.now at end) }
    ensures none { IfNone result ((end : ℕ) → StandsAt (IsValue null) input.now at end → ⊥) }
{
    literal_end(input, at, b"null")
}

/// The literal `true` or `false` that stands at the offset, with its end, where a value may end behind
/// it.
pub fn read_boolean(input: &[u8], at: usize) -> Option<(bool, usize)>
    requires { at ≤ length input.now }
    ensures found { IfSome result (λ r. StandsAt (IsValue (boolean r.0)) input.now at r.1) }
    ensures none { IfNone result ((value : Bool) (end : ℕ) → StandsAt (IsValue (boolean value)) input.now at end → ⊥) }
{
    if let Some(end) = literal_end(input, at, b"true") {
        return Some((true, end));
    }
    let end = literal_end(input, at, b"false")?;
    Some((false, end))
}

/// The first place from `at` on that holds a quotation mark, a backslash or, where `controls` is set, a byte below 0x20; the length
/// where there is none (RFC 8259, section 7).
#[inline(always)]
pub fn stop(input: &[u8], at: usize, controls: bool) -> usize
    requires { at ≤ length input.now }
    ensures value { result ≡ first_stop input.now at controls }
    ensures bound { result ≤ length input.now }
{
    if controls {
        run_end::<true, false>(input, at)
    } else {
        run_end::<false, false>(input, at)
    }
}
