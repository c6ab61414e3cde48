//! Strings of which less is asked than of those of RFC 8259, section 7.

ghost use Rattle.std.specs.Prelude.{◌≡◌, ◌<◌, ◌≤◌, ◌+◌, ℕ, length, slice_range, IfSome, IfNone, nat_le};
ghost use Rattle.std.specs.List.{list_all};
ghost use Rattle.smithy_json_grammar.specs.Ascii.{space};
ghost use Rattle.smithy_json_grammar.specs.Standing.{IsQuotedAt};
ghost use Rattle.smithy_json_grammar.specs.FoundString.{FindsString};
ghost use Rattle.smithy_json_grammar.specs.StringText.{is_escape, escapes_are_valid, is_plain_text, is_lenient_text};
ghost use Rattle.smithy_json_grammar.specs.Unescape.{has_escape};
ghost use Rattle.smithy_json_grammar.specs.Private.Chars.{quoted_from};

use crate::scan::stop;
use crate::string_text::{
    ScannedString, begins_with_four_hex_digits, is_short_escape, scan_string,
};
use std::str;

/// What stands between quotation marks, whatever it is.
#[derive(Clone, Copy, Debug)]
pub struct Quoted<'a> {
    /// The bytes between the marks.
    pub bytes: &'a [u8],
    /// The offset of the closing quotation mark.
    pub closing: usize,
}

// The first quotation mark from the offset on that no backslash takes.
fn closing_quote(input: &[u8], at: usize) -> Option<usize>
    requires { at ≤ length input.now }
    ensures value { result ≡ quoted_from input.now at }
    ensures within { IfSome result (λ closing. (at ≤ closing) × (closing < length input.now)) }
{
    let mut end = stop(input, at, false);
    while end < input.len() && input[end] == b'\\' {
        if input.len() - end < 2 {
            return None;
        }
        end = stop(input, end + 2, false);
    }
    (end < input.len()).then_some(end)
}

/// What the quotation mark at the offset opens: all bytes up to the first such mark that no backslash takes.
pub fn scan_quoted<'a>(input: &'a [u8], at: usize) -> Option<Quoted<'a>>
    requires { at ≤ length input.now }
    ensures found { IfSome result (λ q. IsQuotedAt input.now at q.closing) }
    ensures bytes { IfSome result (λ q. q.bytes.now ≡ slice_range input.now (at + 1) q.closing) }
    ensures none { IfNone result ((closing : ℕ) → IsQuotedAt input.now at closing → ⊥) }
{
    if at == input.len() || input[at] != b'"' {
        return None;
    }
    let closing = closing_quote(input, at + 1)?;
    Some(Quoted {
        bytes: &input[at + 1..closing],
        closing,
    })
}

// Whether a letter and the bytes behind it make an escape of the backslash before them.
fn is_escape(letter: u8, rest: &[u8]) -> bool
    ensures { result ≡ is_escape letter rest.now }
{
    is_short_escape(letter) || letter == b'u' && begins_with_four_hex_digits(rest)
}

/// Whether each backslash begins an escape.
pub fn escapes_are_valid(bytes: &[u8]) -> bool
    ensures { result ≡ escapes_are_valid bytes.now }
{
    let mut at = 0;
    while at < bytes.len() {
        if bytes[at] != b'\\' {
            at += 1;
            continue;
        }
        if bytes.len() - at < 2 || !is_escape(bytes[at + 1], &bytes[at + 2..]) {
            return false;
        }
        at += 2;
    }
    true
}

// Whether no byte is a control character below 0x20.
fn has_no_controls(bytes: &[u8]) -> bool
    ensures { result ≡ list_all (nat_le space) bytes.now }
{
    bytes.iter().all(|byte| *byte >= 0x20)
}

/// Whether the bytes are UTF-8 without control characters below 0x20.
pub fn is_plain_text(bytes: &[u8]) -> bool
    ensures { result ≡ is_plain_text bytes.now }
{
    match str::from_utf8(bytes) {
        Ok(_) => has_no_controls(bytes),
        Err(_) => false,
    }
}

fn has_escape(bytes: &[u8]) -> bool
    ensures { result ≡ has_escape bytes.now }
{
    bytes.iter().any(|byte| *byte == b'\\')
}

// The string at the offset that scan_string doesn't find.
#[inline(never)]
fn scan_with_controls<'a>(input: &'a [u8], at: usize) -> Option<ScannedString<'a>>
    requires { at ≤ length input.now }
    ensures { FindsString is_lenient_text input.now at result }
{
    let quoted = scan_quoted(input, at)?;
    let Ok(text) = str::from_utf8(quoted.bytes) else {
        return None;
    };
    if !escapes_are_valid(quoted.bytes) {
        return None;
    }
    Some(ScannedString {
        text,
        closing: quoted.closing,
        has_escape: has_escape(quoted.bytes),
    })
}

/// The string whose opening quotation mark stands at the offset, where it may hold control characters too.
#[inline(always)]
pub fn scan_lenient_string<'a>(input: &'a [u8], at: usize) -> Option<ScannedString<'a>>
    requires { at ≤ length input.now }
    ensures { FindsString is_lenient_text input.now at result }
{
    match scan_string(input, at) {
        Some(string) => Some(string),
        None => scan_with_controls(input, at),
    }
}
