//! Where the text of a string ends (RFC 8259, section 7).

ghost use Rattle.std.specs.Prelude.{◌≡◌, ◌<◌, ◌≤◌, ◌+◌, length, drop, slice_index, IfSome, false};
ghost use Rattle.std.specs.List.{prefix_len};
ghost use Rattle.std.specs.Char.{is_ascii_hexdigit};
ghost use Rattle.smithy_json_grammar.specs.Ascii.{quotation_mark, escape, is_short_escape};
ghost use Rattle.smithy_json_grammar.specs.Private.Chars.{is_plain, begins_with_four_hex_digits, GoesOnAt, closing_from};
ghost use Rattle.smithy_json_grammar.specs.FoundString.{ScansString};

use crate::lanes::run_end;
use crate::scan::stop;
use std::str;

/// A string that stands in an input.
#[derive(Clone, Copy, Debug)]
pub struct ScannedString<'a> {
    /// What stands between the quotation marks.
    pub text: &'a str,
    /// The offset of the closing quotation mark.
    pub closing: usize,
    /// Whether the text holds a backslash, so that it stands for another text.
    pub has_escape: bool,
}

/// Whether four hexadecimal digits come first.
pub fn begins_with_four_hex_digits(input: &[u8]) -> bool
    ensures { result ≡ begins_with_four_hex_digits input.now }
{
    match input {
        [a, b, c, d, ..] => {
            a.is_ascii_hexdigit()
                && b.is_ascii_hexdigit()
                && c.is_ascii_hexdigit()
                && d.is_ascii_hexdigit()
        }
        _ => false,
    }
}

/// Whether a backslash and this byte are an escape by themselves (RFC 8259, section 7).
pub fn is_short_escape(letter: u8) -> bool
    ensures { result ≡ is_short_escape letter }
{
    matches!(
        letter,
        b'"' | b'\\' | b'/' | b'b' | b'f' | b'n' | b'r' | b't'
    )
}

// The end of the escape whose backslash stands at the offset.
fn escape_end(input: &[u8], at: usize) -> Option<usize>
    requires within { at < length input.now }
    requires backslash { slice_index input.now at ≡ escape }
    ensures { GoesOnAt input.now at result }
{
    let letter = *input.get(at + 1)?;
    if is_short_escape(letter) {
        return Some(at + 2);
    }
    if letter != b'u' {
        return None;
    }
    begins_with_four_hex_digits(&input[at + 2..]).then_some(at + 6)
}

// The closing quotation mark of a string whose text goes on at the offset, with a byte that doesn't
// stand for itself.
fn closing_mark(input: &[u8], at: usize) -> Option<usize>
    requires within { at ≤ length input.now }
    requires stops { at < length input.now → is_plain (slice_index input.now at) ≡ false }
    ensures value { result ≡ closing_from input.now at }
    ensures within { IfSome result (λ closing. (at ≤ closing) × (closing < length input.now)) }
{
    let mut end = at;
    while end < input.len() && input[end] == b'\\' {
        end = stop(input, escape_end(input, end)?, true);
    }
    (end < input.len() && input[end] == b'"').then_some(end)
}

// The string whose opening quotation mark stands at the offset, by where its first ASCII bytes end.
#[inline(never)]
fn scan_from<'a>(input: &'a [u8], at: usize, end: usize) -> Option<ScannedString<'a>>
    requires ordered { at < end }
    requires within { end ≤ length input.now }
    requires opens { slice_index input.now at ≡ quotation_mark }
    requires same_run { at + 1 + prefix_len is_plain (drop (at + 1) input.now) ≡ end + prefix_len is_plain (drop end input.now) }
    ensures { ScansString input.now at result }
{
    let first_stop = stop(input, end, true);
    let closing = closing_mark(input, first_stop)?;
    let Ok(text) = str::from_utf8(&input[at + 1..closing]) else {
        return None;
    };
    Some(ScannedString {
        text,
        closing,
        has_escape: first_stop < closing,
    })
}

/// The string whose opening quotation mark stands at the offset.
///
/// Its bytes are looked at once for the closing mark, and once more for UTF-8 where they aren't all
/// ASCII or have an escape.
#[inline(always)]
pub fn scan_string<'a>(input: &'a [u8], at: usize) -> Option<ScannedString<'a>>
    requires { at ≤ length input.now }
    ensures { ScansString input.now at result }
{
    if at == input.len() || input[at] != b'"' {
        return None;
    }
    let end = run_end::<true, true>(input, at + 1);
    if end < input.len() && input[end] == b'"' {
        return Some(ScannedString {
            text: unsafe { str::from_utf8_unchecked(&input[at + 1..end]) },
            closing: end,
            has_escape: false,
        });
    }
    let scanned = scan_from(input, at, end)?;
    Some(scanned)
}
