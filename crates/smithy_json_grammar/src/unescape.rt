//! Freeing a string of its escapes (RFC 8259, section 7).

ghost use Rattle.std.specs.Prelude.{◌≡◌, ◌≢◌, ◌≤◌, ◌<◌, ◌+◌, ◌↔◌, length, drop, IfOk, IfErr, IsOk, Ok, Err, false, string_bytes, MatchResult, true};
ghost use Rattle.std.specs.List.{prefix_len};
ghost use Rattle.std.specs.Char.{digit_value};
ghost use Rattle.std.specs.Char.Utf16.{is_high_surrogate, is_low_surrogate, surrogate_pair_char};
ghost use Rattle.std.specs.Cow.{cow_str_bytes, IsBorrowedStr};
ghost use Rattle.smithy_json_grammar.specs.Unescape.{short_escape, code_unit, digits_fault, unescape, unescape_letter, unescape_digits, unescape_low, has_escape};
ghost use Rattle.smithy_json_grammar.specs.EscapedText.{escaped_text};
ghost use Rattle.smithy_json_grammar.specs.Private.Unescaping.{is_no_escape, Unescapes};

use crate::escape_error::EscapeError;
use crate::scan::stop;
use crate::string_text::is_short_escape;
use std::alloc::Global;
use std::borrow::CowStr;
use std::str;

/// What stands between the quotation marks of a string, with its escapes.
#[derive(Clone, Copy, Debug, PartialEq, Eq)]
pub struct EscapedStr<'a> {
    value: &'a str,
}

impl<'a> EscapedStr<'a> {
    /// Any text: whether its escapes are sound is answered by `to_unescaped`.
    pub fn new(value: &'a str) -> EscapedStr<'a>
        ensures { escaped_text result ≡ value.now }
    {
        EscapedStr { value }
    }

    /// What stands between the quotation marks, with its escapes.
    pub fn as_escaped_str(&self) -> &'a str
        ensures { result.now ≡ escaped_text self.now }
    {
        self.value
    }

    /// The text that the raw text stands for. Nothing is copied where there is no backslash.
    pub fn to_unescaped(self, alloc: Global) -> Result<CowStr<'a, Global>, EscapeError>
        ensures text { IfOk result (λ text. unescape (escaped_text self.entry) ≡ Ok (cow_str_bytes text)) }
        ensures borrowed { IfOk result (λ text. IsBorrowedStr text ↔ (has_escape (escaped_text self.entry) ≡ false)) }
        ensures fault { IfErr result (λ fault. fault ≢ EscapeError.NoMemory → unescape (escaped_text self.entry) ≡ Err fault) }
        // Without a backslash no memory is needed.
        ensures no_escape { has_escape (escaped_text self.entry) ≡ false → IsOk result }
    {
        if escape_start(self.value.as_bytes(), 0) == self.value.len() {
            return Ok(CowStr::Borrowed(self.value));
        }
        Ok(CowStr::Owned(unescape(alloc, self.value)?))
    }
}

// The first backslash from the offset on, or the length.
fn escape_start(input: &[u8], at: usize) -> usize
    requires { at ≤ length input.now }
    ensures value { result ≡ at + prefix_len is_no_escape (drop at input.now) }
    ensures within { result ≤ length input.now }
{
    let mut end = stop(input, at, false);
    while end < input.len() && input[end] != b'\\' {
        end = stop(input, end + 1, false);
    }
    end
}

fn unescape(alloc: Global, value: &str) -> Result<String, EscapeError>
    ensures { MatchResult result (λ text. unescape value.now ≡ Ok (string_bytes text))
        (λ fault. fault ≢ EscapeError.NoMemory → unescape value.now ≡ Err fault) }
{
    let bytes = value.as_bytes();
    // No text is longer than it is with its escapes.
    let mut text = String::with_capacity(alloc, bytes.len())?;
    let mut at = 0;
    loop {
        let start = escape_start(bytes, at);
        text.push_str(&value[at..start])?;
        if start == bytes.len() {
            return Ok(text);
        }
        let (character, escape_len) = read_escape(&bytes[start + 1..])?;
        text.push(character)?;
        at = start + 1 + escape_len;
    }
}

// What follows a backslash: the character, and how many bytes the escape still has.
fn read_escape(rest: &[u8]) -> Result<(char, usize), EscapeError>
    ensures { Unescapes unescape_letter rest.now result }
{
    if rest.is_empty() {
        return Err(EscapeError::UnexpectedEndOfString);
    }
    let letter = rest[0];
    if letter == b'u' {
        let (character, digits_len) = read_digits(&rest[1..])?;
        return Ok((character, 1 + digits_len));
    }
    if !is_short_escape(letter) {
        return Err(EscapeError::InvalidEscapeCharacter(letter as char));
    }
    Ok((short_escape(letter) as char, 1))
}

fn short_escape(letter: u8) -> u8
    ensures { result ≡ short_escape letter }
{
    match letter {
        b'b' => 0x08,
        b'f' => 0x0c,
        b'n' => b'\n',
        b'r' => b'\r',
        b't' => b'\t',
        _ => letter,
    }
}

// What follows a backslash and a `u`: the character, and how many bytes the escape still has. Where the escape is of a high
// surrogate, the escape of the low one is counted too.
fn read_digits(rest: &[u8]) -> Result<(char, usize), EscapeError>
    ensures { Unescapes unescape_digits rest.now result }
{
    if rest.len() < 4 {
        return Err(EscapeError::UnexpectedEndOfString);
    }
    let unit = code_unit(&rest[..4])?;
    if is_high_surrogate(unit) {
        let (character, low_len) = read_low_surrogate(unit, &rest[4..])?;
        return Ok((character, 4 + low_len));
    }
    match char::from_u32(u32::from(unit)) {
        Some(character) => Ok((character, 4)),
        None => Err(EscapeError::InvalidUnicodeEscape),
    }
}

// What follows the escape of a high surrogate: the character that both surrogates are, and the 6 bytes of the low one's escape.
fn read_low_surrogate(high: u16, rest: &[u8]) -> Result<(char, usize), EscapeError>
    requires { is_high_surrogate high ≡ true }
    ensures { Unescapes (unescape_low high) rest.now result }
{
    if rest.len() < 6 {
        return Err(EscapeError::UnexpectedEndOfString);
    }
    if rest[0] != b'\\' || rest[1] != b'u' {
        return Err(EscapeError::ExpectedSurrogatePair);
    }
    let low = code_unit(&rest[2..6])?;
    if !is_low_surrogate(low) {
        return Err(EscapeError::InvalidSurrogatePair(high, low));
    }
    Ok((surrogate_pair(high, low), 6))
}

fn is_high_surrogate(unit: u16) -> bool
    ensures { result ≡ is_high_surrogate unit }
{
    0xd800 <= unit && unit < 0xdc00
}

fn is_low_surrogate(unit: u16) -> bool
    ensures { result ≡ is_low_surrogate unit }
{
    0xdc00 <= unit && unit < 0xe000
}

fn surrogate_pair(high: u16, low: u16) -> char
    requires high { is_high_surrogate high ≡ true }
    requires low { is_low_surrogate low ≡ true }
    ensures { result ≡ surrogate_pair_char high low }
{
    let code = 0x1_0000 + (u32::from(high) - 0xd800) * 0x400 + (u32::from(low) - 0xdc00);
    char::from_u32(code).unwrap()
}

// The code unit of UTF-16 that four hexadecimal digits write.
fn code_unit(digits: &[u8]) -> Result<u16, EscapeError>
    requires { length digits.now ≡ 4 }
    ensures { result ≡ code_unit digits.now }
{
    let (a, b, c, d) = (
        digit_value(digits[0]),
        digit_value(digits[1]),
        digit_value(digits[2]),
        digit_value(digits[3]),
    );
    if (a < 16) & (b < 16) & (c < 16) & (d < 16) {
        Ok(a * 0x1000 + b * 0x100 + c * 0x10 + d)
    } else {
        Err(digits_fault(digits))
    }
}

// Why four bytes aren't hexadecimal digits.
fn digits_fault(digits: &[u8]) -> EscapeError
    ensures { result ≡ digits_fault digits.now }
{
    match str::from_utf8(digits) {
        Ok(_) => EscapeError::InvalidUnicodeEscape,
        Err(_) => EscapeError::InvalidUtf8,
    }
}

fn digit_value(byte: u8) -> u16
    ensures { result ≡ digit_value byte }
{
    match byte {
        b'0'..=b'9' => u16::from(byte - b'0'),
        b'A'..=b'Z' => u16::from(byte - b'A') + 10,
        b'a'..=b'z' => u16::from(byte - b'a') + 10,
        _ => 36,
    }
}
