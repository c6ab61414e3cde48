//! Scanning one token.

ghost use Rattle.std.specs.Prelude.{◌≡◌, ◌≤◌, ◌<◌, ◌+◌, ℕ, Bool, List, length, drop, slice_index, slice_range, ◌∷◌, Some, option_map, IfSome, ◌||◌, false};
ghost use Rattle.smithy_json_grammar.specs.Ascii.{is_e, quotation_mark};
ghost use Rattle.smithy_json_tokens.specs.Tokens.{JsonToken, value_string, object_key};
ghost use Rattle.smithy_json_tokens.specs.TokenRules.{is_boundary_byte, is_piece, at_boundary, number_length, run_token, text_length, scan_string, scan_value, scan_key};
ghost use Rattle.smithy_json_tokens.specs.TokenView.{token_view, token_offset};
ghost use Rattle.smithy_json_tokens.specs.Private.Scans.{ScansAt, ScansLiteral, ScansNumber, text_scan_of, AreTextPlaces, BeginsNumber};

use crate::error::{DeserializeError, DeserializeErrorKind};
use crate::run_token::{run_token, whole_token};
use crate::string_end::text_end;
use crate::token::{Offset, Token};
use smithy_json_grammar::EscapedStr;
use smithy_json_grammar::number_text::read_long;
use std::str;

/// A token and the offset behind its last byte.
#[derive(Clone, Copy)]
pub(crate) struct Scanned<'a> {
    pub(crate) token: Token<'a>,
    pub(crate) end: usize,
}

pub(crate) fn error_at(kind: DeserializeErrorKind, at: usize) -> DeserializeError
    ensures { result ≡ record { kind = kind; offset = Some at } }
{
    DeserializeError {
        kind,
        offset: Some(at),
    }
}

#[inline(always)]
fn is_boundary_byte(byte: u8) -> bool
    ensures { result ≡ is_boundary_byte byte }
{
    matches!(byte, b' ' | b'\t' | b'\n' | b'\r' | b',' | b']' | b'}')
}

// The token that ends at the offset, where a value may end there.
#[inline(always)]
fn at_boundary<'a>(
    input: &'a [u8],
    token: Token<'a>,
    end: usize,
) -> Result<Scanned<'a>, DeserializeError>
    requires within { end ≤ length input.now }
    requires before { token_offset token < end }
    ensures { ScansAt input.now (token_offset token.entry) result (at_boundary (token_view token.entry) (drop end input.now)) }
{
    if end < input.len() && !is_boundary_byte(input[end]) {
        let kind = DeserializeErrorKind::UnexpectedToken(input[end] as char);
        return Err(error_at(kind, end));
    }
    Ok(Scanned { token, end })
}

// The literal of the token, at the token's offset.
fn literal_at<'a>(
    input: &'a [u8],
    literal: &[u8],
    token: Token<'a>,
) -> Result<Scanned<'a>, DeserializeError>
    requires within { token_offset token ≤ length input.now }
    requires some { 0 < length literal.now }
    ensures { ScansLiteral literal.now token.entry input.now result }
{
    let at = token.offset().0;
    if input.len() - at < literal.len() {
        return Err(error_at(DeserializeErrorKind::UnexpectedEos, input.len()));
    }
    if !input[at..].starts_with(literal) {
        return Err(error_at(DeserializeErrorKind::ExpectedLiteral, at));
    }
    at_boundary(input, token, at + literal.len())
}

// The literal of the token, at the token's offset. The result of `literal_at` is moved out of the place where that call wrote it:
// a result whose place no call out of line is handed stays in registers. `scan_any_number` does so too.
#[inline(always)]
fn scan_literal<'a>(
    input: &'a [u8],
    literal: &[u8],
    token: Token<'a>,
) -> Result<Scanned<'a>, DeserializeError>
    requires within { token_offset token ≤ length input.now }
    requires some { 0 < length literal.now }
    ensures { ScansLiteral literal.now token.entry input.now result }
{
    let scanned = literal_at(input, literal, token)?;
    Ok(scanned)
}

#[inline(always)]
fn is_e(byte: u8) -> bool
    ensures { result ≡ is_e byte }
{
    matches!(byte, b'e' | b'E')
}

// Whether the byte is of a number, and no `e`. A sign may be one where it is due.
#[inline(always)]
fn is_piece(sign: bool, byte: u8) -> bool
    ensures { result ≡ is_piece sign byte }
{
    byte.is_ascii_digit() || byte == b'.' || (sign && (byte == b'-' || byte == b'+'))
}

// Where the bytes of a number end that come at the offset.
fn number_end(input: &[u8], at: usize) -> usize
    requires { at ≤ length input.now }
    ensures value { result ≡ at + number_length false (drop at input.now) }
    ensures within { result ≤ length input.now }
{
    let mut end = at;
    let mut sign = false;
    while end < input.len() && (is_piece(sign, input[end]) || is_e(input[end])) {
        sign = is_e(input[end]);
        end += 1;
    }
    end
}

// The text of the string that begins at the offset, and its end.
#[inline(always)]
fn scan_text<'a>(input: &'a [u8], at: usize) -> Result<(&'a str, usize), DeserializeError>
    requires within { at < length input.now }
    ensures value { (t : List ℕ → JsonToken) → text_scan_of t input.now result ≡ scan_string t (drop at input.now) (drop (at + 1) input.now) }
    ensures places { AreTextPlaces input.now at result }
{
    let end = text_end(input, at + 1);
    if end == input.len() {
        return Err(error_at(DeserializeErrorKind::UnexpectedEos, end));
    }
    if input[end] != b'"' {
        let kind = DeserializeErrorKind::UnexpectedControlCharacter(input[end]);
        return Err(error_at(kind, end));
    }
    match str::from_utf8(&input[at + 1..end]) {
        Ok(text) => Ok((text, end + 1)),
        Err(_) => Err(error_at(DeserializeErrorKind::InvalidUtf8, at)),
    }
}

// The string value at the offset.
#[inline(always)]
fn scan_string_value<'a>(input: &'a [u8], at: usize) -> Result<Scanned<'a>, DeserializeError>
    requires within { at < length input.now }
    ensures { ScansAt input.now at result (scan_string value_string (drop at input.now) (drop (at + 1) input.now)) }
{
    let (text, end) = scan_text(input, at)?;
    Ok(Scanned {
        token: Token::ValueString {
            offset: Offset(at),
            value: EscapedStr::new(text),
        },
        end,
    })
}

// The name at the offset.
#[inline(always)]
fn scan_name<'a>(input: &'a [u8], at: usize) -> Result<Scanned<'a>, DeserializeError>
    requires within { at < length input.now }
    ensures { ScansAt input.now at result (scan_string object_key (drop at input.now) (drop (at + 1) input.now)) }
{
    let (text, end) = scan_text(input, at)?;
    Ok(Scanned {
        token: Token::ObjectKey {
            offset: Offset(at),
            key: EscapedStr::new(text),
        },
        end,
    })
}

// The number at the offset, which begins with a minus or a digit.
#[inline(always)]
fn scan_number<'a>(input: &'a [u8], at: usize) -> Result<Scanned<'a>, DeserializeError>
    requires within { at < length input.now }
    requires begins { BeginsNumber (slice_index input.now at) }
    ensures { ScansNumber input.now at result }
{
    if let Some((value, end)) = read_long(input, at) {
        let token = whole_token(input[at] == b'-', value, at);
        return Ok(Scanned { token, end });
    }
    scan_any_number(input, at)
}

// The number at the offset, of any form that a number of JSON has.
#[inline(always)]
fn scan_any_number<'a>(input: &'a [u8], at: usize) -> Result<Scanned<'a>, DeserializeError>
    requires within { at < length input.now }
    requires begins { BeginsNumber (slice_index input.now at) }
    ensures { ScansNumber input.now at result }
{
    let scanned = scan_run(input, at)?;
    Ok(scanned)
}

// The number at the offset, found by the run of bytes of which numbers are made.
fn scan_run<'a>(input: &'a [u8], at: usize) -> Result<Scanned<'a>, DeserializeError>
    requires within { at < length input.now }
    requires begins { BeginsNumber (slice_index input.now at) }
    ensures { ScansNumber input.now at result }
{
    let end = number_end(input, at + 1);
    match run_token(&input[at..end], at) {
        Some(token) => at_boundary(input, token, end),
        None => Err(error_at(DeserializeErrorKind::InvalidNumber, at)),
    }
}

/// The first token of the value at the offset.
#[inline(always)]
pub(crate) fn scan_value<'a>(input: &'a [u8], at: usize) -> Result<Scanned<'a>, DeserializeError>
    requires within { at ≤ length input.now }
    ensures { ScansAt input.now at result (scan_value (drop at input.now)) }
{
    if at >= input.len() {
        return Err(error_at(DeserializeErrorKind::UnexpectedEos, at));
    }
    scan_value_by(input, at, input[at])
}

// The first token of the value that begins at the offset with the byte `first`.
#[inline(always)]
fn scan_value_by<'a>(input: &'a [u8], at: usize, first: u8) -> Result<Scanned<'a>, DeserializeError>
    requires within { at < length input.now }
    requires first { slice_index input.now at ≡ first }
    ensures { ScansAt input.now at result (scan_value (first ∷ drop (at + 1) input.now)) }
{
    let offset = Offset(at);
    if first == b'{' {
        return Ok(Scanned {
            token: Token::StartObject { offset },
            end: at + 1,
        });
    }
    if first == b'[' {
        return Ok(Scanned {
            token: Token::StartArray { offset },
            end: at + 1,
        });
    }
    if first == b'"' {
        return scan_string_value(input, at);
    }
    if first == b'n' {
        return scan_literal(input, b"null", Token::ValueNull { offset });
    }
    if first == b't' {
        let token = Token::ValueBool {
            offset,
            value: true,
        };
        return scan_literal(input, b"true", token);
    }
    if first == b'f' {
        let token = Token::ValueBool {
            offset,
            value: false,
        };
        return scan_literal(input, b"false", token);
    }
    if first == b'-' || first.is_ascii_digit() {
        return scan_number(input, at);
    }
    let kind = DeserializeErrorKind::UnexpectedToken(first as char);
    Err(error_at(kind, at))
}

/// The name of the member at the offset.
#[inline(always)]
pub(crate) fn scan_key<'a>(input: &'a [u8], at: usize) -> Result<Scanned<'a>, DeserializeError>
    requires within { at ≤ length input.now }
    ensures { ScansAt input.now at result (scan_key (drop at input.now)) }
{
    if at >= input.len() {
        return Err(error_at(DeserializeErrorKind::UnexpectedEos, at));
    }
    if input[at] != b'"' {
        let kind = DeserializeErrorKind::UnexpectedToken(input[at] as char);
        return Err(error_at(kind, at));
    }
    scan_name(input, at)
}
