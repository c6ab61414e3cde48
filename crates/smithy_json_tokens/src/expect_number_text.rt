//! Taking a number as its text.

ghost use Rattle.std.specs.Prelude.{◌≡◌, ◌≤◌, ◌+◌, length, drop, option_map, IfSome, IfOk};
ghost use Rattle.std.specs.List.{prefix_len};
ghost use Rattle.smithy_json_tokens.specs.Expecting.{Expects, is_number_byte, number_run, wanted_number_text};
ghost use Rattle.smithy_json_tokens.specs.TokenView.{token_offset};

use crate::error::DeserializeError;
use crate::expect::expected;
use crate::token::Token;
use std::str;

fn is_number_byte(byte: u8) -> bool
    ensures { result ≡ is_number_byte byte }
{
    byte.is_ascii_digit() || matches!(byte, b'-' | b'+' | b'.' | b'e' | b'E')
}

// Where the bytes of a number end that come at the offset.
fn number_bytes_end(input: &[u8], at: usize) -> usize
    requires { at ≤ length input.now }
    ensures value { result ≡ at + prefix_len is_number_byte (drop at input.now) }
    ensures within { result ≤ length input.now }
{
    let mut end = at;
    while end < input.len() && is_number_byte(input[end]) {
        end += 1;
    }
    end
}

// The bytes of a number that come at the offset.
fn number_run<'a>(input: &'a [u8], at: usize) -> &'a str
    requires { at ≤ length input.now }
    ensures { result.now ≡ number_run (drop at input.now) }
{
    let end = number_bytes_end(input, at);
    unsafe { str::from_utf8_unchecked(&input[at..end]) }
}

/// The bytes of a number in the input, or nothing for a null. The caller's condition is that the offset
/// of the token is within the input.
///
/// They are the digits, signs, points and `e` that come at the token's offset.
pub fn expect_number_as_string_or_null<'a>(
    token: Option<Result<Token<'a>, DeserializeError>>,
    input: &'a [u8],
) -> Result<Option<&'a str>, DeserializeError>
    requires within { IfSome token (λ item. IfOk item (λ t. token_offset t ≤ length input.now)) }
    ensures { Expects (wanted_number_text input.now) (λ x. option_map (λ s. s.now) x) token.entry result }
{
    match token {
        None => Err(expected("expected a number or ValueNull", None)),
        Some(Err(error)) => Err(error),
        Some(Ok(Token::ValueNull { offset: _ })) => Ok(None),
        Some(Ok(Token::ValueNumber { offset, value: _ })) => {
            Ok(Some(number_run(input, offset.0)))
        }
        Some(Ok(Token::ValueUncarried { offset, text: _ })) => {
            Ok(Some(number_run(input, offset.0)))
        }
        Some(Ok(token)) => Err(expected("expected a number or ValueNull", Some(token.offset().0))),
    }
}
