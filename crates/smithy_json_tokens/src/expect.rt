//! Taking one token of a kind.

ghost use Rattle.std.specs.Prelude.{◌≡◌, option_map};
ghost use Rattle.smithy_json_grammar.specs.EscapedText.{escaped_text};
ghost use Rattle.smithy_json_tokens.specs.Faults.{IsCustomKind};
ghost use Rattle.smithy_json_tokens.specs.Expecting.{Expects, wanted_object, wanted_array, wanted_bool, wanted_number, wanted_string};

use crate::error::{DeserializeError, DeserializeErrorKind};
use crate::token::Token;
use smithy_json_grammar::EscapedStr;
use smithy_types::Number;
use std::borrow::CowStr;

/// The error that no token of the wanted kind came, with the offset of the token that came, if one did.
pub(crate) fn expected(message: &'static str, offset: Option<usize>) -> DeserializeError
    ensures offset { result.offset ≡ offset }
    ensures kind { IsCustomKind result.kind }
{
    DeserializeError {
        kind: DeserializeErrorKind::Custom(CowStr::Borrowed(message)),
        offset,
    }
}

/// The start of an object.
pub fn expect_start_object<'a>(
    token: Option<Result<Token<'a>, DeserializeError>>,
) -> Result<(), DeserializeError>
    ensures { Expects wanted_object (λ x. x) token.entry result }
{
    match token {
        None => Err(expected("expected StartObject", None)),
        Some(Err(error)) => Err(error),
        Some(Ok(Token::StartObject { offset: _ })) => Ok(()),
        Some(Ok(token)) => Err(expected("expected StartObject", Some(token.offset().0))),
    }
}

/// The start of an array.
pub fn expect_start_array<'a>(
    token: Option<Result<Token<'a>, DeserializeError>>,
) -> Result<(), DeserializeError>
    ensures { Expects wanted_array (λ x. x) token.entry result }
{
    match token {
        None => Err(expected("expected StartArray", None)),
        Some(Err(error)) => Err(error),
        Some(Ok(Token::StartArray { offset: _ })) => Ok(()),
        Some(Ok(token)) => Err(expected("expected StartArray", Some(token.offset().0))),
    }
}

/// A truth value, or nothing for a null.
pub fn expect_bool_or_null<'a>(
    token: Option<Result<Token<'a>, DeserializeError>>,
) -> Result<Option<bool>, DeserializeError>
    ensures { Expects wanted_bool (λ x. x) token.entry result }
{
    match token {
        None => Err(expected("expected ValueBool or ValueNull", None)),
        Some(Err(error)) => Err(error),
        Some(Ok(Token::ValueNull { offset: _ })) => Ok(None),
        Some(Ok(Token::ValueBool { offset: _, value })) => Ok(Some(value)),
        Some(Ok(token)) => Err(expected("expected ValueBool or ValueNull", Some(token.offset().0))),
    }
}

/// A whole number of 64 bits, or nothing for a null.
pub fn expect_number_or_null<'a>(
    token: Option<Result<Token<'a>, DeserializeError>>,
) -> Result<Option<Number>, DeserializeError>
    ensures { Expects wanted_number (λ x. x) token.entry result }
{
    match token {
        None => Err(expected("expected ValueNumber or ValueNull", None)),
        Some(Err(error)) => Err(error),
        Some(Ok(Token::ValueNull { offset: _ })) => Ok(None),
        Some(Ok(Token::ValueNumber { offset: _, value })) => Ok(Some(value)),
        Some(Ok(token)) => Err(expected(
            "expected ValueNumber or ValueNull",
            Some(token.offset().0),
        )),
    }
}

/// A string, or nothing for a null. Its escapes aren't looked at.
pub fn expect_string_or_null<'a>(
    token: Option<Result<Token<'a>, DeserializeError>>,
) -> Result<Option<EscapedStr<'a>>, DeserializeError>
    ensures { Expects wanted_string (λ x. option_map (λ s. escaped_text s) x) token.entry result }
{
    match token {
        None => Err(expected("expected ValueString or ValueNull", None)),
        Some(Err(error)) => Err(error),
        Some(Ok(Token::ValueNull { offset: _ })) => Ok(None),
        Some(Ok(Token::ValueString { offset: _, value })) => Ok(Some(value)),
        Some(Ok(token)) => Err(expected(
            "expected ValueString or ValueNull",
            Some(token.offset().0),
        )),
    }
}
