//! The token of a run of a number's bytes.

ghost use Rattle.std.specs.Prelude.{◌≡◌, option_map, IfSome, IsUtf8, unsigned_abs, if◌then◌else◌};
ghost use Rattle.smithy_types.specs.declared.number.Number.TheVariants.{NegInt, PosInt};
ghost use Rattle.smithy_json_tokens.specs.Tokens.{value_number};
ghost use Rattle.smithy_json_tokens.specs.TokenRules.{run_token};
ghost use Rattle.smithy_json_tokens.specs.TokenView.{token_view, token_offset};

use crate::token::{Offset, Token};
use smithy_json_grammar::{number_of_long, number_of_text};
use smithy_texts::decimal_text::is_decimal;
use std::str;

/// The token at the offset of a whole number that is written with a minus, or without one.
#[inline(always)]
pub(crate) fn whole_token<'a>(with_minus: bool, value: i64, at: usize) -> Token<'a>
    ensures token { token_view result ≡ value_number (if with_minus then NegInt value else PosInt (unsigned_abs value)) }
    ensures offset { token_offset result ≡ at }
{
    Token::ValueNumber {
        offset: Offset(at),
        value: number_of_long(with_minus, value),
    }
}

/// The token of a run of a number's bytes, which begins at the offset.
pub(crate) fn run_token<'a>(run: &'a [u8], at: usize) -> Option<Token<'a>>
    requires { IsUtf8 run.now }
    ensures token { option_map (λ t. token_view t) result ≡ run_token run.now }
    ensures offset { IfSome result (λ t. token_offset t ≡ at) }
{
    let text = unsafe { str::from_utf8_unchecked(run) };
    if let Some(value) = number_of_text(text) {
        return Some(Token::ValueNumber {
            offset: Offset(at),
            value,
        });
    }
    if !is_decimal(run) {
        return None;
    }
    Some(Token::ValueUncarried {
        offset: Offset(at),
        text,
    })
}
