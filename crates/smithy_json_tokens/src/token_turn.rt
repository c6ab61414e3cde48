//! What may come next, and scanning it.

ghost use Rattle.std.specs.Prelude.{◌≡◌, ◌≢◌, ◌≤◌, ◌<◌, ◌+◌, length, drop, slice_index, ◌∷◌, Ok, Some};
ghost use Rattle.smithy_json_tokens.specs.declared.error.DeserializeErrorKind.TheVariants.{UnexpectedToken};
ghost use Rattle.smithy_json_tokens.specs.Tokens.{JsonToken};
ghost use Rattle.smithy_json_tokens.specs.TokenRules.{skip_ws, state_turn, value_turn, key_turn, end_turn, unexpected_turn};
ghost use Rattle.smithy_json_tokens.specs.TokenView.{token_view, token_offset};
ghost use Rattle.smithy_json_tokens.specs.Private.Turns.{TurnsTo};
ghost use Rattle.smithy_json_tokens.specs.declared.token_turn.State.TheVariants.{Initial, ArrayFirstValueOrEnd, ArrayNextValueOrEnd, ObjectFirstKeyOrEnd, ObjectNextKeyOrEnd, ObjectFieldValue};

use crate::error::{DeserializeError, DeserializeErrorKind};
use crate::token::{Offset, Token};
use crate::token_scan::{Scanned, error_at, scan_key, scan_value};
use smithy_json_grammar::scan::skip_blanks;

/// What may come next.
#[derive(Clone, Copy, PartialEq, Eq)]
pub enum State {
    /// A value, outside every container.
    Initial,
    /// The first value of an array, or its end.
    ArrayFirstValueOrEnd,
    /// A comma and the next value of an array, or its end.
    ArrayNextValueOrEnd,
    /// The first key of an object, or its end.
    ObjectFirstKeyOrEnd,
    /// A comma and the next key of an object, or its end.
    ObjectNextKeyOrEnd,
    /// A colon and the value of a member.
    ObjectFieldValue,
}

/// A token, and the state behind the value or the key that it is of.
#[derive(Clone, Copy)]
pub(crate) struct Turn<'a> {
    pub(crate) scanned: Scanned<'a>,
    pub(crate) after: State,
}

// Where the blanks end that come at the offset.
#[inline(always)]
pub(crate) fn past_blanks(input: &[u8], at: usize) -> usize
    requires within { at ≤ length input.now }
    ensures value { drop result input.now ≡ skip_ws (drop at input.now) }
    ensures ordered { at ≤ result }
    ensures bound { result ≤ length input.now }
{
    // Mostly none come.
    if at < input.len() && input[at] > b' ' {
        return at;
    }
    skip_blanks(input, at)
}

#[inline(always)]
fn value_turn<'a>(input: &'a [u8], at: usize, after: State) -> Result<Turn<'a>, DeserializeError>
    requires within { at ≤ length input.now }
    ensures { TurnsTo input.now at result (value_turn after (drop at input.now)) }
{
    let scanned = scan_value(input, at)?;
    Ok(Turn { scanned, after })
}

#[inline(always)]
fn key_turn<'a>(input: &'a [u8], at: usize) -> Result<Turn<'a>, DeserializeError>
    requires within { at ≤ length input.now }
    ensures { TurnsTo input.now at result (key_turn (drop at input.now)) }
{
    let scanned = scan_key(input, at)?;
    Ok(Turn {
        scanned,
        after: State::ObjectFieldValue,
    })
}

// The end of a container, whose byte stands at the token's offset.
#[inline(always)]
fn end_turn<'a>(input: &'a [u8], token: Token<'a>) -> Turn<'a>
    requires within { token_offset token < length input.now }
    ensures { TurnsTo input.now (token_offset token.entry) (Ok result) (end_turn (token_view token.entry) (slice_index input.now (token_offset token.entry)) (drop (token_offset token.entry + 1) input.now)) }
{
    let end = token.offset().0 + 1;
    Turn {
        scanned: Scanned { token, end },
        after: State::Initial,
    }
}

fn unexpected(byte: u8, at: usize) -> DeserializeError
    ensures { result ≡ record { kind = UnexpectedToken byte; offset = Some at } }
{
    error_at(DeserializeErrorKind::UnexpectedToken(byte as char), at)
}

// The first value of an array, or its end.
#[inline(always)]
fn first_value_turn<'a>(input: &'a [u8], at: usize) -> Result<Turn<'a>, DeserializeError>
    requires within { at < length input.now }
    ensures { TurnsTo input.now at result (state_turn ArrayFirstValueOrEnd (drop at input.now)) }
{
    if input[at] == b']' {
        return Ok(end_turn(input, Token::EndArray { offset: Offset(at) }));
    }
    value_turn(input, at, State::ArrayNextValueOrEnd)
}

#[inline(always)]
fn next_value_turn<'a>(input: &'a [u8], at: usize) -> Result<Turn<'a>, DeserializeError>
    requires within { at < length input.now }
    ensures { TurnsTo input.now at result (state_turn ArrayNextValueOrEnd (drop at input.now)) }
{
    if input[at] == b']' {
        return Ok(end_turn(input, Token::EndArray { offset: Offset(at) }));
    }
    if input[at] != b',' {
        return Err(unexpected(input[at], at));
    }
    value_turn(
        input,
        past_blanks(input, at + 1),
        State::ArrayNextValueOrEnd,
    )
}

#[inline(always)]
fn first_key_turn<'a>(input: &'a [u8], at: usize) -> Result<Turn<'a>, DeserializeError>
    requires within { at < length input.now }
    ensures { TurnsTo input.now at result (state_turn ObjectFirstKeyOrEnd (drop at input.now)) }
{
    if input[at] == b'}' {
        return Ok(end_turn(input, Token::EndObject { offset: Offset(at) }));
    }
    key_turn(input, at)
}

#[inline(always)]
fn next_key_turn<'a>(input: &'a [u8], at: usize) -> Result<Turn<'a>, DeserializeError>
    requires within { at < length input.now }
    ensures { TurnsTo input.now at result (state_turn ObjectNextKeyOrEnd (drop at input.now)) }
{
    if input[at] == b'}' {
        return Ok(end_turn(input, Token::EndObject { offset: Offset(at) }));
    }
    if input[at] != b',' {
        return Err(unexpected(input[at], at));
    }
    key_turn(input, past_blanks(input, at + 1))
}

#[inline(always)]
fn field_value_turn<'a>(input: &'a [u8], at: usize) -> Result<Turn<'a>, DeserializeError>
    requires within { at < length input.now }
    ensures { TurnsTo input.now at result (state_turn ObjectFieldValue (drop at input.now)) }
{
    if input[at] != b':' {
        return Err(unexpected(input[at], at));
    }
    value_turn(input, past_blanks(input, at + 1), State::ObjectNextKeyOrEnd)
}

/// What comes at the offset by the state.
#[inline(always)]
pub(crate) fn state_turn<'a>(
    input: &'a [u8],
    at: usize,
    state: State,
) -> Result<Turn<'a>, DeserializeError>
    requires within { at ≤ length input.now }
    requires due { state ≡ Initial → at ≢ length input.now }
    ensures { TurnsTo input.now at result (state_turn state (drop at input.now)) }
{
    if at >= input.len() {
        return Err(error_at(DeserializeErrorKind::UnexpectedEos, at));
    }
    match state {
        State::Initial => value_turn(input, at, State::Initial),
        State::ArrayFirstValueOrEnd => first_value_turn(input, at),
        State::ArrayNextValueOrEnd => next_value_turn(input, at),
        State::ObjectFirstKeyOrEnd => first_key_turn(input, at),
        State::ObjectNextKeyOrEnd => next_key_turn(input, at),
        State::ObjectFieldValue => field_value_turn(input, at),
    }
}
