//! Passing tokens.

ghost use Rattle.std.specs.Prelude.{◌≡◌, ◌≤◌, suc, ◌==◌, List, if◌then◌else◌};
ghost use Rattle.std.specs.Iterator.{IsFinite};
ghost use Rattle.smithy_json_tokens.specs.TokenView.{token_view};
ghost use Rattle.smithy_json_tokens.specs.Skipping.{skip_token, skip_end, skip_scalar, skip_key, Skips};
ghost use Rattle.smithy_json_tokens.specs.declared.skip.Skip.TheVariants.{On, Wrong};

use crate::error::DeserializeError;
use crate::expect::expected;
use crate::is_token::IsToken;
use crate::token::Token;

/// How many containers that began in a call may be open.
const MAX_SKIP_DEPTH: usize = 512;

// What a token is for a value that is passed.
#[derive(Clone, Copy)]
enum Skip {
    // The value goes on, with so many containers open.
    On(usize),
    // The value ends.
    Done,
    // The token can't come there.
    Wrong,
}

fn skip_end(depth: usize) -> Skip
    ensures { result ≡ skip_end depth }
{
    match depth {
        0 => Skip::Wrong,
        1 => Skip::Done,
        _ => Skip::On(depth - 1),
    }
}

fn skip_start(limit: usize, depth: usize) -> Skip
    requires { depth ≤ limit }
    ensures { result ≡ (if depth == limit then Wrong else On (suc depth)) }
{
    if depth == limit {
        Skip::Wrong
    } else {
        Skip::On(depth + 1)
    }
}

fn skip_scalar(depth: usize) -> Skip
    ensures { result ≡ skip_scalar depth }
{
    if depth == 0 {
        Skip::Done
    } else {
        Skip::On(depth)
    }
}

fn skip_key(depth: usize) -> Skip
    ensures { result ≡ skip_key depth }
{
    if depth == 0 {
        Skip::Wrong
    } else {
        Skip::On(depth)
    }
}

// What a token is for a value that is passed, where so many containers are open and may be.
fn skip_token<'a>(token: Token<'a>, limit: usize, depth: usize) -> Skip
    requires { depth ≤ limit }
    ensures { result ≡ skip_token limit depth (token_view token.entry) }
{
    match token {
        Token::StartArray { offset: _ } => skip_start(limit, depth),
        Token::StartObject { offset: _ } => skip_start(limit, depth),
        Token::EndArray { offset: _ } => skip_end(depth),
        Token::EndObject { offset: _ } => skip_end(depth),
        Token::ValueNull { offset: _ } => skip_scalar(depth),
        Token::ObjectKey { offset: _, key: _ } => skip_key(depth),
        Token::ValueBool {
            offset: _,
            value: _,
        } => skip_scalar(depth),
        Token::ValueNumber {
            offset: _,
            value: _,
        } => skip_scalar(depth),
        Token::ValueString {
            offset: _,
            value: _,
        } => skip_scalar(depth),
        Token::ValueUncarried { offset: _, text: _ } => skip_scalar(depth),
    }
}

fn skip_from<T: IsToken, I: Iterator<Item = Result<T, DeserializeError>>>(
    tokens: &mut I,
    limit: usize,
    depth: usize,
) -> Result<(), DeserializeError>
    requires can { I.can_next tokens.old }
    requires ends { IsFinite (I.remaining tokens.old) }
    requires within { depth ≤ limit }
    ensures { (passed : List T) × Skips T.view T.place I.next_gives limit passed depth tokens.old result tokens.new }
{
    let mut depth = depth;
    while let Some(item) = tokens.next() {
        let token = item?;
        match skip_token(token.as_token(), limit, depth) {
            Skip::On(more) => depth = more,
            Skip::Done => return Ok(()),
            Skip::Wrong => {
                let at = token.as_token().offset().0;
                return Err(expected("expected value", Some(at)));
            }
        }
    }
    Err(expected("expected value", None))
}

/// Passes one value. The caller's condition is that the iterator ends.
///
/// `Custom` comes where the first token begins no value, where the tokens end too early, and where 513
/// containers would be open. Brackets and braces aren't told apart.
pub fn skip_value<T: IsToken, I: Iterator<Item = Result<T, DeserializeError>>>(
    tokens: &mut I,
) -> Result<(), DeserializeError>
    requires can { I.can_next tokens.old }
    requires ends { IsFinite (I.remaining tokens.old) }
    ensures { (passed : List T) × Skips T.view T.place I.next_gives 512 passed 0 tokens.old result tokens.new }
{
    skip_from(tokens, MAX_SKIP_DEPTH, 0)
}

/// Passes all up to and with the end of the container that was open before. The caller's condition is that
/// the iterator ends. At most 512 containers that begin in the call may be open.
pub fn skip_to_end<T: IsToken, I: Iterator<Item = Result<T, DeserializeError>>>(
    tokens: &mut I,
) -> Result<(), DeserializeError>
    requires can { I.can_next tokens.old }
    requires ends { IsFinite (I.remaining tokens.old) }
    ensures { (passed : List T) × Skips T.view T.place I.next_gives 513 passed 1 tokens.old result tokens.new }
{
    skip_from(tokens, MAX_SKIP_DEPTH + 1, 1)
}
