//! Error bodies in JSON.
ghost use Rattle.std.specs.Prelude.{◌≡◌, Some, None, IfOk, IfErr};
ghost use Rattle.smithy_json_tokens.specs.TokenRules.{next_answer, FindsContainer};
ghost use Rattle.smithy_json_tokens.specs.TokenRuns.{start};
ghost use Rattle.smithy_json_tokens.specs.TokenView.{token_view};
ghost use Rattle.smithy_json_tokens.specs.IteratorView.{cursor_of};
ghost use Rattle.smithy_error_bodies.specs.Said.{said_by};
ghost use Rattle.smithy_error_bodies.specs.JsonErrors.{JsonSays};
ghost use Rattle.smithy_error_bodies.specs.Private.JsonSteps.{fresh, reads, Tells, begins_object};
ghost use Rattle.smithy_error_bodies.specs.declared.error_body.ErrorBodyFault.TheVariants.{InvalidInput, NoMemory};

use crate::error_body::{ErrorBody, ErrorBodyFault};
use crate::reading::{Reading, Turn};
use smithy_json_tokens::{JsonTokenIterator, Token, json_token_iter};
use std::alloc::Global;

fn begins_object<'a>(token: Token<'a>) -> bool
    ensures { result ≡ begins_object (token_view token.entry) }
{
    matches!(token, Token::StartObject { offset: _ })
}

// What an object says whose first token was taken.
fn read_object<'a>(
    alloc: Global,
    tokens: &mut JsonTokenIterator<'a>,
) -> Result<ErrorBody, ErrorBodyFault>
    ensures ok { IfOk result (λ body. Tells (reads fresh) (cursor_of tokens.old) (Some (said_by body))) }
    ensures err { IfErr result (λ e. e ≡ InvalidInput → Tells (reads fresh) (cursor_of tokens.old) None) }
{
    let mut reading = Reading::new();
    while let Some(item) = tokens.next() {
        let token = item?;
        match reading.take(alloc, token)? {
            Turn::On => {}
            Turn::Done => return Ok(reading.into_body()),
            Turn::Wrong => return Err(ErrorBodyFault::InvalidInput),
        }
    }
    Err(ErrorBodyFault::InvalidInput)
}

/// What a body in JSON says: the code is the last string of its object under `code`, else under `__type`, and the message the last
/// one under `message`, `Message` or `errorMessage`. A body that begins with no object says nothing.
///
/// `InvalidInput` comes where the body begins with what is no token, where its object doesn't end, or holds what is no token, or a
/// value of more than 512 containers one in the other, or under one of these keys a string that has an escape which stands for nothing.
pub fn read_json_error(alloc: Global, body: &[u8]) -> Result<ErrorBody, ErrorBodyFault>
    ensures ok { IfOk result (λ said. JsonSays body.now (Some (said_by said))) }
    ensures err { IfErr result (λ e. e ≡ InvalidInput → JsonSays body.now None) }
    // Memory is wanted only where a container comes first.
    ensures memory { IfErr result (λ e. e ≡ NoMemory → FindsContainer (next_answer (start body.now))) }
{
    let mut tokens = json_token_iter(alloc, body)?;
    let Some(item) = tokens.next() else {
        return Ok(ErrorBody::nothing());
    };
    let token = item?;
    if begins_object(token) {
        return read_object(alloc, &mut tokens);
    }
    Ok(ErrorBody::nothing())
}
