//! How many elements or members a container has, counted by its tokens.

ghost use Rattle.std.specs.Prelude.{◌≡◌, None, IfOk, OnErr};
ghost use Rattle.smithy_json_tokens.specs.TokenRules.{next_answer, FindsContainer};
ghost use Rattle.smithy_json_tokens.specs.TokenRuns.{start};
ghost use Rattle.smithy_json_tokens.specs.TokenView.{token_view};
ghost use Rattle.smithy_json_tokens.specs.IteratorView.{cursor_of};
ghost use Rattle.smithy_json_tokens.specs.ContainerSize.{part_of, values_inside, Tells, HasSize};
ghost use Rattle.smithy_json_tokens.specs.declared.error.DeserializeErrorKind.TheVariants.{NoMemory};

use crate::error::{DeserializeError, DeserializeErrorKind};
use crate::token::Token;
use crate::token_iter::JsonTokenIterator;
use std::alloc::{AllocError, Global};

// What a token is for the container whose values are counted.
#[derive(Clone, Copy)]
enum Part {
    // It begins a container.
    Begins,
    // It ends one.
    Ends,
    // It names a member.
    Names,
    // It is a value without parts.
    Stands,
}

fn part_of<'a>(token: Token<'a>) -> Part
    ensures { result ≡ part_of (token_view token.entry) }
{
    match token {
        Token::StartArray { offset: _ } => Part::Begins,
        Token::StartObject { offset: _ } => Part::Begins,
        Token::EndArray { offset: _ } => Part::Ends,
        Token::EndObject { offset: _ } => Part::Ends,
        Token::ValueNull { offset: _ } => Part::Stands,
        Token::ObjectKey { offset: _, key: _ } => Part::Names,
        Token::ValueBool {
            offset: _,
            value: _,
        } => Part::Stands,
        Token::ValueNumber {
            offset: _,
            value: _,
        } => Part::Stands,
        Token::ValueString {
            offset: _,
            value: _,
        } => Part::Stands,
        Token::ValueUncarried { offset: _, text: _ } => Part::Stands,
    }
}

// No number of values, where an error comes in place of a token.
fn uncounted(error: DeserializeError) -> Result<Option<usize>, AllocError>
    ensures none { IfOk result (λ size. (size ≡ None) × (error.kind ≡ NoMemory → ⊥)) }
    ensures memory { OnErr result (error.kind ≡ NoMemory) }
{
    if matches!(error.kind, DeserializeErrorKind::NoMemory) {
        return Err(AllocError);
    }
    Ok(None)
}

// How many values begin in the container whose first token was taken.
fn values_inside<'a>(tokens: &mut JsonTokenIterator<'a>) -> Result<Option<usize>, AllocError>
    ensures { IfOk result (Tells (values_inside 0) (cursor_of tokens.old)) }
{
    let mut within: usize = 0;
    let mut count: usize = 0;
    while let Some(item) = tokens.next() {
        let token = match item {
            Ok(token) => token,
            Err(error) => return uncounted(error),
        };
        match part_of(token) {
            Part::Begins => {
                if within == 0 {
                    count += 1;
                    within = 1;
                } else {
                    within += 1;
                }
            }
            Part::Ends => {
                if within == 0 {
                    return Ok(Some(count));
                }
                within -= 1;
            }
            Part::Names => {}
            Part::Stands => {
                if within == 0 {
                    count += 1;
                }
            }
        }
    }
    Ok(None)
}

/// The number of elements or members of the container that begins the input, behind blanks. There is none where no container
/// begins there, or the token that ends it isn't reached. It may be followed by anything. Memory is wanted for a container alone.
pub fn container_size(alloc: Global, input: &[u8]) -> Result<Option<usize>, AllocError>
    ensures size { IfOk result (HasSize input.now) }
    ensures memory { OnErr result (FindsContainer (next_answer (start input.now))) }
{
    let mut tokens = JsonTokenIterator::new(alloc, input);
    match tokens.next() {
        Some(Ok(token)) => match part_of(token) {
            Part::Begins => values_inside(&mut tokens),
            Part::Ends | Part::Names | Part::Stands => Ok(None),
        },
        Some(Err(error)) => uncounted(error),
        None => Ok(None),
    }
}
