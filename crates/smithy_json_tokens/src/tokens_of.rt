//! The tokens of an input.

ghost use Rattle.std.specs.Prelude.{◌≡◌, IfOk, IsOk};
ghost use Rattle.smithy_json_grammar.specs.Grammar.{IsJsonText};
ghost use Rattle.smithy_json_grammar.specs.Tree.{Json};
ghost use Rattle.smithy_json_tokens.specs.Tokens.{tokens};
ghost use Rattle.smithy_json_tokens.specs.TokenRuns.{start, GivesOnly};
ghost use Rattle.smithy_json_tokens.specs.TokenSteps.{SurelyGives};
ghost use Rattle.smithy_json_tokens.specs.TokenView.{token_view};
ghost use Rattle.smithy_json_tokens.specs.IteratorView.{input_of, cursor_of, GivesNext};

use crate::token_iter::JsonTokenIterator;
use std::alloc::{AllocError, Global};

/// The tokens of an input, from its first byte on. It takes no memory, and is always `Ok`.
pub fn json_token_iter<'a>(
    alloc: Global,
    input: &'a [u8],
) -> Result<JsonTokenIterator<'a>, AllocError>
    ensures ok { IsOk result }
    ensures input { IfOk result (λ it. input_of it ≡ input.now) }
    ensures cursor { IfOk result (λ it. cursor_of it ≡ start input.now) }
    // A text of a tree gives the tree's tokens and then None.
    ensures tokens { IfOk result (λ it. (tree : Json) → IsJsonText tree input.now → GivesOnly (cursor_of it) (tokens tree)) }
    // Whatever the iterator's calls answer for the text of a tree, they give the tree's tokens in turn, or the want of memory.
    ensures gives { IfOk result (λ it. (tree : Json) → IsJsonText tree input.now → SurelyGives token_view GivesNext (tokens tree) it) }
{
    Ok(JsonTokenIterator::new(alloc, input))
}
