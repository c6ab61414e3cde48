//! What the calls over iterators take for a token.

ghost use Rattle.std.specs.Prelude.{◌≡◌, ℕ};
ghost use Rattle.smithy_json_tokens.specs.Tokens.{JsonToken};
ghost use Rattle.smithy_json_tokens.specs.TokenView.{token_view, token_offset};

use crate::token::Token;

/// A token, for the calls that take tokens from an iterator.
pub trait IsToken: Copy + Drop {
    /// The token without its offset.
    ghost view: { Self → JsonToken };

    /// The offset of the token.
    ghost place: { Self → ℕ };

    /// The token itself.
    fn as_token(&self) -> Token<'_>
        ensures view { token_view result ≡ view self.now }
        ensures place { token_offset result ≡ place self.now };
}

impl<'a> IsToken for Token<'a> {
    ghost view = { λ t. token_view t };

    ghost place = { λ t. token_offset t };

    fn as_token(&self) -> Token<'_> {
        *self
    }
}
