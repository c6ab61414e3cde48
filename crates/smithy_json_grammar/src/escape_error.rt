//! What is wrong with the escapes of a string.

ghost use Rattle.std.specs.Prelude.{◌≡◌};
ghost use Rattle.smithy_json_grammar.specs.declared.escape_error.EscapeError.TheVariants.{NoMemory};

use std::alloc::AllocError;
use thiserror::Error;

/// The first fault of a string's escapes, from the left. `Display` writes the variant's name.
#[derive(Clone, Copy, Debug, PartialEq, Eq, Error)]
pub enum EscapeError {
    /// A lone backslash at the end; fewer than four bytes after `\u`; or fewer than six bytes after the
    /// escape of a high surrogate.
    #[error("UnexpectedEndOfString")]
    UnexpectedEndOfString,
    /// The byte behind a backslash is none that an escape has there. It is told as the character of that number.
    #[error("InvalidEscapeCharacter")]
    InvalidEscapeCharacter(char),
    /// The four bytes after `\u` cut a character.
    #[error("InvalidUtf8")]
    InvalidUtf8,
    /// The four bytes after `\u` aren't hexadecimal digits, or a low surrogate stands first.
    #[error("InvalidUnicodeEscape")]
    InvalidUnicodeEscape,
    /// What follows the escape of a high surrogate doesn't begin with `\u`.
    #[error("ExpectedSurrogatePair")]
    ExpectedSurrogatePair,
    /// The second escape isn't a low surrogate.
    #[error("InvalidSurrogatePair")]
    InvalidSurrogatePair(u16, u16),
    /// Memory ran out.
    #[error("NoMemory")]
    NoMemory,
}

impl From<AllocError> for EscapeError {
    ghost from_gives = { λ _ e. e ≡ NoMemory };

    fn from(_error: AllocError) -> EscapeError {
        EscapeError::NoMemory
    }
}
