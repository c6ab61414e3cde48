//! Why tokens can't be read.

ghost use Rattle.std.specs.Prelude.{◌≡◌, None, Some};
ghost use Rattle.smithy_json_tokens.specs.declared.error.DeserializeErrorKind.TheVariants.{Custom, InvalidNumber};

use smithy_json_grammar::EscapeError;
use smithy_types::TryFromNumberError;
use std::borrow::CowStr;
use std::fmt;
use thiserror::Error;

/// What is wrong.
#[derive(Debug, Drop, Error)]
pub enum DeserializeErrorKind {
    /// A fault that the caller states.
    Custom(CowStr<'static>),
    /// Other bytes stand where a literal was begun.
    ExpectedLiteral,
    /// A backslash and a character that make no escape. No call of this crate answers it.
    InvalidEscape(char),
    /// A run of a number's bytes that is no number.
    InvalidNumber,
    /// A string that isn't UTF-8.
    InvalidUtf8,
    /// An escape that stands for nothing.
    UnescapeFailed(EscapeError),
    /// A byte below 0x20 in a string.
    UnexpectedControlCharacter(u8),
    /// The input ends where more is due.
    UnexpectedEos,
    /// A byte stands where none like it may come. It is told as the character of that number.
    UnexpectedToken(char),
    /// Memory ran out.
    NoMemory,
}

impl DeserializeErrorKind {
    ghost use Rattle.smithy_json_tokens.specs.Faults.{kind_name};

    fn name(&self) -> &'static str
        ensures { result.now ≡ kind_name self.now }
    {
        match self {
            DeserializeErrorKind::Custom(_) => "Custom",
            DeserializeErrorKind::ExpectedLiteral => "ExpectedLiteral",
            DeserializeErrorKind::InvalidEscape(_) => "InvalidEscape",
            DeserializeErrorKind::InvalidNumber => "InvalidNumber",
            DeserializeErrorKind::InvalidUtf8 => "InvalidUtf8",
            DeserializeErrorKind::UnescapeFailed(_) => "UnescapeFailed",
            DeserializeErrorKind::UnexpectedControlCharacter(_) => "UnexpectedControlCharacter",
            DeserializeErrorKind::UnexpectedEos => "UnexpectedEos",
            DeserializeErrorKind::UnexpectedToken(_) => "UnexpectedToken",
            DeserializeErrorKind::NoMemory => "NoMemory",
        }
    }
}

/// The name of the variant alone.
impl fmt::Display for DeserializeErrorKind {
    ghost use Rattle.smithy_json_tokens.specs.Faults.{kind_name};

    ghost output = { λ kind. Some (kind_name kind) };

    fn fmt<W: fmt::Write>(&self, f: &mut fmt::Formatter<W>) -> fmt::Result {
        f.write_str(self.name())
    }
}

/// What is wrong, and the offset where it stands, where that is known.
#[derive(Debug, Drop, Error)]
pub struct DeserializeError {
    /// What is wrong.
    pub kind: DeserializeErrorKind,
    /// The offset of the fault in the input, in bytes.
    pub offset: Option<usize>,
}

/// The name of the kind's variant alone.
impl fmt::Display for DeserializeError {
    ghost use Rattle.smithy_json_tokens.specs.Faults.{kind_name};

    ghost output = { λ e. Some (kind_name e.kind) };

    fn fmt<W: fmt::Write>(&self, f: &mut fmt::Formatter<W>) -> fmt::Result {
        f.write_str(self.kind.name())
    }
}

impl DeserializeError {
    /// A fault that the caller states, without an offset.
    pub fn custom(message: CowStr<'static>) -> DeserializeError
        ensures { result ≡ record { kind = Custom message.entry; offset = None } }
    {
        DeserializeError {
            kind: DeserializeErrorKind::Custom(message),
            offset: None,
        }
    }

    /// This error, with this offset in place of the one that it had.
    pub fn with_offset(self, offset: usize) -> DeserializeError
        ensures { result ≡ record { kind = self.kind; offset = Some offset } }
    {
        DeserializeError {
            kind: self.kind,
            offset: Some(offset),
        }
    }
}

impl From<EscapeError> for DeserializeError {
    ghost use Rattle.smithy_json_tokens.specs.Faults.{escape_kind};

    ghost from_gives = { λ fault e. e ≡ record { kind = escape_kind fault; offset = None } };

    fn from(fault: EscapeError) -> DeserializeError {
        let kind = if fault == EscapeError::NoMemory {
            DeserializeErrorKind::NoMemory
        } else {
            DeserializeErrorKind::UnescapeFailed(fault)
        };
        DeserializeError { kind, offset: None }
    }
}

impl From<TryFromNumberError> for DeserializeError {
    ghost from_gives = { λ _ e. e ≡ record { kind = InvalidNumber; offset = None } };

    fn from(_error: TryFromNumberError) -> DeserializeError {
        DeserializeError {
            kind: DeserializeErrorKind::InvalidNumber,
            offset: None,
        }
    }
}
