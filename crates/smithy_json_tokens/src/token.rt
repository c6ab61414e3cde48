//! Tokens of a JSON text.

ghost use Rattle.std.specs.Prelude.{◌≡◌};
ghost use Rattle.smithy_json_tokens.specs.Faults.{error_at};
ghost use Rattle.smithy_json_tokens.specs.TokenView.{token_offset};
ghost use Rattle.smithy_json_tokens.specs.declared.error.DeserializeErrorKind.TheVariants.{Custom};

use crate::error::DeserializeError;
use smithy_json_grammar::EscapedStr;
use smithy_types::Number;
use std::borrow::CowStr;

/// A place in an input, in bytes.
#[derive(Clone, Copy, Debug, PartialEq, Eq)]
pub struct Offset(pub usize);

impl Offset {
    /// A fault that the caller states, at this offset.
    pub fn error(&self, msg: CowStr<'static>) -> DeserializeError
        ensures { result ≡ error_at (Custom msg.entry) self.now.0 }
    {
        DeserializeError::custom(msg).with_offset(self.0)
    }
}

/// A part of a JSON text, with the offset of its first byte.
#[derive(Clone, Copy, Debug, PartialEq)]
pub enum Token<'a> {
    /// The bracket that begins an array.
    StartArray {
        offset: Offset,
    },
    /// The bracket that ends one.
    EndArray {
        offset: Offset,
    },
    /// The brace that begins an object.
    StartObject {
        offset: Offset,
    },
    /// The brace that ends one.
    EndObject {
        offset: Offset,
    },
    /// `null`.
    ValueNull {
        offset: Offset,
    },
    /// The name of a member, as it stands between its quotation marks.
    ObjectKey {
        offset: Offset,
        key: EscapedStr<'a>,
    },
    /// `true` or `false`.
    ValueBool {
        offset: Offset,
        value: bool,
    },
    /// A whole number of 64 bits.
    ValueNumber {
        offset: Offset,
        value: Number,
    },
    /// A string, as it stands between its quotation marks.
    ValueString {
        offset: Offset,
        value: EscapedStr<'a>,
    },
    /// A number that `Number` can't hold, by its text.
    ValueUncarried {
        offset: Offset,
        text: &'a str,
    },
}

impl<'a> Token<'a> {
    /// The offset of the token's first byte.
    pub fn offset(&self) -> Offset
        ensures { result.0 ≡ token_offset self.now }
    {
        match self {
            Token::StartArray { offset } => *offset,
            Token::EndArray { offset } => *offset,
            Token::StartObject { offset } => *offset,
            Token::EndObject { offset } => *offset,
            Token::ValueNull { offset } => *offset,
            Token::ObjectKey { offset, key: _ } => *offset,
            Token::ValueBool { offset, value: _ } => *offset,
            Token::ValueNumber { offset, value: _ } => *offset,
            Token::ValueString { offset, value: _ } => *offset,
            Token::ValueUncarried { offset, text: _ } => *offset,
        }
    }

    /// A fault that the caller states, at the token's offset.
    pub fn error(&self, msg: CowStr<'static>) -> DeserializeError
        ensures { result ≡ error_at (Custom msg.entry) (token_offset self.now) }
    {
        self.offset().error(msg)
    }
}
