//! Taking a string for the bytes that it writes.

ghost use Rattle.std.specs.Prelude.{◌≡◌};
ghost use Rattle.smithy_json_grammar.specs.EscapedText.{escaped_text};
ghost use Rattle.smithy_types.specs.Base64Text.{blob_of};
ghost use Rattle.smithy_json_tokens.specs.Expecting.{Answers};
ghost use Rattle.smithy_json_tokens.specs.ExpectingTexts.{IsStringMeaning, BlobAnswers};

use crate::error::{DeserializeError, DeserializeErrorKind};
use crate::expect::expected;
use crate::expect_text::unescaped_at;
use crate::token::Token;
use crate::token_scan::error_at;
use smithy_json_grammar::EscapedStr;
use smithy_types::base64::DecodeError;
use smithy_types::{Blob, base64};
use std::alloc::Global;

// The bytes of a string in base64, which is at the offset.
fn blob_at<'a>(
    alloc: Global,
    value: EscapedStr<'a>,
    at: usize,
) -> Result<Option<Blob>, DeserializeError>
    ensures { IsStringMeaning blob_of (λ blob. blob) at (escaped_text value.entry) result }
{
    let text = unescaped_at(alloc, value, at)?;
    match base64::decode(alloc, text.as_str()) {
        Ok(bytes) => Ok(Some(Blob::new(bytes))),
        Err(DecodeError::Invalid) => Err(expected("expected base64", Some(at))),
        Err(DecodeError::NoMemory) => Err(error_at(DeserializeErrorKind::NoMemory, at)),
    }
}

/// The bytes that a string has in padded base64, or nothing for a null. Its escapes may stand for
/// symbols of base64.
pub fn expect_blob_or_null<'a>(
    alloc: Global,
    token: Option<Result<Token<'a>, DeserializeError>>,
) -> Result<Option<Blob>, DeserializeError>
    ensures { Answers BlobAnswers token.entry result }
{
    match token {
        None => Err(expected("expected ValueString or ValueNull", None)),
        Some(Err(error)) => Err(error),
        Some(Ok(Token::ValueNull { offset: _ })) => Ok(None),
        Some(Ok(Token::ValueString { offset, value })) => blob_at(alloc, value, offset.0),
        Some(Ok(token)) => Err(expected(
            "expected ValueString or ValueNull",
            Some(token.offset().0),
        )),
    }
}
