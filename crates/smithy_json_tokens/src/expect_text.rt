//! Taking a string or a number for what its text means.

ghost use Rattle.std.specs.Prelude.{◌≡◌, Some};
ghost use Rattle.smithy_json_grammar.specs.EscapedText.{escaped_text};
ghost use Rattle.smithy_types.specs.Number.{whole_number};
ghost use Rattle.smithy_json_tokens.specs.Faults.{IsCustomKind};
ghost use Rattle.smithy_json_tokens.specs.Expecting.{Answers};
ghost use Rattle.smithy_json_tokens.specs.ExpectingTexts.{IsMeaning, IsDateMeaning, instant_of_seconds, EpochAnswers, DateAnswers, InstantAnswers};
ghost use Rattle.smithy_json_tokens.specs.Private.Texts.{IsUnescapedAt, IsEpochInstant};

use crate::error::DeserializeError;
use crate::expect::expected;
use crate::token::Token;
use smithy_json_grammar::EscapedStr;
use smithy_json_grammar::number_text::scan_number;
use smithy_types::{DateTime, Format, Number, read_epoch};
use std::alloc::Global;
use std::borrow::CowStr;

// The text that the raw text stands for which is at the offset.
pub(crate) fn unescaped_at<'a>(
    alloc: Global,
    value: EscapedStr<'a>,
    at: usize,
) -> Result<CowStr<'a, Global>, DeserializeError>
    ensures { IsUnescapedAt (escaped_text value.entry) at result }
{
    match value.to_unescaped(alloc) {
        Ok(text) => Ok(text),
        Err(fault) => Err(DeserializeError::from(fault).with_offset(at)),
    }
}

fn no_instant(at: usize) -> DeserializeError
    ensures offset { result.offset ≡ Some at }
    ensures kind { IsCustomKind result.kind }
{
    expected("expected a text of the timestamp format", Some(at))
}

// The instant of a string of the form, which is at the offset.
fn date_at<'a>(
    alloc: Global,
    value: EscapedStr<'a>,
    format: Format,
    at: usize,
) -> Result<Option<DateTime>, DeserializeError>
    ensures { IsDateMeaning format at (escaped_text value.entry) result }
{
    let text = unescaped_at(alloc, value, at)?;
    match DateTime::from_str(text.as_str(), format) {
        Ok(instant) => Ok(Some(instant)),
        Err(_) => Err(no_instant(at)),
    }
}

// The instant of so many seconds.
fn whole_instant(seconds: Number) -> Option<DateTime>
    ensures { result ≡ instant_of_seconds (whole_number seconds) }
{
    match i64::try_from(seconds) {
        Ok(seconds) => Some(DateTime::from_secs(seconds)),
        Err(_) => None,
    }
}

// The instant of a JSON number of seconds.
fn epoch_instant(text: &str) -> Option<DateTime>
    ensures { IsEpochInstant text.now result }
{
    let number = scan_number(text.as_bytes(), 0)?;
    if number.end != text.len() {
        return None;
    }
    match read_epoch(text.as_bytes()) {
        Ok(instant) => Some(instant),
        Err(_) => None,
    }
}

fn at_offset(instant: Option<DateTime>, at: usize) -> Result<Option<DateTime>, DeserializeError>
    ensures { IsMeaning (λ i. i) at instant result }
{
    match instant {
        Some(instant) => Ok(Some(instant)),
        None => Err(no_instant(at)),
    }
}

fn expect_epoch<'a>(
    token: Option<Result<Token<'a>, DeserializeError>>,
) -> Result<Option<DateTime>, DeserializeError>
    ensures { Answers EpochAnswers token.entry result }
{
    match token {
        None => Err(expected("expected a number or ValueNull", None)),
        Some(Err(error)) => Err(error),
        Some(Ok(Token::ValueNull { offset: _ })) => Ok(None),
        Some(Ok(Token::ValueNumber { offset, value })) => {
            at_offset(whole_instant(value), offset.0)
        }
        Some(Ok(Token::ValueUncarried { offset, text })) => {
            at_offset(epoch_instant(text), offset.0)
        }
        Some(Ok(token)) => Err(expected("expected a number or ValueNull", Some(token.offset().0))),
    }
}

fn expect_date<'a>(
    alloc: Global,
    token: Option<Result<Token<'a>, DeserializeError>>,
    format: Format,
) -> Result<Option<DateTime>, DeserializeError>
    ensures { Answers (DateAnswers format) token.entry result }
{
    match token {
        None => Err(expected("expected ValueString or ValueNull", None)),
        Some(Err(error)) => Err(error),
        Some(Ok(Token::ValueNull { offset: _ })) => Ok(None),
        Some(Ok(Token::ValueString { offset, value })) => date_at(alloc, value, format, offset.0),
        Some(Ok(token)) => Err(expected(
            "expected ValueString or ValueNull",
            Some(token.offset().0),
        )),
    }
}

/// An instant, or nothing for a null.
///
/// For `EpochSeconds` a number is taken, of any size and with a fraction or an exponent, whose
/// nanoseconds are whole; for the other forms a string.
pub fn expect_timestamp_or_null<'a>(
    alloc: Global,
    token: Option<Result<Token<'a>, DeserializeError>>,
    format: Format,
) -> Result<Option<DateTime>, DeserializeError>
    ensures { Answers (InstantAnswers format) token.entry result }
{
    match format {
        Format::EpochSeconds => expect_epoch(token),
        Format::DateTime => expect_date(alloc, token, Format::DateTime),
        Format::DateTimeWithOffset => expect_date(alloc, token, Format::DateTimeWithOffset),
        Format::HttpDate => expect_date(alloc, token, Format::HttpDate),
    }
}
