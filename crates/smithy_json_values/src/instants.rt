//! Instants, as the settings and the form of their place have them read: a number of seconds, or a date as a string.

ghost use Rattle.std.specs.Prelude.{◌≡◌, ◌≤◌, length, IfOk, MatchOption};
ghost use Rattle.smithy_instants.specs.Epoch.{epoch_nanos};
ghost use Rattle.smithy_declarations.specs.Value.{instant, scalar_value};
ghost use Rattle.smithy_json_values.specs.Codec.{held_settings};
ghost use Rattle.smithy_json_values.specs.LexicalGrammar.{grammar_of};
ghost use Rattle.smithy_json_values.specs.Scalar.{format_at, takes_seconds, lenient_form, string_form, seconds_read_as};
ghost use Rattle.smithy_json_values.specs.Private.InstantAtPlace.{NoSecondsLie, NoDateLies};
ghost use Rattle.smithy_json_values.specs.Private.ScalarAtPlace.{InstantLies, UncarriedLies, NoInstantLies};
ghost use Rattle.smithy_wire.specs.Rules.{means, no_meaning, uncarried};
ghost use Rattle.smithy_wire.specs.Finding.{MatchFound};

use crate::number_runs::{NumberSort, number_of};
use crate::texts::text_of;
use crate::values::string_at;
use smithy_json_settings::Settings;
use smithy_schema::TimestampFormat;
use smithy_types::{DateTime, EpochError, Format, read_epoch};
use smithy_wire::Found;
use std::alloc::{AllocError, Global};

// The form of instants at a place with this form or none.
fn format_at(settings: &Settings, time: Option<TimestampFormat>) -> Format
    ensures { result ≡ format_at (held_settings settings.now) time }
{
    match time {
        Some(form) => form.format(),
        None => settings.default_timestamp_format,
    }
}

/// Whether a number may stand for an instant at a place with this form or none.
pub fn takes_seconds(settings: &Settings, time: Option<TimestampFormat>) -> bool
    ensures { result ≡ takes_seconds (held_settings settings.now) time }
{
    if !settings.strict_timestamp_formats {
        return true;
    }
    match format_at(settings, time) {
        Format::EpochSeconds => true,
        Format::DateTime | Format::DateTimeWithOffset | Format::HttpDate => false,
    }
}

// The form of strings where forms aren't strict.
fn lenient_form(default: Format, time: Option<TimestampFormat>) -> Format
    ensures { result ≡ lenient_form default time }
{
    match time {
        Some(TimestampFormat::DateTime) => Format::DateTimeWithOffset,
        Some(TimestampFormat::HttpDate) => Format::HttpDate,
        Some(TimestampFormat::EpochSeconds) => Format::EpochSeconds,
        None => match default {
            Format::HttpDate => Format::HttpDate,
            Format::DateTime | Format::DateTimeWithOffset | Format::EpochSeconds => {
                Format::DateTimeWithOffset
            }
        },
    }
}

/// The form of a string that stands for an instant at a place with this form or none, where one may.
pub fn string_form(settings: &Settings, time: Option<TimestampFormat>) -> Option<Format>
    ensures { result ≡ string_form (held_settings settings.now) time }
{
    if !settings.strict_timestamp_formats {
        return Some(lenient_form(settings.default_timestamp_format, time));
    }
    match format_at(settings, time) {
        Format::EpochSeconds => None,
        form => Some(form),
    }
}

// The instant of a number of seconds.
fn instant_of(seconds: &str) -> Found<DateTime>
    ensures { MatchFound result (λ d. seconds_read_as (epoch_nanos seconds.now) ≡ means (scalar_value (instant d))) (seconds_read_as (epoch_nanos seconds.now) ≡ no_meaning) (seconds_read_as (epoch_nanos seconds.now) ≡ uncarried) }
{
    match read_epoch(seconds.as_bytes()) {
        Ok(instant) => Found::Value(instant),
        Err(EpochError::NotWhole) => Found::Beyond,
        Err(EpochError::OutOfRange) => Found::Nothing,
    }
}

// The instant of the number of seconds that comes first behind blanks, with its end, where a number may stand for one.
fn seconds_at(
    input: &[u8],
    at: usize,
    time: Option<TimestampFormat>,
    settings: &Settings,
) -> Found<(DateTime, usize)>
    requires { at ≤ length input.now }
    ensures { MatchFound result (λ r. InstantLies (grammar_of (held_settings settings.now)) (held_settings settings.now) time input.now at r.0 r.1) (NoSecondsLie (grammar_of (held_settings settings.now)) (held_settings settings.now) time input.now at) (UncarriedLies (grammar_of (held_settings settings.now)) (held_settings settings.now) time input.now at) }
{
    if !takes_seconds(settings, time) {
        return Found::Nothing;
    }
    let Some((seconds, end)) = number_of(NumberSort::Decimal, input, at, settings) else {
        return Found::Nothing;
    };
    match instant_of(seconds) {
        Found::Value(instant) => Found::Value((instant, end)),
        Found::Nothing => Found::Nothing,
        Found::Beyond => Found::Beyond,
    }
}

// The instant of the string that comes first behind blanks and is a date of the form that strings have at the place, with its end.
fn date_at(
    alloc: Global,
    input: &[u8],
    at: usize,
    time: Option<TimestampFormat>,
    settings: &Settings,
) -> Result<Option<(DateTime, usize)>, AllocError>
    requires { at ≤ length input.now }
    ensures { IfOk result (λ o. MatchOption o (NoDateLies (grammar_of (held_settings settings.now)) (held_settings settings.now) time input.now at) (λ r. InstantLies (grammar_of (held_settings settings.now)) (held_settings settings.now) time input.now at r.0 r.1)) }
{
    let Some(form) = string_form(settings, time) else {
        return Ok(None);
    };
    let Some(string) = string_at(input, at, settings) else {
        return Ok(None);
    };
    let Some(text) = text_of(alloc, string.text, string.has_escape)? else {
        return Ok(None);
    };
    match DateTime::from_str(text.as_str(), form) {
        Ok(instant) => Ok(Some((instant, string.closing + 1))),
        Err(_) => Ok(None),
    }
}

/// The instant that comes first behind blanks, at a place with this form or none, with its end.
pub fn instant_at(
    alloc: Global,
    input: &[u8],
    at: usize,
    time: Option<TimestampFormat>,
    settings: &Settings,
) -> Result<Found<(DateTime, usize)>, AllocError>
    requires { at ≤ length input.now }
    ensures { IfOk result (λ f. MatchFound f (λ r. InstantLies (grammar_of (held_settings settings.now)) (held_settings settings.now) time input.now at r.0 r.1) (NoInstantLies (grammar_of (held_settings settings.now)) (held_settings settings.now) time input.now at) (UncarriedLies (grammar_of (held_settings settings.now)) (held_settings settings.now) time input.now at)) }
{
    match seconds_at(input, at, time, settings) {
        Found::Value(found) => Ok(Found::Value(found)),
        Found::Beyond => Ok(Found::Beyond),
        Found::Nothing => match date_at(alloc, input, at, time, settings)? {
            Some(found) => Ok(Found::Value(found)),
            None => Ok(Found::Nothing),
        },
    }
}
