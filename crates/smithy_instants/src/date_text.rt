//! Instants as texts of the civil calendar.

ghost use Rattle.std.specs.Prelude.{◌≡◌, ◌≤◌, ◌<◌, ◌+◌, ◌*ℤ◌, ◌+ℤ◌, ◌-ℤ◌, pos, length, drop, IsTrue, IfSome};
ghost use Rattle.std.specs.Str.{bytes_eq};
ghost use Rattle.smithy_instants.specs.Instant.{nanos_per_second};
ghost use Rattle.smithy_instants.specs.DateText.{fits_layout, begins_with_layout, two_digits, four_digits, clock_seconds, fraction_length, fraction_nanos, utc_offset, begins_date_time, date_time_nanos, is_weekday, month_named, begins_http_date, gmt_offset, http_date_nanos, instant_of, any_offset, is_short_clock, offset_of, is_epoch_text, date_of};
ghost use Rattle.smithy_texts.specs.Numeral.{signed};
ghost use Rattle.std.specs.Result.{result_ok};
ghost use Rattle.smithy_instants.specs.declared.format.Format.TheVariants.{EpochSeconds};

use crate::calendar::day_number;
use crate::epoch::read_epoch;
use crate::{DateTime, Format};
use smithy_texts::decimal_text::point_at;
use smithy_texts::numeral::{are_digits, magnitude, without_minus};

fn is_name(text: &[u8], name: &str) -> bool
    ensures { result ≡ bytes_eq text.now name.now }
{
    text == name.as_bytes()
}

fn fits_layout(layout: u8, byte: u8) -> bool
    ensures { result ≡ fits_layout layout byte }
{
    if layout == b'0' {
        byte.is_ascii_digit()
    } else {
        layout == b'*' || layout == byte
    }
}

// Whether the text begins with what the layout stands for.
fn begins_with_layout(layout: &[u8], text: &[u8]) -> bool
    ensures value { result ≡ begins_with_layout layout.now text.now }
    ensures long { IsTrue result → length layout.now ≤ length text.now }
{
    for (at, byte) in layout.iter().enumerate() {
        if at >= text.len() {
            return false;
        }
        if !fits_layout(*byte, text[at]) {
            return false;
        }
    }
    true
}

fn two_digits(text: &[u8], at: usize) -> u16
    requires { at + 1 < length text.now }
    ensures value { result ≡ two_digits text.now at }
    ensures bound { result < 2500 }
{
    u16::from(text[at].saturating_sub(b'0')) * 10 + u16::from(text[at + 1].saturating_sub(b'0'))
}

fn four_digits(text: &[u8], at: usize) -> u32
    requires { at + 3 < length text.now }
    ensures { result ≡ four_digits text.now at }
{
    u32::from(two_digits(text, at)) * 100 + u32::from(two_digits(text, at + 2))
}

fn clock_seconds(hour: u16, minute: u16, second: u16) -> Option<u32>
    ensures value { result ≡ clock_seconds hour minute second }
    ensures bound { IfSome result (λ s. s < 86_400) }
{
    if hour < 24 && minute < 60 && second < 60 {
        Some(u32::from(hour) * 3600 + u32::from(minute) * 60 + u32::from(second))
    } else {
        None
    }
}

// How many bytes of the front are a point and the digits behind it.
pub(crate) fn fraction_length(text: &[u8]) -> usize
    ensures value { result ≡ fraction_length text.now }
    ensures within { result ≤ length text.now }
{
    if text.is_empty() || text[0] != b'.' {
        return 0;
    }
    let mut end = 1;
    while end < text.len() && text[end].is_ascii_digit() {
        end += 1;
    }
    end
}

// The text from this place on.
pub(crate) fn after(text: &[u8], at: usize) -> &[u8]
    requires { at ≤ length text.now }
    ensures { result.now ≡ drop at text.now }
{
    &text[at..]
}

// The nanoseconds of nothing, or of a point and 1 to 9 digits.
fn fraction_nanos(text: &[u8]) -> Option<u32>
    ensures value { result ≡ fraction_nanos text.now }
    ensures bound { IfSome result (λ n. n < nanos_per_second) }
{
    if text.is_empty() {
        return Some(0);
    }
    let digits = after(text, 1);
    if text[0] != b'.' || !are_digits(digits) || digits.len() > 9 {
        return None;
    }
    let fraction = magnitude(digits)? as u32;
    Some(fraction * 10u32.pow(9 - digits.len() as u32))
}

fn utc_offset(text: &[u8]) -> Option<i32>
    ensures { result ≡ utc_offset text.now }
{
    if is_name(text, "Z") || is_name(text, "z") {
        Some(0)
    } else {
        None
    }
}

fn signed_offset(is_negative: bool, seconds: u32) -> i32
    requires { seconds < 86_400 }
    ensures { result ≡ signed is_negative seconds }
{
    if is_negative {
        -(seconds as i32)
    } else {
        seconds as i32
    }
}

fn any_offset(text: &[u8]) -> Option<i32>
    ensures { result ≡ any_offset text.now }
{
    if text.is_empty() {
        return None;
    }
    let clock = after(text, 1);
    if !((text[0] == b'+' || text[0] == b'-') && is_short_clock(clock)) {
        return utc_offset(text);
    }
    let seconds = clock_seconds(two_digits(clock, 0), two_digits(clock, 3), 0)?;
    Some(signed_offset(text[0] == b'-', seconds))
}

fn is_short_clock(text: &[u8]) -> bool
    ensures value { result ≡ is_short_clock text.now }
    ensures long { IsTrue result → length text.now ≡ 5 }
{
    begins_with_layout(b"00:00".as_slice(), text) && text.len() == 5
}

fn offset_of(others: bool, text: &[u8]) -> Option<i32>
    ensures { result ≡ offset_of others text.now }
{
    if others {
        any_offset(text)
    } else {
        utc_offset(text)
    }
}

fn gmt_offset(text: &[u8]) -> Option<i32>
    ensures { result ≡ gmt_offset text.now }
{
    if is_name(text, " GMT") { Some(0) } else { None }
}

fn is_weekday(name: &[u8]) -> bool
    ensures { result ≡ is_weekday name.now }
{
    is_name(name, "Mon")
        || is_name(name, "Tue")
        || is_name(name, "Wed")
        || is_name(name, "Thu")
        || is_name(name, "Fri")
        || is_name(name, "Sat")
        || is_name(name, "Sun")
}

fn month_named(name: &[u8]) -> u16
    ensures { result ≡ month_named name.now }
{
    if is_name(name, "Jan") {
        return 1;
    }
    if is_name(name, "Feb") {
        return 2;
    }
    if is_name(name, "Mar") {
        return 3;
    }
    if is_name(name, "Apr") {
        return 4;
    }
    if is_name(name, "May") {
        return 5;
    }
    if is_name(name, "Jun") {
        return 6;
    }
    if is_name(name, "Jul") {
        return 7;
    }
    if is_name(name, "Aug") {
        return 8;
    }
    if is_name(name, "Sep") {
        return 9;
    }
    if is_name(name, "Oct") {
        return 10;
    }
    if is_name(name, "Nov") {
        return 11;
    }
    if is_name(name, "Dec") {
        return 12;
    }
    0
}

// The seconds from the epoch on, of a day and the seconds on a clock that is so far ahead.
fn seconds_at(day: i32, seconds: u32, offset: i32) -> i64
    ensures { result ≡ day *ℤ pos 86_400 +ℤ pos seconds -ℤ offset }
{
    i64::from(day) * 86_400 + i64::from(seconds) - i64::from(offset)
}

fn instant_of(
    day: Option<i32>,
    seconds: Option<u32>,
    nanos: Option<u32>,
    offset: Option<i32>,
) -> Option<DateTime>
    requires { IfSome nanos (λ n. n < nanos_per_second) }
    ensures { result ≡ instant_of day seconds nanos offset }
{
    let seconds = seconds_at(day?, seconds?, offset?);
    Some(DateTime::from_secs_and_nanos(seconds, nanos?))
}

fn begins_date_time(text: &[u8]) -> bool
    ensures value { result ≡ begins_date_time text.now }
    ensures long { IsTrue result → 19 ≤ length text.now }
{
    begins_with_layout(b"0000-00-00*00:00:00".as_slice(), text)
        && (text[10] == b'T' || text[10] == b't')
}

fn begins_http_date(text: &[u8]) -> bool
    ensures value { result ≡ begins_http_date text.now }
    ensures long { IsTrue result → 25 ≤ length text.now }
{
    begins_with_layout(b"***, 00 *** 0000 00:00:00".as_slice(), text) && is_weekday(&text[..3])
}

/// The instant of a date-time, with `Z` or with another offset too.
pub(crate) fn read_date_time(others: bool, text: &[u8]) -> Option<DateTime>
    ensures { result ≡ date_time_nanos (offset_of others) text.now }
{
    if !begins_date_time(text) {
        return None;
    }
    let rest = after(text, 19);
    let length = fraction_length(rest);
    let day = day_number(
        four_digits(text, 0),
        two_digits(text, 5),
        two_digits(text, 8),
    );
    let seconds = clock_seconds(
        two_digits(text, 11),
        two_digits(text, 14),
        two_digits(text, 17),
    );
    instant_of(
        day,
        seconds,
        fraction_nanos(&rest[..length]),
        offset_of(others, after(rest, length)),
    )
}

/// The instant of an http-date.
pub(crate) fn read_http_date(text: &[u8]) -> Option<DateTime>
    ensures { result ≡ http_date_nanos text.now }
{
    if !begins_http_date(text) {
        return None;
    }
    let rest = after(text, 25);
    let length = fraction_length(rest);
    let month = month_named(&text[8..11]);
    let day = day_number(four_digits(text, 12), month, two_digits(text, 5));
    let seconds = clock_seconds(
        two_digits(text, 17),
        two_digits(text, 20),
        two_digits(text, 23),
    );
    instant_of(
        day,
        seconds,
        fraction_nanos(&rest[..length]),
        gmt_offset(after(rest, length)),
    )
}

fn is_epoch_text(text: &[u8]) -> bool
    ensures { result ≡ is_epoch_text text.now }
{
    let body = without_minus(text);
    let point = point_at(body);
    are_digits(&body[..point]) && fraction_nanos(after(body, point)).is_some()
}

/// The instant of a text of seconds.
pub(crate) fn read_epoch_text(text: &[u8]) -> Option<DateTime>
    ensures { result ≡ date_of EpochSeconds text.now }
{
    if !is_epoch_text(text) {
        return None;
    }
    match read_epoch(text) {
        Ok(instant) => Some(instant),
        Err(_) => None,
    }
}

/// The text is no instant of the form.
#[derive(Debug, Clone, Copy, PartialEq, Eq, thiserror::Error)]
#[error("DateTimeParseError")]
pub struct DateTimeParseError;

impl DateTime {
    /// The instant of a text of the form.
    pub fn from_str(s: &str, format: Format) -> Result<DateTime, DateTimeParseError>
        ensures { result_ok result ≡ date_of format s.now }
    {
        let text = s.as_bytes();
        let instant = match format {
            Format::DateTime => read_date_time(false, text),
            Format::DateTimeWithOffset => read_date_time(true, text),
            Format::HttpDate => read_http_date(text),
            Format::EpochSeconds => read_epoch_text(text),
        };
        instant.ok_or(DateTimeParseError)
    }
}
