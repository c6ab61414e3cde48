//! How instants are written.

ghost use Rattle.std.specs.Prelude.{◌≡◌, ◌<◌, ◌≤◌, ◌^◌, ◌++◌, ◌-◌, [], ◌∷◌, neg_ℤ, pos, ◌≤ℤ◌, true, slice_index_or, OnOk, Some, IfOk, IfErr, IsOk, is_some, ◌%◌, ◌==◌, ◌&&◌};
ghost use Rattle.std.specs.String.{string_bytes};
ghost use Rattle.smithy_instants.specs.WrittenDate.{padded_digits, fraction_digits, fraction_text, clock_text, day_text, date_time_text, http_date_text, epoch_text, day_of, second_of_day, weekday_names, month_names, date_text, written_date_time, written_http_date, holds};
ghost use Rattle.smithy_instants.specs.Answers.{WritesText};
ghost use Rattle.smithy_instants.specs.Private.Dates.{civil_of, HasDigits};
ghost use Rattle.smithy_instants.specs.declared.written_date.DateTimeFormatError.TheVariants.{NoMemory};
ghost use Rattle.smithy_instants.specs.declared.format.Format.TheVariants.{EpochSeconds};
ghost use Rattle.smithy_instants.specs.Instant.{nanos_per_second, subsecond_of, is_instant};
ghost use Rattle.smithy_instants.specs.Calendar.{civil_date};
ghost use Rattle.smithy_instants.specs.DateText.{date_of};
ghost use Rattle.std.specs.Int.{IsInRange};
ghost use Rattle.jiff_core.specs.Calendar.{weekday_number};

use crate::calendar::{YearMonthDay, civil_date};
use crate::{DateTime, Format};
use itoa::Buffer;
use std::alloc::{AllocError, Global};

// Adds one ASCII character.
fn push_byte(text: &mut String, byte: u8) -> Result<(), AllocError>
    requires { byte < 128 }
    ensures { OnOk result (string_bytes text.new ≡ string_bytes text.old ++ byte ∷ []) }
{
    text.push(byte as char)
}

fn push_two(text: &mut String, n: u32) -> Result<(), AllocError>
    requires { n < 100 }
    ensures { OnOk result (string_bytes text.new ≡ string_bytes text.old ++ padded_digits 2 n) }
{
    push_byte(text, b'0' + (n / 10) as u8)?;
    push_byte(text, b'0' + (n % 10) as u8)
}

fn push_four(text: &mut String, n: u32) -> Result<(), AllocError>
    requires { n < 10_000 }
    ensures { OnOk result (string_bytes text.new ≡ string_bytes text.old ++ padded_digits 4 n) }
{
    push_two(text, n / 100)?;
    push_two(text, n % 100)
}

// Adds the digits of a fraction, until nothing is left.
fn push_fraction_digits(text: &mut String, width: u32, n: u32) -> Result<(), AllocError>
    requires width { width ≤ 9 }
    requires small { n < 10 ^ width }
    ensures { OnOk result (string_bytes text.new ≡ string_bytes text.old ++ fraction_digits width n) }
{
    let mut width = width;
    let mut rest = n;
    while rest > 0 {
        width -= 1;
        let unit = 10u32.pow(width);
        push_byte(text, b'0' + (rest / unit) as u8)?;
        rest %= unit;
    }
    Ok(())
}

#[tactic(auto, unfolding(crate::specs::WrittenDate::fraction_text))]
fn push_fraction(text: &mut String, width: u32, n: u32) -> Result<(), AllocError>
    requires width { width ≤ 9 }
    requires small { n < 10 ^ width }
    ensures { OnOk result (string_bytes text.new ≡ string_bytes text.old ++ fraction_text width n) }
{
    if n == 0 {
        return Ok(());
    }
    push_byte(text, b'.')?;
    push_fraction_digits(text, width, n)
}

#[tactic(auto, unfolding(crate::specs::WrittenDate::clock_text))]
fn push_clock(text: &mut String, seconds: u32) -> Result<(), AllocError>
    requires { seconds < 86_400 }
    ensures { OnOk result (string_bytes text.new ≡ string_bytes text.old ++ clock_text seconds) }
{
    push_two(text, seconds / 3600)?;
    push_byte(text, b':')?;
    push_two(text, seconds / 60 % 60)?;
    push_byte(text, b':')?;
    push_two(text, seconds % 60)
}

#[tactic(auto, unfolding(crate::specs::WrittenDate::day_text))]
fn push_day(text: &mut String, date: YearMonthDay) -> Result<(), AllocError>
    requires { HasDigits date }
    ensures { OnOk result (string_bytes text.new ≡ string_bytes text.old
        ++ day_text (civil_of date)) }
{
    push_four(text, u32::from(date.year))?;
    text.push_str("-")?;
    push_two(text, u32::from(date.month))?;
    text.push_str("-")?;
    push_two(text, u32::from(date.day))
}

fn push_date_time(
    text: &mut String,
    date: YearMonthDay,
    seconds: u32,
    nanos: u32,
) -> Result<(), AllocError>
    requires date { HasDigits date }
    requires seconds { seconds < 86_400 }
    requires nanos { nanos < nanos_per_second }
    ensures { OnOk result (string_bytes text.new ≡ string_bytes text.old
        ++ date_time_text (civil_of date) seconds nanos) }
{
    push_day(text, date)?;
    text.push_str("T")?;
    push_clock(text, seconds)?;
    push_fraction(text, 6, nanos / 1000)?;
    text.push_str("Z")
}

fn weekday_name(weekday: u8) -> &'static str
    requires { weekday < 7 }
    ensures { result.now ≡ slice_index_or weekday_names weekday [] }
{
    match weekday {
        0 => "Mon",
        1 => "Tue",
        2 => "Wed",
        3 => "Thu",
        4 => "Fri",
        5 => "Sat",
        _ => "Sun",
    }
}

fn month_name(month: u8) -> &'static str
    requires { IsInRange 1 12 month }
    ensures { result.now ≡ slice_index_or month_names (month - 1) [] }
{
    match month {
        1 => "Jan",
        2 => "Feb",
        3 => "Mar",
        4 => "Apr",
        5 => "May",
        6 => "Jun",
        7 => "Jul",
        8 => "Aug",
        9 => "Sep",
        10 => "Oct",
        11 => "Nov",
        _ => "Dec",
    }
}

fn push_http_date(
    text: &mut String,
    weekday: u8,
    date: YearMonthDay,
    seconds: u32,
) -> Result<(), AllocError>
    requires year { date.year < 10_000 }
    requires month { IsInRange 1 12 date.month }
    requires day { date.day < 100 }
    requires seconds { seconds < 86_400 }
    requires weekday { weekday < 7 }
    ensures { OnOk result (string_bytes text.new ≡ string_bytes text.old
        ++ http_date_text weekday (civil_of date) seconds) }
{
    text.push_str(weekday_name(weekday))?;
    text.push_str(", ")?;
    push_two(text, u32::from(date.day))?;
    text.push_str(" ")?;
    text.push_str(month_name(date.month))?;
    text.push_str(" ")?;
    push_four(text, u32::from(date.year))?;
    text.push_str(" ")?;
    push_clock(text, seconds)?;
    text.push_str(" GMT")
}

// The weekday of a day, from 0 for Monday.
fn weekday(day: i64) -> u8
    requires low { neg_ℤ (pos (2 ^ 62)) ≤ℤ day }
    requires high { day ≤ℤ pos (2 ^ 62) }
    ensures value { result ≡ weekday_number day }
    ensures bound { result < 7 }
{
    (day + 3).rem_euclid(7) as u8
}

/// Why an instant isn't written.
#[derive(Debug, Clone, Copy, PartialEq, Eq, thiserror::Error)]
pub enum DateTimeFormatError {
    /// The year leaves the range from 0000 to 9999.
    #[error("OutOfRange")]
    OutOfRange,
    /// There is no memory left.
    #[error("NoMemory")]
    NoMemory,
}

// The text where the push to it succeeded, else its want of memory as an error of writing an instant.
fn grown(text: String, pushed: Result<(), AllocError>) -> Result<String, DateTimeFormatError>
    ensures ok { IfOk result (λ t. (t ≡ text) × IsOk pushed) }
    ensures err { IfErr result (λ e. e ≡ NoMemory) }
{
    match pushed {
        Ok(()) => Ok(text),
        Err(_) => Err(DateTimeFormatError::NoMemory),
    }
}

fn date_time_text(alloc: Global, instant: DateTime) -> Result<String, DateTimeFormatError>
    ensures writes { WritesText (written_date_time instant) result }
    ensures instant { is_instant instant ≡ true }
{
    let Some(date) = civil_date(instant.day()) else {
        return Err(DateTimeFormatError::OutOfRange);
    };
    let mut text = String::new(alloc);
    let pushed = push_date_time(
        &mut text,
        date,
        instant.second_of_day(),
        instant.subsec_nanos(),
    );
    grown(text, pushed)
}

fn http_date_text(alloc: Global, instant: DateTime) -> Result<String, DateTimeFormatError>
    ensures writes { WritesText (written_http_date instant) result }
    ensures instant { is_instant instant ≡ true }
{
    let day = instant.day();
    let Some(date) = civil_date(day) else {
        return Err(DateTimeFormatError::OutOfRange);
    };
    let mut text = String::new(alloc);
    let pushed = push_http_date(&mut text, weekday(day), date, instant.second_of_day());
    grown(text, pushed)
}

fn push_epoch(text: &mut String, nanos: i128) -> Result<(), AllocError>
    ensures { OnOk result (string_bytes text.new ≡ string_bytes text.old ++ epoch_text nanos) }
{
    if nanos < 0 {
        text.push_str("-")?;
    }
    let size = nanos.unsigned_abs();
    let mut buffer = Buffer::new();
    text.push_str(buffer.format(size / 1_000_000_000))?;
    push_fraction(text, 9, (size % 1_000_000_000) as u32)
}

fn epoch_text(alloc: Global, instant: DateTime) -> Result<String, DateTimeFormatError>
    ensures ok { IfOk result (λ t. date_text EpochSeconds instant ≡ Some (string_bytes t)) }
    ensures err { IfErr result (λ e. e ≡ NoMemory) }
    ensures instant { is_instant instant ≡ true }
{
    let mut text = String::new(alloc);
    let pushed = push_epoch(&mut text, instant.as_nanos());
    grown(text, pushed)
}

fn is_written(instant: DateTime, unit: u32) -> bool
    requires { 0 < unit }
    ensures { result ≡ (subsecond_of instant % unit == 0) && is_some (civil_date (day_of instant)) }
{
    instant.subsec_nanos() % unit == 0 && civil_date(instant.day()).is_some()
}

fn is_whole_second(instant: DateTime) -> bool
    ensures { result ≡ (subsecond_of instant == 0) }
{
    instant.subsec_nanos() == 0
}

impl DateTime {
    /// The written text of the instant, with what the form has no room for cut off.
    pub fn fmt(&self, alloc: Global, format: Format) -> Result<String, DateTimeFormatError>
        ensures writes { WritesText (date_text format self.now) result }
        ensures reads_back { IfOk result (λ t. holds format self.now ≡ true
            → date_of format (string_bytes t) ≡ Some self.now) }
    {
        match format {
            Format::DateTime => date_time_text(alloc, *self),
            Format::DateTimeWithOffset => date_time_text(alloc, *self),
            Format::HttpDate => http_date_text(alloc, *self),
            Format::EpochSeconds => epoch_text(alloc, *self),
        }
    }

    /// Whether the written text stands for exactly this instant.
    pub fn holds(&self, format: Format) -> bool
        ensures { result ≡ holds format self.now }
    {
        match format {
            Format::DateTime => is_written(*self, 1000),
            Format::DateTimeWithOffset => is_written(*self, 1000),
            Format::HttpDate => is_whole_second(*self) && civil_date(self.day()).is_some(),
            Format::EpochSeconds => true,
        }
    }
}
