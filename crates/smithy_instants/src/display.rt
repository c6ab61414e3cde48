//! Instants as they are printed.

ghost use Rattle.std.specs.Prelude.{◌≡◌, ◌+◌, ◌<◌, ◌≤◌, ◌^◌, [], ◌∷◌, Some};
ghost use Rattle.std.specs.Int.{is_negative};
ghost use Rattle.std.specs.Fmt.{WritesOnOk, sign_text};
ghost use Rattle.smithy_instants.specs.Instant.{nanos_per_second};
ghost use Rattle.smithy_instants.specs.Private.Dates.{civil_of, HasDigits};
ghost use Rattle.smithy_instants.specs.WrittenDate.{padded_digits, fraction_digits, fraction_text, clock_text, day_text, date_time_text, epoch_text, printed_text};

use crate::DateTime;
use crate::calendar::{YearMonthDay, civil_date};
use std::fmt;

fn write_digit<W: fmt::Write>(f: &mut fmt::Formatter<W>, digit: u32) -> fmt::Result
    requires { digit < 10 }
    ensures { WritesOnOk W.write_str_gives f.old result ((48 + digit) ∷ []) f.new }
{
    f.write_char(char::from(b'0' + digit as u8))
}

fn write_two<W: fmt::Write>(f: &mut fmt::Formatter<W>, n: u32) -> fmt::Result
    requires { n < 100 }
    ensures { WritesOnOk W.write_str_gives f.old result (padded_digits 2 n) f.new }
{
    write_digit(f, n / 10)?;
    write_digit(f, n % 10)
}

fn write_four<W: fmt::Write>(f: &mut fmt::Formatter<W>, n: u32) -> fmt::Result
    requires { n < 10_000 }
    ensures { WritesOnOk W.write_str_gives f.old result (padded_digits 4 n) f.new }
{
    write_two(f, n / 100)?;
    write_two(f, n % 100)
}

// Writes the digits of a fraction, until nothing is left.
fn write_fraction_digits<W: fmt::Write>(
    f: &mut fmt::Formatter<W>,
    width: u32,
    n: u32,
) -> fmt::Result
    requires width { width ≤ 9 }
    requires small { n < 10 ^ width }
    ensures { WritesOnOk W.write_str_gives f.old result (fraction_digits width n) f.new }
{
    let mut width = width;
    let mut rest = n;
    while rest > 0 {
        width -= 1;
        let unit = 10u32.pow(width);
        write_digit(f, rest / unit)?;
        rest %= unit;
    }
    Ok(())
}

#[tactic(auto, unfolding(crate::specs::WrittenDate::fraction_text))]
fn write_fraction<W: fmt::Write>(f: &mut fmt::Formatter<W>, width: u32, n: u32) -> fmt::Result
    requires width { width ≤ 9 }
    requires small { n < 10 ^ width }
    ensures { WritesOnOk W.write_str_gives f.old result (fraction_text width n) f.new }
{
    if n == 0 {
        return Ok(());
    }
    f.write_str(".")?;
    write_fraction_digits(f, width, n)
}

#[tactic(auto, unfolding(crate::specs::WrittenDate::day_text))]
fn write_day<W: fmt::Write>(f: &mut fmt::Formatter<W>, date: YearMonthDay) -> fmt::Result
    requires { HasDigits date }
    ensures { WritesOnOk W.write_str_gives f.old result
        (day_text (civil_of date)) f.new }
{
    write_four(f, u32::from(date.year))?;
    f.write_str("-")?;
    write_two(f, u32::from(date.month))?;
    f.write_str("-")?;
    write_two(f, u32::from(date.day))
}

#[tactic(auto, unfolding(crate::specs::WrittenDate::clock_text))]
fn write_clock<W: fmt::Write>(f: &mut fmt::Formatter<W>, seconds: u32) -> fmt::Result
    requires { seconds < 86_400 }
    ensures { WritesOnOk W.write_str_gives f.old result (clock_text seconds) f.new }
{
    write_two(f, seconds / 3600)?;
    f.write_str(":")?;
    write_two(f, seconds / 60 % 60)?;
    f.write_str(":")?;
    write_two(f, seconds % 60)
}

fn write_date_time<W: fmt::Write>(
    f: &mut fmt::Formatter<W>,
    date: YearMonthDay,
    seconds: u32,
    nanos: u32,
) -> fmt::Result
    requires date { HasDigits date }
    requires seconds { seconds < 86_400 }
    requires nanos { nanos < nanos_per_second }
    ensures { WritesOnOk W.write_str_gives f.old result
        (date_time_text (civil_of date) seconds nanos) f.new }
{
    write_day(f, date)?;
    f.write_str("T")?;
    write_clock(f, seconds)?;
    write_fraction(f, 6, nanos / 1000)?;
    f.write_str("Z")
}

fn sign_text(nanos: i128) -> &'static str
    ensures { result.now ≡ sign_text (is_negative nanos) }
{
    if nanos < 0 { "-" } else { "" }
}

fn write_seconds<W: fmt::Write>(f: &mut fmt::Formatter<W>, nanos: i128) -> fmt::Result
    ensures { WritesOnOk W.write_str_gives f.old result (epoch_text nanos) f.new }
{
    let size = nanos.unsigned_abs();
    f.write_str(sign_text(nanos))?;
    write!(f, "{}", size / 1_000_000_000)?;
    write_fraction(f, 9, (size % 1_000_000_000) as u32)
}

/// The date-time text, with whole microseconds, or the seconds where the year leaves the range from 0000 to 9999.
impl fmt::Display for DateTime {
    ghost output = { λ instant. Some (printed_text instant) };

    fn fmt<W: fmt::Write>(&self, f: &mut fmt::Formatter<W>) -> fmt::Result {
        match civil_date(self.day()) {
            Some(date) => write_date_time(f, date, self.second_of_day(), self.subsec_nanos()),
            None => write_seconds(f, self.as_nanos()),
        }
    }
}
