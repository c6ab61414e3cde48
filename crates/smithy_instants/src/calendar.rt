//! Days of the calendar and their numbers.

ghost use Rattle.std.specs.Prelude.{◌≡◌, ◌<◌, ◌≤◌, IfSome, Some, option_map};
ghost use Rattle.std.specs.Int.{IsInRange};
ghost use Rattle.smithy_instants.specs.Calendar.{day_number, civil_date};
ghost use Rattle.smithy_instants.specs.Private.Dates.{civil_of};

use jiff_core::civil::Date;

/// The day number of a year, a month and a day, where the calendar has them.
pub(crate) fn day_number(year: u32, month: u16, day: u16) -> Option<i32>
    ensures { result ≡ day_number year month day }
{
    if year > 9999 || month > 12 || day > 31 {
        return None;
    }
    match Date::new(year as i16, month as i8, day as i8) {
        Ok(date) => Some(date.to_unix_epoch_day()),
        Err(_) => None,
    }
}

/// A date of the years 0 to 9999.
#[derive(Clone, Copy)]
pub(crate) struct YearMonthDay {
    pub(crate) year: u16,
    pub(crate) month: u8,
    pub(crate) day: u8,
}

/// The date with this day number, where its year is from 0 to 9999.
pub(crate) fn civil_date(day: i64) -> Option<YearMonthDay>
    ensures value { option_map civil_of result ≡ civil_date day }
    ensures bounds { IfSome result (λ d. (d.year < 10_000) × IsInRange 1 12 d.month × (d.day ≤ 31)) }
{
    match Date::from_unix_epoch_day(day) {
        Ok(date) if date.year >= 0 => Some(YearMonthDay {
            year: date.year as u16,
            month: date.month,
            day: date.day,
        }),
        _ => None,
    }
}
