//! Instants, in nanoseconds from 1970-01-01T00:00:00Z on.

ghost use Rattle.std.specs.Prelude.{◌≡◌, ◌<◌, ◌+ℤ◌, ◌*ℤ◌, ◌≤ℤ◌, ◌^◌, neg_ℤ, ℤ, pos, true, not, ◌==◌, IsTrue};
ghost use Rattle.std.specs.Result.{OkIff};
ghost use Rattle.std.specs.Int.{int_div_euclid};
ghost use Rattle.smithy_texts.specs.Ranges.{fits_signed};
ghost use Rattle.smithy_instants.specs.Instant.{nanos_per_second, nanos_per_milli, seconds_of, subsecond_of, is_instant};
ghost use Rattle.smithy_instants.specs.WrittenDate.{day_of, second_of_day};

use std::marker::Model;

const NANOS_PER_SECOND: i128 = 1_000_000_000;

const NANOS_PER_MILLI: i128 = 1_000_000;

/// The seconds leave 64 bits.
#[derive(Debug, Clone, Copy, PartialEq, Eq, thiserror::Error)]
#[error("ConversionError")]
pub struct ConversionError;

/// An instant. Contracts see its nanoseconds.
#[derive(Debug, Clone, Copy, PartialEq, Eq, PartialOrd, Ord, Hash)]
pub struct DateTime {
    nanos: i128,
}

impl Model for DateTime {
    ghost Value = { ℤ };

    ghost view = { λ d. d.nanos };

    ghost invariant = { λ d. is_instant d.nanos ≡ true };

    ghost inverse = { λ n. record { nanos = n } };
}

impl DateTime {
    /// The instant that many seconds after the epoch.
    pub fn from_secs(s: i64) -> DateTime
        ensures { result ≡ s *ℤ pos nanos_per_second }
    {
        DateTime {
            nanos: i128::from(s) * NANOS_PER_SECOND,
        }
    }

    /// The instant that many milliseconds after the epoch.
    pub fn from_millis(ms: i64) -> DateTime
        ensures { result ≡ ms *ℤ pos nanos_per_milli }
    {
        DateTime {
            nanos: i128::from(ms) * NANOS_PER_MILLI,
        }
    }

    /// The instant that many seconds and nanoseconds after the epoch.
    pub fn from_secs_and_nanos(s: i64, n: u32) -> DateTime
        requires { n < nanos_per_second }
        ensures { result ≡ s *ℤ pos nanos_per_second +ℤ pos n }
    {
        DateTime {
            nanos: i128::from(s) * NANOS_PER_SECOND + i128::from(n),
        }
    }

    /// The instant that many nanoseconds after the epoch, where its seconds are a number of 64 bits.
    pub fn from_nanos(n: i128) -> Result<DateTime, ConversionError>
        ensures { OkIff result (IsTrue (is_instant n)) n }
    {
        match i64::try_from(n.div_euclid(NANOS_PER_SECOND)) {
            Ok(_) => Ok(DateTime { nanos: n }),
            Err(_) => Err(ConversionError),
        }
    }

    /// The nanoseconds after the epoch.
    pub fn as_nanos(&self) -> i128
        ensures value { result ≡ self.now }
        ensures instant { is_instant self.now ≡ true }
    {
        self.nanos
    }

    /// The seconds after the epoch, rounded down.
    pub fn secs(&self) -> i64
        ensures { result ≡ seconds_of self.now }
    {
        self.nanos.div_euclid(NANOS_PER_SECOND) as i64
    }

    /// The nanoseconds past the second.
    pub fn subsec_nanos(&self) -> u32
        ensures value { result ≡ subsecond_of self.now }
        ensures bound { result < nanos_per_second }
    {
        self.nanos.rem_euclid(NANOS_PER_SECOND) as u32
    }

    /// Whether the instant isn't a whole second.
    pub fn has_subsec_nanos(&self) -> bool
        ensures { result ≡ not (subsecond_of self.now == 0) }
    {
        self.subsec_nanos() != 0
    }

    /// The milliseconds after the epoch, rounded down, where they are a number of 64 bits.
    pub fn to_millis(self) -> Result<i64, ConversionError>
        ensures { OkIff result (IsTrue (fits_signed 64 (int_div_euclid self (pos nanos_per_milli))))
            (int_div_euclid self (pos nanos_per_milli)) }
    {
        match i64::try_from(self.nanos.div_euclid(NANOS_PER_MILLI)) {
            Ok(millis) => Ok(millis),
            Err(_) => Err(ConversionError),
        }
    }

    /// Sets the seconds, and keeps the nanoseconds past the second.
    pub fn set_seconds(&mut self, s: i64) -> &mut Self
        ensures value { result.now ≡ s *ℤ pos nanos_per_second +ℤ pos (subsecond_of self.old) }
        ensures same { result.ghost_name ≡ self.entry.ghost_name }
    {
        *self = DateTime::from_secs_and_nanos(s, self.subsec_nanos());
        self
    }

    /// Sets the nanoseconds past the second, and keeps the seconds.
    pub fn set_subsec_nanos(&mut self, n: u32) -> &mut Self
        requires { n < nanos_per_second }
        ensures value { result.now ≡ seconds_of self.old *ℤ pos nanos_per_second +ℤ pos n }
        ensures same { result.ghost_name ≡ self.entry.ghost_name }
    {
        *self = DateTime::from_secs_and_nanos(self.secs(), n);
        self
    }

    /// The day number of the instant, from 1 January 1970 on.
    pub(crate) fn day(&self) -> i64
        ensures value { result ≡ day_of self.now }
        ensures instant { is_instant self.now ≡ true }
        ensures low { neg_ℤ (pos (2 ^ 62)) ≤ℤ result }
        ensures high { result ≤ℤ pos (2 ^ 62) }
    {
        self.secs().div_euclid(86_400)
    }

    /// The seconds of the instant since midnight.
    pub(crate) fn second_of_day(&self) -> u32
        ensures value { result ≡ second_of_day self.now }
        ensures bound { result < 86_400 }
    {
        self.secs().rem_euclid(86_400) as u32
    }
}
