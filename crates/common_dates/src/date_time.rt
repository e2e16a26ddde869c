// Dates, and what they are in other units and libraries.
ghost use Rattle.std.specs.Prelude.{◌≡◌, ◌+ℤ◌, ◌*ℤ◌, pos, FitsSigned, SomeIff};
ghost use Rattle.std.specs.Int.{w64, saturate_to_bits};
ghost use Rattle.jiff.specs.Words.{civil_nanos, nanos_of_seconds};
ghost use Rattle.common_dates.specs.Dates.{second, millisecond, microsecond, unit_of, whole, truncated};

use jiff::tz::Offset;
use jiff::{Timestamp, civil};
use std::fmt;
use std::marker::Model;

/// The unit that a date is truncated to.
#[derive(Clone, Copy, Debug, Default, PartialEq, Eq, PartialOrd, Ord, Hash)]
pub enum DateTimePrecision {
    #[default]
    Seconds,
    Milliseconds,
    Microseconds,
    Nanoseconds,
}

/// An instant: nanoseconds since 1970-01-01T00:00:00Z, in 64 bits. Debug prints it as jiff does.
#[derive(Clone, Copy, Default, PartialEq, Eq, PartialOrd, Ord, Hash)]
pub struct DateTime {
    nanos: i64,
}

impl Model for DateTime {
    ghost use Rattle.std.specs.Prelude.{ℤ};

    ghost Value = { ℤ };

    ghost view = { λ d. d.nanos };

    ghost inverse = { λ n. record { nanos = n } };
}

impl DateTime {
    /// The first instant, in the year 1677.
    pub const MIN: DateTime = DateTime { nanos: i64::MIN };

    /// The last instant, in the year 2262.
    pub const MAX: DateTime = DateTime { nanos: i64::MAX };

    /// The date of so many seconds since 1970.
    pub fn from_timestamp_secs(seconds: i64) -> DateTime
        requires { FitsSigned w64 (seconds *ℤ pos second) }
        ensures { result ≡ seconds *ℤ pos second }
    {
        DateTime {
            nanos: seconds * 1_000_000_000,
        }
    }

    /// The date of so many milliseconds since 1970.
    pub fn from_timestamp_millis(milliseconds: i64) -> DateTime
        requires { FitsSigned w64 (milliseconds *ℤ pos millisecond) }
        ensures { result ≡ milliseconds *ℤ pos millisecond }
    {
        DateTime {
            nanos: milliseconds * 1_000_000,
        }
    }

    /// The date of so many microseconds since 1970.
    pub fn from_timestamp_micros(microseconds: i64) -> DateTime
        requires { FitsSigned w64 (microseconds *ℤ pos microsecond) }
        ensures { result ≡ microseconds *ℤ pos microsecond }
    {
        DateTime {
            nanos: microseconds * 1_000,
        }
    }

    /// The date of so many nanoseconds since 1970.
    pub fn from_timestamp_nanos(nanoseconds: i64) -> DateTime
        ensures { result ≡ nanoseconds }
    {
        DateTime { nanos: nanoseconds }
    }

    /// Whole seconds, rounded toward zero.
    pub fn into_timestamp_secs(self) -> i64
        ensures { result ≡ whole second self }
    {
        self.nanos / 1_000_000_000
    }

    /// Whole milliseconds, rounded toward zero.
    pub fn into_timestamp_millis(self) -> i64
        ensures { result ≡ whole millisecond self }
    {
        self.nanos / 1_000_000
    }

    /// Whole microseconds, rounded toward zero.
    pub fn into_timestamp_micros(self) -> i64
        ensures { result ≡ whole microsecond self }
    {
        self.nanos / 1_000
    }

    /// Nanoseconds since 1970.
    pub fn into_timestamp_nanos(self) -> i64
        ensures { result ≡ self }
    {
        self.nanos
    }

    /// The date of whole units of the precision, rounded toward 1970.
    pub fn truncate(self, precision: DateTimePrecision) -> DateTime
        ensures { result ≡ truncated (unit_of precision) self }
    {
        let nanos = match precision {
            DateTimePrecision::Seconds => self.nanos / 1_000_000_000 * 1_000_000_000,
            DateTimePrecision::Milliseconds => self.nanos / 1_000_000 * 1_000_000,
            DateTimePrecision::Microseconds => self.nanos / 1_000 * 1_000,
            DateTimePrecision::Nanoseconds => self.nanos,
        };
        DateTime { nanos }
    }

    /// The instant, or the nearest date.
    pub fn from_utc(dt: Timestamp) -> DateTime
        ensures { result ≡ saturate_to_bits 63 dt.nanosecond }
    {
        DateTime {
            nanos: saturated(dt.as_nanosecond()),
        }
    }

    /// The instant, where a date has it.
    pub fn try_from_utc(dt: Timestamp) -> Option<DateTime>
        ensures { SomeIff result (FitsSigned w64 dt.nanosecond) dt.nanosecond }
    {
        match i64::try_from(dt.as_nanosecond()) {
            Ok(nanos) => Some(DateTime { nanos }),
            Err(_) => None,
        }
    }

    /// The instant at which a clock in UTC shows this, or the nearest date.
    pub fn from_primitive(dt: civil::DateTime) -> DateTime
        ensures { result ≡ saturate_to_bits 63 (civil_nanos dt) }
    {
        DateTime {
            nanos: saturated(dt.to_plain().to_nanosecond()),
        }
    }

    /// The instant.
    pub fn into_utc(self) -> Timestamp
        ensures { result.nanosecond ≡ self }
    {
        match Timestamp::from_nanosecond(self.nanos as i128) {
            Ok(instant) => instant,
            Err(_) => unreachable!(),
        }
    }

    /// What a clock at this offset shows at the instant.
    pub fn into_offset(self, offset: Offset) -> civil::DateTime
        ensures { civil_nanos result ≡ self +ℤ nanos_of_seconds offset.seconds }
    {
        offset.to_datetime(self.into_utc())
    }

    /// What a clock in UTC shows at the instant.
    pub fn into_primitive(self) -> civil::DateTime
        ensures { civil_nanos result ≡ self }
    {
        let plain = jiff_core::civil::DateTime::from_nanosecond_in_range(self.nanos as i128);
        civil::DateTime::from_plain(plain)
    }
}

// The number, or the nearest one of 64 bits.
fn saturated(nanos: i128) -> i64
    ensures { result ≡ saturate_to_bits 63 nanos }
{
    if nanos < i64::MIN as i128 {
        i64::MIN
    } else if nanos > i64::MAX as i128 {
        i64::MAX
    } else {
        nanos as i64
    }
}

impl fmt::Debug for DateTime {
    fn fmt<W: fmt::Write>(&self, f: &mut fmt::Formatter<W>) -> fmt::Result {
        fmt::Debug::fmt(&self.into_utc(), f)
    }
}
