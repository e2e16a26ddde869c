// Dates as bytes.
ghost use Rattle.std.specs.Prelude.{⊤, FitsSigned};
ghost use Rattle.std.specs.Int.{w64};
ghost use Rattle.common_dates.specs.Dates.{microsecond, truncated, date_bytes, date};

use crate::DateTime;
use common_wire::{BinarySerializable, WireError};
use owned_bytes::{Sink, SinkError, Source};
use std::alloc::Global;

/// A date is whole microseconds as an `i64`. A number whose nanoseconds are none is Invalid.
impl BinarySerializable for DateTime {
    ghost use Rattle.common_dates.specs.DateLaws.{IsTaking-date, date-again};

    type Shown = i64;

    ghost shown = { λ d. d };

    ghost is_value = { λ n. FitsSigned w64 n };

    ghost can_write = { λ _. ⊤ };

    ghost as_written = { truncated microsecond };

    ghost wire = { date_bytes };

    ghost taking = { date };

    ghost is_taking = { IsTaking-date };

    ghost again = { λ n rest fits can. date-again n rest fits };

    fn serialize<W: Sink>(&self, writer: &mut W) -> Result<(), SinkError> {
        self.into_timestamp_micros().serialize(writer)
    }

    fn deserialize<R: Source>(alloc: Global, reader: &mut R) -> Result<Self, WireError> {
        let microseconds = match i64::deserialize(alloc, reader) {
            Ok(microseconds) => microseconds,
            Err(e) => return Err(e),
        };
        match microseconds.checked_mul(1_000) {
            Some(nanoseconds) => Ok(DateTime::from_timestamp_nanos(nanoseconds)),
            None => Err(WireError::Invalid),
        }
    }

    fn num_bytes(&self) -> u64 {
        8
    }
}
