// Laws of writers, for the proofs of callers.
ghost use Rattle.std.specs.Prelude.{◌≡◌};
ghost use Rattle.sstable_tables.specs.Making.{Inserting};
ghost use Rattle.sstable_tables.specs.Laws.{ShortRangesFit, AdjoiningRangesAreTaken, LastRangeEnds};

use crate::writer::Writer;
use owned_bytes::Sink;
use sstable_index::SstWriteError;
use sstable_values::ValueWriter;

/// A writer's block of few and short enough entries is not too long. It does nothing.
pub fn short_ranges_fit<W: Sink>()
    ensures { ShortRangesFit W }
{}

/// A range that adjoins the last one is taken. It does nothing.
pub fn adjoining_ranges_are_taken<W: Sink>()
    ensures next { AdjoiningRangesAreTaken W }
    ensures last { LastRangeEnds }
{}

/// A staged key that is dropped was never inserted: the writer is as it was.
pub fn dropped_keys_are_not_inserted<W: Sink, T: ValueWriter + Drop>(
    writer: &mut Writer<W, T>,
    key: &[u8],
)
    ensures { writer.new ≡ writer.old }
{
    match writer.insert_key(key) {
        Ok(pending) => drop(pending),
        Err(_error) => {}
    }
}

/// A key that is staged, and then its value, do what `insert` does.
pub fn staged_keys_are_inserted<W: Sink, T: ValueWriter + Drop>(
    writer: &mut Writer<W, T>,
    key: &[u8],
    value: &T::Value,
) -> Result<(), SstWriteError>
    ensures { Inserting T.codec W.written writer.old writer.new key.now (T.Value.shown value.now) result }
{
    match writer.insert_key(key) {
        Ok(pending) => pending.insert_value(value),
        Err(error) => Err(error),
    }
}
