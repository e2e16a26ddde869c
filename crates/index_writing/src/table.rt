// The table of an index file.
ghost use Rattle.std.specs.Prelude.{◌≡◌, ◌+◌, ◌*◌, ◌<◌, ◌^◌, Some, None, IfOk, OnOk, true, length, map};
ghost use Rattle.owned_bytes.specs.Keys.{is_rising};
ghost use Rattle.sstable_values.specs.Codec.{range};
ghost use Rattle.sstable_tables.specs.Laws.{HasGathered, keys_size};
ghost use Rattle.sstable_tables.specs.Making.{IsTaken, Adds, IsTooLong, AppendsTable, greatest_len};
ghost use Rattle.index_writing.specs.Emitting.{numbers_of_all, ranged, GainsTable};

use owned_bytes::{Ids, Key, VecSink};
use sstable_blocks::RangeValueWriter;
use std::alloc::{AllocError, Global};
use std::ops::Range;
use tantivy_sstable::{SstWriteError, Writer};

type RangeWriter = Writer<VecSink, RangeValueWriter>;

// Adds an entry that may come next to a writer that closes no block.
fn insert_next(writer: &mut RangeWriter, key: &Key, places: Range<u64>) -> Result<(), AllocError>
    requires taken { IsTaken range writer.old key.now places }
    requires gathers { writer.old.block_len ≡ greatest_len }
    ensures { OnOk result (Adds writer.old writer.new key.now places) }
{
    match writer.insert(key.as_slice(), &places) {
        Ok(()) => Ok(()),
        Err(error) => match error {
            SstWriteError::Memory => Err(AllocError),
            _ => unreachable!(),
        },
    }
}

// A writer of the keys, each with the places of its numbers. It closes no block, since tables of several are not opened yet.
fn ranges_writer(
    alloc: Global,
    postings: &[(Key, Ids)],
    sink: VecSink,
) -> Result<RangeWriter, AllocError>
    requires rising { is_rising (map (λ posting. posting.0) postings.now) ≡ true }
    requires few { length (numbers_of_all postings.now) < 2 ^ 64 }
    ensures { IfOk result (λ writer. HasGathered writer sink (ranged 0 postings.now)) }
{
    let mut writer = Writer::new(alloc, sink);
    writer.set_block_len(usize::MAX);
    let mut start = 0;
    for posting in postings {
        let end = start + posting.1.len() as u64;
        insert_next(&mut writer, &posting.0, start..end)?;
        start = end;
    }
    Ok(writer)
}

// Writes the table, and hands back the sink.
fn finish(writer: RangeWriter) -> Result<VecSink, AllocError>
    requires ready { writer.refusal ≡ None }
    requires short { ¬ IsTooLong range writer }
    ensures { IfOk result (λ sink. AppendsTable range writer (Some writer.sink) (Some sink)) }
{
    match writer.finish() {
        Ok(sink) => Ok(sink),
        Err(unfinished) => match unfinished.error {
            SstWriteError::Memory => Err(AllocError),
            _ => unreachable!(),
        },
    }
}

/// Appends a table of the keys, each with the places of its numbers.
pub(crate) fn append_table(
    alloc: Global,
    postings: &[(Key, Ids)],
    sink: VecSink,
) -> Result<VecSink, AllocError>
    requires rising { is_rising (map (λ posting. posting.0) postings.now) ≡ true }
    requires few { length (numbers_of_all postings.now) < 2 ^ 64 }
    requires small { keys_size (ranged 0 postings.now) + 31 * length (ranged 0 postings.now) + 21 < 2 ^ 32 }
    ensures { IfOk result (λ new. GainsTable (ranged 0 postings.now) sink new) }
{
    let writer = ranges_writer(alloc, postings, sink)?;
    finish(writer)
}
