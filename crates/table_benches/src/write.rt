// A table that is written entry by entry.
use crate::keys::key_of;
use owned_bytes::VecSink;
use sstable_tables::Writer;
use sstable_values::U64MonotonicValueWriter;
use std::alloc::Global;
use std::time::{Clock, Instant};

// Each call is timed so often, and the least time is printed: on a busy machine the others tell of the machine.
const ROUNDS: u32 = 7;

fn table_len(alloc: Global, count: u32) -> anyhow::Result<usize> {
    let mut writer: Writer<VecSink, U64MonotonicValueWriter> = Writer::new(
        alloc,
        VecSink::new(alloc),
    );
    for number in 0..count {
        writer.insert(&key_of(number), &u64::from(number))?;
    }
    match writer.finish() {
        Ok(sink) => Ok(sink.into_bytes().len()),
        Err(unfinished) => Err(unfinished.error.into()),
    }
}

/// Prints how long a table of so many entries takes to be written.
pub fn time<R: Clock + Print + AllocGlobal>(rt: &R, count: u32) -> anyhow::Result<()> {
    let mut least = u128::MAX;
    let mut len = 0;
    for _ in 0..ROUNDS {
        let start = Instant::now(rt)?;
        len = table_len(rt.alloc(), count)?;
        least = start.elapsed(rt)?.as_micros().min(least);
    }
    println!(rt; "write: a table of {count} entries, {len} bytes, in {least} us")?;
    Ok(())
}
