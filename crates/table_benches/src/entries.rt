// A run of entries: read, compared with a target by what each key keeps and adds, and compared as whole keys.
use crate::keys::{key_of, shared};
use owned_bytes::{OwnedBytes, VecSink};
use sstable_blocks::{DeltaKeyComparator, DeltaReader, DeltaWriter};
use sstable_values::{BlockError, U64MonotonicValueReader, U64MonotonicValueWriter};
use std::alloc::{AllocError, Global};
use std::cmp::Ordering;
use std::time::{Clock, Instant};

// Each call is timed so often, and the least time is printed: on a busy machine the others tell of the machine.
const ROUNDS: u32 = 7;

type Reader = DeltaReader<U64MonotonicValueReader>;

fn written(alloc: Global, count: u32) -> anyhow::Result<Vec<u8>> {
    let mut writer: DeltaWriter<VecSink, U64MonotonicValueWriter> = DeltaWriter::new(
        alloc,
        VecSink::new(alloc),
    );
    let mut previous = key_of(0);
    let mut begun = false;
    for number in 0..count {
        let key = key_of(number);
        let keep = if begun { shared(&previous, &key) } else { 0 };
        writer.write_entry(keep, &key[keep..], &u64::from(number))?;
        begun = writer.flush_block_if_required()?.is_none();
        previous = key;
    }
    writer.flush_block()?;
    Ok(writer.finish().finish().into_bytes())
}

fn sum_of(reader: &mut Reader, count: u32) -> Result<u64, BlockError> {
    let mut sum = 0u64;
    for _ in 0..count {
        if reader.advance()? {
            sum = sum.wrapping_add(*reader.value());
        }
    }
    Ok(sum)
}

/// How many keys are below the target, by the comparator.
fn count_below(reader: &mut Reader, count: u32, target: &[u8]) -> Result<u32, BlockError> {
    let mut comparator = DeltaKeyComparator::new();
    for ordinal in 0..count {
        if !reader.advance()? {
            return Ok(ordinal);
        }
        let keep = reader.common_prefix_len();
        if comparator.compare_across_blocks(target, keep, reader.suffix()) != Ordering::Less {
            return Ok(ordinal);
        }
    }
    Ok(count)
}

/// How many keys are below the target, by keys that are made.
fn count_keys_below(
    alloc: Global,
    reader: &mut Reader,
    count: u32,
    target: &[u8],
) -> Result<u32, BlockError> {
    let mut key = Vec::new(alloc);
    for ordinal in 0..count {
        if !reader.advance()? {
            return Ok(ordinal);
        }
        key.truncate(reader.common_prefix_len());
        key.extend_from_slice(reader.suffix())?;
        if key.as_slice().cmp(target) != Ordering::Less {
            return Ok(ordinal);
        }
    }
    Ok(count)
}

fn reader_of(alloc: Global, bytes: &OwnedBytes) -> Result<Reader, AllocError> {
    Ok(DeltaReader::new(alloc, bytes.clone(alloc)?, 0))
}

// How long reading takes, comparing, and comparing keys that are made.
fn round<R: Clock + AllocGlobal>(
    rt: &R,
    bytes: &OwnedBytes,
    count: u32,
    target: &[u8],
) -> anyhow::Result<(u128, u128, u128)> {
    let alloc = rt.alloc();
    let start = Instant::now(rt)?;
    let _sum = sum_of(&mut reader_of(alloc, bytes)?, count)?;
    let read = start.elapsed(rt)?.as_micros();
    let start = Instant::now(rt)?;
    let _below = count_below(&mut reader_of(alloc, bytes)?, count, target)?;
    let compared = start.elapsed(rt)?.as_micros();
    let start = Instant::now(rt)?;
    let _below = count_keys_below(alloc, &mut reader_of(alloc, bytes)?, count, target)?;
    Ok((read, compared, start.elapsed(rt)?.as_micros()))
}

/// Prints how long it takes to read so many entries, and to find a key near the end in two ways.
pub fn time<R: Clock + Print + AllocGlobal>(rt: &R, count: u32) -> anyhow::Result<()> {
    let bytes = OwnedBytes::new(rt.alloc(), written(rt.alloc(), count)?)?;
    let target = key_of(count.saturating_sub(10));
    let mut least = (u128::MAX, u128::MAX, u128::MAX);
    for _ in 0..ROUNDS {
        let (read, compared, made) = round(rt, &bytes, count, &target)?;
        least = (read.min(least.0), compared.min(least.1), made.min(least.2));
    }
    let (read, compared, made) = least;
    println!(rt;
        "entries: {count} read {read} us; a key found by comparing suffixes {compared} us, whole keys {made} us"
    )?;
    Ok(())
}
