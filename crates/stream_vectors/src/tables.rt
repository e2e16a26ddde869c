// Blocks that are made by hand, and what streams give of them.
ghost use Rattle.std.specs.Prelude.{◌<◌, ◌+◌, ◌^◌, IfOk, length};
ghost use Rattle.sstable_blocks.specs.BlockReader.{AreWithin};

use common_wire::WithoutKeys;
use fst_map::Automaton;
use owned_bytes::OwnedBytes;
use sstable_blocks::{BlockError, BlockSlice, U64MonotonicValueReader};
use sstable_streams::EntryStreamer;
use std::alloc::{AllocError, Global};
use std::ops::Bound;

// The empty key, `a`, `ab` and `abc`, with the values 0, 10, 20 and 30.
pub const FIRST: [u8; 17] = [
    13, 0, 0, 0, 0, 4, 0, 10, 10, 10, 0, 0x10, b'a', 0x11, b'b', 0x12, b'c',
];

// `b`, `ba` and `c`, with the values 90, 100 and 110. Neither the first nor the last keeps a byte.
pub const LAST: [u8; 15] = [
    11, 0, 0, 0, 0, 3, 90, 10, 10, 0x10, b'b', 0x11, b'a', 0x10, b'c',
];

// A part of a table that starts with these bytes.
pub fn slice(
    alloc: Global,
    bytes: &[u8],
    first_ordinal: u64,
    start: u32,
) -> Result<BlockSlice, AllocError>
    ensures { IfOk result (λ slice. slice.start + length slice.bytes < 2 ^ 64) }
{
    Ok(BlockSlice {
        bytes: OwnedBytes::new(alloc, bytes.to_vec(alloc)?)?,
        first_ordinal,
        start: u64::from(start),
    })
}

// The seven keys, in two slices: at 0 to 3, and, as blocks between them are left out, at 9 to 11.
pub fn seven_keys(alloc: Global) -> Result<Vec<BlockSlice>, AllocError>
    ensures { IfOk result (λ slices. AreWithin slices.items) }
{
    let first = slice(alloc, &FIRST, 0, 0)?;
    let last = slice(alloc, &LAST, 9, 40)?;
    Ok(vec![in alloc; first, last]?)
}

fn owned(alloc: Global, bound: Bound<&[u8]>) -> Result<Bound<Vec<u8>>, AllocError> {
    match bound {
        Bound::Included(key) => Ok(Bound::Included(key.to_vec(alloc)?)),
        Bound::Excluded(key) => Ok(Bound::Excluded(key.to_vec(alloc)?)),
        Bound::Unbounded => Ok(Bound::Unbounded),
    }
}

// The positions of a stream that keeps its keys.
pub fn positions<A: Automaton + Drop>(
    alloc: Global,
    automaton: A,
    lower: Bound<&[u8]>,
    upper: Bound<&[u8]>,
) -> Result<Vec<u64>, BlockError> {
    let lower = owned(alloc, lower)?;
    let upper = owned(alloc, upper)?;
    let slices = seven_keys(alloc)?;
    let mut stream: EntryStreamer<U64MonotonicValueReader, A, Vec<u8>> = EntryStreamer::over_slices(
        alloc, slices, automaton, lower, upper,
    )?;
    let mut positions = Vec::new(alloc);
    for _ in 0..20 {
        if !stream.advance()? {
            break;
        }
        positions.push(stream.term_ord())?;
    }
    Ok(positions)
}

// Those of a stream that keeps none.
pub fn positions_without_keys<A: Automaton + Drop>(
    alloc: Global,
    automaton: A,
    lower: Bound<&[u8]>,
    upper: Bound<&[u8]>,
) -> Result<Vec<u64>, BlockError> {
    let lower = owned(alloc, lower)?;
    let upper = owned(alloc, upper)?;
    let slices = seven_keys(alloc)?;
    let mut stream: EntryStreamer<U64MonotonicValueReader, A, WithoutKeys> =
        EntryStreamer::over_slices(alloc, slices, automaton, lower, upper)?;
    let mut positions = Vec::new(alloc);
    for _ in 0..20 {
        if !stream.advance()? {
            break;
        }
        positions.push(stream.term_ord())?;
    }
    Ok(positions)
}
