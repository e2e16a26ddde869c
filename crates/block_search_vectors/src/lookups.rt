// Look-ups in blocks that are given as bytes.
ghost use Rattle.std.specs.Prelude.{◌<◌, ◌^◌, IfOk};
ghost use Rattle.sstable_blocks.specs.Slices.{bytes_left};

use block_search::{KeyHit, find_key, go_to_number};
use owned_bytes::OwnedBytes;
use sstable_blocks::{BlockError, DeltaReader, U64MonotonicValueReader};
use std::alloc::{AllocError, Global};

/// A reader of these bytes, which stand in their table from place 100 on.
pub fn reader_of(
    alloc: Global,
    bytes: &[u8],
) -> Result<DeltaReader<U64MonotonicValueReader>, AllocError>
    ensures { IfOk result (λ reader. bytes_left reader < 2 ^ 64) }
{
    Ok(DeltaReader::new(alloc, OwnedBytes::new(alloc, bytes.to_vec(alloc)?)?, 100))
}

/// Where a key stands in a block, and its value.
pub fn hit_of(
    alloc: Global,
    bytes: &[u8],
    key: &[u8],
) -> Result<(KeyHit, Option<u64>), BlockError> {
    let mut reader = reader_of(alloc, bytes)?;
    match find_key(&mut reader, key) {
        Ok(KeyHit::Exact(number)) => Ok((KeyHit::Exact(number), Some(*reader.value()))),
        Ok(KeyHit::Next(number)) => Ok((KeyHit::Next(number), None)),
        Err(e) => Err(e),
    }
}

/// The value of the entry of a number.
pub fn value_of(alloc: Global, bytes: &[u8], number: u64) -> Result<Option<u64>, BlockError> {
    let mut reader = reader_of(alloc, bytes)?;
    match go_to_number(&mut reader, number) {
        Ok(true) => Ok(Some(*reader.value())),
        Ok(false) => Ok(None),
        Err(e) => Err(e),
    }
}
