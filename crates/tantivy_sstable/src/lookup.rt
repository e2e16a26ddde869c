// Keys that are looked up in a block.
ghost use Rattle.std.specs.Prelude.{◌+◌, ◌<◌, ◌^◌, length, IfErr};
ghost use Rattle.tantivy_sstable.specs.Finding.{FindsRun, IsLookupError, TellsPlaceFrom};

use crate::{SSTable, SstError};
use block_search::{KeyHit, find_key};
use owned_bytes::OwnedBytes;
use sstable_blocks::DeltaReader;
use std::alloc::Global;

/// The value at a key in blocks, which stand in their table from the place on.
pub(crate) fn value_in<S: SSTable>(
    alloc: Global,
    blocks: OwnedBytes,
    start: u64,
    key: &[u8],
) -> Result<Option<S::Value>, SstError>
    requires { start + length blocks < 2 ^ 64 }
    ensures found { FindsRun S.ValueReader.codec S.Value.shown blocks key.now result }
    ensures error { IfErr result IsLookupError }
    ensures compressed { IfErr result (TellsPlaceFrom start blocks) }
{
    let mut reader = DeltaReader::<S::ValueReader>::new(alloc, blocks, start);
    match find_key(&mut reader, key) {
        Ok(KeyHit::Exact(_)) => Ok(Some(S::clone_value(alloc, reader.value())?)),
        Ok(KeyHit::Next(_)) => Ok(None),
        Err(e) => Err(SstError::from(e)),
    }
}
