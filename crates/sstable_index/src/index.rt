// The index of a table's blocks.
ghost use Rattle.std.specs.Prelude.{◌≡◌, ◌+◌, ◌^◌, ◌<◌, length, true};
ghost use Rattle.sstable_format.specs.Version.{is_known};
ghost use Rattle.block_addresses.specs.Found.{element_at};
ghost use Rattle.sstable_index.specs.Errors.{error_in_table};
ghost use Rattle.sstable_index.specs.Located.{IsLocated, IsLocatedBlock};
ghost use Rattle.sstable_index.specs.Shown.{shown_blocks, number_for_key, block_for_key};
ghost use Rattle.sstable_index.specs.Reading.{ReadsIndex};

use crate::SstError;
use crate::index_v2::SSTableIndexV2;
use crate::index_v3::{SSTableIndexV3, SSTableIndexV3Empty};
use crate::load_errors::LoadError;
use owned_bytes::{OwnedBytes, last_u64};
use sstable_blocks::BlockAddr;
use sstable_format::Footer;
use std::alloc::Global;

/// Where the blocks of a table are.
#[derive(Drop)]
pub enum SSTableIndex {
    /// That of a version 2 table.
    V2(SSTableIndexV2),
    /// That of a version 3 table of several blocks.
    V3(SSTableIndexV3),
    /// That of a version 3 table of at most one block.
    V3Empty(SSTableIndexV3Empty),
}

// The error in a table whose index part begins at the place.
fn error_at(start: u64, error: LoadError) -> SstError
    ensures { result ≡ error_in_table start error }
{
    match error {
        LoadError::Memory => SstError::Memory,
        LoadError::Corrupt(_) => SstError::Corrupt,
        LoadError::Compressed(place) => SstError::Compressed(start.saturating_add(place)),
    }
}

impl SSTableIndex {
    /// The index that an index part tells, by the footer behind it. `Corrupt` exactly where it is none that a table can
    /// have, and no block of a version 2 index is found to be compressed; such a block's place counts from the table's start.
    pub fn load(alloc: Global, footer: &Footer, part: OwnedBytes) -> Result<SSTableIndex, SstError>
        requires known { is_known footer.now.version ≡ true }
        requires placed { footer.now.index_offset + length part < 2 ^ 64 }
        ensures { ReadsIndex footer.now part result }
    {
        if footer.version == 2 {
            return match SSTableIndexV2::load(alloc, part) {
                Ok(index) => Ok(SSTableIndex::V2(index)),
                Err(e) => Err(error_at(footer.index_offset, e)),
            };
        }
        if part.len() < 8 {
            return Err(SstError::Corrupt);
        }
        let fst_length = last_u64(part.as_slice());
        if fst_length == 0 {
            return Ok(SSTableIndex::V3Empty(SSTableIndexV3Empty::load(
                footer.index_offset as usize,
            )));
        }
        let (data, _) = part.rsplit(alloc, 8)?;
        match SSTableIndexV3::load(alloc, data, fst_length) {
            Ok(index) => Ok(SSTableIndex::V3(index)),
            Err(e) => Err(error_at(footer.index_offset, e)),
        }
    }

    /// Where a block stands, by its number from 0 on; `None` where there is no such block.
    pub fn get_block(&self, block_id: u64) -> Option<BlockAddr>
        ensures { result ≡ element_at (shown_blocks self.now) block_id }
    {
        match self {
            SSTableIndex::V2(index) => index.get_block(block_id),
            SSTableIndex::V3(index) => index.get_block(block_id),
            SSTableIndex::V3Empty(index) => index.get_block(block_id),
        }
    }

    /// The number of the block that the key is in, if it is in the table: the first one whose index key isn't below the key,
    /// or the only one. `None` where there is none.
    pub fn locate_with_key(&self, key: &[u8]) -> Option<u64>
        ensures { result ≡ number_for_key key.now self.now }
    {
        match self {
            SSTableIndex::V2(index) => index.locate_with_key(key),
            SSTableIndex::V3(index) => index.locate_with_key(key),
            SSTableIndex::V3Empty(index) => index.locate_with_key(key),
        }
    }

    /// Where that block stands.
    pub fn get_block_with_key(&self, key: &[u8]) -> Option<BlockAddr>
        ensures { result ≡ block_for_key key.now self.now }
    {
        match self {
            SSTableIndex::V2(index) => index.get_block_with_key(key),
            SSTableIndex::V3(index) => index.get_block_with_key(key),
            SSTableIndex::V3Empty(index) => index.get_block_with_key(key),
        }
    }

    /// The number of the last block whose first key isn't behind the position, or else 0.
    pub fn locate_with_ord(&self, ord: u64) -> u64
        ensures { IsLocated ord (shown_blocks self.now) result }
    {
        match self {
            SSTableIndex::V2(index) => index.locate_with_ord(ord),
            SSTableIndex::V3(index) => index.locate_with_ord(ord),
            SSTableIndex::V3Empty(index) => index.locate_with_ord(ord),
        }
    }

    /// Where that block stands; `None` where there is no block.
    pub fn get_block_with_ord(&self, ord: u64) -> Option<BlockAddr>
        ensures { IsLocatedBlock ord (shown_blocks self.now) result }
    {
        match self {
            SSTableIndex::V2(index) => index.get_block_with_ord(ord),
            SSTableIndex::V3(index) => index.get_block_with_ord(ord),
            SSTableIndex::V3Empty(index) => index.get_block_with_ord(ord),
        }
    }
}
