// Indexes of version 3.
ghost use Rattle.std.specs.Prelude.{◌≡◌, ℕ, [], ◌∷◌, length, map, Some};
ghost use Rattle.owned_bytes.specs.Keys.{is_same};
ghost use Rattle.sstable_format.specs.Store.{numbers_from};
ghost use Rattle.block_addresses.specs.Found.{element_at};
ghost use Rattle.sstable_index.specs.Building.{addresses_in};
ghost use Rattle.sstable_index.specs.Located.{number_with_key, block_with_key, IsLocated, IsLocatedBlock};
ghost use Rattle.sstable_index.specs.Reading.{LoadsV3};

use crate::load_errors::{LoadError, SSTableDataCorruption};
use block_addresses::{AddressStore, StoreError};
use fst_map::Fst;
use owned_bytes::OwnedBytes;
use sstable_blocks::BlockAddr;
use std::alloc::Global;
use std::marker::Model;

/// The index of a version 3 table: a map from a key of each block to the block's number, and a store of the places.
/// Contracts see the list of its entries, each a key and a place.
#[derive(Drop)]
pub struct SSTableIndexV3 {
    fst_index: Fst,
    block_addr_store: AddressStore,
}

impl Model for SSTableIndexV3 {
    ghost use Rattle.std.specs.Prelude.{List, map};
    ghost use Rattle.sstable_format.specs.Index.{IndexEntry};
    ghost use Rattle.sstable_index.specs.Loaded.{entries_by, AreTied};

    ghost Value = { List IndexEntry };

    ghost view = { λ index. entries_by index.fst_index index.block_addr_store };

    ghost invariant = { λ index. AreTied (map (λ entry. entry.0) index.fst_index) index.block_addr_store };
}

// Whether the values of a map are 0, 1, 2 and so on.
fn is_numbered(fst: &Fst) -> bool
    ensures { result ≡ is_same (map (λ entry. entry.1) fst.now) (numbers_from 0 (length fst.now)) }
{
    for i in 0..fst.len() {
        if fst.value(i) != i as u64 {
            return false;
        }
    }
    true
}

impl SSTableIndexV3 {
    /// The index that a map of so many bytes and the store behind it are. `Corrupt` exactly where they are none that a table
    /// can have. It reads them once, and copies nothing.
    pub fn load(alloc: Global, data: OwnedBytes, fst_length: u64) -> Result<Self, LoadError>
        ensures { LoadsV3 fst_length «data» result }
    {
        if fst_length > data.len() as u64 {
            return Err(LoadError::Corrupt(SSTableDataCorruption));
        }
        let (fst, store) = data.split(alloc, fst_length as usize)?;
        let Ok(fst_index) = Fst::open(alloc, fst) else {
            return Err(LoadError::Corrupt(SSTableDataCorruption));
        };
        let block_addr_store = match AddressStore::open(alloc, store) {
            Ok(block_addr_store) => block_addr_store,
            Err(StoreError::Memory) => return Err(LoadError::Memory),
            Err(StoreError::Corrupt) => return Err(LoadError::Corrupt(SSTableDataCorruption)),
        };
        if fst_index.len() as u64 != block_addr_store.len() || !is_numbered(&fst_index) {
            return Err(LoadError::Corrupt(SSTableDataCorruption));
        }
        Ok(SSTableIndexV3 {
            fst_index,
            block_addr_store,
        })
    }

    /// Where a block stands, by its number from 0 on; `None` where there is no such block.
    pub fn get_block(&self, block_id: u64) -> Option<BlockAddr>
        ensures { result ≡ element_at (addresses_in self.now) block_id }
    {
        self.block_addr_store.get(block_id)
    }

    /// The number of the first block whose index key isn't below the key; `None` where there is none.
    pub fn locate_with_key(&self, key: &[u8]) -> Option<u64>
        ensures { result ≡ number_with_key key.now self.now }
    {
        match self.fst_index.first_at_or_above(key) {
            Some(number) => Some(number as u64),
            None => None,
        }
    }

    /// Where the block stands that the key is in, if it is in the table: the first one whose index key isn't below the key.
    pub fn get_block_with_key(&self, key: &[u8]) -> Option<BlockAddr>
        ensures { result ≡ block_with_key key.now self.now }
    {
        let number = self.locate_with_key(key)?;
        self.get_block(number)
    }

    /// The number of the last block whose first key isn't behind the position, or else 0.
    pub fn locate_with_ord(&self, ord: u64) -> u64
        ensures { IsLocated ord (addresses_in self.now) result }
    {
        if self.block_addr_store.len() == 0 {
            return 0;
        }
        self.block_addr_store.locate_with_ord(ord)
    }

    /// Where that block stands; `None` where there is no block.
    pub fn get_block_with_ord(&self, ord: u64) -> Option<BlockAddr>
        ensures { IsLocatedBlock ord (addresses_in self.now) result }
    {
        self.get_block(self.locate_with_ord(ord))
    }
}

/// The index of a version 3 table of at most one block.
#[derive(Debug, Drop)]
pub struct SSTableIndexV3Empty {
    /// The block, with the four zero bytes behind it, or those alone.
    pub block_addr: BlockAddr,
}

impl SSTableIndexV3Empty {
    /// The block is all bytes up to the index part.
    pub fn load(index_start_pos: usize) -> SSTableIndexV3Empty
        ensures first { result.block_addr.first_ordinal ≡ 0 }
        ensures start { result.block_addr.start ≡ 0 }
        ensures end { result.block_addr.end ≡ index_start_pos }
    {
        SSTableIndexV3Empty {
            block_addr: BlockAddr {
                first_ordinal: 0,
                byte_range: 0..index_start_pos,
            },
        }
    }

    // The block.
    fn block(&self) -> BlockAddr
        ensures { result ≡ self.now.block_addr }
    {
        BlockAddr {
            first_ordinal: self.block_addr.first_ordinal,
            byte_range: self.block_addr.byte_range.start..self.block_addr.byte_range.end,
        }
    }

    /// Where a block stands, by its number; `None` for any but 0.
    pub fn get_block(&self, block_id: u64) -> Option<BlockAddr>
        ensures { result ≡ element_at (self.now.block_addr ∷ []) block_id }
    {
        if block_id == 0 {
            Some(self.block())
        } else {
            None
        }
    }

    /// The number of the block, which any key is looked for in.
    pub fn locate_with_key(&self, key: &[u8]) -> Option<u64>
        ensures { result ≡ Some 0 }
    {
        let _ = key;
        Some(0)
    }

    /// Where the block stands, whatever the key.
    pub fn get_block_with_key(&self, key: &[u8]) -> Option<BlockAddr>
        ensures { result ≡ Some self.now.block_addr }
    {
        let _ = key;
        Some(self.block())
    }

    /// The number of the block.
    pub fn locate_with_ord(&self, ord: u64) -> u64
        ensures { IsLocated ord (self.now.block_addr ∷ []) result }
    {
        let _ = ord;
        0
    }

    /// Where the block stands, whatever the position.
    pub fn get_block_with_ord(&self, ord: u64) -> Option<BlockAddr>
        ensures { IsLocatedBlock ord (self.now.block_addr ∷ []) result }
    {
        let _ = ord;
        Some(self.block())
    }
}
