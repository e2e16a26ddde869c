// Indexes of version 2.
ghost use Rattle.std.specs.Prelude.{◌≡◌};
ghost use Rattle.block_addresses.specs.Found.{element_at};
ghost use Rattle.block_addresses.specs.Opened.{may_follow, can_index};
ghost use Rattle.sstable_index.specs.Building.{addresses_in};
ghost use Rattle.sstable_index.specs.Located.{number_with_key, block_with_key, IsLocated, IsLocatedBlock};
ghost use Rattle.sstable_index.specs.Reading.{LoadsV2};

use crate::key_list::KeyList;
use crate::load_errors::{LoadError, SSTableDataCorruption};
use crate::run_v2::{is_end_of_index, read_run};
use owned_bytes::OwnedBytes;
use sstable_blocks::BlockAddr;
use std::alloc::Global;
use std::marker::Model;

/// The index of a version 2 table. Contracts see the list of its entries, each a key and a place.
#[derive(Drop)]
pub struct SSTableIndexV2 {
    keys: KeyList,
    addresses: Vec<BlockAddr>,
}

impl Model for SSTableIndexV2 {
    ghost use Rattle.std.specs.Prelude.{List};
    ghost use Rattle.std.specs.List.{zip};
    ghost use Rattle.sstable_format.specs.Index.{IndexEntry};
    ghost use Rattle.sstable_index.specs.Loaded.{AreTied};

    ghost Value = { List IndexEntry };

    ghost view = { λ index. zip index.keys index.addresses.items };

    ghost invariant = { λ index. AreTied index.keys index.addresses.items };
}

// Whether a table's block can have this address, after a block with this ordinal.
fn may_follow(ordinal: u64, addr: &BlockAddr) -> bool
    ensures { result ≡ may_follow ordinal addr.now }
{
    addr.byte_range.start <= addr.byte_range.end && ordinal <= addr.first_ordinal
}

// Whether a table's blocks can have these addresses.
fn can_index(addresses: &[BlockAddr]) -> bool
    ensures { result ≡ can_index addresses.now }
{
    let mut ordinal = 0;
    for i in 0..addresses.len() {
        let addr = &addresses[i];
        if !may_follow(ordinal, addr) {
            return false;
        }
        ordinal = addr.first_ordinal;
    }
    true
}

impl SSTableIndexV2 {
    /// The index that the bytes are. `Corrupt` exactly where they are none that a table can have, and none of their blocks
    /// is found to be compressed.
    pub fn load(alloc: Global, data: OwnedBytes) -> Result<Self, LoadError>
        ensures { LoadsV2 «data» result }
    {
        let whole = data.clone(alloc)?;
        let (keys, addresses, end) = match read_run(alloc, data) {
            Ok(run) => run,
            Err(e) => return Err(e),
        };
        if !is_end_of_index(&whole.as_slice()[end..]) || !can_index(addresses.as_slice()) {
            return Err(LoadError::Corrupt(SSTableDataCorruption));
        }
        Ok(SSTableIndexV2 { keys, addresses })
    }

    /// Where a block stands, by its number from 0 on; `None` where there is no such block.
    pub fn get_block(&self, block_id: u64) -> Option<BlockAddr>
        ensures { result ≡ element_at (addresses_in self.now) block_id }
    {
        if block_id >= self.addresses.len() as u64 {
            return None;
        }
        let addr = &self.addresses[block_id as usize];
        Some(BlockAddr {
            first_ordinal: addr.first_ordinal,
            byte_range: addr.byte_range.start..addr.byte_range.end,
        })
    }

    /// The number of the first block whose index key isn't below the key; `None` where there is none.
    pub fn locate_with_key(&self, key: &[u8]) -> Option<u64>
        ensures { result ≡ number_with_key key.now self.now }
    {
        match self.keys.first_at_or_above(key) {
            Some(number) => Some(number as u64),
            None => None,
        }
    }

    /// Where the block stands that the key is in, if it is in the table: the first one whose index key isn't below the key.
    pub fn get_block_with_key(&self, key: &[u8]) -> Option<BlockAddr>
        ensures { result ≡ block_with_key key.now self.now }
    {
        let number = self.locate_with_key(key)?;
        self.get_block(number)
    }

    /// The number of the last block whose first key isn't behind the position, or else 0.
    pub fn locate_with_ord(&self, ord: u64) -> u64
        ensures { IsLocated ord (addresses_in self.now) result }
    {
        let len = self.addresses.len();
        if len == 0 {
            return 0;
        }
        let mut low = 0;
        let mut high = len;
        'halve: while high - low > 1 {
            let middle = low + (high - low) / 2;
            let addr = &self.addresses[middle];
            if addr.first_ordinal <= ord {
                low = middle;
            } else {
                high = middle;
            }
        }
        low as u64
    }

    /// Where that block stands; `None` where there is no block.
    pub fn get_block_with_ord(&self, ord: u64) -> Option<BlockAddr>
        ensures { IsLocatedBlock ord (addresses_in self.now) result }
    {
        self.get_block(self.locate_with_ord(ord))
    }
}
