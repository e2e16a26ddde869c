// Blocks that adjoin, for the rows.
ghost use Rattle.sstable_index.specs.BuildingV2.{AreShort};
ghost use Rattle.index_vectors.specs.Ends.{EndsAt};

use sstable_index::SSTableIndexBuilder;
use std::alloc::{AllocError, Global};

// An index that is built, where its last block ends, and the position of the first key behind that.
#[derive(Drop)]
pub struct Blocks {
    pub builder: SSTableIndexBuilder,
    end: u64,
    ordinal: u64,
    ghost adjoin: { EndsAt builder end ordinal },
    ghost short: { AreShort builder },
}

impl Blocks {
    // No block; the first is to start at the place.
    pub fn new(alloc: Global, start: u64) -> Blocks {
        Blocks {
            builder: SSTableIndexBuilder::new(alloc),
            end: start,
            ordinal: 0,
        }
    }

    // Adds a block of so many bytes and keys by its last key, which is to have at most 65,535 bytes.
    pub fn add(&mut self, key: &[u8], len: u32, keys: u32) -> Result<(), AllocError> {
        if key.len() > 65_535 {
            return Err(AllocError);
        }
        let Some(end) = self.end.checked_add(len as u64) else {
            return Err(AllocError);
        };
        let Some(ordinal) = self.ordinal.checked_add(keys as u64) else {
            return Err(AllocError);
        };
        self.builder.add_block(key, self.end..end, self.ordinal)?;
        self.end = end;
        self.ordinal = ordinal;
        Ok(())
    }

    // The next key is this one.
    pub fn shorten(&mut self, next: &[u8]) {
        self.builder.shorten_last_block_key_given_next_key(next);
    }
}
