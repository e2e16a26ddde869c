// Places of blocks, each of which starts where the one before ends.
ghost use Rattle.std.specs.Prelude.{◌≡◌, ◌++◌, [], IsTrue, OnOk, OnErr};
ghost use Rattle.std.specs.Io.{StartsWith};
ghost use Rattle.sstable_values.specs.Values.{Listed};
ghost use Rattle.sstable_values.specs.Codec.{index, are_in_turn, first_start};
ghost use Rattle.sstable_values.specs.Reads.{Took};
ghost use Rattle.sstable_values.specs.Writes.{AreReadAgain};

use crate::block_addr::BlockAddr;
use crate::errors::{BlockError, ValueError};
use crate::value::{StoredValue, ValueReader, ValueWriter};
use crate::vint;
use std::alloc::{AllocError, Global};

impl StoredValue for BlockAddr {
    type Shown = BlockAddr;

    ghost shown = { λ address. address };
}

/// Reads the places of blocks that adjoin.
#[derive(Drop)]
pub struct IndexValueReader {
    vals: Vec<BlockAddr>,
}

// Reads the places at the front into an empty vector, and answers how many bytes they take.
fn read_addresses(content: &[u8], vals: &mut Vec<BlockAddr>) -> Result<usize, BlockError>
    requires { vals.old.items ≡ [] }
    ensures { Took result index.values_of content.now (Listed vals.new.items) }
{
    let Some((count_len, count)) = vint::deserialize_read(content) else {
        return Err(BlockError::Corrupt);
    };
    let Some((start_len, first_start)) = vint::deserialize_read(&content[count_len..]) else {
        return Err(BlockError::Corrupt);
    };
    let mut taken = count_len + start_len;
    // A place takes two bytes or more.
    let room = count.min((content.len() - taken) as u64 / 2);
    vals.reserve(room as usize)?;
    let mut start = first_start as usize;
    let mut first_ordinal: u64 = 0;
    for _i in 0..count {
        let Some((len_len, len)) = vint::deserialize_read(&content[taken..]) else {
            return Err(BlockError::Corrupt);
        };
        taken += len_len;
        let Some((difference_len, difference)) = vint::deserialize_read(&content[taken..]) else {
            return Err(BlockError::Corrupt);
        };
        taken += difference_len;
        let Some(end) = start.checked_add(len as usize) else {
            return Err(BlockError::Corrupt);
        };
        let Some(ordinal) = first_ordinal.checked_add(difference) else {
            return Err(BlockError::Corrupt);
        };
        first_ordinal = ordinal;
        vals.push(BlockAddr {
            first_ordinal,
            byte_range: start..end,
        })?;
        start = end;
    }
    Ok(taken)
}

#[tactic(auto, unfolding(crate::specs::Codec::index))]
impl ValueReader for IndexValueReader {
    type Value = BlockAddr;

    ghost codec = { index };

    ghost loaded = { λ r. Listed r.vals.items };

    fn new(alloc: Global) -> Self {
        IndexValueReader {
            vals: Vec::new(alloc),
        }
    }

    fn value(&self, idx: usize) -> &BlockAddr {
        &self.vals[idx]
    }

    fn count(&self) -> Option<usize> {
        Some(self.vals.len())
    }

    fn load(&mut self, content: &[u8]) -> Result<usize, BlockError> {
        self.vals.clear();
        let taken = read_addresses(content, &mut self.vals);
        if taken.is_err() {
            self.vals.clear();
        }
        taken
    }
}

/// Gathers the places of blocks that adjoin.
#[derive(Drop)]
pub struct IndexValueWriter {
    vals: Vec<BlockAddr>,
    ghost ordered: { IsTrue (are_in_turn vals.items) },
}

// Where the first of the blocks starts, and 0 without one.
fn start_of(blocks: &[BlockAddr]) -> usize
    ensures { result ≡ first_start blocks.now }
{
    match blocks.first() {
        None => 0,
        Some(block) => block.byte_range.start,
    }
}

// Appends how many places there are, where the first starts, and each one's length with its ordinal's difference from
// the one before it.
fn write_addresses(blocks: &[BlockAddr], output: &mut Vec<u8>) -> Result<(), AllocError>
    requires { IsTrue (are_in_turn blocks.now) }
    ensures ok { OnOk result (output.new.items ≡ output.old.items ++ index.spelled (Listed blocks.now)) }
    ensures again { OnOk result (AreReadAgain index (Listed blocks.now)) }
    ensures err { OnErr result (StartsWith output.new.items output.old.items) }
{
    vint::serialize_into_vec(blocks.len() as u64, output)?;
    vint::serialize_into_vec(start_of(blocks) as u64, output)?;
    let mut before: u64 = 0;
    for block in blocks {
        let len = block.byte_range.end - block.byte_range.start;
        vint::serialize_into_vec(len as u64, output)?;
        vint::serialize_into_vec(block.first_ordinal - before, output)?;
        before = block.first_ordinal;
    }
    Ok(())
}

#[tactic(auto, unfolding(crate::specs::Codec::index))]
impl ValueWriter for IndexValueWriter {
    type Value = BlockAddr;

    ghost codec = { index };

    ghost written = { λ w. Listed w.vals.items };

    fn new(alloc: Global) -> Self {
        IndexValueWriter {
            vals: Vec::new(alloc),
        }
    }

    fn accepts(&self, val: &BlockAddr) -> bool {
        let range = &val.byte_range;
        range.start <= range.end
            && match self.vals.last() {
                None => true,
                Some(last) => {
                    last.byte_range.end == range.start && last.first_ordinal <= val.first_ordinal
                }
            }
    }

    fn write(&mut self, val: &BlockAddr) -> Result<(), ValueError> {
        if !self.accepts(val) {
            return Err(ValueError::Refused);
        }
        self.vals.push(BlockAddr {
            first_ordinal: val.first_ordinal,
            byte_range: val.byte_range.start..val.byte_range.end,
        })?;
        Ok(())
    }

    fn serialize_block(&self, output: &mut Vec<u8>) -> Result<(), AllocError> {
        write_addresses(self.vals.as_slice(), output)
    }

    fn clear(&mut self) {
        self.vals.clear();
    }
}
