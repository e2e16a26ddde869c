// Ranges, each of which starts where the one before ends.
ghost use Rattle.std.specs.Prelude.{◌≡◌, ◌++◌, [], IsTrue};
ghost use Rattle.sstable_values.specs.Values.{Listed};
ghost use Rattle.sstable_values.specs.Codec.{range, spans_between, are_bounds};
ghost use Rattle.sstable_values.specs.Reads.{Took};

use crate::errors::{BlockError, ValueError};
use crate::value::{ValueReader, ValueWriter, write_rising};
use crate::vint;
use std::alloc::{AllocError, Global};
use std::ops::Range;

/// Reads ranges that adjoin.
#[derive(Drop)]
pub struct RangeValueReader {
    vals: Vec<Range<u64>>,
}

// Reads the ranges between the boundaries at the front into an empty vector, and answers how many bytes they take.
fn read_ranges(content: &[u8], vals: &mut Vec<Range<u64>>) -> Result<usize, BlockError>
    requires { vals.old.items ≡ [] }
    ensures { Took result range.values_of content.now (Listed vals.new.items) }
{
    let Some((count_len, count)) = vint::deserialize_read(content) else {
        return Err(BlockError::Corrupt);
    };
    if count == 0 {
        return Ok(count_len);
    }
    let Some((first_len, first)) = vint::deserialize_read(&content[count_len..]) else {
        return Err(BlockError::Corrupt);
    };
    let mut taken = count_len + first_len;
    // A boundary takes a byte or more.
    let room = (count - 1).min((content.len() - taken) as u64);
    vals.reserve(room as usize)?;
    let mut before = first;
    for _i in 1..count {
        let Some((len, difference)) = vint::deserialize_read(&content[taken..]) else {
            return Err(BlockError::Corrupt);
        };
        let Some(bound) = before.checked_add(difference) else {
            return Err(BlockError::Corrupt);
        };
        vals.push(before..bound)?;
        before = bound;
        taken += len;
    }
    Ok(taken)
}

#[tactic(auto, unfolding(crate::specs::Codec::range))]
impl ValueReader for RangeValueReader {
    type Value = Range<u64>;

    ghost codec = { range };

    ghost loaded = { λ r. Listed r.vals.items };

    fn new(alloc: Global) -> Self {
        RangeValueReader {
            vals: Vec::new(alloc),
        }
    }

    fn value(&self, idx: usize) -> &Range<u64> {
        &self.vals[idx]
    }

    fn count(&self) -> Option<usize> {
        Some(self.vals.len())
    }

    fn load(&mut self, content: &[u8]) -> Result<usize, BlockError> {
        self.vals.clear();
        let taken = read_ranges(content, &mut self.vals);
        if taken.is_err() {
            self.vals.clear();
        }
        taken
    }
}

/// Gathers ranges that adjoin. It keeps their boundaries.
#[derive(Drop)]
pub struct RangeValueWriter {
    vals: Vec<u64>,
    ghost ordered: { IsTrue (are_bounds vals.items) },
}

#[tactic(auto, unfolding(crate::specs::Codec::range))]
impl ValueWriter for RangeValueWriter {
    type Value = Range<u64>;

    ghost codec = { range };

    ghost written = { λ w. Listed (spans_between w.vals.items) };

    fn new(alloc: Global) -> Self {
        RangeValueWriter {
            vals: Vec::new(alloc),
        }
    }

    fn accepts(&self, val: &Range<u64>) -> bool {
        val.start <= val.end
            && match self.vals.last() {
                None => true,
                Some(last) => *last == val.start,
            }
    }

    fn write(&mut self, val: &Range<u64>) -> Result<(), ValueError> {
        if !self.accepts(val) {
            return Err(ValueError::Refused);
        }
        if self.vals.is_empty() {
            self.vals.extend_from_slice(&[val.start, val.end])?;
        } else {
            self.vals.push(val.end)?;
        }
        Ok(())
    }

    fn serialize_block(&self, output: &mut Vec<u8>) -> Result<(), AllocError> {
        write_rising(self.vals.as_slice(), output)
    }

    fn clear(&mut self) {
        self.vals.clear();
    }
}
