// Numbers that don't fall.
ghost use Rattle.std.specs.Prelude.{◌≡◌, [], IsTrue};
ghost use Rattle.sstable_values.specs.Values.{Listed};
ghost use Rattle.sstable_values.specs.Codec.{monotonic_u64, never_falls};
ghost use Rattle.sstable_values.specs.Reads.{Took};

use crate::errors::{BlockError, ValueError};
use crate::value::{ValueReader, ValueWriter, write_rising};
use crate::vint;
use std::alloc::{AllocError, Global};

/// Reads numbers that don't fall.
#[derive(Drop)]
pub struct U64MonotonicValueReader {
    vals: Vec<u64>,
}

// Reads the numbers at the front into an empty vector, and answers how many bytes they take.
fn read_numbers(content: &[u8], vals: &mut Vec<u64>) -> Result<usize, BlockError>
    requires { vals.old.items ≡ [] }
    ensures { Took result monotonic_u64.values_of content.now (Listed vals.new.items) }
{
    let Some((count_len, count)) = vint::deserialize_read(content) else {
        return Err(BlockError::Corrupt);
    };
    // A number takes a byte or more.
    let room = count.min((content.len() - count_len) as u64);
    vals.reserve(room as usize)?;
    let mut taken = count_len;
    let mut before: u64 = 0;
    for _i in 0..count {
        let Some((len, difference)) = vint::deserialize_read(&content[taken..]) else {
            return Err(BlockError::Corrupt);
        };
        let Some(number) = before.checked_add(difference) else {
            return Err(BlockError::Corrupt);
        };
        vals.push(number)?;
        before = number;
        taken += len;
    }
    Ok(taken)
}

#[tactic(auto, unfolding(crate::specs::Codec::monotonic_u64))]
impl ValueReader for U64MonotonicValueReader {
    type Value = u64;

    ghost codec = { monotonic_u64 };

    ghost loaded = { λ r. Listed r.vals.items };

    fn new(alloc: Global) -> Self {
        U64MonotonicValueReader {
            vals: Vec::new(alloc),
        }
    }

    fn value(&self, idx: usize) -> &u64 {
        &self.vals[idx]
    }

    fn count(&self) -> Option<usize> {
        Some(self.vals.len())
    }

    fn load(&mut self, content: &[u8]) -> Result<usize, BlockError> {
        self.vals.clear();
        let taken = read_numbers(content, &mut self.vals);
        if taken.is_err() {
            self.vals.clear();
        }
        taken
    }
}

/// Gathers numbers that don't fall.
#[derive(Drop)]
pub struct U64MonotonicValueWriter {
    vals: Vec<u64>,
    ghost ordered: { IsTrue (never_falls 0 vals.items) },
}

#[tactic(auto, unfolding(crate::specs::Codec::monotonic_u64))]
impl ValueWriter for U64MonotonicValueWriter {
    type Value = u64;

    ghost codec = { monotonic_u64 };

    ghost written = { λ w. Listed w.vals.items };

    fn new(alloc: Global) -> Self {
        U64MonotonicValueWriter {
            vals: Vec::new(alloc),
        }
    }

    fn accepts(&self, val: &u64) -> bool {
        match self.vals.last() {
            None => true,
            Some(last) => *last <= *val,
        }
    }

    fn write(&mut self, val: &u64) -> Result<(), ValueError> {
        if !self.accepts(val) {
            return Err(ValueError::Refused);
        }
        self.vals.push(*val)?;
        Ok(())
    }

    fn serialize_block(&self, output: &mut Vec<u8>) -> Result<(), AllocError> {
        write_rising(self.vals.as_slice(), output)
    }

    fn clear(&mut self) {
        self.vals.clear();
    }
}
