// Lists of numbers of 32 bits.
ghost use Rattle.std.specs.Prelude.{◌≡◌, ◌+◌, ◌*◌, ◌<◌, ◌≤◌, ◌++◌, [], length, drop, Some, None, IfOk, IfErr, IfSome, IfNone, OnOk, OnErr};
ghost use Rattle.std.specs.Int.{w32};
ghost use Rattle.std.specs.Io.{StartsWith};
ghost use Rattle.owned_bytes.specs.Front.{number_at};
ghost use Rattle.sstable_values.specs.Values.{Listed};
ghost use Rattle.sstable_values.specs.Codec.{vec_u32, list_at, list, count_limit, AreCountable, items_of};
ghost use Rattle.sstable_values.specs.Reads.{Took, CorruptOnly, ReadsAgain};
ghost use Rattle.sstable_values.specs.Writes.{AreReadAgain};

use crate::errors::{BlockError, ValueError};
use crate::value::{StoredValue, ValueReader, ValueWriter};
use owned_bytes::Items;
use std::alloc::{AllocError, Global};

// Counts and lengths are below this.
const COUNT_LIMIT: usize = 1 << 32;

impl StoredValue for Vec<u32> {
    type Shown = Items<u32>;

    ghost shown = { λ numbers. numbers.items };
}

/// Reads lists of numbers.
#[derive(Drop)]
pub struct VecU32ValueReader {
    alloc: Global,
    vals: Vec<Vec<u32>>,
}

// The number in the four bytes at a place.
fn word_at(bytes: &[u8], at: usize) -> Option<u32>
    requires { at ≤ length bytes.now }
    ensures within { IfSome result (λ _. at + 4 ≤ length bytes.now) }
    ensures found { IfSome result (λ n. number_at w32 (drop at bytes.now) ≡ Some (n, drop (at + 4) bytes.now)) }
    ensures none { IfNone result (number_at w32 (drop at bytes.now) ≡ None) }
{
    let rest = &bytes[at..];
    match rest.first_chunk::<4>() {
        Some(word) => Some(u32::from_le_bytes(*word)),
        None => None,
    }
}

// The list at a place, and the place after it.
fn read_list(alloc: Global, content: &[u8], at: usize) -> Result<(Vec<u32>, usize), BlockError>
    requires { at ≤ length content.now }
    ensures within { IfOk result (λ it. it.1 ≤ length content.now) }
    ensures found { IfOk result (λ it. list_at (drop at content.now) ≡ Some (it.0.items, drop it.1 content.now)) }
    ensures corrupt { IfErr result (λ e. CorruptOnly e (list_at (drop at content.now) ≡ None)) }
{
    let Some(count) = word_at(content, at) else {
        return Err(BlockError::Corrupt);
    };
    let mut taken = at + 4;
    let room = (count as usize).min((content.len() - taken) / 4);
    let mut numbers = Vec::with_capacity(alloc, room)?;
    for _i in 0..count {
        let Some(number) = word_at(content, taken) else {
            return Err(BlockError::Corrupt);
        };
        numbers.push(number)?;
        taken += 4;
    }
    Ok((numbers, taken))
}

// Reads the lists at the front into an empty vector, and answers how many bytes they take.
fn read_lists(alloc: Global, content: &[u8], vals: &mut Vec<Vec<u32>>) -> Result<usize, BlockError>
    requires { vals.old.items ≡ [] }
    ensures { Took result vec_u32.values_of content.now (Listed (items_of vals.new.items)) }
{
    let Some(count) = word_at(content, 0) else {
        return Err(BlockError::Corrupt);
    };
    let mut taken: usize = 4;
    // A list takes four bytes or more.
    let room = (count as usize).min((content.len() - taken) / 4);
    vals.reserve(room)?;
    for _i in 0..count {
        let (numbers, end) = match read_list(alloc, content, taken) {
            Ok(found) => found,
            Err(e) => return Err(e),
        };
        vals.push(numbers)?;
        taken = end;
    }
    Ok(taken)
}

#[tactic(auto, unfolding(crate::specs::Codec::vec_u32))]
impl ValueReader for VecU32ValueReader {
    type Value = Vec<u32>;

    ghost codec = { vec_u32 };

    ghost loaded = { λ r. Listed (items_of r.vals.items) };

    fn new(alloc: Global) -> Self {
        VecU32ValueReader {
            alloc,
            vals: Vec::new(alloc),
        }
    }

    fn value(&self, idx: usize) -> &Vec<u32> {
        &self.vals[idx]
    }

    fn count(&self) -> Option<usize> {
        Some(self.vals.len())
    }

    fn load(&mut self, content: &[u8]) -> Result<usize, BlockError> {
        self.vals.clear();
        let taken = read_lists(self.alloc, content, &mut self.vals);
        if taken.is_err() {
            self.vals.clear();
        }
        taken
    }
}

/// Gathers lists of numbers, of which it makes copies.
#[derive(Drop)]
pub struct VecU32ValueWriter {
    alloc: Global,
    vals: Vec<Vec<u32>>,
    ghost countable: { AreCountable (items_of vals.items) },
}

// Appends how many numbers there are, and the numbers.
fn write_list(numbers: &[u32], output: &mut Vec<u8>) -> Result<(), AllocError>
    requires { length numbers.now < count_limit }
    ensures ok { OnOk result (output.new.items ≡ output.old.items ++ list numbers.now) }
    ensures again { OnOk result (ReadsAgain list_at (list numbers.now) numbers.now) }
    ensures err { OnErr result (StartsWith output.new.items output.old.items) }
{
    output.extend_from_slice(&(numbers.len() as u32).to_le_bytes())?;
    for number in numbers {
        output.extend_from_slice(&number.to_le_bytes())?;
    }
    Ok(())
}

// Appends how many lists there are, and the lists.
fn write_lists(lists: &[Vec<u32>], output: &mut Vec<u8>) -> Result<(), AllocError>
    requires { AreCountable (items_of lists.now) }
    ensures ok { OnOk result (output.new.items ≡ output.old.items ++ vec_u32.spelled (Listed (items_of lists.now))) }
    ensures again { OnOk result (AreReadAgain vec_u32 (Listed (items_of lists.now))) }
    ensures err { OnErr result (StartsWith output.new.items output.old.items) }
{
    output.extend_from_slice(&(lists.len() as u32).to_le_bytes())?;
    for numbers in lists {
        write_list(numbers.as_slice(), output)?;
    }
    Ok(())
}

#[tactic(auto, unfolding(crate::specs::Codec::vec_u32))]
impl ValueWriter for VecU32ValueWriter {
    type Value = Vec<u32>;

    ghost codec = { vec_u32 };

    ghost written = { λ w. Listed (items_of w.vals.items) };

    fn new(alloc: Global) -> Self {
        VecU32ValueWriter {
            alloc,
            vals: Vec::new(alloc),
        }
    }

    fn accepts(&self, val: &Vec<u32>) -> bool {
        self.vals.len() + 1 < COUNT_LIMIT && val.len() < COUNT_LIMIT
    }

    fn write(&mut self, val: &Vec<u32>) -> Result<(), ValueError> {
        if !self.accepts(val) {
            return Err(ValueError::Refused);
        }
        let numbers = val.as_slice().to_vec(self.alloc)?;
        self.vals.push(numbers)?;
        Ok(())
    }

    fn serialize_block(&self, output: &mut Vec<u8>) -> Result<(), AllocError> {
        write_lists(self.vals.as_slice(), output)
    }

    fn clear(&mut self) {
        self.vals.clear();
    }
}
