// Reading blocks one after the other.
ghost use Rattle.std.specs.Prelude.{◌≡◌, ◌≢◌, true, Ok, ◌<◌, ◌≤◌, ◌+◌, ◌^◌, [], ◌++◌, length, take, drop, min, Some, None, OnOk, OnErr, IfOk, IfErr, IsTrue, slice_range};
ghost use Rattle.sstable_values.specs.Vint.{vint_at};
ghost use Rattle.sstable_blocks.specs.Content.{block_at};
ghost use Rattle.sstable_blocks.specs.BlockReader.{IsFound, ReadsBlock, AreWithin, behind, before_bytes, before_slices, unread, bytes_of};

use owned_bytes::OwnedBytes;
use sstable_values::{BlockError, vint};
use std::alloc::{AllocError, Global};
use std::marker::Model;
use std::ops::Range;
use std::vec::IntoIter;

// A block's length word and its compress byte.
const HEAD_LEN: usize = 5;

// The content of the block at the front and the bytes after it, its length word at the place.
#[tactic(auto, unfolding(crate::specs::Content::block_at))]
fn block_front(place: u64, bytes: &[u8]) -> Result<Option<(&[u8], &[u8])>, BlockError>
    ensures { IsFound result (block_at place bytes.now) }
{
    if bytes.is_empty() {
        return Ok(None);
    }
    if bytes.len() < 4 {
        return Err(BlockError::Corrupt);
    }
    let (front, rest) = bytes.split_at(4);
    let len = u32::from_le_bytes([front[0], front[1], front[2], front[3]]) as usize;
    if len < 2 {
        return Ok(None);
    }
    match rest {
        [] => Err(BlockError::Corrupt),
        [1, ..] => Err(BlockError::Compressed(place)),
        [0, rest @ ..] => {
            if rest.len() < len - 1 {
                return Err(BlockError::Corrupt);
            }
            Ok(Some(rest.split_at(len - 1)))
        }
        [_, ..] => Err(BlockError::Corrupt),
    }
}

/// A part of a table's blocks: its bytes, the position of its first entry, and where it starts in the table.
#[derive(Drop)]
pub struct BlockSlice {
    pub bytes: OwnedBytes,
    pub first_ordinal: u64,
    pub start: u64,
}

/// Reads the blocks of slices one after the other. It takes them where they lie, and copies nothing.
#[derive(Drop)]
pub struct BlockReader {
    reader: OwnedBytes,
    start: u64,
    begin: usize,
    at: usize,
    next: usize,
    next_slices: IntoIter<BlockSlice>,
    // of the slice that it came to last, as long as that wasn't asked for
    first_ordinal: Option<u64>,
}

impl Model for BlockReader {
    ghost use Rattle.std.specs.Prelude.{◌+◌, ◌-◌, length, take, drop};
    ghost use Rattle.std.specs.Vec.Iter.{into_iter_items};
    ghost use Rattle.sstable_blocks.specs.BlockReader.{State, InOrder};

    ghost Value = { State };

    ghost view = { λ r. record {
      block = take (r.next - r.begin) (drop r.begin r.reader);
      offset = r.at - r.begin;
      rest = drop r.next r.reader;
      place = r.start + r.next;
      more = into_iter_items r.next_slices;
      ordinal = r.first_ordinal;
    } };

    ghost invariant = { λ r. InOrder r.start r.begin r.at r.next (length r.reader) (into_iter_items r.next_slices) };
}

impl BlockReader {
    /// A reader before the first block. `start` is where the bytes stand in the table.
    pub fn new(alloc: Global, reader: OwnedBytes, start: u64) -> BlockReader
        requires { start + length reader < 2 ^ 64 }
        ensures { result ≡ before_bytes reader start }
    {
        BlockReader {
            reader,
            start,
            begin: 0,
            at: 0,
            next: 0,
            next_slices: Vec::new(alloc).into_iter(),
            first_ordinal: None,
        }
    }

    /// A reader before the first block of the first slice.
    pub fn from_multiple_blocks(alloc: Global, readers: Vec<BlockSlice>) -> BlockReader
        requires { AreWithin readers.items }
        ensures { result ≡ before_slices readers.items }
    {
        let mut next_slices = readers.into_iter();
        match next_slices.next() {
            None => BlockReader::new(alloc, OwnedBytes::empty(alloc).unwrap(), 0),
            Some(slice) => BlockReader {
                reader: slice.bytes,
                start: slice.start,
                begin: 0,
                at: 0,
                next: 0,
                next_slices,
                first_ordinal: Some(slice.first_ordinal),
            },
        }
    }

    /// The first ordinal of the slice that the reader came to last. It answers it once.
    pub fn take_first_ordinal(&mut self) -> Option<u64>
        ensures value { result ≡ self.old.ordinal }
        ensures taken { self.new ≡ record self.old { ordinal = None } }
    {
        let first_ordinal = self.first_ordinal;
        self.first_ordinal = None;
        first_ordinal
    }

    // Goes behind the block, and on to the next slice as long as nothing is left of this one.
    fn leave_block(&mut self)
        ensures { self.new ≡ behind self.old }
    {
        self.begin = self.next;
        self.at = self.next;
        while self.next == self.reader.len() {
            let Some(slice) = self.next_slices.next() else {
                break;
            };
            self.reader = slice.bytes;
            self.start = slice.start;
            self.begin = 0;
            self.at = 0;
            self.next = 0;
            self.first_ordinal = Some(slice.first_ordinal);
        }
    }

    // Goes to the block that stands next in the slice; false at the end of its blocks.
    fn enter_block(&mut self) -> Result<bool, BlockError>
        requires none { self.old.block ≡ [] }
        requires unread { self.old.offset ≡ 0 }
        ensures read { ReadsBlock self.old self.new result }
        ensures placed { self.new.place < 2 ^ 64 }
    {
        let place = self.start + self.next as u64;
        self.begin = self.next;
        self.at = self.next;
        let len = match block_front(place, &self.reader.as_slice()[self.next..]) {
            Err(e) => return Err(e),
            Ok(None) => return Ok(false),
            Ok(Some((content, _rest))) => content.len(),
        };
        self.begin += HEAD_LEN;
        self.at = self.begin;
        self.next += HEAD_LEN + len;
        Ok(true)
    }

    /// Goes to the next block, of this slice or of one after it; false at the end of the last one, or at a length word of
    /// 0 or 1.
    pub fn read_block(&mut self) -> Result<bool, BlockError>
        ensures read { ReadsBlock (behind self.old) self.new result }
        ensures placed { self.new.place < 2 ^ 64 }
        // At the end and with an error each later call begins at the same place, and so answers the same.
        ensures for_good { result ≢ Ok true → behind self.new ≡ self.new }
        ensures falls { IfOk result (λ more. IsTrue more → bytes_of self.new < bytes_of self.old) }
    {
        self.leave_block();
        self.enter_block()
    }

    /// Takes a `vint` off the front of what is left of the block.
    pub fn deserialize_u64(&mut self) -> Result<u64, BlockError>
        ensures ok { IfOk result (λ n. vint_at (unread self.old) ≡ Some (n, unread self.new)) }
        ensures err { IfErr result (λ e. (e ≡ BlockError.Corrupt) × (vint_at (unread self.old) ≡ None)) }
        ensures rest { OnOk result (self.new ≡ record self.old { offset = self.new.offset }) }
        ensures unchanged { OnErr result (self.new ≡ self.old) }
    {
        let Some((num_bytes, val)) = vint::deserialize_read(self.buffer()) else {
            return Err(BlockError::Corrupt);
        };
        self.advance(num_bytes);
        Ok(val)
    }

    /// A range of the block's content.
    pub fn buffer_from_to(&self, range: Range<usize>) -> &[u8]
        requires ordered { range.start ≤ range.end }
        requires within { range.end ≤ length self.now.block }
        ensures { result.now ≡ slice_range self.now.block range.start range.end }
    {
        &self.reader.as_slice()[self.begin + range.start..self.begin + range.end]
    }

    /// How many bytes of the block's content were read.
    pub fn offset(&self) -> usize
        ensures value { result ≡ self.now.offset }
        ensures within { result ≤ length self.now.block }
    {
        self.at - self.begin
    }

    /// Passes over bytes of the block.
    pub fn advance(&mut self, num_bytes: usize)
        requires { num_bytes ≤ length (unread self.old) }
        ensures { self.new ≡ record self.old { offset = self.old.offset + num_bytes } }
    {
        self.at += num_bytes;
    }

    /// What is left of the block.
    pub fn buffer(&self) -> &[u8]
        ensures { result.now ≡ unread self.now }
    {
        &self.reader.as_slice()[self.at..self.next]
    }

    /// Takes as much of the block as there is room for and there is left, and answers how much.
    pub fn read(&mut self, buf: &mut [u8]) -> usize
        ensures count { result ≡ min (length (unread self.old)) (length buf.old) }
        ensures bytes { buf.new ≡ take result (unread self.old) ++ drop result buf.old }
        ensures rest { self.new ≡ record self.old { offset = self.old.offset + result } }
    {
        let left = self.buffer();
        let count = left.len().min(buf.len());
        buf[..count].copy_from_slice(&left[..count]);
        self.advance(count);
        count
    }

    /// Fills the buffer from the block; `Corrupt` where less is left, and then nothing is taken.
    pub fn read_exact(&mut self, buf: &mut [u8]) -> Result<(), BlockError>
        ensures bytes { OnOk result (buf.new ≡ take (length buf.old) (unread self.old)) }
        ensures rest { OnOk result (self.new ≡ record self.old { offset = self.old.offset + length buf.old }) }
        ensures enough { OnOk result (length buf.old ≤ length (unread self.old)) }
        ensures err { IfErr result (λ e. (e ≡ BlockError.Corrupt) × (length (unread self.old) < length buf.old)) }
        ensures unchanged { OnErr result ((self.new ≡ self.old) × (buf.new ≡ buf.old)) }
    {
        let left = self.buffer();
        if left.len() < buf.len() {
            return Err(BlockError::Corrupt);
        }
        buf.copy_from_slice(&left[..buf.len()]);
        self.advance(buf.len());
        Ok(())
    }

    /// Appends what is left of the block, and answers how much that was. An error changes nothing.
    pub fn read_to_end(&mut self, buf: &mut Vec<u8>) -> Result<usize, AllocError>
        ensures bytes { OnOk result (buf.new.items ≡ buf.old.items ++ unread self.old) }
        ensures count { IfOk result (λ n. n ≡ length (unread self.old)) }
        ensures rest { IfOk result (λ n. self.new ≡ record self.old { offset = self.old.offset + n }) }
        ensures unchanged { OnErr result ((self.new ≡ self.old) × (buf.new.items ≡ buf.old.items)) }
    {
        let left = self.buffer();
        let count = left.len();
        buf.extend_from_slice(left)?;
        self.advance(count);
        Ok(count)
    }
}
