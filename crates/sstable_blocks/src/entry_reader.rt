// Reading the entries of blocks one after the other.
ghost use Rattle.std.specs.Prelude.{◌≡◌, ◌<◌, ◌≤◌, ◌+◌, ◌^◌, List, ℕ, [], length, drop, Option, Some, None, IfOk, IfErr, IfSome, IfNone, OnOk, OnErr, IsSome, IsTrue, ◌⊎◌};
ghost use Rattle.owned_bytes.specs.Keys.{Key};
ghost use Rattle.sstable_blocks.specs.Delta.{keep_and_add_at, delta_at};
ghost use Rattle.sstable_values.specs.Values.{count_of};
ghost use Rattle.sstable_blocks.specs.BlockReader.{unread, behind, bytes_of};
ghost use Rattle.sstable_blocks.specs.BlockSteps.{EntersBlock, TakesDelta};

use crate::block_reader::{BlockReader, BlockSlice};
use owned_bytes::OwnedBytes;
use sstable_values::{BlockError, ValueReader, vint};
use std::alloc::Global;
use std::ops::Range;

// What a delta keeps and adds, and where the added bytes begin.
fn read_keep_and_add(bytes: &[u8]) -> Option<((u64, u64), usize)>
    ensures within { IfSome result (λ found. (1 ≤ found.1) × (found.1 ≤ length bytes.now)) }
    ensures found { IfSome result (λ found. keep_and_add_at bytes.now ≡ Some (found.0, drop found.1 bytes.now)) }
    ensures none { IfNone result (keep_and_add_at bytes.now ≡ None) }
{
    let (first, rest) = bytes.split_first()?;
    let first = *first;
    if first != 1 {
        return Some(((u64::from(first % 16), u64::from(first / 16)), 1));
    }
    let (keep_len, keep) = vint::deserialize_read(rest)?;
    let (add_len, add) = vint::deserialize_read(&rest[keep_len..])?;
    Some(((keep, add), 1 + keep_len + add_len))
}

// Takes the delta at the front: what it keeps, and where its added bytes stand in the block.
fn take_delta(blocks: &mut BlockReader) -> Result<(u64, Range<usize>), BlockError>
    ensures ok { IfOk result (λ found. TakesDelta blocks.old blocks.new found.0 found.1.start found.1.end) }
    ensures err { IfErr result (λ e. (e ≡ BlockError.Corrupt) × (delta_at (unread blocks.old) ≡ None)) }
    ensures unchanged { OnErr result (blocks.new ≡ blocks.old) }
    ensures falls { OnOk result (bytes_of blocks.new < bytes_of blocks.old) }
{
    let buffer = blocks.buffer();
    let Some(((keep, add), len)) = read_keep_and_add(buffer) else {
        return Err(BlockError::Corrupt);
    };
    if add > (buffer.len() - len) as u64 {
        return Err(BlockError::Corrupt);
    }
    blocks.advance(len);
    let begin = blocks.offset();
    blocks.advance(add as usize);
    Ok((keep, begin..blocks.offset()))
}

// Goes to the next block and reads its values; false at the end.
fn enter_block<T: ValueReader>(blocks: &mut BlockReader, values: &mut T) -> Result<bool, BlockError>
    ensures block { EntersBlock T.codec (behind blocks.old) blocks.new (T.loaded values.old) (T.loaded values.new) result }
    ensures more { blocks.new.more ≡ (behind blocks.old).more }
    ensures ordinal { blocks.new.ordinal ≡ (behind blocks.old).ordinal }
    ensures after { length (unread blocks.new) ≤ blocks.new.place }
    ensures placed { blocks.new.place < 2 ^ 64 }
    ensures falls { IfOk result (λ more. IsTrue more → bytes_of blocks.new < bytes_of blocks.old) }
{
    if !blocks.read_block()? {
        return Ok(false);
    }
    let consumed_len = values.load(blocks.buffer())?;
    blocks.advance(consumed_len);
    Ok(true)
}

// Whether a reader has a current entry, or an answer that it gives for good.
#[derive(Clone, Copy)]
enum Standing {
    Between,
    AtEntry,
    Ended,
    Failed(BlockError),
}

// The fields of a reader of entries.
#[derive(Drop)]
pub(crate) struct EntryReader<T> {
    common_prefix_len: usize,
    suffix_range: Range<usize>,
    value_reader: T,
    block_reader: BlockReader,
    // the current entry's place in its block, and how many entries of the block were given
    idx: usize,
    given: usize,
    standing: Standing,
    ghost suffix_ordered: { suffix_range.start ≤ suffix_range.end },
    ghost suffix_within: { suffix_range.end ≤ length block_reader.block },
    ghost counted: { given + length (unread block_reader) ≤ block_reader.place },
    ghost placed: { block_reader.place < 2 ^ 64 },
}

impl<T: ValueReader> EntryReader<T> {
    ghost use Rattle.sstable_blocks.specs.Slices.{Begins, Steps, StepsUnlessFinal, IsInSlice, IsInSliceUnlessFinal, ready, Stays, AnswersFinal};
    ghost use Rattle.sstable_blocks.specs.EntryReader.{sliced, StepsWithin};

    // A reader before the first entry.
    pub fn over(alloc: Global, block_reader: BlockReader) -> Self
        requires none { block_reader.block ≡ [] }
        requires placed { block_reader.place < 2 ^ 64 }
        ensures { Begins T.codec (sliced T.loaded result) block_reader }
    {
        EntryReader {
            common_prefix_len: 0,
            suffix_range: 0..0,
            value_reader: T::new(alloc),
            block_reader,
            idx: 0,
            given: 0,
            standing: Standing::Between,
        }
    }

    // The first ordinal of the slice that it came to last.
    pub fn take_first_ordinal(&mut self) -> Option<u64>
        ensures value { result ≡ (sliced T.loaded self.old).ordinal }
        ensures taken { sliced T.loaded self.new ≡ record (sliced T.loaded self.old) { ordinal = None } }
    {
        self.block_reader.take_first_ordinal()
    }

    // Goes to the next entry of the block.
    fn advance_within(&mut self) -> Result<bool, BlockError>
        ensures step { StepsWithin (sliced T.loaded self.old) (sliced T.loaded self.new) result }
        ensures slice { IsInSlice (sliced T.loaded self.old) (sliced T.loaded self.new) }
        ensures stays { Stays (sliced T.loaded self.new) result }
        ensures falls { IfOk result (λ more. IsTrue more → bytes_of self.new.block_reader < bytes_of self.old.block_reader) }
    {
        if let Some(count) = self.value_reader.count()
            && self.given >= count
        {
            self.standing = Standing::Failed(BlockError::Corrupt);
            return Err(BlockError::Corrupt);
        }
        match take_delta(&mut self.block_reader) {
            Ok((keep, suffix_range)) => {
                self.common_prefix_len = keep as usize;
                self.suffix_range = suffix_range;
                self.idx = self.given;
                self.given += 1;
                self.standing = Standing::AtEntry;
                Ok(true)
            }
            Err(error) => {
                self.standing = Standing::Failed(error);
                Err(error)
            }
        }
    }

    // Goes to the next entry, of this block or the next one, where no answer stays.
    fn advance_onward(&mut self) -> Result<bool, BlockError>
        ensures step { Steps T.codec (sliced T.loaded self.old) (sliced T.loaded self.new) result }
        ensures slice { IsInSlice (ready (sliced T.loaded self.old)) (sliced T.loaded self.new) }
        ensures stays { Stays (sliced T.loaded self.new) result }
        ensures falls { IfOk result (λ more. IsTrue more → bytes_of self.new.block_reader < bytes_of self.old.block_reader) }
    {
        if !self.block_reader.buffer().is_empty() {
            return self.advance_within();
        }
        self.suffix_range = 0..0;
        self.given = 0;
        match enter_block(&mut self.block_reader, &mut self.value_reader) {
            Ok(true) => self.advance_within(),
            Ok(false) => {
                self.standing = Standing::Ended;
                Ok(false)
            }
            Err(error) => {
                self.standing = Standing::Failed(error);
                Err(error)
            }
        }
    }

    // Goes to the next entry.
    pub fn advance(&mut self) -> Result<bool, BlockError>
        ensures for_good { AnswersFinal (sliced T.loaded self.old) (sliced T.loaded self.new) result }
        ensures step { StepsUnlessFinal T.codec (sliced T.loaded self.old) (sliced T.loaded self.new) result }
        ensures slice { IsInSliceUnlessFinal (sliced T.loaded self.old) (sliced T.loaded self.new) }
        ensures stays { Stays (sliced T.loaded self.new) result }
        ensures falls { IfOk result (λ more. IsTrue more → bytes_of self.new.block_reader < bytes_of self.old.block_reader) }
    {
        match self.standing {
            Standing::Ended => Ok(false),
            Standing::Failed(error) => Err(error),
            _ => self.advance_onward(),
        }
    }

    // How many bytes the current key keeps.
    pub fn common_prefix_len(&self) -> usize
        requires { IsSome (sliced T.loaded self.now).walk.current }
        ensures { IfSome (sliced T.loaded self.now).walk.current (λ entry. result ≡ entry.delta.keep) }
    {
        self.common_prefix_len
    }

    // What it adds.
    pub fn suffix(&self) -> &[u8]
        requires { IsSome (sliced T.loaded self.now).walk.current }
        ensures { IfSome (sliced T.loaded self.now).walk.current (λ entry. result.now ≡ entry.delta.suffix) }
    {
        self.block_reader
            .buffer_from_to(self.suffix_range.start..self.suffix_range.end)
    }

    // The current value.
    pub fn value(&self) -> &T::Value
        requires { IsSome (sliced T.loaded self.now).walk.current }
        ensures { IfSome (sliced T.loaded self.now).walk.current (λ entry. T.Value.shown result.now ≡ entry.value) }
    {
        self.value_reader.value(self.idx)
    }
}
