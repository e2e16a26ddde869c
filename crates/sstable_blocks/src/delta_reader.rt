// Readers of the entries of blocks, also of several slices.
ghost use Rattle.std.specs.Prelude.{◌≡◌, ◌<◌, ◌+◌, ◌^◌, List, ℕ, [], length, Option, Some, None, IfOk, IfSome, IsSome, IsTrue};
ghost use Rattle.sstable_blocks.specs.Run.{run_of};
ghost use Rattle.sstable_blocks.specs.BlockReader.{AreWithin, before_bytes, before_slices};
ghost use Rattle.sstable_blocks.specs.Slices.{placed_run, entries_over, entries_here, Begins, HasEntriesOf, GivesHere, GivesEntries, StepsUnlessFinal, IsInSliceUnlessFinal, Stays, AnswersFinal, bytes_left};

use crate::block_reader::{BlockReader, BlockSlice};
use crate::entry_reader::EntryReader;
use owned_bytes::OwnedBytes;
use sstable_values::{BlockError, ValueReader};
use std::alloc::Global;
use std::marker::Model;

/// Reads the entries of blocks in order: of each key what it keeps of the key before and what it adds, and the value.
#[derive(Drop)]
pub struct DeltaReader<T: ValueReader> {
    entries: EntryReader<T>,
}

impl<T: ValueReader> Model for DeltaReader<T> {
    ghost use Rattle.sstable_blocks.specs.Slices.{Sliced};
    ghost use Rattle.sstable_blocks.specs.EntryReader.{sliced};

    ghost Value = { Sliced T.Value.Shown };

    ghost view = { λ reader. sliced T.loaded reader.entries };
}

impl<T: ValueReader> DeltaReader<T> {
    /// A reader before the first entry. `start` is where the bytes stand in the table.
    pub fn new(alloc: Global, reader: OwnedBytes, start: u64) -> Self
        requires { start + length reader < 2 ^ 64 }
        ensures begins { Begins T.codec result (before_bytes reader start) }
        ensures run { entries_here T.codec None result ≡ run_of T.codec reader }
        ensures entries { (next : ℕ) → entries_over T.codec None next result ≡ placed_run T.codec next reader }
    {
        DeltaReader {
            entries: EntryReader::over(alloc, BlockReader::new(alloc, reader, start)),
        }
    }

    /// A reader before the first entry of the first slice.
    pub fn from_multiple_blocks(alloc: Global, readers: Vec<BlockSlice>) -> Self
        requires { AreWithin readers.items }
        ensures begins { Begins T.codec result (before_slices readers.items) }
        ensures entries { HasEntriesOf T.codec readers.items result }
    {
        DeltaReader {
            entries: EntryReader::over(alloc, BlockReader::from_multiple_blocks(alloc, readers)),
        }
    }

    /// A reader without entries.
    pub fn empty(alloc: Global) -> Self
        ensures begins { Begins T.codec result (before_bytes [] 0) }
        ensures run { entries_here T.codec None result ≡ Some [] }
        ensures entries { (next : ℕ) → entries_over T.codec None next result ≡ Some [] }
    {
        Self::new(alloc, OwnedBytes::empty(alloc).unwrap(), 0)
    }

    /// The first ordinal of the slice that the reader came to last. It answers it once; ask after each `advance`.
    pub fn take_first_ordinal(&mut self) -> Option<u64>
        ensures value { result ≡ self.old.ordinal }
        ensures taken { self.new ≡ record self.old { ordinal = None } }
    {
        self.entries.take_first_ordinal()
    }

    /// Goes to the next entry; false where none is left. `Corrupt` too where a block has no key, or more keys than
    /// values. The end and an error are answered again by each later call.
    pub fn advance(&mut self) -> Result<bool, BlockError>
        ensures for_good { AnswersFinal self.old self.new result }
        ensures stays { Stays self.new result }
        ensures step { StepsUnlessFinal T.codec self.old self.new result }
        // Whatever the answer, it is in the slice in which the next entry is looked for.
        ensures slice { IsInSliceUnlessFinal self.old self.new }
        ensures falls { IfOk result (λ more. IsTrue more → bytes_left self.new < bytes_left self.old) }
        ensures run { GivesHere T.codec self.old self.new result }
        ensures entries { GivesEntries T.codec self.old self.new result }
    {
        self.entries.advance()
    }

    /// How many bytes the current key keeps of the key before it.
    pub fn common_prefix_len(&self) -> usize
        requires { IsSome self.now.walk.current }
        ensures { IfSome self.now.walk.current (λ entry. result ≡ entry.delta.keep) }
    {
        self.entries.common_prefix_len()
    }

    /// What the current key adds to that.
    pub fn suffix(&self) -> &[u8]
        requires { IsSome self.now.walk.current }
        ensures { IfSome self.now.walk.current (λ entry. result.now ≡ entry.delta.suffix) }
    {
        self.entries.suffix()
    }

    /// The current entry's value.
    pub fn value(&self) -> &T::Value
        requires { IsSome self.now.walk.current }
        ensures { IfSome self.now.walk.current (λ entry. T.Value.shown result.now ≡ entry.value) }
    {
        self.entries.value()
    }
}
