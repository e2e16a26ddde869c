// The entries of blocks in order, within bounds and in the language of an automaton.
ghost use Rattle.std.specs.Prelude.{◌≡◌, Some, [], IfOk, IfSome, IsSome};
ghost use Rattle.sstable_blocks.specs.BlockReader.{AreWithin};
ghost use Rattle.sstable_streams.specs.Held.{HoldsSlices};
ghost use Rattle.sstable_streams.specs.Streams.{HasRest, IsBefore, StreamsOver, StreamsSlices, TakesFirst, GivesFirst, GivesFirstValue, LeavesFewer, TellsCompressed, Stays, AnswersFinal};

use crate::cursor::Cursor;
use crate::trail::Trail;
use common_wire::KeyTracking;
use fst_map::{AlwaysMatch, Automaton};
use sstable_blocks::{BlockError, BlockSlice, DeltaReader, ValueReader};
use std::alloc::{AllocError, Global};
use std::marker::Model;
use std::ops::Bound;

// Whether a streamer has a current entry, or an answer that it gives for good.
#[derive(Clone, Copy)]
enum Standing {
    Between,
    AtEntry,
    Ended,
    Failed(BlockError),
}

/// Goes over the entries of a reader that lie within two bounds and whose keys an automaton takes. It keeps the current
/// key where `K` is `Vec<u8>`, and none where it is `WithoutKeys`.
#[derive(Drop)]
pub struct EntryStreamer<T: ValueReader, A: Automaton, K: KeyTracking> {
    cursor: Cursor<DeltaReader<T>, A, K, A::State>,
    standing: Standing,
}

impl<T: ValueReader, A: Automaton, K: KeyTracking> Model for EntryStreamer<T, A, K> {
    ghost use Rattle.sstable_streams.specs.Streams.{Stream};
    ghost use Rattle.sstable_streams.specs.Places.{stream_of};

    ghost Value = { Stream T.Value.Shown A A.State };

    ghost view = { λ s. stream_of K.tracked s.cursor s.standing };
}

impl<T: ValueReader + Drop, A: Automaton + Drop, K: KeyTracking + Drop> EntryStreamer<T, A, K> {
    /// A streamer over what a reader has left that gave no entry yet. The first entry has this position, unless the
    /// reader's slice tells it.
    pub fn new(
        alloc: Global,
        delta_reader: DeltaReader<T>,
        first_ordinal: u64,
        automaton: A,
        lower: Bound<Vec<u8>>,
        upper: Bound<Vec<u8>>,
    ) -> Result<Self, AllocError>
        ensures begins { IfOk result IsBefore }
        ensures reader { IfOk result (λ s. s.reader ≡ delta_reader) }
        ensures rest { IfOk result (StreamsOver T.codec A.machine delta_reader first_ordinal automaton lower upper) }
    {
        Ok(EntryStreamer {
            cursor: Cursor {
                delta_reader,
                trail: Trail::new(alloc, automaton, lower, upper)?,
                ord: 0,
                next: Some(first_ordinal),
            },
            standing: Standing::Between,
        })
    }

    /// A streamer over the entries of slices.
    pub fn over_slices(
        alloc: Global,
        slices: Vec<BlockSlice>,
        automaton: A,
        lower: Bound<Vec<u8>>,
        upper: Bound<Vec<u8>>,
    ) -> Result<Self, AllocError>
        requires { AreWithin slices.items }
        ensures begins { IfOk result IsBefore }
        ensures held { IfOk result (λ s. HoldsSlices slices.items s.reader) }
        ensures rest { IfOk result (StreamsSlices T.codec A.machine slices.items automaton lower upper) }
    {
        let delta_reader = DeltaReader::from_multiple_blocks(alloc, slices);
        Self::new(alloc, delta_reader, 0, automaton, lower, upper)
    }
}

impl<T: ValueReader + Drop, K: KeyTracking + Drop> EntryStreamer<T, AlwaysMatch, K> {
    /// A streamer without entries.
    pub fn empty(alloc: Global) -> Result<Self, AllocError>
        ensures begins { IfOk result IsBefore }
        ensures rest { IfOk result (λ s. HasRest T.codec ⟦<AlwaysMatch as Automaton>⟧.machine s []) }
    {
        Self::new(
            alloc,
            DeltaReader::empty(alloc),
            0,
            AlwaysMatch,
            Bound::Unbounded,
            Bound::Unbounded,
        )
    }
}

impl<T: ValueReader, A: Automaton, K: KeyTracking> EntryStreamer<T, A, K> {
    /// Goes to the next entry; false where none is left. The end and an error are answered again by each later call.
    /// `Corrupt` and `Compressed` come only where the streamer has no rest.
    pub fn advance(&mut self) -> Result<bool, BlockError>
        ensures entry { TakesFirst T.codec A.machine self.old self.new result }
        ensures stays { Stays self.new result }
        ensures for_good { AnswersFinal self.old self.new result }
        ensures falls { LeavesFewer self.old.reader self.new.reader result }
        ensures compressed { TellsCompressed self.old self.new result }
    {
        match self.standing {
            Standing::Ended => return Ok(false),
            Standing::Failed(error) => return Err(error),
            _ => {}
        }
        let answer = self.cursor.seek();
        self.standing = match answer {
            Ok(true) => Standing::AtEntry,
            Ok(false) => Standing::Ended,
            Err(error) => Standing::Failed(error),
        };
        answer
    }

    /// The value of the current entry.
    pub fn value(&self) -> &T::Value
        requires { IsSome self.now.current }
        ensures { IfSome self.now.current (λ entry. T.Value.shown result.now ≡ entry.value) }
    {
        self.cursor.delta_reader.value()
    }

    /// The position of the current entry.
    pub fn term_ord(&self) -> u64
        requires { IsSome self.now.current }
        ensures { IfSome self.now.current (λ entry. result ≡ entry.ord) }
    {
        self.cursor.ord
    }

    /// Goes to the next entry and gives its value; `None` where none is left.
    pub fn next_without_key(&mut self) -> Result<Option<&T::Value>, BlockError>
        ensures { GivesFirstValue T.codec A.machine T.Value.shown self.old result }
    {
        match self.advance() {
            Ok(true) => Ok(Some(self.value())),
            Ok(false) => Ok(None),
            Err(error) => Err(error),
        }
    }
}

impl<T: ValueReader, A: Automaton> EntryStreamer<T, A, Vec<u8>> {
    /// The key of the current entry.
    pub fn key(&self) -> &[u8]
        requires { IsSome self.now.current }
        ensures { IfSome self.now.current (λ entry. entry.key ≡ Some result.now) }
    {
        self.cursor.trail.key.as_slice()
    }

    /// Goes to the next entry and gives its key and value; `None` where none is left.
    pub fn next(&mut self) -> Result<Option<(&[u8], &T::Value)>, BlockError>
        ensures { GivesFirst T.codec A.machine T.Value.shown self.old result }
    {
        match self.advance() {
            Ok(true) => Ok(Some((self.key(), self.value()))),
            Ok(false) => Ok(None),
            Err(error) => Err(error),
        }
    }
}
