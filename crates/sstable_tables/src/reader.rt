// The entries of a table in order.
ghost use Rattle.std.specs.Prelude.{◌≡◌, ◌+◌, ◌<◌, ◌^◌, [], length, IfOk, IfSome, IsSome, IsTrue};
ghost use Rattle.sstable_blocks.specs.BlockReader.{before_bytes};

use owned_bytes::OwnedBytes;
use sstable_blocks::DeltaReader;
use sstable_values::{BlockError, ValueReader};
use std::alloc::Global;
use std::marker::Model;

/// Reads the entries of blocks in order, with their keys whole.
#[derive(Drop)]
pub struct Reader<T: ValueReader> {
    key: Vec<u8>,
    delta_reader: DeltaReader<T>,
    // whether memory was wanting for a key, which is then not whole
    lost_key: bool,
}

impl<T: ValueReader> Model for Reader<T> {
    ghost use Rattle.sstable_tables.specs.Reading.{Reads, unless_lost};

    ghost Value = { Reads T.Value.Shown };

    ghost view = { λ r. record { stands = unless_lost r.lost_key r.delta_reader; key = r.key.items } };
}

impl<T: ValueReader> Reader<T> {
    ghost use Rattle.sstable_blocks.specs.Slices.{Begins, Stays, StepsUnlessFinal, bytes_left};
    ghost use Rattle.sstable_tables.specs.Reading.{HasRun, HasLeft, KeepsAnswer, GivesNext};

    /// A reader before the first entry. `start` is where the bytes stand in the table.
    pub fn new(alloc: Global, reader: OwnedBytes, start: u64) -> Self
        requires { start + length reader < 2 ^ 64 }
        ensures begins { Begins T.codec result.stands (before_bytes reader start) }
        ensures key { result.key ≡ [] }
        ensures entries { HasRun T.codec reader result }
    {
        Reader {
            key: Vec::new(alloc),
            delta_reader: DeltaReader::new(alloc, reader, start),
            lost_key: false,
        }
    }

    /// A reader without entries.
    pub fn empty(alloc: Global) -> Self
        ensures begins { Begins T.codec result.stands (before_bytes [] 0) }
        ensures key { result.key ≡ [] }
        ensures entries { HasLeft T.codec result [] }
    {
        Reader {
            key: Vec::new(alloc),
            delta_reader: DeltaReader::empty(alloc),
            lost_key: false,
        }
    }

    /// Goes to the next entry; false where none is left. The end and an error are answered again by each later call.
    pub fn advance(&mut self) -> Result<bool, BlockError>
        ensures for_good { KeepsAnswer self.old self.new result }
        ensures stays { Stays self.new.stands result }
        ensures step { StepsUnlessFinal T.codec self.old.stands self.new.stands result }
        ensures falls { IfOk result (λ more. IsTrue more → bytes_left self.new.stands < bytes_left self.old.stands) }
        ensures entries { GivesNext T.codec self.old self.new result }
    {
        if self.lost_key {
            return Err(BlockError::Memory);
        }
        if !self.delta_reader.advance()? {
            return Ok(false);
        }
        self.key.truncate(self.delta_reader.common_prefix_len());
        match self.key.extend_from_slice(self.delta_reader.suffix()) {
            Ok(()) => Ok(true),
            Err(_) => {
                self.lost_key = true;
                Err(BlockError::Memory)
            }
        }
    }

    /// The key of the current entry.
    pub fn key(&self) -> &[u8]
        ensures { result.now ≡ self.now.key }
    {
        self.key.as_slice()
    }

    /// The value of the current entry.
    pub fn value(&self) -> &T::Value
        requires { IsSome self.now.stands.walk.current }
        ensures { IfSome self.now.stands.walk.current (λ entry. T.Value.shown result.now ≡ entry.value) }
    {
        self.delta_reader.value()
    }
}
