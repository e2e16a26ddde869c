// Kinds of tables.
ghost use Rattle.std.specs.Prelude.{◌≡◌, [], None, Some, IfOk};
ghost use Rattle.sstable_values.specs.Codec.{no_values};
ghost use Rattle.sstable_blocks.specs.Run.{run_of};
ghost use Rattle.sstable_blocks.specs.BlockReader.{before_bytes};
ghost use Rattle.sstable_blocks.specs.Slices.{Begins, entries_here};
ghost use Rattle.sstable_blocks.specs.Writing.{default_block_len, IsOpen};
ghost use Rattle.sstable_tables.specs.Making as made;
ghost use Rattle.sstable_tables.specs.Reading.{HasRun, HasLeft};

use crate::{Reader, Writer};
use owned_bytes::{OwnedBytes, Sink};
use sstable_blocks::{
    DeltaReader, DeltaWriter, RangeValueReader, RangeValueWriter, StoredValue,
    U64MonotonicValueReader, U64MonotonicValueWriter, ValueReader, ValueWriter, VecU32ValueReader,
    VecU32ValueWriter, VoidValueReader, VoidValueWriter,
};
use std::alloc::{AllocError, Global};
use std::ops::Range;

/// The position of a key in its table, from 0 on.
pub type TermOrdinal = u64;

/// A kind of table: the values that it stores, and how.
pub trait SSTable: Sized {
    /// The values that it stores.
    type Value: StoredValue;

    /// How the values of a block are read.
    type ValueReader: ValueReader<Value = Self::Value> + Drop;

    /// How the values of a block are written.
    type ValueWriter: ValueWriter<Value = Self::Value> + Drop;

    /// A copy of a value.
    fn clone_value(alloc: Global, value: &Self::Value) -> Result<Self::Value, AllocError>
        ensures { IfOk result (λ copy. Self.Value.shown copy ≡ Self.Value.shown value.now) };

    /// A writer of blocks that are appended to what the sink has.
    fn delta_writer<W: Sink>(alloc: Global, write: W) -> DeltaWriter<W, Self::ValueWriter>
        ensures sink { result.sink ≡ write }
        ensures written { result.written ≡ W.written write }
        ensures faults { result.faults ≡ W.faults write }
        ensures counted { result.counted ≡ 0 }
        ensures block_len { result.block_len ≡ default_block_len }
        ensures no_delta { result.deltas ≡ [] }
        ensures no_value { result.values ≡ no_values Self.ValueWriter.codec }
        ensures entries { IsOpen result [] }
    {
        DeltaWriter::new(alloc, write)
    }

    /// A writer of a table that is appended to what the sink has.
    fn writer<W: Sink>(alloc: Global, wrt: W) -> Writer<W, Self::ValueWriter>
        ensures begins { made.Begins result wrt }
        ensures small { made.HasSmallBlocks result }
    {
        Writer::new(alloc, wrt)
    }

    /// A reader of the entries of blocks, which stand at the front of a table.
    fn delta_reader(alloc: Global, reader: OwnedBytes) -> DeltaReader<Self::ValueReader>
        ensures begins { Begins Self.ValueReader.codec result (before_bytes reader 0) }
        ensures run { entries_here Self.ValueReader.codec None result ≡ run_of Self.ValueReader.codec reader }
    {
        prove!(reader.len() <= usize::MAX);
        DeltaReader::new(alloc, reader, 0)
    }

    /// A reader of the entries of blocks with their keys, which stand at the front of a table.
    fn reader(alloc: Global, reader: OwnedBytes) -> Reader<Self::ValueReader>
        ensures begins { Begins Self.ValueReader.codec result.stands (before_bytes reader 0) }
        ensures key { result.key ≡ [] }
        ensures entries { HasRun Self.ValueReader.codec reader result }
    {
        prove!(reader.len() <= usize::MAX);
        Reader::new(alloc, reader, 0)
    }

    /// A reader without entries.
    fn create_empty_reader(alloc: Global) -> Reader<Self::ValueReader>
        ensures begins { Begins Self.ValueReader.codec result.stands (before_bytes [] 0) }
        ensures key { result.key ≡ [] }
        ensures entries { HasLeft Self.ValueReader.codec result [] }
    {
        Reader::empty(alloc)
    }

    /// What a writer writes is what a reader reads.
    ghost same_codec: { Self.ValueReader.codec ≡ Self.ValueWriter.codec };
}

/// Tables of keys alone.
#[derive(Clone, Copy, Debug)]
pub struct VoidSSTable;

impl SSTable for VoidSSTable {
    ghost use Rattle.std.specs.Prelude.{refl};

    type Value = ();

    type ValueReader = VoidValueReader;

    type ValueWriter = VoidValueWriter;

    ghost same_codec = { refl };

    fn clone_value(_alloc: Global, _value: &()) -> Result<(), AllocError> {
        Ok(())
    }
}

/// Tables of numbers that don't fall within a block.
#[derive(Clone, Copy, Debug)]
pub struct MonotonicU64SSTable;

impl SSTable for MonotonicU64SSTable {
    ghost use Rattle.std.specs.Prelude.{refl};

    type Value = u64;

    type ValueReader = U64MonotonicValueReader;

    type ValueWriter = U64MonotonicValueWriter;

    ghost same_codec = { refl };

    fn clone_value(_alloc: Global, value: &u64) -> Result<u64, AllocError> {
        Ok(*value)
    }
}

/// Tables of lists of numbers.
#[derive(Clone, Copy, Debug)]
pub struct VecU32ValueSSTable;

impl SSTable for VecU32ValueSSTable {
    ghost use Rattle.std.specs.Prelude.{refl};

    type Value = Vec<u32>;

    type ValueReader = VecU32ValueReader;

    type ValueWriter = VecU32ValueWriter;

    ghost same_codec = { refl };

    fn clone_value(alloc: Global, value: &Vec<u32>) -> Result<Vec<u32>, AllocError> {
        value.to_vec(alloc)
    }
}

/// Tables of ranges, each of which starts where the one before it in its block ends.
#[derive(Clone, Copy, Debug)]
pub struct RangeSSTable;

impl SSTable for RangeSSTable {
    ghost use Rattle.std.specs.Prelude.{refl};

    type Value = Range<u64>;

    type ValueReader = RangeValueReader;

    type ValueWriter = RangeValueWriter;

    ghost same_codec = { refl };

    fn clone_value(_alloc: Global, value: &Range<u64>) -> Result<Range<u64>, AllocError> {
        Ok(value.start..value.end)
    }
}
