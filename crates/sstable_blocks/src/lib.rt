//! Blocks of sorted keys with values: the lower half of the sstable format.
//!
//! A block is a `u32` length, which counts all that follows, a compress byte 0, the block's values as their codec
//! writes them, and its keys. A key is stored as the number of bytes that it keeps of the key before it and the bytes
//! that it adds: in one byte `keep + 16 * add` where both are below 16, else as byte 1 and two `vint`s; then the bytes.
#![tactic(auto)]

mod block_reader;
mod comparator;
mod delta_reader;
mod delta_writer;
mod entry_reader;
mod errors;

pub use block_reader::{BlockReader, BlockSlice};
pub use comparator::DeltaKeyComparator;
pub use delta_reader::DeltaReader;
pub use delta_writer::DeltaWriter;
pub use errors::DeltaError;
pub use sstable_values::{
    BlockAddr, BlockError, IndexValueReader, IndexValueWriter, RangeValueReader, RangeValueWriter,
    StoredValue, U64MonotonicValueReader, U64MonotonicValueWriter, ValueError, ValueReader,
    ValueWriter, VecU32ValueReader, VecU32ValueWriter, VoidValueReader, VoidValueWriter, vint,
};
