//! Sorted tables of byte strings and values, in blocks, with an index of the blocks.
//!
//! A table is its blocks, four zero bytes, an index part, and a footer of 20 bytes: the offset of the index part (`u64`),
//! the number of keys (`u64`) and the version (`u32`), which is 2 or 3.
#![tactic(auto)]

mod dictionary;
mod lookup;
mod table;

pub use common_wire::{KeyTracking, WithoutKeys};
pub use dictionary::Dictionary;
pub use fst_map;
pub use sstable_blocks;
pub use sstable_blocks::BlockAddr;
pub use sstable_index::{
    SSTableIndex, SSTableIndexBuilder, SSTableIndexV2, SSTableIndexV3Empty, SstError,
    SstWriteError, Unfinished,
};
pub use sstable_tables::{
    KeyPending, Reader, Writer, adjoining_ranges_are_taken, short_ranges_fit,
};
pub use table::{
    MonotonicU64SSTable, RangeSSTable, SSTable, TermOrdinal, VecU32ValueSSTable, VoidSSTable,
};
