//! Sorted tables that are written entry by entry, and the entries of blocks that are read in order.
#![tactic(auto)]

mod key_pending;
mod laws;
mod reader;
mod writer;

pub use key_pending::KeyPending;
pub use laws::{
    adjoining_ranges_are_taken, dropped_keys_are_not_inserted, short_ranges_fit,
    staged_keys_are_inserted,
};
pub use reader::Reader;
pub use sstable_index::{SstWriteError, Unfinished};
pub use writer::Writer;
