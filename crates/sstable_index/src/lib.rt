//! The index part of a table: where the blocks are.
#![tactic(auto)]

mod builder;
mod builder_v2;
mod errors;
mod index;
mod index_v2;
mod index_v3;
mod key_buffer;
mod key_list;
mod laws;
mod load_errors;
mod run_v2;
mod write_errors;

pub use builder::SSTableIndexBuilder;
pub use errors::SstError;
pub use index::SSTableIndex;
pub use index_v2::SSTableIndexV2;
pub use index_v3::{SSTableIndexV3, SSTableIndexV3Empty};
pub use laws::{tables_can_have, usable_indexes_are_in_order};
pub use load_errors::{LoadError, SSTableDataCorruption};
pub use write_errors::{SstWriteError, Unfinished};
