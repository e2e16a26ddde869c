//! The index file, which the writer and the search share.
//!
//! An index file is the number of documents (`u32`), how many numbers of documents follow (`u64`), these numbers packed at
//! [`width_of`] bits each, and a version 3 table of keys, each with the range of its places among the numbers. A key is a
//! field, a byte 0 and a term. Numbers are little-endian.
#![tactic(auto)]

mod header;
mod law;

pub use header::{HEADER_LEN, width_of};
pub use law::rows_hold;
