//! The format of sorted tables: what their bytes tell.
//!
//! A table is its blocks, four zero bytes, an index part, and a footer of 20 bytes: the offset of the index part (`u64`),
//! the number of keys (`u64`) and the version (`u32`), which is 2 or 3.
#![tactic(auto)]

mod footer;
mod version;

pub use footer::{FOOTER_LEN, Footer};
pub use version::{VERSION_LEN, is_known, version_of};
