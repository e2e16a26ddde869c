//! The address store of an index of version 3: lines that predict where blocks are, and packed deviations from them.
//!
//! A store is the length of its metas (`u64`), the metas of 36 bytes, one for 128 blocks, and the packed deviations.
#![tactic(auto)]

mod bits;
mod errors;
mod laws;
mod line;
mod meta;
mod number;
mod shortened;
mod store;
mod writing;

// How many blocks a meta speaks of.
pub(crate) const STORE_BLOCK_LEN: usize = 128;

pub use errors::StoreError;
pub use laws::{addresses_are_found_alone, shortened_keys_stand_between, stores_are_read_again};
pub use shortened::shorten;
pub use store::AddressStore;
pub use writing::{are_storable, write_store};
