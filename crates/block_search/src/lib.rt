//! Looking for an entry in one block of sorted keys: by its key, without making the keys, or by its number.
#![tactic(auto)]

mod by_key;
mod by_number;

pub use by_key::{KeyHit, find_key};
pub use by_number::{go_to_number, go_to_number_with_key};
