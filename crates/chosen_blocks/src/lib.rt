//! The blocks of an index that may hold a key which an automaton takes, and the entries that they hold.
#![tactic(auto)]

mod blocks;
mod laws;

pub use blocks::{BlockIndex, BlocksForAutomaton};
pub use laws::{blocks_are_chosen, no_entry_is_lost};
