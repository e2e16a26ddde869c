//! Runs of items with one key.
#![tactic(auto)]

mod groups;
mod laws;

pub use groups::{GroupByIterator, GroupByIteratorExtended, GroupIterator};
pub use laws::groups_are_runs;
