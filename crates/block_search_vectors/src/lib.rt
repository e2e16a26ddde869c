//! Rows of looking for entries in one block, as tests.
#![tactic(auto)]

pub mod lookups;
#[cfg(test)]
mod rows;
