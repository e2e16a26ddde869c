//! Worked address stores and index keys, as tests.
#![tactic(auto)]

#[cfg(test)]
mod keys;
#[cfg(test)]
mod stores;
