//! Rows of the comparator and of readers over several slices, as tests.
#![tactic(auto)]

#[cfg(test)]
mod keys;
#[cfg(test)]
mod slices;
