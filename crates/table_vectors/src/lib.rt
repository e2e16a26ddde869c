//! Worked rows of the crates that read and write tables and index files, as tests.
#![tactic(auto)]

#[cfg(test)]
mod blocks;
#[cfg(test)]
mod reading;
#[cfg(test)]
mod table;
#[cfg(test)]
mod writing;
