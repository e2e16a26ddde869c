//! Worked rows of the index of a table's blocks, as tests.
#![tactic(auto)]

#[cfg(test)]
mod blocks;
#[cfg(test)]
mod loading;
#[cfg(test)]
mod order;
#[cfg(test)]
mod parts;
