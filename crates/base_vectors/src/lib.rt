//! Outside vectors and worked rows of the crates below the tables, as tests.
#![tactic(auto)]

#[cfg(test)]
mod arena;
#[cfg(test)]
mod bitset;
#[cfg(test)]
mod bounds;
#[cfg(test)]
mod dates;
#[cfg(test)]
mod doc_sets;
#[cfg(test)]
mod groups;
#[cfg(test)]
mod json_paths;
#[cfg(test)]
mod packed;
