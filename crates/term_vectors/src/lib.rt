//! Outside vectors and worked rows of the crates, as tests.
#![tactic(auto)]

#[cfg(test)]
mod adapters;
#[cfg(test)]
mod dates;
#[cfg(test)]
mod expressions;
#[cfg(test)]
mod files;
#[cfg(test)]
mod slices;
#[cfg(test)]
mod wire;
