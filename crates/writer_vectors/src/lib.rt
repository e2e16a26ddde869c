//! Worked rows of tables that are written, as tests.
#![tactic(auto)]

#[cfg(test)]
mod pending;
#[cfg(test)]
mod refusals;
#[cfg(test)]
mod tables;
