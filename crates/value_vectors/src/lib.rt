//! Worked rows of the ways to store a block's values, as tests.
#![tactic(auto)]

#[cfg(test)]
mod damage;
#[cfg(test)]
mod values;
