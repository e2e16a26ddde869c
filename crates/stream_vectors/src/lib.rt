//! Rows of streams over hand-made blocks, as tests.
#![tactic(auto)]

#[cfg(test)]
mod automata;
#[cfg(test)]
mod bounds;
#[cfg(test)]
mod ends;
#[cfg(test)]
mod tables;
