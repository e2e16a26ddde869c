//! Worked rows of searches and of whole runs, as tests.
#![tactic(auto)]

#[cfg(test)]
mod reading;
#[cfg(test)]
mod run;
#[cfg(test)]
mod search;
