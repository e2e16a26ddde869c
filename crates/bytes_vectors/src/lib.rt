//! Calls on bytes, parts of files, numbers and keys that may want memory, with memory at hand, as tests.
#![tactic(auto)]

#[cfg(test)]
mod copies;
#[cfg(test)]
mod cuts;
