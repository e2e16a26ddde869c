//! Streams over the entries of blocks: those within two bounds whose keys an automaton takes, with their positions.
//!
//! A stream needs no key. Whether one lies within a bound is told by what it keeps of the key before and what it adds,
//! and the automaton's states after each front of a key are kept, and cut back to what the next one keeps.
#![tactic(auto)]

mod cursor;
mod edge;
mod streamer;
mod trail;

pub use streamer::EntryStreamer;
