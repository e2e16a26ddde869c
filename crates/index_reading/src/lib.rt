//! Index files that are opened, and the numbers of documents at a key.
//!
//! An opened index knows the number of documents, how many numbers there are, and the dictionary of the file's table. The
//! file is lent to each call that reads.
#![tactic(auto)]

mod errors;
mod lookup;
mod open;
mod unpack;

pub use errors::IndexError;
pub use open::OpenIndex;
