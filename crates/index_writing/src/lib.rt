//! Writes an index file of documents.
#![tactic(auto)]

mod errors;
mod file;
mod gather;
mod numbers;
mod table;
mod write;

pub use errors::WriteError;
pub use file::{MOST_PAGES, PAGE_SIZE};
pub use write::write_index;
