// Why no index is written.
use thiserror::Error;

/// Why no index is written, or not all of it.
#[derive(Clone, Copy, Debug, PartialEq, Eq, Error)]
pub enum WriteError {
    #[error("out of memory")]
    Memory,
    /// The sink failed.
    #[error("the index can't be written")]
    Write,
    #[error("more than 4,294,967,295 documents")]
    TooManyDocuments,
    /// The field of a pair is empty, or holds byte 0 or 1; the numbers are those of the document and of the pair in it, from 0.
    #[error("document {0} has a bad field in pair {1}")]
    BadField(u64, u64),
    /// Field, one byte and term are more than 65,535 bytes; the numbers are those of the document and of the pair in it, from 0.
    #[error("document {0} has a key that is too long in pair {1}")]
    KeyTooLong(u64, u64),
    /// The documents are larger than 900,000 bytes a page.
    #[error("the documents don't fit into the pages")]
    ArenaFull,
}
