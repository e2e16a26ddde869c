//! Documents, as lists of pairs of a field and a term, and which of them an index can keep.
#![tactic(auto)]

mod documents;
mod faults;
mod keys;

pub use documents::{Doc, Pair, Pairs};
pub use faults::{Fault, PlacedFault, are_valid, documents_size, first_fault, is_field};
pub use keys::key_of;
