//! Sets of small numbers, as words of bits.
#![tactic(auto)]

mod bitset;
mod iterated;
mod read_only;
mod tinyset;
mod words;

pub use bitset::BitSet;
pub use iterated::{BitSetElements, BitSetIter};
pub use read_only::{Misfit, ReadOnlyBitSet, intersect_bitsets};
pub use tinyset::{TinySet, TinySetIterator};
