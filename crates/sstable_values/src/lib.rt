//! How a block's values are stored: numbers in groups of seven bits, the traits of stored values, and five ways to
//! store them: no values, numbers that don't fall, ranges that adjoin, lists of numbers, and places of blocks.
#![tactic(auto)]

mod block_addr;
mod errors;
mod index;
mod range;
mod u64_monotonic;
mod value;
mod vec_u32;
pub mod vint;
mod void;

pub use block_addr::BlockAddr;
pub use errors::{BlockError, ValueError};
pub use index::{IndexValueReader, IndexValueWriter};
pub use range::{RangeValueReader, RangeValueWriter};
pub use u64_monotonic::{U64MonotonicValueReader, U64MonotonicValueWriter};
pub use value::{StoredValue, ValueReader, ValueWriter};
pub use vec_u32::{VecU32ValueReader, VecU32ValueWriter};
pub use void::{VoidValueReader, VoidValueWriter};
