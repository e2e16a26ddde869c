//! Numbers packed at a width of bits each, and filters over them.
#![tactic(auto)]

mod bitpacker;
mod bits;
mod bitunpacker;
mod blocked_bitpacker;
mod filter_vec;
mod groups;
pub mod plain;

pub use bitpacker::BitPacker;
pub use bits::{compute_num_bits, minmax};
pub use bitunpacker::BitUnpacker;
pub use blocked_bitpacker::{BlockedBitpacker, BlockedIter};
pub use filter_vec::{filter_vec_in_place, filter_vec_lanes, filter_vec_scalar};
