// Places of blocks.
use std::marker::Model;
use std::ops::Range;

/// Where a block stands in its table, and the position of its first key.
#[derive(Clone, Debug, PartialEq, Eq, Drop)]
pub struct BlockAddr {
    pub first_ordinal: u64,
    pub byte_range: Range<usize>,
}

impl Model for BlockAddr {
    ghost use Rattle.sstable_values.specs.Codec.{Address};

    ghost Value = { Address };

    ghost view = { λ b. record { start = b.byte_range.start; end = b.byte_range.end; first_ordinal = b.first_ordinal } };

    ghost inverse = { λ a. record { first_ordinal = a.first_ordinal; byte_range = record { start = a.start; end = a.end } } };
}
