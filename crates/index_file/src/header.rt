// What stands in an index file before its table.
ghost use Rattle.std.specs.Prelude.{◌≡◌, ◌≤◌, ◌<◌, ◌^◌};
ghost use Rattle.index_file.specs.Header as spec;

use tantivy_bitpacker::compute_num_bits;

/// The bytes before the packed numbers: the number of documents (`u32`), and how many numbers there are (`u64`).
pub const HEADER_LEN: usize = 12;

/// The bits that each number of so many documents is packed in: 0 where there are fewer than two.
pub fn width_of(documents: u32) -> u8
    ensures width { result ≡ spec.width_of documents }
    ensures few { result ≤ 64 }
    ensures allowed { 56 < result → result ≡ 64 }
    ensures fits { documents ≤ 2 ^ result }
{
    if documents < 2 {
        return 0;
    }
    compute_num_bits((documents - 1) as u64)
}
