// Numbers that are stored as deviations from a line.
ghost use Rattle.std.specs.Prelude.{◌≡◌, ℕ, ◌+◌, ◌*◌, ◌^◌, ◌<◌, ◌≤◌, length, Some, IfSome, IfNone};
ghost use Rattle.tantivy_bitpacker.specs.Packed.{bits_from};
ghost use Rattle.block_addresses.specs.Found.{number_of};

use crate::bits::bits_at;
use crate::line::Line;

/// The j-th number of a line, from the base on, whose deviation is stored at a bit. None is answered only where no such
/// number is stored, or it is no `u64`.
pub(crate) fn number_at(line: Line, base: u64, j: u32, place: usize, packed: &[u8]) -> Option<u64>
    requires some_bits { 1 ≤ line.bits }
    requires few_bits { line.bits ≤ 56 }
    requires near { j < 2 ^ 24 }
    requires far { place < 2 ^ 62 }
    ensures fits { IfSome result (λ n. n < 2 ^ 64) }
    ensures some { IfSome result (λ n. number_of line.slope line.bits base j place packed.now ≡ Some n) }
    ensures none { IfNone result
        ((n : ℕ) → number_of line.slope line.bits base j place packed.now ≡ Some n → 2 ^ 64 ≤ n) }
{
    if (place + line.bits as usize).div_ceil(8) > packed.len() {
        return None;
    }
    let up = line.slope as u64 * j as u64 + bits_at(place, line.bits, packed);
    let half = 1 << (line.bits - 1);
    if up >= half {
        base.checked_add(up - half)
    } else {
        base.checked_sub(half - up)
    }
}
