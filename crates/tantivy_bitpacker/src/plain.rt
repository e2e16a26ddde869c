// The calls that read many packed numbers, one number at a time. The fast calls answer the same.
ghost use Rattle.std.specs.Prelude.{◌≡◌, ◌+◌, ◌*◌, ◌^◌, ◌≤◌, length, OnOk};
ghost use Rattle.std.specs.Int.{is_in_range};
ghost use Rattle.tantivy_bitpacker.specs.Packed.{unpacked_from};
ghost use Rattle.tantivy_bitpacker.specs.Within.{ids_in};

use crate::BitUnpacker;
use std::alloc::AllocError;
use std::ops::{Range, RangeInclusive};

/// As `BitUnpacker::get_range`.
pub fn get_range(unpacker: &BitUnpacker, start_idx: u32, bytes: &[u8], output: &mut [u64])
    requires places { start_idx + length output.old ≤ 2 ^ 32 }
    requires within { (start_idx + length output.old) * unpacker.now ≤ 8 * length bytes.now }
    ensures { output.new ≡ unpacked_from start_idx (length output.old) unpacker.now bytes.now }
{
    for i in 0..output.len() {
        output[i] = unpacker.get(start_idx + i as u32, bytes);
    }
}

/// As `BitUnpacker::get_ids_for_value_range`.
pub fn get_ids_for_value_range(
    unpacker: &BitUnpacker,
    range: RangeInclusive<u64>,
    id_range: Range<u32>,
    bytes: &[u8],
    positions: &mut Vec<u32>,
) -> Result<(), AllocError>
    requires { id_range.end * unpacker.now ≤ 8 * length bytes.now }
    ensures { OnOk result (positions.new.items ≡ ids_in range id_range unpacker.now bytes.now) }
{
    let low = *range.start();
    let high = *range.end();
    positions.clear();
    for id in id_range.start..id_range.end {
        let value = unpacker.get(id, bytes);
        if is_within(low, high, value) {
            positions.push(id)?;
        }
    }
    Ok(())
}

// Whether the value is from `low` to `high`.
fn is_within(low: u64, high: u64, value: u64) -> bool
    ensures { result ≡ is_in_range low high value }
{
    low <= value && value <= high
}
