// Filters that put the places of the numbers within a range in place of the numbers.
ghost use Rattle.std.specs.Prelude.{◌≡◌, ◌+◌, ◌*◌, ◌/◌, ◌^◌, ◌≤◌, ◌<◌, length, take, map, vec_len};
ghost use Rattle.std.specs.Int.{is_in_range};
ghost use Rattle.std.specs.Simd.Lanes.{mask_l, chunk};
ghost use Rattle.tantivy_bitpacker.specs.Within.{places_in, places_within, Filtering, FiltersRest};
ghost use Rattle.tantivy_bitpacker.specs.Lanes.{PutsPlaces};

use std::ops::RangeInclusive;
use std::simd::prelude::*;

const LANES: usize = 8;

// The places of the bits that are set among four, the lowest first, and then zeros.
static PLACES: [[u32; 4]; 16] = [
    [0, 0, 0, 0],
    [0, 0, 0, 0],
    [1, 0, 0, 0],
    [0, 1, 0, 0],
    [2, 0, 0, 0],
    [0, 2, 0, 0],
    [1, 2, 0, 0],
    [0, 1, 2, 0],
    [3, 0, 0, 0],
    [0, 3, 0, 0],
    [1, 3, 0, 0],
    [0, 1, 3, 0],
    [2, 3, 0, 0],
    [0, 2, 3, 0],
    [1, 2, 3, 0],
    [0, 1, 2, 3],
];

// How many bits are set among four.
static COUNTS: [u8; 16] = [0, 1, 1, 2, 1, 2, 2, 3, 1, 2, 2, 3, 2, 3, 3, 4];

/// Puts the places of the numbers within the range, counted from `offset`, in place of the numbers.
pub fn filter_vec_in_place(range: RangeInclusive<u32>, offset: u32, output: &mut Vec<u32>)
    requires { offset + vec_len output.old ≤ 2 ^ 32 }
    ensures { output.new.items ≡ places_in range offset output.old.items }
{
    filter_vec_lanes(range, offset, output);
}

/// As `filter_vec_in_place`, one number at a time.
pub fn filter_vec_scalar(range: RangeInclusive<u32>, offset: u32, output: &mut Vec<u32>)
    requires { offset + vec_len output.old ≤ 2 ^ 32 }
    ensures { output.new.items ≡ places_in range offset output.old.items }
{
    let kept = filter_rest(
        *range.start(),
        *range.end(),
        offset,
        0,
        0,
        output.as_mut_slice(),
    );
    output.truncate(kept);
}

/// As `filter_vec_in_place`, eight numbers at a time.
pub fn filter_vec_lanes(range: RangeInclusive<u32>, offset: u32, output: &mut Vec<u32>)
    requires { offset + vec_len output.old ≤ 2 ^ 32 }
    ensures { output.new.items ≡ places_in range offset output.old.items }
{
    let low = *range.start();
    let high = *range.end();
    if high < low {
        output.clear();
        return;
    }
    let kept = filter_lanes(low, high - low, offset, output.as_mut_slice());
    output.truncate(kept);
}

// Puts the places of the values from `low` to `low + span` in front, and answers how many they are.
pub(crate) fn filter_lanes(low: u32, span: u32, offset: u32, values: &mut [u32]) -> usize
    requires fits { low + span < 2 ^ 32 }
    requires places { offset + length values.old ≤ 2 ^ 32 }
    ensures bound { result ≤ length values.old }
    ensures kept { take result values.new ≡ places_within low (low + span) offset values.old }
{
    let kept = filter_blocks(low, span, offset, values);
    let whole = values.len() / LANES * LANES;
    filter_rest(low, low + span, offset, kept, whole, values)
}

// Filters whole blocks of eight.
fn filter_blocks(low: u32, span: u32, offset: u32, values: &mut [u32]) -> usize
    requires fits { low + span < 2 ^ 32 }
    requires places { offset + length values.old ≤ 2 ^ 32 }
    ensures { Filtering low (low + span) offset values.old values.new result (length values.old / LANES * LANES) }
{
    let mut kept = 0;
    for block in 0..values.len() / LANES {
        let at = block * LANES;
        let place = offset + at as u32;
        let mask = mask_within(values, at, low, span);
        kept = put_places(mask % 16, place, kept, values);
        kept = put_places(mask / 16, place + 4, kept, values);
    }
    kept
}

// Filters the values from `from` on one by one, where `kept` of those before stand in front.
fn filter_rest(
    low: u32,
    high: u32,
    offset: u32,
    kept: usize,
    from: usize,
    values: &mut [u32],
) -> usize
    requires behind { kept ≤ from }
    requires inside { from ≤ length values.old }
    requires places { offset + length values.old ≤ 2 ^ 32 }
    ensures bound { result ≤ length values.old }
    ensures kept { FiltersRest low high offset kept from values.old values.new result }
{
    let mut kept = kept;
    for i in from..values.len() {
        let value = values[i];
        values[kept] = offset + i as u32;
        kept += ((low <= value) & (value <= high)) as usize;
    }
    kept
}

// Which of the eight values from `at` on lie from `low` to `low + span`: bit j tells of the value at `at + j`.
#[inline(always)]
fn mask_within(values: &[u32], at: usize, low: u32, span: u32) -> usize
    requires room { at + LANES ≤ length values.now }
    requires fits { low + span < 2 ^ 32 }
    ensures tests { result ≡ mask_l (map (is_in_range low (low + span)) (chunk at LANES values.now)) }
    ensures below { result < 2 ^ 8 }
{
    let above_low = u32x8::from_slice(&values[at..]) - u32x8::splat(low);
    above_low.simd_le(u32x8::splat(span)).to_bitmask() as usize
}

// Writes the places, counted from `place`, of the bits that are set among four at `kept`, and answers where they end.
#[inline(always)]
fn put_places(bits: usize, place: u32, kept: usize, values: &mut [u32]) -> usize
    requires four { bits < 16 }
    requires room { kept + 4 ≤ length values.old }
    requires fits { place + 4 ≤ 2 ^ 32 }
    ensures { PutsPlaces bits place kept values.old values.new result }
{
    let places = u32x4::from_array(PLACES[bits]) + u32x4::splat(place);
    places.copy_to_slice(&mut values[kept..]);
    kept + COUNTS[bits] as usize
}
