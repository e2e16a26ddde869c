// Lines that predict numbers from their places.
ghost use Rattle.std.specs.Prelude.{◌≡◌, ℕ, ◌+◌, ◌-◌, ◌*◌, ◌^◌, ◌<◌, ◌≤◌, length, drop, slice_index};
ghost use Rattle.block_addresses.specs.Lines.{capped, slope_to, slope_between, distance, numbered_from, flattest, steepest, slope_of};
ghost use Rattle.block_addresses.specs.Lines.{greatest_deviation, after_first, IsLineOf, line_for};
ghost use Rattle.block_addresses.specs.Shown.{shown_line};
ghost use Rattle.block_addresses.specs.Written.{IsNearFirst};

use tantivy_bitpacker::compute_num_bits;

const GREATEST_SLOPE: u64 = u32::MAX as u64;

/// How steep a line is, and in how many bits deviations from it are stored.
#[derive(Clone, Copy)]
pub(crate) struct Line {
    pub slope: u32,
    pub bits: u8,
}

fn capped(slope: u64) -> u32
    ensures { result ≡ capped slope }
{
    slope.min(GREATEST_SLOPE) as u32
}

// How much a pair of a place and a number rises at each place.
fn slope_to(pair: (u64, u64)) -> u32
    requires { 0 < pair.0 }
    ensures { result ≡ slope_to pair }
{
    capped(pair.1 / pair.0)
}

// The slope that is as far from the one pair as from the other.
fn slope_between(low: (u64, u64), high: (u64, u64)) -> u32
    requires low_place { 0 < low.0 }
    requires places { low.0 + high.0 < 2 ^ 40 }
    requires numbers { low.1 + high.1 < 2 ^ 62 }
    ensures { result ≡ slope_between low high }
{
    let places = low.0 + high.0;
    capped((low.1 + high.1 + places / 2) / places)
}

fn distance(a: u64, b: u64) -> u64
    ensures { result ≡ distance a b }
{
    if a < b { b - a } else { a - b }
}

// The number at a place, counted from the base on, and the place, from 1 on.
fn pair_at(base: u64, numbers: &[u64], i: usize) -> (u64, u64)
    requires within { i < length numbers.now }
    requires few { length numbers.now < 2 ^ 32 }
    requires small { (k : ℕ) → k < length numbers.now → slice_index numbers.now k - base < 2 ^ 40 }
    ensures place { result.0 ≡ i + 1 }
    ensures number { result.1 ≡ slice_index numbers.now i - base }
    ensures low { result.1 < 2 ^ 40 }
{
    (i as u64 + 1, numbers[i].saturating_sub(base))
}

// The last pair whose slope is the least.
fn flattest(base: u64, numbers: &[u64]) -> (u64, u64)
    requires some { 0 < length numbers.now }
    requires few { length numbers.now < 2 ^ 32 }
    requires small { (k : ℕ) → k < length numbers.now → slice_index numbers.now k - base < 2 ^ 40 }
    ensures exact { result ≡ flattest (1, slice_index numbers.now 0 - base) (numbered_from 2 base (drop 1 numbers.now)) }
    ensures place { 0 < result.0 }
    ensures near { result.0 ≤ length numbers.now }
    ensures low { result.1 < 2 ^ 40 }
{
    let mut best = pair_at(base, numbers, 0);
    for i in 1..numbers.len() {
        let pair = pair_at(base, numbers, i);
        if slope_to(pair) <= slope_to(best) {
            best = pair;
        }
    }
    best
}

// The last pair whose slope is the greatest.
fn steepest(base: u64, numbers: &[u64]) -> (u64, u64)
    requires some { 0 < length numbers.now }
    requires few { length numbers.now < 2 ^ 32 }
    requires small { (k : ℕ) → k < length numbers.now → slice_index numbers.now k - base < 2 ^ 40 }
    ensures exact { result ≡ steepest (1, slice_index numbers.now 0 - base) (numbered_from 2 base (drop 1 numbers.now)) }
    ensures place { 0 < result.0 }
    ensures near { result.0 ≤ length numbers.now }
    ensures low { result.1 < 2 ^ 40 }
{
    let mut best = pair_at(base, numbers, 0);
    for i in 1..numbers.len() {
        let pair = pair_at(base, numbers, i);
        if slope_to(best) <= slope_to(pair) {
            best = pair;
        }
    }
    best
}

fn slope_of(base: u64, numbers: &[u64]) -> u32
    requires few { length numbers.now < 2 ^ 32 }
    requires small { (k : ℕ) → k < length numbers.now → slice_index numbers.now k - base < 2 ^ 40 }
    ensures { result ≡ slope_of (numbered_from 1 base numbers.now) }
{
    if numbers.is_empty() {
        return 0;
    }
    slope_between(flattest(base, numbers), steepest(base, numbers))
}

fn greatest_deviation(slope: u32, base: u64, numbers: &[u64]) -> u64
    requires few { length numbers.now < 2 ^ 24 }
    requires small { (k : ℕ) → k < length numbers.now → slice_index numbers.now k - base < 2 ^ 40 }
    ensures exact { result ≡ greatest_deviation slope (numbered_from 1 base numbers.now) }
{
    let mut greatest = 0;
    for i in 0..numbers.len() {
        let pair = pair_at(base, numbers, i);
        greatest = greatest.max(distance(pair.1, slope as u64 * pair.0));
    }
    greatest
}

// The line for the numbers after a first one, the base, at the places from 1 on.
fn line_above(base: u64, numbers: &[u64]) -> Line
    requires few { length numbers.now ≤ 128 }
    requires small { (k : ℕ) → k < length numbers.now → slice_index numbers.now k - base < 2 ^ 40 }
    ensures slope { result.slope ≡ (line_for (numbered_from 1 base numbers.now)).slope }
    ensures bits { result.bits ≡ (line_for (numbered_from 1 base numbers.now)).bits }
{
    let slope = slope_of(base, numbers);
    let bits = compute_num_bits(greatest_deviation(slope, base, numbers)) + 1;
    Line { slope, bits }
}

/// The line for the numbers after the first one, counted from it.
pub(crate) fn line_for(numbers: &[u64]) -> Line
    requires some { 0 < length numbers.now }
    requires few { length numbers.now ≤ 129 }
    requires low { IsNearFirst numbers.now }
    ensures exact { shown_line result ≡ line_for (after_first numbers.now) }
    ensures near { IsLineOf (line_for (after_first numbers.now)) (after_first numbers.now) }
{
    line_above(numbers[0], &numbers[1..])
}
