// The width that numbers are packed at, and the least and the greatest of some numbers.
ghost use Rattle.std.specs.Prelude.{◌≡◌, ◌^◌, ◌<◌, ◌≤◌, ◌-◌};
ghost use Rattle.std.specs.Iterator.{IsFinite};
ghost use Rattle.std.specs.Iterator.Runs.{WholeRun};
ghost use Rattle.tantivy_bitpacker.specs.Packed.{num_bits};
ghost use Rattle.tantivy_bitpacker.specs.Extremes.{AreExtremes, widened};

use std::cmp::Ordering;

/// The width in bits that numbers up to `n` are packed at: the number of its binary digits, which is 0 for 0, or 64
/// where that passes 56, so that a value never spreads over more than eight bytes.
pub fn compute_num_bits(n: u64) -> u8
    ensures exact { result ≡ num_bits n }
    ensures holds { n < 2 ^ result }
    ensures least { 0 < result → result ≤ 56 → 2 ^ (result - 1) ≤ n }
    ensures allowed { 56 < result → result ≡ 64 }
{
    let digits = (64 - n.leading_zeros()) as u8;
    if digits <= 56 { digits } else { 64 }
}

/// The least and the greatest of the items, or `None` exactly where there is none.
pub fn minmax<I: Iterator<Item = T>, T: Copy + Ord>(vals: I) -> Option<(T, T)>
    requires can { I.can_next vals }
    requires finite { IsFinite (I.remaining vals) }
    ensures { WholeRun I.next_gives vals (λ p. AreExtremes T.cmp p.items result) }
{
    vals.fold(None, |found, val| Some(widened(found, val)))
}

// The two with one more item.
fn widened<T: Copy + Ord>(found: Option<(T, T)>, val: T) -> (T, T)
    ensures { result ≡ widened T.cmp found val }
{
    match found {
        None => (val, val),
        Some((least, greatest)) => (
            if val.cmp(&least) == Ordering::Less {
                val
            } else {
                least
            },
            if greatest.cmp(&val) == Ordering::Less {
                val
            } else {
                greatest
            },
        ),
    }
}
