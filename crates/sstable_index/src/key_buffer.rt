// Keys that stand one after the other in a buffer.
ghost use Rattle.std.specs.Prelude.{◌≡◌, ℕ, ◌+◌, ◌-◌, ◌≤◌, ◌++◌, take, drop, length};
ghost use Rattle.owned_bytes.specs.Keys.{shared, is_below};
ghost use Rattle.block_addresses.specs.Shortened.{shortened};

use std::cmp::Ordering;

// The bytes from one place to another.
pub(crate) fn cut(bytes: &[u8], start: usize, end: usize) -> &[u8]
    requires ordered { start ≤ end }
    requires within { end ≤ length bytes.now }
    ensures { result.now ≡ take (end - start) (drop start bytes.now) }
{
    &bytes[start..end]
}

// Whether a key comes before another one.
pub(crate) fn comes_before(left: &[u8], right: &[u8]) -> bool
    ensures { result ≡ is_below left.now right.now }
{
    left.cmp(right) == Ordering::Less
}

// How many bytes two keys have in common at their front.
pub(crate) fn common_prefix_len(left: &[u8], right: &[u8]) -> usize
    ensures count { result ≡ shared left.now right.now }
    ensures fits { result ≤ length right.now }
{
    let most = left.len().min(right.len());
    for i in 0..most {
        if left[i] != right[i] {
            return i;
        }
    }
    most
}

// Shortens the last key of the buffer, which begins at the place, to where it still comes before the right one.
pub(crate) fn shorten_from(keys: &mut Vec<u8>, start: usize, right: &[u8])
    requires { start ≤ length keys.old.items }
    ensures { keys.new.items ≡ take start keys.old.items ++ shortened (drop start keys.old.items) right.now }
{
    let mut place = start + common_prefix_len(&keys[start..], right) + 1;
    'high: while place < keys.len() && keys[place] == 255 {
        place += 1;
    }
    if place < keys.len() {
        keys[place] += 1;
        keys.truncate(place + 1);
    }
}
