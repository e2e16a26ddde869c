// Keys between the last key of a block and the first key of the next.
ghost use Rattle.std.specs.Prelude.{◌≡◌, ◌≤◌, length, true};
ghost use Rattle.owned_bytes.specs.Keys.{is_below, shared};
ghost use Rattle.block_addresses.specs.Laws.{IsBetween};
ghost use Rattle.block_addresses.specs.Shortened.{shortened};

// How many bytes two keys have in common from the front on.
fn shared(a: &[u8], b: &[u8]) -> usize
    ensures count { result ≡ shared a.now b.now }
    ensures within { result ≤ length a.now }
{
    let mut i = 0;
    'bytes: while i < a.len() && i < b.len() && a[i] == b[i] {
        i += 1;
    }
    i
}

/// The left key, shortened to where it still comes before the right one.
pub fn shorten(left: &mut Vec<u8>, right: &[u8])
    ensures exact { left.new.items ≡ shortened left.old.items right.now }
    ensures between { is_below left.old.items right.now ≡ true → IsBetween left.old.items right.now left.new.items }
{
    let mut place = shared(left, right) + 1;
    'high: while place < left.len() && left[place] == 255 {
        place += 1;
    }
    if place < left.len() {
        left[place] += 1;
        left.truncate(place + 1);
    }
}
