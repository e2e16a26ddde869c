// Equality of short slices, by two parts that may overlap.
ghost use Rattle.std.specs.Prelude.{◌≡◌, ◌+◌, ◌<◌, ◌≤◌, ◌↔◌, length, IsTrue};

/// Whether two slices are equal. It is fast where they are short.
#[inline]
pub fn fast_short_slice_compare(left: &[u8], right: &[u8]) -> bool
    ensures { IsTrue result ↔ left.now ≡ right.now }
{
    let len = left.len();
    if len != right.len() {
        return false;
    }
    if len > 16 {
        return fast_nbyte_slice_compare::<16>(left, right);
    }
    if len >= 8 {
        return double_check_trick::<8>(left, right);
    }
    if len >= 4 {
        return double_check_trick::<4>(left, right);
    }
    is_same(left, right)
}

/// Whether two slices of one length, of at least `SIZE` bytes, are equal. It compares `SIZE` bytes at a time.
#[inline]
pub fn fast_nbyte_slice_compare<const SIZE: usize>(left: &[u8], right: &[u8]) -> bool
    requires some { 0 < SIZE }
    requires same_len { length left.now ≡ length right.now }
    requires at_least { SIZE ≤ length left.now }
    ensures { IsTrue result ↔ left.now ≡ right.now }
{
    let last = left.len() - SIZE;
    let mut i = 0;
    while i < last {
        if !is_same(&left[i..i + SIZE], &right[i..i + SIZE]) {
            return false;
        }
        i += SIZE;
    }
    is_same(&left[last..], &right[last..])
}

// Whether two slices are equal.
#[inline(always)]
fn is_same(left: &[u8], right: &[u8]) -> bool
    ensures { IsTrue result ↔ left.now ≡ right.now }
{
    left == right
}

// Compares the first `SIZE` bytes and the last, of slices of at most twice as many.
#[inline(always)]
fn double_check_trick<const SIZE: usize>(left: &[u8], right: &[u8]) -> bool
    requires same_len { length left.now ≡ length right.now }
    requires at_least { SIZE ≤ length left.now }
    requires at_most { length left.now ≤ SIZE + SIZE }
    ensures { IsTrue result ↔ left.now ≡ right.now }
{
    let last = left.len() - SIZE;
    is_same(&left[..SIZE], &right[..SIZE]) && is_same(&left[last..], &right[last..])
}
