// Copies of short slices, by two parts that may overlap.
ghost use Rattle.std.specs.Prelude.{◌≡◌, ◌+◌, ◌<◌, ◌≤◌, length};

/// Copies a slice over another of its length. It is fast where they are short.
#[inline]
pub fn fast_short_slice_copy(src: &[u8], dst: &mut [u8])
    requires { length dst.old ≡ length src.now }
    ensures { dst.new ≡ src.now }
{
    let len = src.len();
    if len < 4 || len > 32 {
        dst.copy_from_slice(src);
        return;
    }
    if len < 8 {
        double_copy_trick::<4>(src, dst);
        return;
    }
    if len <= 16 {
        double_copy_trick::<8>(src, dst);
        return;
    }
    double_copy_trick::<16>(src, dst);
}

// Copies the first `SIZE` bytes and the last, of a slice of at most twice as many.
#[inline(always)]
fn double_copy_trick<const SIZE: usize>(src: &[u8], dst: &mut [u8])
    requires same_len { length dst.old ≡ length src.now }
    requires at_least { SIZE ≤ length src.now }
    requires at_most { length src.now ≤ SIZE + SIZE }
    ensures { dst.new ≡ src.now }
{
    let last = src.len() - SIZE;
    dst[..SIZE].copy_from_slice(&src[..SIZE]);
    dst[last..].copy_from_slice(&src[last..]);
}
