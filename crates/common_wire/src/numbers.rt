// Small calls on numbers and bytes.
ghost use Rattle.std.specs.Prelude.{◌≡◌, ◌==◌, if◌then◌else◌};
ghost use Rattle.common_wire.specs.Numbers.{shifted_up, replaced};

/// Flips the top bit, so that the unsigned numbers stand in the order of the signed ones.
pub fn i64_to_u64(val: i64) -> u64
    ensures { result ≡ shifted_up val }
{
    val.cast_unsigned() ^ (1 << 63)
}

/// Undoes `i64_to_u64`.
pub fn u64_to_i64(val: u64) -> i64
    ensures { shifted_up result ≡ val }
{
    (val ^ (1 << 63)).cast_signed()
}

/// Each byte that is the needle becomes the replacement.
pub fn replace_in_place(needle: u8, replacement: u8, bytes: &mut [u8])
    ensures { bytes.new ≡ replaced needle replacement bytes.old }
{
    for b in bytes.iter_mut() {
        *b = replace(needle, replacement, *b);
    }
}

fn replace(needle: u8, replacement: u8, byte: u8) -> u8
    ensures { result ≡ (if byte == needle then replacement else byte) }
{
    if byte == needle { replacement } else { byte }
}
