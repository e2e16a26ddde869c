// Bits of packed numbers, from any bit on.
ghost use Rattle.std.specs.Prelude.{◌≡◌, ◌+◌, ◌*◌, ◌%◌, ◌^◌, ◌<◌, ◌≤◌, ◌-◌, ◌++◌, length, drop, replicate};
ghost use Rattle.tantivy_bitpacker.specs.Packed.{as_number, bits_from};

/// So many bits from a place on as a number.
#[inline]
pub(crate) fn bits_at(place: usize, width: u8, bytes: &[u8]) -> u64
    requires narrow { width ≤ 56 }
    requires within { place + width ≤ 8 * length bytes.now }
    ensures exact { result ≡ bits_from place width bytes.now }
    ensures small { result < 2 ^ 56 }
{
    (word_at(place / 8, bytes) >> (place % 8)) & ((1 << width) - 1)
}

// The eight bytes from a place on as a number. Past the last byte they are 0.
#[inline]
fn word_at(place: usize, bytes: &[u8]) -> u64
    requires { place ≤ length bytes.now }
    ensures { result ≡ as_number (drop place bytes.now) % 2 ^ 64 }
{
    let rest = &bytes[place..];
    match rest.first_chunk::<8>() {
        Some(word) => u64::from_le_bytes(*word),
        None => last_word(rest),
    }
}

// Fewer than eight bytes as a number.
#[inline(never)]
fn last_word(rest: &[u8]) -> u64
    requires { length rest.now < 8 }
    ensures { result ≡ as_number rest.now % 2 ^ 64 }
{
    u64::from_le_bytes(padded(rest))
}

// The bytes, and then zeros.
fn padded(rest: &[u8]) -> [u8; 8]
    requires { length rest.now < 8 }
    ensures { result ≡ rest.now ++ replicate (8 - length rest.now) 0 }
{
    let mut word = [0; 8];
    word[..rest.len()].copy_from_slice(rest);
    word
}
