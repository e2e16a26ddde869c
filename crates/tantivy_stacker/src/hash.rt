// The hash of a key, over eight bytes at a time.
ghost use Rattle.std.specs.Prelude.{◌≡◌, ◌<◌, ◌≤◌, ◌^◌, length, take};
ghost use Rattle.std.specs.Int.{w32, w64, from_le_bytes};
ghost use Rattle.tantivy_stacker.specs.Hashing.{mixed, short_word, tail_word, hash_of};

// An odd number whose bits are well spread: 2^64 divided by the golden ratio.
const SPREAD: u64 = 11400714819323198485;

// Mixes a word into what was gathered so far: a product spreads its bits upwards, and the upper half is laid over the lower.
#[inline(always)]
#[tactic(auto, unfolding(crate::specs::Hashing::mixed))]
fn mix(gathered: u64, word: u64) -> u64
    ensures { result ≡ mixed gathered word }
{
    let product = (gathered ^ word).wrapping_mul(SPREAD);
    product ^ (product >> 32)
}

// The first four bytes as a word.
#[inline(always)]
fn half_word(bytes: &[u8]) -> u64
    requires { 4 ≤ length bytes.now }
    ensures value { result ≡ from_le_bytes w32 (take 4 bytes.now) }
    ensures bound { result < 2 ^ 32 }
{
    match bytes.first_chunk::<4>() {
        Some(word) => u64::from(u32::from_le_bytes(*word)),
        None => unreachable!(),
    }
}

// Fewer than four bytes as a word.
#[inline(always)]
#[tactic(auto, unfolding(crate::specs::Hashing::short_word))]
fn short_tail(bytes: &[u8]) -> u64
    ensures { result ≡ short_word bytes.now }
{
    if bytes.is_empty() {
        return 0;
    }
    let first = u64::from(bytes[0]);
    let middle = u64::from(bytes[bytes.len() / 2]);
    let last = u64::from(bytes[bytes.len() - 1]);
    first + middle * 256 + last * 65536
}

// Fewer than eight bytes as a word.
#[inline(always)]
#[tactic(auto, unfolding(crate::specs::Hashing::tail_word))]
fn tail(bytes: &[u8]) -> u64
    ensures { result ≡ tail_word bytes.now }
{
    let len = bytes.len();
    if len < 4 {
        return short_tail(bytes);
    }
    let last = half_word(&bytes[len - 4..]);
    half_word(bytes) + last * (1 << 32)
}

// The first eight bytes as a word.
#[inline]
fn first_word(bytes: &[u8]) -> u64
    requires { 8 ≤ length bytes.now }
    ensures { result ≡ from_le_bytes w64 (take 8 bytes.now) }
{
    match bytes.first_chunk::<8>() {
        Some(word) => u64::from_le_bytes(*word),
        None => unreachable!(),
    }
}

// A fixed hash: it has no seed.
#[inline]
#[tactic(auto, unfolding(crate::specs::Hashing::hash_of, crate::specs::Hashing::hash_words))]
pub(crate) fn get_hash(key: &[u8]) -> u32
    ensures { result ≡ hash_of key.now }
{
    let mut gathered = key.len() as u64;
    let mut rest = key;
    for _word in 0..key.len() / 8 {
        gathered = mix(gathered, first_word(rest));
        rest = &rest[8..];
    }
    (mix(gathered, tail(rest)) % (1 << 32)) as u32
}
