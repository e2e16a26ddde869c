// Numbers unpacked in groups of eight, each of which begins with a whole byte, at widths that the compiler knows.
ghost use Rattle.std.specs.Prelude.{◌≡◌, ℕ, ◌+◌, ◌*◌, ◌%◌, ◌^◌, ◌<◌, ◌≤◌, ◌++◌, length, take, drop, map};
ghost use Rattle.tantivy_bitpacker.specs.Packed.{as_number, bits_from, unpacked_from, Puts};

/// What numbers are unpacked to: an integer that holds those of a width up to `most_bits`.
pub(crate) trait Unpacked: Copy {
    ghost number: { Self → ℕ };

    ghost most_bits: { ℕ };

    fn of(value: u64) -> Self
        requires { value < 2 ^ most_bits }
        ensures { number result ≡ value };
}

impl Unpacked for u64 {
    ghost number = { λ n. n };

    ghost most_bits = { 64 };

    #[inline(always)]
    fn of(value: u64) -> u64 {
        value
    }
}

impl Unpacked for u32 {
    ghost number = { λ n. n };

    ghost most_bits = { 32 };

    #[inline(always)]
    fn of(value: u64) -> u32 {
        value as u32
    }
}

// Calls the function of a type and a width that the compiler knows, at the width, which is one of those that are listed.
macro_rules! at_width {
    ($width:expr, $call:ident::<$to:ident> $arguments:tt, $($known:literal)*, $last:literal) => {
        match $width {
            $($known => $call::<$to, $known> $arguments,)*
            _ => $call::<$to, $last> $arguments,
        }
    };
}

// The eight bytes from `at` on as one number.
#[inline(always)]
fn whole_word(bytes: &[u8], at: usize) -> u64
    requires { at + 8 ≤ length bytes.now }
    ensures { result ≡ as_number (drop at bytes.now) % 2 ^ 64 }
{
    let word = bytes[at..].first_chunk::<8>().unwrap();
    u64::from_le_bytes(*word)
}

// One number of the group that the bytes begin with.
#[inline(always)]
fn number_of_group<const W: usize>(bytes: &[u8], i: usize) -> u64
    requires width { W ≤ 56 }
    requires within { i < 8 }
    requires room { W + 8 ≤ length bytes.now }
    ensures { result ≡ bits_from (i * W) W bytes.now }
{
    let place = i * W;
    (whole_word(bytes, place / 8) >> (place % 8)) & ((1 << W) - 1)
}

// Puts the group that the bytes begin with at `at`.
#[inline(always)]
fn unpack_group<T: Unpacked, const W: usize>(bytes: &[u8], at: usize, output: &mut [T])
    requires width { W ≤ 56 }
    requires fit { W ≤ T.most_bits }
    requires room { W + 8 ≤ length bytes.now }
    requires places { at + 8 ≤ length output.old }
    ensures { Puts T.number output.old output.new at (at + 8) (unpacked_from 0 8 W bytes.now) }
{
    for i in 0..8 {
        output[at + i] = T::of(number_of_group::<W>(bytes, i));
    }
}

// Puts the groups that the bytes begin with at `at`.
fn unpack_groups<T: Unpacked, const W: usize>(
    bytes: &[u8],
    groups: usize,
    at: usize,
    output: &mut [T],
)
    requires width { W ≤ 56 }
    requires fit { W ≤ T.most_bits }
    requires room { groups * W + 8 ≤ length bytes.now }
    requires places { at + 8 * groups ≤ length output.old }
    ensures { Puts T.number output.old output.new at (at + 8 * groups) (unpacked_from 0 (8 * groups) W bytes.now) }
{
    for group in 0..groups {
        unpack_group::<T, W>(&bytes[group * W..], at + 8 * group, output);
    }
}

// Puts the groups of a width that the bytes begin with at `at`.
pub(crate) fn unpack_groups_of<T: Unpacked>(
    width: u8,
    bytes: &[u8],
    groups: usize,
    at: usize,
    output: &mut [T],
)
    requires width { width ≤ 56 }
    requires fit { width ≤ T.most_bits }
    requires room { groups * width + 8 ≤ length bytes.now }
    requires places { at + 8 * groups ≤ length output.old }
    ensures { Puts T.number output.old output.new at (at + 8 * groups) (unpacked_from 0 (8 * groups) width bytes.now) }
{
    at_width!(
        width,
        unpack_groups::<T>(bytes, groups, at, output),
        0 1 2 3 4 5 6 7 8 9 10 11 12 13 14 15 16 17 18 19 20 21 22 23 24 25 26 27
        28 29 30 31 32 33 34 35 36 37 38 39 40 41 42 43 44 45 46 47 48 49 50 51 52 53 54 55,
        56
    )
}
