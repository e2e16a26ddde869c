// A reader of numbers packed at one width.
ghost use Rattle.std.specs.Prelude.{◌≡◌, ◌+◌, ◌*◌, ◌%◌, ◌^◌, ◌<◌, ◌≤◌, ◌++◌, ◌-◌, length, take, drop, map, replicate, IfOk, OnOk};
ghost use Rattle.tantivy_bitpacker.specs.Within.{ids_in, ids_above, ids_of};
ghost use Rattle.tantivy_bitpacker.specs.Packed.{as_number, bits_from, unpacked_from, read_between, Puts};

use crate::filter_vec::filter_lanes;
use crate::groups::{Unpacked, unpack_groups_of};
use crate::plain;
use std::alloc::{AllocError, Global};
use std::marker::Model;
use std::ops::{Range, RangeInclusive};

const GREATEST_U32: u64 = u32::MAX as u64;

// The greatest width of which eight numbers are unpacked at once: each then lies within eight bytes, wherever it begins.
const WIDEST_OF_GROUP: u8 = 56;

// How many numbers are decoded before they are filtered, so that they stay in the nearest cache.
const BLOCK: usize = 1024;

/// Reads numbers that are packed at one width, of 0 to 56 bits or of 64.
#[derive(Clone, Copy, Debug)]
pub struct BitUnpacker {
    num_bits: u8,
    mask: u64,
}

impl Model for BitUnpacker {
    ghost use Rattle.std.specs.Prelude.{◌≡◌, ℕ, ◌^◌, ◌-◌, ◌<◌};
    ghost use Rattle.std.proofs.Common.{ap, sym};

    ghost Value = { ℕ };

    ghost view = { λ u. u.num_bits };

    ghost invariant = { λ u. (56 < u.num_bits → u.num_bits ≡ 64) × (u.mask ≡ 2 ^ u.num_bits - 1) };

    ghost inverse = { λ width. record { num_bits = width; mask = 2 ^ width - 1 } };

    ghost inverse_ok = { λ u h. ap (λ m. record { num_bits = u.num_bits; mask = m }) (sym h.1) };
}

impl BitUnpacker {
    /// A reader of numbers of so many bits.
    pub fn new(num_bits: u8) -> BitUnpacker
        requires { 56 < num_bits → num_bits ≡ 64 }
        ensures { result ≡ num_bits }
    {
        let mask = if num_bits == 64 {
            u64::MAX
        } else {
            (1 << num_bits) - 1
        };
        BitUnpacker { num_bits, mask }
    }

    /// How many bits each number has.
    pub fn bit_width(&self) -> u8
        ensures { result ≡ self.now }
    {
        self.num_bits
    }

    /// The number at the place `idx` of the packed `bytes`.
    #[inline]
    pub fn get(&self, idx: u32, bytes: &[u8]) -> u64
        requires { (idx + 1) * self.now ≤ 8 * length bytes.now }
        ensures { result ≡ bits_from (idx * self.now) self.now bytes.now }
    {
        self.number_at(idx as usize, bytes)
    }

    // The number at a place, which may be past those that a `u32` counts.
    #[inline]
    fn number_at(&self, idx: usize, bytes: &[u8]) -> u64
        requires few { idx < 2 ^ 33 }
        requires within { (idx + 1) * self.now ≤ 8 * length bytes.now }
        ensures { result ≡ bits_from (idx * self.now) self.now bytes.now }
    {
        let place = idx * self.num_bits as usize;
        (word_at(place / 8, bytes) >> (place % 8)) & self.mask
    }

    /// The numbers from the place `start_idx` on, as many as `output` holds.
    pub fn get_range(&self, start_idx: u32, bytes: &[u8], output: &mut [u64])
        requires places { start_idx + length output.old ≤ 2 ^ 32 }
        requires within { (start_idx + length output.old) * self.now ≤ 8 * length bytes.now }
        ensures { output.new ≡ unpacked_from start_idx (length output.old) self.now bytes.now }
    {
        if self.num_bits > WIDEST_OF_GROUP {
            return plain::get_range(self, start_idx, bytes, output);
        }
        self.unpack(start_idx, bytes, output);
    }

    /// So many numbers of at most 32 bits, from the place `start_idx` on.
    pub fn numbers_u32(
        &self,
        alloc: Global,
        start_idx: u32,
        count: u32,
        bytes: &[u8],
    ) -> Result<Vec<u32>, AllocError>
        requires narrow { self.now ≤ 32 }
        requires within { (start_idx + count) * self.now ≤ 8 * length bytes.now }
        ensures { IfOk result (λ numbers. numbers.items ≡ unpacked_from start_idx count self.now bytes.now) }
    {
        let mut numbers = vec![in alloc; 0u32; count as usize]?;
        self.unpack(start_idx, bytes, numbers.as_mut_slice());
        Ok(numbers)
    }

    // The numbers from the place `start_idx` on, as many as `output` holds.
    fn unpack<T: Unpacked>(&self, start_idx: u32, bytes: &[u8], output: &mut [T])
        requires grouped { self.now ≤ WIDEST_OF_GROUP }
        requires fit { self.now ≤ T.most_bits }
        requires places { start_idx + length output.old ≤ 2 ^ 33 }
        requires within { (start_idx + length output.old) * self.now ≤ 8 * length bytes.now }
        ensures { map T.number output.new ≡ unpacked_from start_idx (length output.old) self.now bytes.now }
    {
        let start = start_idx as usize;
        let count = output.len();
        let lead = ((8 - start % 8) % 8).min(count);
        self.get_each(start, 0, lead, bytes, output);
        let end = self.get_groups(start, lead, bytes, output);
        self.get_each(start, end, count, bytes, output);
    }

    // Decodes the numbers from `from` to `to` of those from `start` on, one by one.
    #[inline]
    fn get_each<T: Unpacked>(
        &self,
        start: usize,
        from: usize,
        to: usize,
        bytes: &[u8],
        output: &mut [T],
    )
        requires fit { self.now ≤ T.most_bits }
        requires ordered { from ≤ to }
        requires inside { to ≤ length output.old }
        requires places { start + length output.old ≤ 2 ^ 33 }
        requires within { (start + length output.old) * self.now ≤ 8 * length bytes.now }
        ensures { Puts T.number output.old output.new from to (read_between start from to self.now bytes.now) }
    {
        for i in from..to {
            output[i] = T::of(self.number_at(start + i, bytes));
        }
    }

    // Decodes the groups of eight from `from` on that begin with a whole byte and have a word of bytes left behind
    // them, and answers where they end.
    fn get_groups<T: Unpacked>(
        &self,
        start: usize,
        from: usize,
        bytes: &[u8],
        output: &mut [T],
    ) -> usize
        requires grouped { self.now ≤ WIDEST_OF_GROUP }
        requires fit { self.now ≤ T.most_bits }
        requires inside { from ≤ length output.old }
        requires places { start + length output.old ≤ 2 ^ 33 }
        requires within { (start + length output.old) * self.now ≤ 8 * length bytes.now }
        ensures after { from ≤ result }
        ensures bound { result ≤ length output.old }
        ensures decoded { Puts T.number output.old output.new from result (read_between start from result self.now bytes.now) }
    {
        let first = start + from;
        if first % 8 != 0 {
            return from;
        }
        let width = self.num_bits as usize;
        let (_, rest) = bytes.split_at(first / 8 * width);
        let groups = groups_within(width, rest.len(), output.len() - from);
        if groups == 0 {
            return from;
        }
        unpack_groups_of(self.num_bits, rest, groups, from, output);
        from + 8 * groups
    }

    /// The ascending ids of `id_range` whose number lies in `range`, in place of what `positions` held. After an error
    /// it may hold anything.
    pub fn get_ids_for_value_range(
        &self,
        range: RangeInclusive<u64>,
        id_range: Range<u32>,
        bytes: &[u8],
        positions: &mut Vec<u32>,
    ) -> Result<(), AllocError>
        requires { id_range.end * self.now ≤ 8 * length bytes.now }
        ensures { OnOk result (positions.new.items ≡ ids_in range id_range self.now bytes.now) }
    {
        if self.num_bits > 32 {
            return plain::get_ids_for_value_range(self, range, id_range, bytes, positions);
        }
        positions.clear();
        let low = *range.start();
        let high = (*range.end()).min(GREATEST_U32);
        if high < low {
            return Ok(());
        }
        self.push_ids(low as u32, (high - low) as u32, id_range, bytes, positions)
    }

    // Adds the ids of `id_range` whose number lies from `low` to `low + span`, block by block.
    fn push_ids(
        &self,
        low: u32,
        span: u32,
        id_range: Range<u32>,
        bytes: &[u8],
        positions: &mut Vec<u32>,
    ) -> Result<(), AllocError>
        requires narrow { self.now ≤ 32 }
        requires fits { low + span < 2 ^ 32 }
        requires within { id_range.end * self.now ≤ 8 * length bytes.now }
        ensures { OnOk result (positions.new.items ≡ positions.old.items ++ ids_of low span id_range self.now bytes.now) }
    {
        let mut block = [0; BLOCK];
        let mut first = id_range.start;
        while first < id_range.end {
            let count = (BLOCK as u32 - first % 8).min(id_range.end - first);
            let numbers = &mut block[..count as usize];
            let kept = self.ids_of_block(low, span, first, bytes, numbers);
            positions.extend_from_slice(&numbers[..kept])?;
            first += count;
        }
        Ok(())
    }

    // Decodes as many numbers from `first` on as the block holds, and filters them in place: the ids of those from
    // `low` to `low + span` stand in front, and their count is the answer.
    fn ids_of_block(
        &self,
        low: u32,
        span: u32,
        first: u32,
        bytes: &[u8],
        block: &mut [u32],
    ) -> usize
        requires narrow { self.now ≤ 32 }
        requires fits { low + span < 2 ^ 32 }
        requires places { first + length block.old ≤ 2 ^ 32 }
        requires within { (first + length block.old) * self.now ≤ 8 * length bytes.now }
        ensures bound { result ≤ length block.old }
        ensures kept { take result block.new ≡ ids_above low span first (length block.old) self.now bytes.now }
    {
        self.unpack(first, bytes, block);
        filter_lanes(low, span, first, block)
    }
}

// How many groups of eight of so many numbers lie within so many bytes with a word of bytes left behind them.
fn groups_within(width: usize, bytes: usize, count: usize) -> usize
    requires { width ≤ 56 }
    ensures few { 8 * result ≤ count }
    ensures room { 0 < result → result * width + 8 ≤ bytes }
{
    if bytes < 8 {
        return 0;
    }
    let groups = count / 8;
    if width == 0 || groups <= (bytes - 8) / width {
        groups
    } else {
        (bytes - 8) / width
    }
}

impl Default for BitUnpacker {
    ghost is_default = { λ u. u ≡ 0 };

    fn default() -> Self {
        BitUnpacker::new(0)
    }
}

// The eight bytes from a place on as a number. Past the last byte they are 0.
#[inline]
fn word_at(place: usize, bytes: &[u8]) -> u64
    requires { place ≤ length bytes.now }
    ensures { result ≡ as_number (drop place bytes.now) % 2 ^ 64 }
{
    let rest = &bytes[place..];
    match rest.first_chunk::<8>() {
        Some(word) => u64::from_le_bytes(*word),
        None => last_word(rest),
    }
}

// Fewer than eight bytes as a number.
#[inline(never)]
fn last_word(rest: &[u8]) -> u64
    requires { length rest.now < 8 }
    ensures { result ≡ as_number rest.now % 2 ^ 64 }
{
    u64::from_le_bytes(padded(rest))
}

// The bytes, and then zeros.
fn padded(rest: &[u8]) -> [u8; 8]
    requires { length rest.now < 8 }
    ensures { result ≡ rest.now ++ replicate (8 - length rest.now) 0 }
{
    let mut word = [0; 8];
    word[..rest.len()].copy_from_slice(rest);
    word
}
