// Sets of numbers in bytes.
ghost use Rattle.std.specs.Prelude.{◌≡◌, ◌*◌, ◌/◌, ◌<◌, ◌≤◌, ◌↔◌, ℕ, length, IsTrue, IsOk, IfOk, IsOkAnd};
ghost use Rattle.std.specs.Int.{div_ceil};
ghost use Rattle.std.specs.FinSet as set;
ghost use Rattle.common_bitset.specs.Subset.{Subset, IsProper, FitsBitSet, stored_set, bytes_of, met_word, word_at, word_in};
ghost use Rattle.common_bitset.specs.Numbers.{rising};
ghost use Rattle.common_bitset.specs.Counts.{total};
ghost use Rattle.common_bitset.specs.Laws.Stored.{Stores};

use crate::{BitSet, BitSetIter, TinySet, words};
use common_wire::ByteCount;
use owned_bytes::OwnedBytes;
use std::alloc::{AllocError, Global};
use std::marker::Model;
use thiserror::Error;

/// A set of numbers below `max_value`, in the bytes of its words. Contracts see the set and its bound.
#[derive(Drop)]
pub struct ReadOnlyBitSet {
    words: OwnedBytes,
    max_value: u32,
}

impl Model for ReadOnlyBitSet {
    ghost use Rattle.common_bitset.specs.Subset.{Subset, subset_code, gathered, stored_word};

    ghost Value = { Subset };

    ghost coded = { subset_code };

    ghost use Rattle.common_bitset.specs.Laid.{AreStored};

    ghost view = { λ b. record { elements = gathered b.max_value (stored_word b.words); max_value = b.max_value } };

    ghost invariant = { λ b. AreStored b.words b.max_value };
}

/// The bytes are no set of numbers below a bound.
#[derive(Clone, Copy, Debug, PartialEq, Eq, Error)]
#[error("the bytes are no bit set")]
pub struct Misfit;

impl ReadOnlyBitSet {
    /// The set that bytes spell: the bound as a `u32`, and as many words of eight bytes as it needs, all least byte first. Bit `i` of word `k` is element `64 * k + i`.
    pub fn open(bytes: OwnedBytes) -> Result<ReadOnlyBitSet, Misfit>
        ensures fits { IsOk result ↔ FitsBitSet bytes }
        ensures value { IfOk result (λ s. s ≡ stored_set bytes) }

        // What a set wrote opens to the same set.
        ensures again { (s : Subset) → IsProper s → bytes ≡ bytes_of s → IsOkAnd result (λ t. t ≡ s) }
    {
        if !fits(bytes.as_slice()) {
            return Err(Misfit);
        }
        let mut words = bytes;
        let max_value = words.read_u32();
        Ok(ReadOnlyBitSet { words, max_value })
    }

    /// The same set in bytes.
    pub fn from_bitset(alloc: Global, bitset: &BitSet) -> Result<ReadOnlyBitSet, AllocError>
        ensures { IfOk result (λ s. s ≡ bitset.now) }
    {
        let max_value = bitset.max_value();
        let words = written_words(alloc, bitset)?;
        Ok(ReadOnlyBitSet {
            words: OwnedBytes::new(alloc, words)?,
            max_value,
        })
    }

    /// The bound: each element is below it.
    pub fn max_value(&self) -> u32
        ensures value { result ≡ self.now.max_value }
        ensures proper { IsProper self.now }
    {
        self.max_value
    }

    /// The bytes of the words alone.
    pub fn num_bytes(&self) -> ByteCount
        ensures { result ≡ 8 * div_ceil self.now.max_value 64 }
    {
        ByteCount::from(self.words.len())
    }

    /// How many elements there are.
    pub fn len(&self) -> usize
        ensures count { result ≡ set.len self.now.elements }
        ensures most { result ≤ self.now.max_value }
    {
        words::count_stored(self.words.as_slice())
    }

    /// Whether the number is an element.
    pub fn contains(&self, el: u32) -> bool
        requires { el < self.now.max_value }
        ensures { result ≡ set.contains self.now.elements el }
    {
        words::stored(self.words.as_slice(), el as usize / 64).contains(el % 64)
    }

    /// The elements, rising.
    pub fn iter(&self) -> BitSetIter<'_>
        ensures { result ≡ rising self.now.max_value self.now.elements }
    {
        BitSetIter::new(self.words.as_slice())
    }

    /// The same set, over the same bytes.
    pub fn clone(&self, alloc: Global) -> Result<ReadOnlyBitSet, AllocError>
        ensures { IfOk result (λ s. s ≡ self.now) }
    {
        Ok(ReadOnlyBitSet {
            words: self.words.clone(alloc)?,
            max_value: self.max_value,
        })
    }

    // Keeps in the words the elements that this set has too, and says how many there are.
    pub(crate) fn intersect_words(&self, words: &mut [TinySet]) -> usize
        requires { length words.old ≡ div_ceil self.now.max_value 64 }
        ensures words { (k : ℕ) → word_at words.new k ≡ set.intersection (word_at words.old k) (word_in self.now.elements k) }
        ensures count { result ≡ total (length words.old) (word_at words.new) }
        ensures proper { IsProper self.now }
    {
        words::intersect_stored(words, self.words.as_slice())
    }
}

/// The numbers that both sets have.
pub fn intersect_bitsets(
    alloc: Global,
    left: &ReadOnlyBitSet,
    other: &ReadOnlyBitSet,
) -> Result<ReadOnlyBitSet, AllocError>
    requires { other.now.max_value ≡ left.now.max_value }
    ensures elements { IfOk result (λ s. s.elements ≡ set.intersection left.now.elements other.now.elements) }
    ensures max_value { IfOk result (λ s. s.max_value ≡ left.now.max_value) }
{
    let words = met_words(alloc, left.words.as_slice(), other.words.as_slice())?;
    Ok(ReadOnlyBitSet {
        words: OwnedBytes::new(alloc, words)?,
        max_value: left.max_value,
    })
}

// Whether bytes are a set: a bound, as many words as it needs, and no element past it.
fn fits(bytes: &[u8]) -> bool
    ensures { IsTrue result ↔ FitsBitSet bytes.now }
{
    let Some((bound, words)) = bytes.split_first_chunk::<4>() else {
        return false;
    };
    let max_value = u32::from_le_bytes(*bound);
    if words.len() != 8 * max_value.div_ceil(64) as usize {
        return false;
    }
    words::ends_below(words, max_value)
}

// The words of a set in bytes.
fn written_words(alloc: Global, bitset: &BitSet) -> Result<Vec<u8>, AllocError>
    ensures { IfOk result (λ v. Stores v.items (div_ceil bitset.now.max_value 64) (word_in bitset.now.elements)) }
{
    let count = bitset.max_value().div_ceil(64);
    let mut bytes = Vec::with_capacity(alloc, 8 * count as usize)?;
    for k in 0..count {
        bytes.extend_from_slice(&bitset.tinyset(k).into_bytes())?;
    }
    Ok(bytes)
}

// The words in bytes that have what both words have.
fn met_words(alloc: Global, left: &[u8], right: &[u8]) -> Result<Vec<u8>, AllocError>
    requires same_len { length right.now ≡ length left.now }
    ensures { IfOk result (λ v. Stores v.items (length left.now / 8) (met_word left.now right.now)) }
{
    let mut bytes = Vec::with_capacity(alloc, left.len())?;
    for k in 0..left.len() / 8 {
        let word = words::stored(left, k).intersect(words::stored(right, k));
        bytes.extend_from_slice(&word.into_bytes())?;
    }
    Ok(bytes)
}
