// Set operations word by word. Word k of a list past its end is the empty set.
ghost use Rattle.std.specs.Prelude.{◌≡◌, ◌<◌, ◌≤◌, ◌^◌, ◌+◌, ◌*◌, ◌/◌, ◌↔◌, ℕ, IsTrue, length, IsNone, IfSome, Err};
ghost use Rattle.std.specs.Int.{div_ceil};
ghost use Rattle.std.specs.FinSet as set;
ghost use Rattle.common_bitset.specs.Numbers.{below, IsBelow};
ghost use Rattle.common_bitset.specs.Subset.{word_at, room, stored_word, AreWords, IsFirstNonEmpty, bytes_of_words};
ghost use Rattle.owned_bytes.specs.Outside.{WritesAll, HasCause};
ghost use Rattle.common_bitset.specs.Counts.{total};

use crate::TinySet;
use owned_bytes::{Sink, SinkError};

// Adds the other words' elements, and says how many there are.
pub(crate) fn unite(left: &mut [TinySet], right: &[TinySet]) -> usize
    requires same_len { length right.now ≡ length left.old }
    requires few { length left.old ≤ 2 ^ 26 }
    ensures words { (k : ℕ) → word_at left.new k ≡ set.union (word_at left.old k) (word_at right.now k) }
    ensures count { result ≡ total (length left.old) (word_at left.new) }
{
    let mut count = 0;
    for k in 0..left.len() {
        let word = left[k].union(right[k]);
        left[k] = word;
        count += word.len() as usize;
    }
    count
}

// Keeps the elements that the other words have too, and says how many there are.
pub(crate) fn intersect(left: &mut [TinySet], right: &[TinySet]) -> usize
    requires same_len { length right.now ≡ length left.old }
    requires few { length left.old ≤ 2 ^ 26 }
    ensures words { (k : ℕ) → word_at left.new k ≡ set.intersection (word_at left.old k) (word_at right.now k) }
    ensures count { result ≡ total (length left.old) (word_at left.new) }
{
    let mut count = 0;
    for k in 0..left.len() {
        let word = left[k].intersect(right[k]);
        left[k] = word;
        count += word.len() as usize;
    }
    count
}

// Keeps the elements that the words in bytes have too, and says how many there are.
pub(crate) fn intersect_stored(left: &mut [TinySet], right: &[u8]) -> usize
    requires same_len { length right.now ≡ 8 * length left.old }
    requires few { length left.old ≤ 2 ^ 26 }
    ensures words { (k : ℕ) → word_at left.new k ≡ set.intersection (word_at left.old k) (stored_word right.now k) }
    ensures count { result ≡ total (length left.old) (word_at left.new) }
{
    let mut count = 0;
    for k in 0..left.len() {
        let word = left[k].intersect(stored(right, k));
        left[k] = word;
        count += word.len() as usize;
    }
    count
}

// Word `k` of bytes.
pub(crate) fn stored(words: &[u8], k: usize) -> TinySet
    requires { 8 * k + 8 ≤ length words.now }
    ensures { result ≡ stored_word words.now k }
{
    let Some(word) = words[8 * k..].first_chunk::<8>() else {
        unreachable!()
    };
    TinySet::deserialize(*word)
}

// How many elements words in bytes have.
pub(crate) fn count_stored(words: &[u8]) -> usize
    requires few { length words.now ≤ 2 ^ 30 }
    ensures { result ≡ total (length words.now / 8) (stored_word words.now) }
{
    let mut count = 0;
    for k in 0..words.len() / 8 {
        count += stored(words, k).len() as usize;
    }
    count
}

// No element of the words is at or past `max_value`.
pub(crate) fn ends_below(words: &[u8], max_value: u32) -> bool
    requires { length words.now ≡ 8 * div_ceil max_value 64 }
    ensures { IsTrue result ↔ AreWords max_value (stored_word words.now) }
{
    let lower = max_value % 64;
    if lower == 0 {
        return true;
    }
    let last = words.len() / 8 - 1;
    stored(words, last)
        .intersect(TinySet::range_greater_or_equal(lower))
        .is_empty()
}

// Puts in each word's place its complement among the numbers below `max_value`.
pub(crate) fn complement(words: &mut [TinySet], max_value: u32)
    requires { length words.old ≡ div_ceil max_value 64 }
    ensures { (k : ℕ) → word_at words.new k ≡ set.difference (below (room max_value k)) (word_at words.old k) }
{
    for word in words.iter_mut() {
        *word = word.complement();
    }
    trim(words, max_value);
}

// Takes the numbers from `max_value` on out of the last word.
pub(crate) fn trim(words: &mut [TinySet], max_value: u32)
    requires long { length words.old ≡ div_ceil max_value 64 }
    requires short { (k : ℕ) → IsBelow 64 (word_at words.old k) }
    ensures { (k : ℕ) → word_at words.new k ≡ set.intersection (word_at words.old k) (below (room max_value k)) }
{
    let lower = max_value % 64;
    if lower != 0 {
        let last = words.len() - 1;
        words[last] = words[last].intersect(TinySet::range_lower(lower));
    }
}

// Takes all elements out.
pub(crate) fn clear(words: &mut [TinySet])
    ensures { (k : ℕ) → word_at words.new k ≡ set.empty }
{
    for word in words.iter_mut() {
        word.clear();
    }
}

// The least place from `from` on whose word has an element.
pub(crate) fn first_non_empty(words: &[TinySet], from: u32) -> Option<u32>
    requires within { from ≤ length words.now }
    requires few { length words.now ≤ 2 ^ 26 }
    ensures none { IsNone result ↔ ((k : ℕ) → from ≤ k → word_at words.now k ≡ set.empty) }
    ensures some { IfSome result (IsFirstNonEmpty (word_at words.now) from) }
    ensures within { IfSome result (λ k. k < length words.now) }
{
    for k in from..words.len() as u32 {
        if !words[k as usize].is_empty() {
            return Some(k);
        }
    }
    None
}

// Appends the words, each least byte first.
pub(crate) fn write<W: Sink>(words: &[TinySet], writer: &mut W) -> Result<(), SinkError>
    ensures bytes { WritesAll (W.written writer.old) (W.written writer.new) result (bytes_of_words words.now) }
    ensures cause { HasCause (W.faults writer.old) (W.faults writer.new) (result ≡ Err SinkError.Failed) }
{
    for k in 0..words.len() {
        match words[k].serialize(writer) {
            Ok(()) => {}
            Err(e) => return Err(e),
        }
    }
    Ok(())
}
