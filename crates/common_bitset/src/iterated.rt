// The elements of words, in memory and in bytes.
ghost use Rattle.std.specs.Prelude.{◌≡◌, ◌^◌, ◌≤◌, ◌/◌, length};
ghost use Rattle.std.specs.Iterator.{YieldsFirst, item_count};
ghost use Rattle.common_bitset.specs.Iterated.{elements_from};
ghost use Rattle.common_bitset.specs.Subset.{word_at, stored_word};

use crate::{TinySet, words};
use std::marker::Model;

/// The elements of a set, rising. Contracts see the list of those that are left. A word without elements is one step.
#[derive(Drop)]
pub struct BitSetElements<'a> {
    words: &'a [TinySet],
    // The number of words that were taken, and the elements of the last of them that are left.
    next: usize,
    current: TinySet,
}

impl<'a> Model for BitSetElements<'a> {
    ghost use Rattle.std.specs.Prelude.{List, ℕ, length};
    ghost use Rattle.common_bitset.specs.Iterated.{elements_left, IsPlaced};
    ghost use Rattle.common_bitset.specs.Subset.{word_at};

    ghost Value = { List ℕ };

    ghost view = { λ it. elements_left (word_at it.words.now) (length it.words.now) it.next it.current };

    ghost invariant = { λ it. IsPlaced (length it.words.now) it.next };
}

impl<'a> BitSetElements<'a> {
    pub(crate) fn new(words: &'a [TinySet]) -> BitSetElements<'a>
        requires { length words.now ≤ 2 ^ 26 }
        ensures { result ≡ elements_from (word_at words.now) (length words.now) 0 }
    {
        BitSetElements {
            words,
            next: 0,
            current: TinySet::empty(),
        }
    }
}

impl<'a> Iterator for BitSetElements<'a> {
    type Item = u32;

    ghost next_gives = { YieldsFirst (λ rest. rest) };

    ghost remaining = { item_count (λ rest. rest) };

    fn next(&mut self) -> Option<u32> {
        while self.current.is_empty() {
            if self.next == self.words.len() {
                return None;
            }
            self.current = self.words[self.next];
            self.next += 1;
        }
        let lowest = self.current.pop_lowest()?;
        Some(64 * (self.next.saturating_sub(1) as u32) + lowest)
    }
}

/// The elements of a set in bytes, rising. Contracts see the list of those that are left.
#[derive(Drop)]
pub struct BitSetIter<'a> {
    words: &'a [u8],
    // The number of words that were taken, and the elements of the last of them that are left.
    next: usize,
    current: TinySet,
}

impl<'a> Model for BitSetIter<'a> {
    ghost use Rattle.std.specs.Prelude.{List, ℕ, ◌/◌, length};
    ghost use Rattle.common_bitset.specs.Iterated.{elements_left, IsPlaced};
    ghost use Rattle.common_bitset.specs.Subset.{stored_word};

    ghost Value = { List ℕ };

    ghost view = { λ it. elements_left (stored_word it.words.now) (length it.words.now / 8) it.next it.current };

    ghost invariant = { λ it. IsPlaced (length it.words.now / 8) it.next };
}

impl<'a> BitSetIter<'a> {
    pub(crate) fn new(words: &'a [u8]) -> BitSetIter<'a>
        requires { length words.now ≤ 2 ^ 29 }
        ensures { result ≡ elements_from (stored_word words.now) (length words.now / 8) 0 }
    {
        BitSetIter {
            words,
            next: 0,
            current: TinySet::empty(),
        }
    }
}

impl<'a> Iterator for BitSetIter<'a> {
    type Item = u32;

    ghost next_gives = { YieldsFirst (λ rest. rest) };

    ghost remaining = { item_count (λ rest. rest) };

    fn next(&mut self) -> Option<u32> {
        while self.current.is_empty() {
            if self.next == self.words.len() / 8 {
                return None;
            }
            self.current = words::stored(self.words, self.next);
            self.next += 1;
        }
        let lowest = self.current.pop_lowest()?;
        Some(64 * (self.next.saturating_sub(1) as u32) + lowest)
    }
}
