// Sets of numbers below 64.
ghost use Rattle.std.specs.Prelude.{◌≡◌, ◌<◌, ◌↔◌, IsTrue, IsNone, IsSome, IfSome, Bool, not, ◌≤◌, Err, length, take};
ghost use Rattle.std.specs.Int.{w64, to_le_bytes, from_le_bytes};
ghost use Rattle.std.specs.FinSet as set;
ghost use Rattle.std.specs.Iterator.{YieldsFirst, item_count};
ghost use Rattle.common_bitset.specs.Numbers.{below, IsBelow, IsLeast, rising, same, without};
ghost use Rattle.common_bitset.specs.Words.{elements_of, word_of};
ghost use Rattle.common_bitset.specs.Laws.Sets.{same_equiv};
ghost use Rattle.owned_bytes.specs.Outside.{WritesAll, HasCause};
ghost use Rattle.std.specs.Cmp.{partial_equiv_from_equiv};

use owned_bytes::{Sink, SinkError};
use std::fmt;
use std::marker::Model;

/// A set of numbers below 64, in one word: bit `i` is element `i`.
#[derive(Clone, Copy)]
pub struct TinySet(u64);

impl Model for TinySet {
    ghost use Rattle.std.specs.Prelude.{◌<◌, ◌^◌};
    ghost use Rattle.std.specs.FinSet as set;
    ghost use Rattle.std.specs.Coded.{coded_ℕ};
    ghost use Rattle.common_bitset.specs.Numbers.{Numbers};
    ghost use Rattle.common_bitset.specs.Words.{elements_of, word_of};
    ghost use Rattle.common_bitset.specs.Laws.WordSets.{word_of-elements};

    ghost Value = { Numbers };

    ghost coded = { set.code coded_ℕ };

    ghost view = { λ s. elements_of s.0 };

    ghost invariant = { λ s. s.0 < 2 ^ 64 };

    ghost inverse = { λ s. record { 0 = word_of s } };

    ghost inverse_ok = { λ s small. λ i. record { 0 = word_of-elements s.0 small i } };
}

impl TinySet {
    /// The set without elements.
    pub const EMPTY: TinySet = TinySet(0);

    /// The set without elements.
    pub fn empty() -> TinySet
        ensures { result ≡ set.empty }
    {
        TinySet(0)
    }

    /// All numbers below 64.
    pub fn full() -> TinySet
        ensures { result ≡ below 64 }
    {
        TinySet::empty().complement()
    }

    /// Takes all elements out.
    pub fn clear(&mut self)
        ensures { self.new ≡ set.empty }
    {
        self.0 = 0;
    }

    // Private, since the last word of a set that ends within it would get elements past its end.
    pub(crate) fn complement(self) -> TinySet
        ensures { result ≡ set.difference (below 64) self }
    {
        TinySet(!self.0)
    }

    /// Whether the number is an element.
    pub fn contains(self, el: u32) -> bool
        requires { el < 64 }
        ensures { result ≡ set.contains self el }
    {
        (self.0 >> el) & 1 == 1
    }

    /// How many elements there are.
    pub fn len(self) -> u32
        ensures count { result ≡ set.len self }
        ensures most { result ≤ 64 }
    {
        self.0.count_ones()
    }

    /// The elements that both sets have.
    #[must_use]
    pub fn intersect(self, other: TinySet) -> TinySet
        ensures { result ≡ set.intersection self other }
    {
        TinySet(self.0 & other.0)
    }

    /// The set of one number.
    pub fn singleton(el: u32) -> TinySet
        requires { el < 64 }
        ensures { result ≡ set.insert set.empty el }
    {
        TinySet(1 << el)
    }

    /// The set with this element too.
    #[must_use]
    pub fn insert(self, el: u32) -> TinySet
        requires { el < 64 }
        ensures { result ≡ set.insert self el }
    {
        self.union(TinySet::singleton(el))
    }

    /// The set without this element.
    #[must_use]
    pub fn remove(self, el: u32) -> TinySet
        requires { el < 64 }
        ensures { result ≡ set.remove self el }
    {
        TinySet(self.0 & !(1 << el))
    }

    /// Inserts the number. Answers whether the set changed.
    pub fn insert_mut(&mut self, el: u32) -> bool
        requires { el < 64 }
        ensures after { self.new ≡ set.insert self.old el }
        ensures changed { result ≡ not (set.contains self.old el) }
    {
        let old = *self;
        *self = old.insert(el);
        old != *self
    }

    /// Removes the number. Answers whether the set changed.
    pub fn remove_mut(&mut self, el: u32) -> bool
        requires { el < 64 }
        ensures after { self.new ≡ set.remove self.old el }
        ensures changed { result ≡ set.contains self.old el }
    {
        let old = *self;
        *self = old.remove(el);
        old != *self
    }

    /// The elements of either set.
    #[must_use]
    pub fn union(self, other: TinySet) -> TinySet
        ensures { result ≡ set.union self other }
    {
        TinySet(self.0 | other.0)
    }

    /// Whether there is no element.
    pub fn is_empty(self) -> bool
        ensures { IsTrue result ↔ (self ≡ set.empty) }
    {
        self.0 == 0
    }

    /// Takes out the least element.
    pub fn pop_lowest(&mut self) -> Option<u32>
        ensures none { IsNone result ↔ (self.old ≡ set.empty) }
        ensures least { IfSome result (λ el. IsLeast el self.old) }
        ensures below { IfSome result (λ el. el < 64) }
        ensures after { self.new ≡ without self.old result }
    {
        if self.0 == 0 {
            return None;
        }
        let lowest = self.0.trailing_zeros();
        self.0 &= self.0 - 1;
        Some(lowest)
    }

    /// The numbers below `upper_bound`.
    pub fn range_lower(upper_bound: u32) -> TinySet
        requires { upper_bound < 64 }
        ensures { result ≡ below upper_bound }
    {
        TinySet((1 << upper_bound) - 1)
    }

    /// The numbers from `from_included` on.
    pub fn range_greater_or_equal(from_included: u32) -> TinySet
        requires { from_included < 64 }
        ensures { result ≡ set.difference (below 64) (below from_included) }
    {
        TinySet::range_lower(from_included).complement()
    }

    /// The word, least byte first.
    pub fn into_bytes(self) -> [u8; 8]
        ensures { result ≡ to_le_bytes w64 (word_of self) }
    {
        self.0.to_le_bytes()
    }

    /// The set of a word, least byte first.
    pub fn deserialize(bytes: [u8; 8]) -> TinySet
        ensures { result ≡ elements_of (from_le_bytes w64 bytes) }
    {
        TinySet(u64::from_le_bytes(bytes))
    }

    /// Appends the word, least byte first.
    pub fn serialize<W: Sink>(&self, writer: &mut W) -> Result<(), SinkError>
        ensures bytes { WritesAll (W.written writer.old) (W.written writer.new) result (to_le_bytes w64 (word_of self.now)) }
        ensures cause { HasCause (W.faults writer.old) (W.faults writer.new) (result ≡ Err SinkError.Failed) }
    {
        writer.write_all(&self.into_bytes())
    }
}

impl PartialEq for TinySet {
    ghost eq = { same };

    ghost laws = { partial_equiv_from_equiv same_equiv };

    fn eq(&self, other: &TinySet) -> bool {
        self.0 == other.0
    }
}

impl Eq for TinySet {
    ghost laws = { same_equiv };
}

/// The elements of a set, rising. Contracts see the list of those that are left.
#[derive(Drop)]
pub struct TinySetIterator(TinySet);

impl Model for TinySetIterator {
    ghost use Rattle.std.specs.Prelude.{List, ℕ};
    ghost use Rattle.common_bitset.specs.Numbers.{rising};

    ghost Value = { List ℕ };

    ghost view = { λ it. rising 64 it.0 };
}

impl IntoIterator for TinySet {
    type Item = u32;

    type IntoIter = TinySetIterator;

    fn into_iter(self) -> TinySetIterator
        ensures { result ≡ rising 64 self }
    {
        TinySetIterator(self)
    }
}

impl Iterator for TinySetIterator {
    type Item = u32;

    ghost next_gives = { YieldsFirst (λ rest. rest) };

    ghost remaining = { item_count (λ rest. rest) };

    fn next(&mut self) -> Option<u32> {
        self.0.pop_lowest()
    }
}

impl fmt::Debug for TinySet {
    ghost use Rattle.common_bitset.specs.Shown.{tiny_set_text};

    ghost debug_output = { tiny_set_text };

    fn fmt<W: fmt::Write>(&self, f: &mut fmt::Formatter<W>) -> fmt::Result {
        let mut elements = [0; 64];
        let count = list_elements(*self, &mut elements);
        fmt::Debug::fmt(&&elements[..count], f)
    }
}

// Puts the elements in front of the list, rising, and says how many they are.
fn list_elements(set: TinySet, elements: &mut [u32]) -> usize
    requires { length elements.old ≡ 64 }
    ensures within { result ≤ 64 }
    ensures elements { take result elements.new ≡ rising 64 set }
    ensures long { length elements.new ≡ 64 }
{
    let mut count = 0;
    for element in set {
        elements[count] = element;
        count += 1;
    }
    count
}
