// A set of numbers below a bound.
ghost use Rattle.std.specs.Prelude.{◌≡◌, ◌<◌, ◌≤◌, ◌↔◌, ℕ, IfOk, IfSome, IsNone, Err, not};
ghost use Rattle.std.specs.FinSet as set;
ghost use Rattle.std.specs.Fmt.{WritesOnOk};
ghost use Rattle.common_bitset.specs.Numbers.{below, rising};
ghost use Rattle.common_bitset.specs.Shown.{counts_text};
ghost use Rattle.std.specs.Int.{div_ceil};
ghost use Rattle.owned_bytes.specs.Outside.{WritesAll, HasCause};
ghost use Rattle.common_bitset.specs.Subset.{Subset, IsProper, IsFirstNonEmpty, word_in, bytes_of};

use crate::{BitSetElements, ReadOnlyBitSet, TinySet, words};
use owned_bytes::{Sink, SinkError};
use std::alloc::{AllocError, Global};
use std::fmt;
use std::marker::Model;

/// A set of numbers below `max_value`, in words of 64. Contracts see the set and its bound.
#[derive(Drop)]
pub struct BitSet {
    tinysets: Vec<TinySet>,
    len: usize,
    max_value: u32,
}

impl Model for BitSet {
    ghost use Rattle.common_bitset.specs.Subset.{Subset, subset_code, gathered, word_at};

    ghost Value = { Subset };

    ghost coded = { subset_code };

    ghost use Rattle.common_bitset.specs.Laid.{IsLaid};

    ghost view = { λ b. record { elements = gathered b.max_value (word_at b.tinysets.items); max_value = b.max_value } };

    ghost invariant = { λ b. IsLaid b.tinysets.items b.len b.max_value };
}

impl BitSet {
    /// The bound: each element is below it.
    pub fn max_value(&self) -> u32
        ensures value { result ≡ self.now.max_value }
        ensures proper { IsProper self.now }
    {
        self.max_value
    }

    /// How many elements there are.
    pub fn len(&self) -> usize
        ensures count { result ≡ set.len self.now.elements }
        ensures most { result ≤ self.now.max_value }
    {
        self.len
    }

    /// The word of a bucket: those of the 64 numbers from `64 * bucket` on that are elements, counted from 0.
    pub fn tinyset(&self, bucket: u32) -> TinySet
        requires { bucket < div_ceil self.now.max_value 64 }
        ensures { result ≡ word_in self.now.elements bucket }
    {
        self.tinysets[bucket as usize]
    }

    /// Whether the number is an element.
    pub fn contains(&self, el: u32) -> bool
        requires { el < self.now.max_value }
        ensures { result ≡ set.contains self.now.elements el }
    {
        self.tinysets[el as usize / 64].contains(el % 64)
    }

    /// Inserts the number. Answers whether the set changed.
    pub fn insert(&mut self, el: u32) -> bool
        requires { el < self.old.max_value }
        ensures elements { self.new.elements ≡ set.insert self.old.elements el }
        ensures max_value { self.new.max_value ≡ self.old.max_value }
        ensures changed { result ≡ not (set.contains self.old.elements el) }
    {
        let higher = el as usize / 64;
        let changed = self.tinysets[higher].insert_mut(el % 64);
        self.len += changed as usize;
        changed
    }

    /// Takes the number out, where it is an element.
    pub fn remove(&mut self, el: u32)
        requires { el < self.old.max_value }
        ensures elements { self.new.elements ≡ set.remove self.old.elements el }
        ensures max_value { self.new.max_value ≡ self.old.max_value }
    {
        let higher = el as usize / 64;
        let changed = self.tinysets[higher].remove_mut(el % 64);
        self.len -= changed as usize;
    }

    /// Adds the other set's elements.
    pub fn union_with(&mut self, other: &BitSet)
        requires { other.now.max_value ≡ self.old.max_value }
        ensures elements { self.new.elements ≡ set.union self.old.elements other.now.elements }
        ensures max_value { self.new.max_value ≡ self.old.max_value }
    {
        self.len = words::unite(self.tinysets.as_mut_slice(), other.tinysets.as_slice());
    }

    /// Keeps the elements that the other set has too.
    pub fn intersect_with(&mut self, other: &BitSet)
        requires { other.now.max_value ≡ self.old.max_value }
        ensures elements { self.new.elements ≡ set.intersection self.old.elements other.now.elements }
        ensures max_value { self.new.max_value ≡ self.old.max_value }
    {
        self.len = words::intersect(self.tinysets.as_mut_slice(), other.tinysets.as_slice());
    }

    /// Keeps the elements that the other set has too.
    pub fn intersect_update(&mut self, other: &ReadOnlyBitSet)
        requires { other.now.max_value ≡ self.old.max_value }
        ensures elements { self.new.elements ≡ set.intersection self.old.elements other.now.elements }
        ensures max_value { self.new.max_value ≡ self.old.max_value }
    {
        self.len = other.intersect_words(self.tinysets.as_mut_slice());
    }

    /// Leaves the numbers below `max_value` that were no elements.
    pub fn complement(&mut self)
        ensures elements { self.new.elements ≡ set.difference (below self.old.max_value) self.old.elements }
        ensures max_value { self.new.max_value ≡ self.old.max_value }
    {
        words::complement(self.tinysets.as_mut_slice(), self.max_value);
        self.len = self.max_value as usize - self.len;
    }

    /// Takes out all elements.
    pub fn clear(&mut self)
        ensures elements { self.new.elements ≡ set.empty }
        ensures max_value { self.new.max_value ≡ self.old.max_value }
    {
        words::clear(self.tinysets.as_mut_slice());
        self.len = 0;
    }

    /// The least bucket from `bucket` on that holds an element; bucket `b` holds the 64 numbers from `64 * b` on.
    pub fn first_non_empty_bucket(&self, bucket: u32) -> Option<u32>
        requires { bucket ≤ div_ceil self.now.max_value 64 }
        ensures none { IsNone result ↔ ((k : ℕ) → bucket ≤ k → word_in self.now.elements k ≡ set.empty) }
        ensures some { IfSome result (IsFirstNonEmpty (word_in self.now.elements) bucket) }
        ensures within { IfSome result (λ k. k < div_ceil self.now.max_value 64) }
    {
        words::first_non_empty(self.tinysets.as_slice(), bucket)
    }

    /// The elements, rising.
    pub fn iter(&self) -> BitSetElements<'_>
        ensures { result ≡ rising self.now.max_value self.now.elements }
    {
        BitSetElements::new(self.tinysets.as_slice())
    }

    /// The set without elements, over the numbers below `max_value`.
    pub fn with_max_value(alloc: Global, max_value: u32) -> Result<BitSet, AllocError>
        ensures { IfOk result (λ s. s ≡ record { elements = set.empty; max_value = max_value }) }
    {
        Ok(BitSet {
            tinysets: vec![in alloc; TinySet::empty(); max_value.div_ceil(64) as usize]?,
            len: 0,
            max_value,
        })
    }

    /// The set of all numbers below `max_value`.
    pub fn with_max_value_and_full(alloc: Global, max_value: u32) -> Result<BitSet, AllocError>
        ensures { IfOk result (λ s. s ≡ record { elements = below max_value; max_value = max_value }) }
    {
        let mut tinysets = vec![in alloc; TinySet::full(); max_value.div_ceil(64) as usize]?;
        words::trim(tinysets.as_mut_slice(), max_value);
        Ok(BitSet {
            tinysets,
            len: max_value as usize,
            max_value,
        })
    }

    /// Appends the bound as a `u32` and the words of 64 numbers, all least byte first, and flushes the sink.
    pub fn serialize<W: Sink>(&self, writer: &mut W) -> Result<(), SinkError>
        ensures bytes { WritesAll (W.written writer.old) (W.written writer.new) result (bytes_of self.now) }
        ensures cause { HasCause (W.faults writer.old) (W.faults writer.new) (result ≡ Err SinkError.Failed) }
    {
        match writer.write_all(&self.max_value.to_le_bytes()) {
            Ok(()) => {}
            Err(e) => return Err(e),
        }
        match words::write(self.tinysets.as_slice(), writer) {
            Ok(()) => {}
            Err(e) => return Err(e),
        }
        writer.flush()
    }

    /// The same set, in memory of its own.
    pub fn clone(&self, alloc: Global) -> Result<BitSet, AllocError>
        ensures { IfOk result (λ s. s ≡ self.now) }
    {
        Ok(BitSet {
            tinysets: Vec::from_slice(alloc, self.tinysets.as_slice())?,
            len: self.len,
            max_value: self.max_value,
        })
    }
}

impl fmt::Debug for BitSet {
    ghost use Rattle.std.specs.Prelude.{Some};
    ghost use Rattle.common_bitset.specs.Shown.{bit_set_text};

    ghost debug_output = { λ s. Some (bit_set_text s) };

    fn fmt<W: fmt::Write>(&self, f: &mut fmt::Formatter<W>) -> fmt::Result {
        let len = self.len();
        let max_value = self.max_value();
        if f.alternate() {
            return f
                .debug_struct("BitSet")
                .field("len", &len)
                .field("max_value", &max_value)
                .finish();
        }
        show_counts(len, max_value, f)
    }
}

// Writes the number of the elements and the bound.
fn show_counts<W: fmt::Write>(len: usize, max_value: u32, f: &mut fmt::Formatter<W>) -> fmt::Result
    ensures { WritesOnOk W.write_str_gives f.old result (counts_text len max_value) f.new }
{
    write!(f, "BitSet {{ len: {len}, max_value: {max_value} }}")
}
