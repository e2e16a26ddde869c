// A set of document numbers.
ghost use Rattle.std.specs.Prelude.{◌≡◌, ◌<◌, List, ℕ, All, IfOk, OnOk, OnErr};
ghost use Rattle.std.specs.FinSet as set;
ghost use Rattle.common_bitset.specs.Numbers.{below, rising};
ghost use Rattle.common_bitset.specs.Subset.{IsProper};
ghost use Rattle.document_sets.specs.Members.{with_numbers};

use common_bitset::BitSet;
use owned_bytes::Ids;
use std::alloc::{AllocError, Global};
use std::marker::Model;

// The empty set and the full one take no memory, however many documents there are.
#[derive(Drop)]
enum Members {
    Nothing,
    Everything,
    Listed(BitSet),
}

/// A set of numbers of documents, below a number of documents that stays. Contracts see the set and that bound.
#[derive(Drop)]
pub struct DocSet {
    documents: u32,
    members: Members,
}

impl Model for DocSet {
    ghost use Rattle.common_bitset.specs.Subset.{Subset, subset_code};

    ghost Value = { Subset };

    ghost coded = { subset_code };

    ghost use Rattle.document_sets.specs.Members.{elements_of, AreWithin};

    ghost view = { λ s. record { elements = elements_of s.documents s.members; max_value = s.documents } };

    ghost invariant = { λ s. AreWithin s.documents s.members };
}

impl DocSet {
    /// The set of no document.
    pub fn empty(documents: u32) -> DocSet
        ensures { result ≡ record { elements = set.empty; max_value = documents } }
    {
        DocSet {
            documents,
            members: Members::Nothing,
        }
    }

    /// The set of all documents.
    pub fn full(documents: u32) -> DocSet
        ensures { result ≡ record { elements = below documents; max_value = documents } }
    {
        DocSet {
            documents,
            members: Members::Everything,
        }
    }

    /// The set of these numbers.
    pub fn from_numbers(
        alloc: Global,
        documents: u32,
        numbers: &[u32],
    ) -> Result<DocSet, AllocError>
        requires { All (λ number. number < documents) numbers.now }
        ensures { IfOk result (λ s. s ≡ record { elements = set.from_list numbers.now; max_value = documents }) }
    {
        let mut made = DocSet::empty(documents);
        made.extend(alloc, numbers)?;
        Ok(made)
    }

    /// How many documents there are, those not in the set too.
    pub fn documents(&self) -> u32
        ensures value { result ≡ self.now.max_value }
        ensures proper { IsProper self.now }
    {
        self.documents
    }

    /// Whether the document is a member.
    pub fn contains(&self, document: u32) -> bool
        requires { document < self.now.max_value }
        ensures { result ≡ set.contains self.now.elements document }
    {
        match &self.members {
            Members::Nothing => false,
            Members::Everything => true,
            Members::Listed(bits) => bits.contains(document),
        }
    }

    /// Adds these numbers. An error leaves the set as it was.
    pub fn extend(&mut self, alloc: Global, numbers: &[u32]) -> Result<(), AllocError>
        requires { All (λ number. number < self.old.max_value) numbers.now }
        ensures elements { OnOk result (self.new.elements ≡ with_numbers self.old.elements numbers.now) }
        ensures max_value { self.new.max_value ≡ self.old.max_value }
        ensures err { OnErr result (self.new ≡ self.old) }
    {
        if numbers.is_empty() {
            return Ok(());
        }
        match &mut self.members {
            Members::Nothing => {
                let mut bits = BitSet::with_max_value(alloc, self.documents)?;
                insert_all(&mut bits, numbers);
                self.members = Members::Listed(bits);
            }
            Members::Everything => {}
            Members::Listed(bits) => insert_all(bits, numbers),
        }
        Ok(())
    }

    /// Adds the other set's members.
    pub fn union_with(&mut self, other: DocSet)
        requires { other.max_value ≡ self.old.max_value }
        ensures elements { self.new.elements ≡ set.union self.old.elements other.elements }
        ensures max_value { self.new.max_value ≡ self.old.max_value }
    {
        match other.members {
            Members::Nothing => {}
            Members::Everything => self.members = Members::Everything,
            Members::Listed(bits) => self.union_with_bits(bits),
        }
    }

    fn union_with_bits(&mut self, bits: BitSet)
        requires bound { bits.max_value ≡ self.old.max_value }
        requires within { IsProper bits }
        ensures elements { self.new.elements ≡ set.union self.old.elements bits.elements }
        ensures max_value { self.new.max_value ≡ self.old.max_value }
    {
        match &mut self.members {
            Members::Nothing => self.members = Members::Listed(bits),
            Members::Everything => {}
            Members::Listed(own) => own.union_with(&bits),
        }
    }

    /// Keeps the members that the other set has too.
    pub fn intersect_with(&mut self, other: DocSet)
        requires { other.max_value ≡ self.old.max_value }
        ensures elements { self.new.elements ≡ set.intersection self.old.elements other.elements }
        ensures max_value { self.new.max_value ≡ self.old.max_value }
    {
        if let Members::Nothing = &self.members {
            return;
        }
        match other.members {
            Members::Nothing => self.members = Members::Nothing,
            Members::Everything => {}
            Members::Listed(bits) => self.intersect_with_bits(bits),
        }
    }

    fn intersect_with_bits(&mut self, bits: BitSet)
        requires bound { bits.max_value ≡ self.old.max_value }
        requires within { IsProper bits }
        ensures elements { self.new.elements ≡ set.intersection self.old.elements bits.elements }
        ensures max_value { self.new.max_value ≡ self.old.max_value }
        ensures proper { IsProper self.old }
    {
        match &mut self.members {
            Members::Nothing => {}
            Members::Everything => self.members = Members::Listed(bits),
            Members::Listed(own) => own.intersect_with(&bits),
        }
    }

    /// Takes out the other set's members.
    pub fn subtract(&mut self, other: DocSet)
        requires { other.max_value ≡ self.old.max_value }
        ensures elements { self.new.elements ≡ set.difference self.old.elements other.elements }
        ensures max_value { self.new.max_value ≡ self.old.max_value }
    {
        match other.members {
            Members::Nothing => {}
            Members::Everything => self.members = Members::Nothing,
            Members::Listed(bits) => self.subtract_bits(bits),
        }
    }

    fn subtract_bits(&mut self, mut bits: BitSet)
        requires bound { bits.max_value ≡ self.old.max_value }
        requires within { IsProper bits }
        ensures elements { self.new.elements ≡ set.difference self.old.elements bits.elements }
        ensures max_value { self.new.max_value ≡ self.old.max_value }
    {
        bits.complement();
        self.intersect_with_bits(bits);
    }

    /// Leaves the documents that were no members.
    pub fn complement(&mut self)
        ensures elements { self.new.elements ≡ set.difference (below self.old.max_value) self.old.elements }
        ensures max_value { self.new.max_value ≡ self.old.max_value }
    {
        match &mut self.members {
            Members::Nothing => self.members = Members::Everything,
            Members::Everything => self.members = Members::Nothing,
            Members::Listed(bits) => bits.complement(),
        }
    }

    /// The members, ascending. Words without members are passed at once.
    pub fn to_ids(&self, alloc: Global) -> Result<Ids, AllocError>
        ensures { IfOk result (λ ids. ids ≡ rising self.now.max_value self.now.elements) }
    {
        match &self.members {
            Members::Nothing => Ok(Ids::new(alloc)),
            Members::Everything => all_below(alloc, self.documents),
            Members::Listed(bits) => elements_of(alloc, bits),
        }
    }
}

// All numbers below a bound, ascending.
fn all_below(alloc: Global, bound: u32) -> Result<Ids, AllocError>
    ensures { IfOk result (λ ids. ids ≡ rising bound (below bound)) }
{
    let mut ids = Ids::new(alloc);
    for number in 0..bound {
        ids.push(number)?;
    }
    Ok(ids)
}

// The elements, ascending.
fn elements_of(alloc: Global, bits: &BitSet) -> Result<Ids, AllocError>
    ensures { IfOk result (λ ids. ids ≡ rising bits.now.max_value bits.now.elements) }
{
    let mut ids = Ids::new(alloc);
    for element in bits.iter() {
        ids.push(element)?;
    }
    Ok(ids)
}

// Inserts each of the numbers.
fn insert_all(bits: &mut BitSet, numbers: &[u32])
    requires { All (λ number. number < bits.old.max_value) numbers.now }
    ensures elements { bits.new.elements ≡ with_numbers bits.old.elements numbers.now }
    ensures max_value { bits.new.max_value ≡ bits.old.max_value }
{
    for &number in numbers {
        bits.insert(number);
    }
}
