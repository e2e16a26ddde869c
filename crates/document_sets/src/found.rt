// Documents that were found: a list of their numbers where that suffices, else a set.
ghost use Rattle.std.specs.Prelude.{◌≡◌, ◌<◌, All, IfOk};
ghost use Rattle.std.specs.List.Sorted.{IsStrictlyIncreasing};
ghost use Rattle.std.specs.FinSet as set;
ghost use Rattle.common_bitset.specs.Numbers.{rising};
ghost use Rattle.common_bitset.specs.Subset.{IsProper};

use crate::DocSet;
use owned_bytes::Ids;
use std::alloc::{AllocError, Global};
use std::marker::Model;

// The numbers of one list, ascending, or a set.
#[derive(Drop)]
enum Found {
    Listed(Ids),
    Gathered(DocSet),
}

/// Documents that were found, below a number of documents that stays: those of one list stay the list that they are.
/// Contracts see the set of their numbers and that bound.
#[derive(Drop)]
pub struct FoundDocuments {
    documents: u32,
    found: Found,
}

impl Model for FoundDocuments {
    ghost use Rattle.common_bitset.specs.Subset.{Subset, subset_code};

    ghost Value = { Subset };

    ghost coded = { subset_code };

    ghost use Rattle.document_sets.specs.Found.{elements_found, AreFound};

    ghost view = { λ f. record { elements = elements_found f.found; max_value = f.documents } };

    ghost invariant = { λ f. AreFound f.documents f.found };
}

impl FoundDocuments {
    /// The documents of a list of numbers. It takes no memory.
    pub fn from_ids(documents: u32, numbers: Ids) -> FoundDocuments
        requires rising { IsStrictlyIncreasing numbers }
        requires below { All (λ number. number < documents) numbers }
        ensures { result ≡ record { elements = set.from_list numbers; max_value = documents } }
    {
        FoundDocuments {
            documents,
            found: Found::Listed(numbers),
        }
    }

    /// The members of a set.
    pub fn from_set(set: DocSet) -> FoundDocuments
        ensures { result ≡ set }
    {
        FoundDocuments {
            documents: set.documents(),
            found: Found::Gathered(set),
        }
    }

    /// How many documents there are, those not found too.
    pub fn documents(&self) -> u32
        ensures value { result ≡ self.now.max_value }
        ensures proper { IsProper self.now }
    {
        self.documents
    }

    /// The set of the documents.
    pub fn into_set(self, alloc: Global) -> Result<DocSet, AllocError>
        ensures { IfOk result (λ s. s ≡ self) }
    {
        let FoundDocuments { documents, found } = self;
        match found {
            Found::Listed(numbers) => DocSet::from_numbers(alloc, documents, numbers.as_slice()),
            Found::Gathered(set) => Ok(set),
        }
    }

    /// The numbers of the documents, ascending. A list is handed on as it is.
    pub fn into_ids(self, alloc: Global) -> Result<Ids, AllocError>
        ensures { IfOk result (λ ids. ids ≡ rising self.max_value self.elements) }
    {
        let FoundDocuments {
            documents: _,
            found,
        } = self;
        match found {
            Found::Listed(numbers) => Ok(numbers),
            Found::Gathered(set) => set.to_ids(alloc),
        }
    }
}
