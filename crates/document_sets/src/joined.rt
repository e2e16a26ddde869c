// The sets of a clause.
ghost use Rattle.std.specs.Prelude.{◌≡◌, Some, None, unwrap_or};
ghost use Rattle.std.specs.Option.{option_or};
ghost use Rattle.std.specs.FinSet as set;
ghost use Rattle.document_sets.specs.Joined.{met, united, joined_elements, only_excluded, elements_in, IsOver};

use crate::DocSet;
use std::marker::Model;

/// What the sets of a clause come to: those that are required, excluded and offered, each added to the ones before it.
#[derive(Drop)]
pub struct JoinedSets {
    documents: u32,
    required: Option<DocSet>,
    excluded: Option<DocSet>,
    offered: Option<DocSet>,
}

impl Model for JoinedSets {
    ghost use Rattle.document_sets.specs.Joined.{Joined, joined_code, elements_in, IsOver};

    ghost Value = { Joined };

    ghost coded = { joined_code };

    ghost view = { λ j. record {
      documents = j.documents;
      required = elements_in j.required;
      excluded = elements_in j.excluded;
      offered = elements_in j.offered;
    } };

    ghost invariant = { λ j. IsOver j.documents j.required × IsOver j.documents j.excluded × IsOver j.documents j.offered };
}

impl JoinedSets {
    /// A clause without sets.
    pub fn new(documents: u32) -> JoinedSets
        ensures { result ≡ record { documents = documents; required = None; excluded = None; offered = None } }
    {
        JoinedSets {
            documents,
            required: None,
            excluded: None,
            offered: None,
        }
    }

    /// Adds a set of which the documents must be members.
    pub fn require(&mut self, members: DocSet)
        requires { members.max_value ≡ self.old.documents }
        ensures { self.new ≡ record self.old { required = Some (met self.old.required members.elements) } }
    {
        self.required = Some(both(self.required.take(), members));
    }

    /// Adds a set of which the documents must not be members.
    pub fn exclude(&mut self, members: DocSet)
        requires { members.max_value ≡ self.old.documents }
        ensures { self.new ≡ record self.old { excluded = Some (united self.old.excluded members.elements) } }
    {
        self.excluded = Some(either(self.excluded.take(), members));
    }

    /// Adds a set of which the documents may be members. Where none is required, they must be in one of these.
    pub fn offer(&mut self, members: DocSet)
        requires { members.max_value ≡ self.old.documents }
        ensures { self.new ≡ record self.old { offered = Some (united self.old.offered members.elements) } }
    {
        self.offered = Some(either(self.offered.take(), members));
    }

    /// The documents of the clause.
    pub fn into_set(self) -> DocSet
        ensures { result ≡ record { elements = joined_elements self; max_value = self.documents } }
    {
        match first_of(self.required, self.offered) {
            Some(chosen) => without(chosen, self.excluded),
            None => others(self.documents, self.excluded),
        }
    }
}

// The first set where there is one, else the second.
fn first_of(first: Option<DocSet>, second: Option<DocSet>) -> Option<DocSet>
    ensures { result ≡ option_or first second }
{
    match first {
        Some(first) => Some(first),
        None => second,
    }
}

// The set without the excluded members.
fn without(chosen: DocSet, excluded: Option<DocSet>) -> DocSet
    requires { IsOver chosen.max_value excluded }
    ensures elements { result.elements ≡ set.difference chosen.elements (unwrap_or (elements_in excluded) set.empty) }
    ensures max_value { result.max_value ≡ chosen.max_value }
{
    let mut left = chosen;
    match excluded {
        Some(excluded) => {
            left.subtract(excluded);
            left
        }
        None => left,
    }
}

// All documents but the excluded ones; none where there is no such set.
fn others(documents: u32, excluded: Option<DocSet>) -> DocSet
    requires { IsOver documents excluded }
    ensures elements { result.elements ≡ joined_elements (only_excluded documents (elements_in excluded)) }
    ensures max_value { result.max_value ≡ documents }
{
    match excluded {
        Some(mut excluded) => {
            excluded.complement();
            excluded
        }
        None => DocSet::empty(documents),
    }
}

// The members of both sets, or of the second where there is no first.
fn both(first: Option<DocSet>, second: DocSet) -> DocSet
    requires { IsOver second.max_value first }
    ensures { result ≡ record { elements = met (elements_in first) second.elements; max_value = second.max_value } }
{
    match first {
        Some(mut first) => {
            first.intersect_with(second);
            first
        }
        None => second,
    }
}

// The members of either set, or of the second where there is no first.
fn either(first: Option<DocSet>, second: DocSet) -> DocSet
    requires { IsOver second.max_value first }
    ensures { result ≡ record { elements = united (elements_in first) second.elements; max_value = second.max_value } }
{
    match first {
        Some(mut first) => {
            first.union_with(second);
            first
        }
        None => second,
    }
}
