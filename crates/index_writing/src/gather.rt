// Gathers documents: each key, in order, with the numbers of the documents that have it.
ghost use Rattle.std.specs.Prelude.{◌≡◌, ◌^◌, ◌<◌, OnOk, IfOk, length};
ghost use Rattle.documents.specs.Postings.{gather};
ghost use Rattle.documents.specs.Postings as spec;
ghost use Rattle.std.specs.Cmp.Lexicographic.{slice_cmp};
ghost use Rattle.std.specs.BTreeMap.{IsOrdered};
ghost use Rattle.std.specs.Ordering.{nat_cmp};
ghost use Rattle.index_writing.specs.Gathering.{with_number, Tells, AddsNumber, AddsDocument};

use documents::{Doc, Pair, key_of};
use owned_bytes::{Ids, Key};
use std::alloc::{AllocError, Global};
use std::collections::BTreeMap;

// The key of the pair.
fn key_of_pair(alloc: Global, pair: &Pair) -> Result<Key, AllocError>
    ensures { IfOk result (λ key. key ≡ spec.key_of pair.now) }
{
    key_of(alloc, pair.field.as_str(), pair.term.as_str())
}

// Adds the number, where it isn't the last.
fn push_number(ids: &mut Ids, number: u32) -> Result<(), AllocError>
    ensures { OnOk result (ids.new ≡ with_number number ids.old) }
{
    if let Some(last) = ids.as_slice().last() {
        if *last == number {
            return Ok(());
        }
    }
    ids.push(number)
}

// Adds the number at the key.
fn add_number(
    alloc: Global,
    gathered: &mut BTreeMap<Key, Ids>,
    key: Key,
    number: u32,
) -> Result<(), AllocError>
    ensures { OnOk result (AddsNumber key number gathered.old gathered.new) }
{
    let ids = gathered.entry(key)?.or_insert(Ids::new(alloc));
    push_number(ids, number)?;
    Ok(())
}

// Adds the document with this number to those before it.
fn add_doc(
    alloc: Global,
    gathered: &mut BTreeMap<Key, Ids>,
    number: u32,
    doc: &Doc,
) -> Result<(), AllocError>
    ensures { OnOk result (AddsDocument number doc.now gathered.old gathered.new) }
{
    for pair in doc.pairs.as_slice() {
        let key = key_of_pair(alloc, pair)?;
        add_number(alloc, gathered, key, number)?;
    }
    Ok(())
}

// Gathers all documents.
fn gather_map(alloc: Global, docs: &[Doc]) -> Result<BTreeMap<Key, Ids>, AllocError>
    requires { length docs.now < 2 ^ 32 }
    ensures { IfOk result (λ gathered. Tells gathered docs.now) }
{
    let mut gathered = BTreeMap::new(alloc);
    for (number, doc) in docs.iter().enumerate() {
        add_doc(alloc, &mut gathered, number as u32, doc)?;
    }
    Ok(gathered)
}

// The entries of the map, in the order of their keys.
fn entries_of(alloc: Global, gathered: BTreeMap<Key, Ids>) -> Result<Vec<(Key, Ids)>, AllocError>
    ensures entries { IfOk result (λ postings. postings.items ≡ gathered.entries) }
    ensures ordered { IsOrdered (slice_cmp nat_cmp) gathered }
{
    let mut postings = Vec::new(alloc);
    for (key, ids) in gathered {
        postings.push((key, ids))?;
    }
    Ok(postings)
}

/// The keys of the documents in order, each with the numbers of the documents that have it.
pub(crate) fn gather(alloc: Global, docs: &[Doc]) -> Result<Vec<(Key, Ids)>, AllocError>
    requires { length docs.now < 2 ^ 32 }
    ensures { IfOk result (λ postings. postings.items ≡ (gather docs.now).entries) }
{
    let gathered = gather_map(alloc, docs)?;
    entries_of(alloc, gathered)
}
