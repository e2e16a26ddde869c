// What an index can keep.
ghost use Rattle.std.specs.Prelude.{◌≡◌, ◌≤◌, ◌↔◌, ◌^◌, ◌-◌, min, sum_by, All, IsTrue, IsNone, ◌<◌, nat_lt, slice_get};
ghost use Rattle.std.specs.List.{list_all};
ghost use Rattle.documents.specs.Documents.{IsField, IsValidPair, AreValidDocuments, fault_of, first_fault, pair_size, documents_size};
ghost use Rattle.documents.specs.Documents as spec;

use crate::{Doc, Pair};

// The most bytes that the field of a pair, one byte and its term may have.
const KEY_LIMIT: usize = 65_535;

/// What keeps a pair out of an index.
#[derive(Clone, Copy, Debug, PartialEq, Eq)]
pub enum Fault {
    /// The field is empty, or holds byte 0 or 1.
    BadField,
    /// The field, one byte and the term are more than 65,535 bytes.
    KeyTooLong,
}

/// A fault, with the number of its document and of the pair in it, both from 0.
#[derive(Clone, Copy, Debug, PartialEq, Eq)]
pub struct PlacedFault {
    pub doc: u64,
    pub pair: u64,
    pub fault: Fault,
}

fn has_no_separator(field: &[u8]) -> bool
    ensures value { result ≡ list_all (λ byte. nat_lt 1 byte) field.now }
    ensures fact { IsTrue result ↔ All (λ byte. 1 < byte) field.now }
{
    field.iter().all(|byte| *byte > 1)
}

/// Whether a pair of this field can be kept: it is not empty, and holds neither byte 0 nor byte 1.
pub fn is_field(field: &str) -> bool
    ensures value { result ≡ spec.is_field field.now }
    ensures fact { IsTrue result ↔ IsField field.now }
{
    !field.is_empty() && has_no_separator(field.as_bytes())
}

fn is_short(pair: &Pair) -> bool
    ensures value { result ≡ spec.is_short pair.now }
    ensures fact { IsTrue result ↔ (spec.key_length pair.now ≤ spec.longest_key) }
{
    pair.field.len() < KEY_LIMIT && pair.term.len() <= KEY_LIMIT - 1 - pair.field.len()
}

// What keeps the pair out of an index: its field before its length.
fn fault_of(pair: &Pair) -> Option<Fault>
    ensures value { result ≡ spec.fault_of pair.now }
    ensures none { IsNone result ↔ IsValidPair pair.now }
{
    if !is_field(pair.field.as_str()) {
        return Some(Fault::BadField);
    }
    if !is_short(pair) {
        return Some(Fault::KeyTooLong);
    }
    None
}

fn is_valid(doc: &Doc) -> bool
    ensures { IsTrue result ↔ All IsValidPair doc.now.pairs }
{
    doc.pairs
        .as_slice()
        .iter()
        .all(|pair| fault_of(pair).is_none())
}

/// Whether an index can keep the documents.
pub fn are_valid(docs: &[Doc]) -> bool
    ensures { IsTrue result ↔ AreValidDocuments docs.now }
{
    docs.len() <= u32::MAX as usize && docs.iter().all(|doc| is_valid(doc))
}

fn doc_size(doc: &Doc) -> u64
    ensures { result ≡ min (sum_by pair_size doc.now.pairs) (2 ^ 64 - 1) }
{
    let mut total = 0u64;
    for pair in doc.pairs.as_slice() {
        total = total.saturating_add(pair.field.len() as u64);
        total = total.saturating_add(pair.term.len() as u64);
        total = total.saturating_add(64);
    }
    total
}

/// The size of the documents, or the greatest `u64` where it is larger.
pub fn documents_size(docs: &[Doc]) -> u64
    ensures { result ≡ min (spec.documents_size docs.now) (2 ^ 64 - 1) }
{
    let mut total = 0u64;
    for doc in docs {
        total = total.saturating_add(doc_size(doc));
    }
    total
}

/// The fault of the first faulty pair, in the order of the documents and of their pairs.
pub fn first_fault(docs: &[Doc]) -> Option<PlacedFault>
    ensures value { result ≡ spec.first_fault docs.now }
    ensures none { IsNone result ↔ All (λ doc. All IsValidPair doc.pairs) docs.now }
{
    for (number, doc) in docs.iter().enumerate() {
        if let Some(found) = fault_in(number as u64, doc) {
            return Some(found);
        }
    }
    None
}

// The first fault of the document with this number.
fn fault_in(number: u64, doc: &Doc) -> Option<PlacedFault>
    ensures value { result ≡ slice_get (spec.faults_from number 0 doc.now.pairs) 0 }
    ensures none { IsNone result ↔ All IsValidPair doc.now.pairs }
{
    for (place, pair) in doc.pairs.as_slice().iter().enumerate() {
        if let Some(fault) = fault_of(pair) {
            return Some(PlacedFault {
                doc: number,
                pair: place as u64,
                fault,
            });
        }
    }
    None
}
