// The command `build`: an index of the documents of a source.
ghost use Rattle.std.specs.Prelude.{◌≡◌, ◌+◌, ◌≤◌, ◌∷◌, []};
ghost use Rattle.owned_bytes.specs.Outside.{HasCause, RisesAtMost};
ghost use Rattle.term_index.specs.Outcomes.{IsAmong};
ghost use Rattle.term_index.specs.Source.{TakenPast, IsReadWhole};
ghost use Rattle.term_index.specs.Build.{BuildEnds, Builds, WritesIndex, documents_end, write_end};

use crate::Outcome;
use crate::command_line::MAX_PAGES;
use crate::input::INPUT_LIMIT;
use crate::loading::load;
use documents::Doc;
use index_writing::{WriteError, write_index};
use owned_bytes::{Sink, Source};
use std::alloc::Global;

/// Reads documents, and appends their index to the store.
pub fn build<S: Source, W: Sink>(alloc: Global, pages: u32, docs: &mut S, store: &mut W) -> Outcome
    requires some { 1 ≤ pages }
    requires few { pages ≤ MAX_PAGES }
    ensures ends { BuildEnds pages (S.left docs.old) result }
    ensures builds { Builds pages result (S.left docs.old) (W.written store.old) (W.written store.new) }
    ensures in_fault { HasCause (S.faults docs.old) (S.faults docs.new) (result ≡ Outcome.InFault) }
    ensures store_fault { HasCause (W.faults store.old) (W.faults store.new) (result ≡ Outcome.StoreFault) }
    ensures read_whole { result ≡ Outcome.Done → IsReadWhole (S.left docs.old) (S.left docs.new) }
    ensures taken { RisesAtMost (S.taken docs.old) (S.taken docs.new) (INPUT_LIMIT + 1) }
    ensures too_long { result ≡ Outcome.InputTooLong → TakenPast INPUT_LIMIT (S.taken docs.old) (S.taken docs.new) }
{
    match load(alloc, docs) {
        Ok(found) => write(alloc, found.as_slice(), pages, store),
        Err(outcome) => outcome,
    }
}

/// Appends the index of documents to the store.
pub fn write<W: Sink>(alloc: Global, docs: &[Doc], pages: u32, store: &mut W) -> Outcome
    requires some { 1 ≤ pages }
    requires few { pages ≤ MAX_PAGES }
    ensures ends { IsAmong (documents_end pages docs.now ∷ Outcome.StoreFault ∷ Outcome.Memory ∷ []) result }
    ensures writes { WritesIndex pages result docs.now (W.written store.old) (W.written store.new) }
    ensures store_fault { HasCause (W.faults store.old) (W.faults store.new) (result ≡ Outcome.StoreFault) }
{
    match write_index(alloc, docs, store, pages) {
        Ok(()) => Outcome::Done,
        Err(error) => outcome_of(error),
    }
}

// The outcome of an error of writing.
fn outcome_of(error: WriteError) -> Outcome
    ensures { result ≡ write_end error }
{
    match error {
        WriteError::Memory => Outcome::Memory,
        WriteError::Write => Outcome::StoreFault,
        WriteError::TooManyDocuments => Outcome::TooManyDocuments,
        WriteError::BadField(doc, pair) => Outcome::BadField(doc, pair),
        WriteError::KeyTooLong(doc, pair) => Outcome::KeyTooLong(doc, pair),
        WriteError::ArenaFull => Outcome::ArenaFull,
    }
}
