// The command `ask`: the documents of a source that satisfy a query.
ghost use Rattle.std.specs.Prelude.{◌≡◌, ◌+◌, List, IfOk, IfErr};
ghost use Rattle.owned_bytes.specs.Outside.{HasCause, RisesAtMost};
ghost use Rattle.documents.specs.declared.documents.Doc.{Doc};
ghost use Rattle.index_writing.specs.Writes.{IsWrittenFor};
ghost use Rattle.term_index.specs.Source.{TakenPast, IsReadWhole};
ghost use Rattle.term_index.specs.Ask.{AskEnds, Asks, QuestionEnds, AnswersQuestion, AreNotKept};
ghost use Rattle.term_index.specs.Ask.{AnswersOverFile, EndsOverFile};

use crate::Outcome;
use crate::command_line::MAX_PAGES;
use crate::commands::build::write;
use crate::commands::search::search;
use crate::input::INPUT_LIMIT;
use crate::loading::load;
use documents::Doc;
use owned_bytes::{BytesFile, OwnedBytes, Sink, Source, VecSink};
use std::alloc::Global;

/// Reads documents, and prints the numbers of those that satisfy the query.
pub fn ask<S: Source, O: Sink>(
    alloc: Global,
    field: &str,
    query: &str,
    docs: &mut S,
    out: &mut O,
) -> Outcome
    ensures ends { AskEnds query.now (S.left docs.old) result }
    ensures prints { Asks query.now field.now result (S.left docs.old) (O.written out.old) (O.written out.new) }
    ensures in_fault { HasCause (S.faults docs.old) (S.faults docs.new) (result ≡ Outcome.InFault) }
    ensures out_fault { HasCause (O.faults out.old) (O.faults out.new) (result ≡ Outcome.OutFault) }
    ensures read_whole { result ≡ Outcome.Done → IsReadWhole (S.left docs.old) (S.left docs.new) }
    ensures taken { RisesAtMost (S.taken docs.old) (S.taken docs.new) (INPUT_LIMIT + 1) }
    ensures too_long { result ≡ Outcome.InputTooLong → TakenPast INPUT_LIMIT (S.taken docs.old) (S.taken docs.new) }
{
    match load(alloc, docs) {
        Ok(found) => ask_documents(alloc, field, query, found.as_slice(), out),
        Err(outcome) => outcome,
    }
}

// Writes an index of the documents, and searches it.
fn ask_documents<O: Sink>(
    alloc: Global,
    field: &str,
    query: &str,
    docs: &[Doc],
    out: &mut O,
) -> Outcome
    ensures ends { QuestionEnds query.now docs.now result }
    ensures prints { AnswersQuestion query.now field.now result docs.now (O.written out.old) (O.written out.new) }
    ensures out_fault { HasCause (O.faults out.old) (O.faults out.new) (result ≡ Outcome.OutFault) }
{
    match index_of(alloc, docs) {
        Ok(file) => ask_index(alloc, field, query, file, out),
        Err(outcome) => outcome,
    }
}

// The index of the documents, or how the command ends.
fn index_of(alloc: Global, docs: &[Doc]) -> Result<OwnedBytes, Outcome>
    ensures index { IfOk result (λ file. IsWrittenFor docs.now MAX_PAGES file) }
    ensures not_kept { IfErr result (λ outcome. AreNotKept docs.now outcome) }
{
    let mut store = VecSink::new(alloc);
    match write(alloc, docs, MAX_PAGES, &mut store) {
        Outcome::Done => match OwnedBytes::new(alloc, store.into_bytes()) {
            Ok(file) => Ok(file),
            Err(_) => Err(Outcome::Memory),
        },
        outcome => Err(outcome),
    }
}

// Searches an index in memory, which has no faults.
fn ask_index<O: Sink>(
    alloc: Global,
    field: &str,
    query: &str,
    file: OwnedBytes,
    out: &mut O,
) -> Outcome
    ensures ends { EndsOverFile query.now file result }
    ensures prints { AnswersOverFile query.now field.now result file (O.written out.old) (O.written out.new) }
    ensures out_fault { HasCause (O.faults out.old) (O.faults out.new) (result ≡ Outcome.OutFault) }
{
    let mut file = BytesFile::new(file);
    search(alloc, field, query, &mut file, out)
}
