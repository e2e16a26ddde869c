// The top call.
ghost use Rattle.std.specs.Prelude.{◌≡◌, ◌+◌, ◌↔◌, false};
ghost use Rattle.owned_bytes.specs.Outside.{HasCause, RisesAtMost, LeavesFile};
ghost use Rattle.term_index.specs.Commands.{IsNoCommand, IsAllowed, reads_documents, writes_store, prints, LooksIntoFile};
ghost use Rattle.term_index.specs.Commands.{ReadDocuments, LookIntoFile, WriteStore, Print};
ghost use Rattle.term_index.specs.Shown.{shown};
ghost use Rattle.term_index.specs.Source.{TakenPast};
ghost use Rattle.term_index.specs.Running.{Ends, Stores, Prints, Reads, Fetches, ReadsWhole};
ghost use Rattle.term_index.specs.Running.{CommandEnds, CommandStores, CommandPrints, CommandReads, CommandFetches, CommandReadsWhole};
ghost use Rattle.term_index.specs.Headline.{Built, Found};

use crate::command_line::{Command, command_of};
use crate::commands::ask::ask;
use crate::commands::build::build;
use crate::commands::search::search;
use crate::commands::tree::show;
use crate::input::INPUT_LIMIT;
use crate::{Outcome, Word};
use owned_bytes::{FileHandle, Sink, Source};
use std::alloc::Global;

/// Runs a command line. Documents and identifiers are numbered from 0.
///
/// - `build PATH PAGES` reads documents from `docs`, and appends their index to `store`.
/// - `search PATH FIELD QUERY` prints to `out` the numbers of the documents of the index in `file` that satisfy the query,
///   one in a line. A part of the query without a field is of the field FIELD.
/// - `ask FIELD QUERY` does both in memory, over the documents of `docs`.
/// - `tree QUERY` prints to `out` the tree of the query, as JSON.
/// - `gen SEED COUNT` is not there yet.
pub fn run<S: Source, H: FileHandle, W: Sink, O: Sink>(
    alloc: Global,
    words: &[Word],
    docs: &mut S,
    file: &mut H,
    store: &mut W,
    out: &mut O,
) -> Outcome
    // The headline: what stands in the store and in the output where the command is done.
    ensures built { Built words.now result (S.left docs.old) (W.written store.old) (W.written store.new) }
    ensures found { Found words.now result (S.left docs.old) (H.state file.old) (O.written out.old) (O.written out.new) }

    // How the command ends, but for a fault or want of memory.
    ensures usage { (result ≡ Outcome.Usage) ↔ IsNoCommand words.now }
    ensures ends { Ends words.now result (S.left docs.old) (H.state file.old) }
    ensures too_long { result ≡ Outcome.InputTooLong → TakenPast INPUT_LIMIT (S.taken docs.old) (S.taken docs.new) }
    ensures in_fault { HasCause (S.faults docs.old) (S.faults docs.new) (result ≡ Outcome.InFault) }
    ensures store_fault { HasCause (W.faults store.old) (W.faults store.new) (result ≡ Outcome.StoreFault) }
    ensures out_fault { HasCause (O.faults out.old) (O.faults out.new) (result ≡ Outcome.OutFault) }

    // What it appends to the store and to the output, after every outcome.
    ensures store { Stores words.now result (S.left docs.old) (W.written store.old) (W.written store.new) }
    ensures output { Prints words.now result (S.left docs.old) (H.state file.old) (O.written out.old) (O.written out.new) }

    // What it reads.
    ensures taken { RisesAtMost (S.taken docs.old) (S.taken docs.new) (INPUT_LIMIT + 1) }
    ensures read_whole { ReadsWhole words.now result (S.left docs.old) (S.left docs.new) }
    ensures file { LeavesFile (H.state file.old) (H.state file.new) (result ≡ Outcome.ReadFault) }
    ensures reads { Reads words.now (H.state file.old) (H.state file.new) }
    ensures fetches { Fetches words.now (H.state file.old) (H.state file.new) }

    // What it leaves as it is.
    ensures docs_stay { ¬ ReadDocuments words.now → docs.new ≡ docs.old }
    ensures file_stays { ¬ LookIntoFile words.now → file.new ≡ file.old }
    ensures store_stays { ¬ WriteStore words.now → store.new ≡ store.old }
    ensures out_stays { ¬ Print words.now → out.new ≡ out.old }
{
    let Some(command) = command_of(words) else {
        return Outcome::Usage;
    };
    obey(alloc, command, docs, file, store, out)
}

// Runs a command.
fn obey<S: Source, H: FileHandle, W: Sink, O: Sink>(
    alloc: Global,
    command: Command,
    docs: &mut S,
    file: &mut H,
    store: &mut W,
    out: &mut O,
) -> Outcome
    requires { IsAllowed (shown command) }
    ensures ends { CommandEnds result (S.left docs.old) (H.state file.old) (shown command.entry) }
    ensures too_long { result ≡ Outcome.InputTooLong → TakenPast INPUT_LIMIT (S.taken docs.old) (S.taken docs.new) }
    ensures in_fault { HasCause (S.faults docs.old) (S.faults docs.new) (result ≡ Outcome.InFault) }
    ensures store_fault { HasCause (W.faults store.old) (W.faults store.new) (result ≡ Outcome.StoreFault) }
    ensures out_fault { HasCause (O.faults out.old) (O.faults out.new) (result ≡ Outcome.OutFault) }
    ensures store { CommandStores result (S.left docs.old) (W.written store.old) (W.written store.new) (shown command.entry) }
    ensures output { CommandPrints result (S.left docs.old) (H.state file.old) (O.written out.old) (O.written out.new) (shown command.entry) }
    ensures taken { RisesAtMost (S.taken docs.old) (S.taken docs.new) (INPUT_LIMIT + 1) }
    ensures read_whole { CommandReadsWhole result (S.left docs.old) (S.left docs.new) (shown command.entry) }
    ensures file { LeavesFile (H.state file.old) (H.state file.new) (result ≡ Outcome.ReadFault) }
    ensures reads { CommandReads (H.state file.old) (H.state file.new) (shown command.entry) }
    ensures fetches { CommandFetches (H.state file.old) (H.state file.new) (shown command.entry) }
    ensures docs_stay { reads_documents (shown command.entry) ≡ false → docs.new ≡ docs.old }
    ensures file_stays { ¬ LooksIntoFile (shown command.entry) → file.new ≡ file.old }
    ensures store_stays { writes_store (shown command.entry) ≡ false → store.new ≡ store.old }
    ensures out_stays { prints (shown command.entry) ≡ false → out.new ≡ out.old }
{
    match command {
        Command::Build { pages, .. } => build(alloc, pages, docs, store),
        Command::Search { field, query, .. } => search(alloc, field, query, file, out),
        Command::Ask { field, query } => ask(alloc, field, query, docs, out),
        Command::Tree { query } => show(alloc, query, out),
        Command::Generate { .. } => Outcome::NotYet,
    }
}
