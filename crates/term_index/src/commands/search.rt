// The command `search`: the documents of an index that satisfy a query.
ghost use Rattle.std.specs.Prelude.{◌≡◌};
ghost use Rattle.owned_bytes.specs.Outside.{HasCause, LeavesFile};
ghost use Rattle.term_search.specs.Searching.{CanBeSearched, ReadsFor, Fetches};
ghost use Rattle.term_index.specs.Search.{SearchEnds, Searches, error_end};

use crate::Outcome;
use crate::printing::print_numbers;
use owned_bytes::{FileHandle, Sink};
use std::alloc::Global;
use term_search::{Kind, SearchError, search_index};

/// Prints the numbers of the documents of an index that satisfy a query.
pub fn search<H: FileHandle, O: Sink>(
    alloc: Global,
    field: &str,
    query: &str,
    file: &mut H,
    out: &mut O,
) -> Outcome
    ensures ends { SearchEnds query.now (H.state file.old) result }
    ensures prints { Searches query.now field.now result (H.state file.old) (O.written out.old) (O.written out.new) }
    ensures file { LeavesFile (H.state file.old) (H.state file.new) (result ≡ Outcome.ReadFault) }
    ensures out_fault { HasCause (O.faults out.old) (O.faults out.new) (result ≡ Outcome.OutFault) }
    ensures reads { ReadsFor query.now field.now (H.state file.old) (H.state file.new) }
    ensures fetches { Fetches query.now field.now (H.state file.old) (H.state file.new) }
    ensures file_stays { ¬ CanBeSearched query.now → file.new ≡ file.old }
{
    match search_index(alloc, file, field, query) {
        Ok(answer) => print_numbers(alloc, answer.ids.as_slice(), out),
        Err(error) => outcome_of(error),
    }
}

// The outcome of an error of a search.
fn outcome_of(error: SearchError) -> Outcome
    ensures { result ≡ error_end error }
{
    match error {
        SearchError::Memory => Outcome::Memory,
        SearchError::Query(_) => Outcome::Query,
        SearchError::TooDeep => Outcome::TooDeep,
        SearchError::Unsupported(Kind::Slop) => Outcome::UnsupportedSlop,
        SearchError::Unsupported(Kind::Regex) => Outcome::UnsupportedRegex,
        SearchError::NotYet => Outcome::NotYet,
        SearchError::Version(version) => Outcome::Version(version),
        SearchError::Corrupt => Outcome::Corrupt,
        SearchError::Compressed(place) => Outcome::Compressed(place),
        SearchError::Read => Outcome::ReadFault,
    }
}
