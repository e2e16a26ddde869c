// A whole search.
ghost use Rattle.std.specs.Prelude.{◌≡◌, ◌<◌, ◌≤◌, ◌+◌, ◌*◌, length, Err, IfOk, IfErr};
ghost use Rattle.owned_bytes.specs.Outside.{LeavesFile};
ghost use Rattle.index_reading.specs.Opened.{LiesIn};
ghost use Rattle.printed_queries.specs.Satisfies.{satisfies};
ghost use Rattle.term_search.specs.Search.{asked, lookups_of};
ghost use Rattle.term_search.specs.Leaves.{has_waiting_leaf, IsReady};
ghost use Rattle.term_search.specs.Members.{Finds, Asks, IsSearchError};
ghost use Rattle.term_search.specs.Searching.{AnswersQuery, AnswersTold, AnswersExpression, CanBeSearched, IsWhole, IsAnsweredOrRead, IsDamagedOrMemory, ReadsQuery, FindsNumbersTold, IsOfFile, ReadsFor, Fetches, FetchesTree};

use crate::lone::lone_literal;
use crate::members::{literal_members, tree_members};
use crate::obstacles::obstacles_of;
use crate::{Answer, SearchError};
use document_sets::FoundDocuments;
use index_reading::OpenIndex;
use owned_bytes::{FileHandle, Ids};
use std::alloc::Global;
use tantivy_query_grammar::{ParseError, UserInputAst, parse_query};

/// The tree of a query, and the ascending numbers of the documents that satisfy it, by a file that is an index of the documents.
///
/// A leaf without a field is of the default field. Refusals come in this order: those of the query (`Query` or `TooDeep`,
/// `Unsupported`, `NotYet`), then those of the file: `Corrupt` where it has fewer than four bytes, `Read` where the first read
/// fails, `Version`, and then the others as they are met. The search reads the file's end and its beginning, and then for each
/// word, phrase and element of a set at most one block of keys and one piece of the packed numbers.
pub fn search_index<H: FileHandle>(
    alloc: Global,
    file: &mut H,
    default_field: &str,
    query: &str,
) -> Result<Answer, SearchError>
    ensures query { AnswersQuery query.now result }
    ensures told { AnswersTold (H.state file.old).contents query.now default_field.now result }
    ensures printed { AnswersExpression query.now result }
    ensures short { (H.state file.old).size < 4 → CanBeSearched query.now → IsDamagedOrMemory result }
    ensures complete { IsWhole (H.state file.old).contents → CanBeSearched query.now → IsAnsweredOrRead result }
    ensures file { LeavesFile (H.state file.old) (H.state file.new) (result ≡ Err SearchError.Read) }
    ensures reads { ReadsFor query.now default_field.now (H.state file.old) (H.state file.new) }
    ensures fetched { Fetches query.now default_field.now (H.state file.old) (H.state file.new) }
    ensures reads_nothing { ¬ CanBeSearched query.now → file.new ≡ file.old }
{
    let tree = match read_query(alloc, query) {
        Ok(tree) => tree,
        Err(error) => return Err(error),
    };
    match find_numbers(alloc, file, default_field, &tree) {
        Ok(ids) => Ok(Answer { tree, ids }),
        Err(error) => Err(error),
    }
}

// The tree of a query, all of whose leaves are searched for.
fn read_query(alloc: Global, query: &str) -> Result<UserInputAst, SearchError>
    ensures { ReadsQuery query.now result }
{
    let tree = match parse_query(alloc, query) {
        Ok(tree) => tree,
        Err(ParseError::Memory) => return Err(SearchError::Memory),
        Err(ParseError::Refused(error)) => return Err(SearchError::Query(error)),
        Err(ParseError::TooDeep) => return Err(SearchError::TooDeep),
    };
    let obstacles = obstacles_of(&tree);
    if let Some(kind) = obstacles.unsupported {
        return Err(SearchError::Unsupported(kind));
    }
    if obstacles.waiting {
        return Err(SearchError::NotYet);
    }
    Ok(tree)
}

// The numbers of the documents that satisfy a tree, by the index that the whole file is.
fn find_numbers<H: FileHandle>(
    alloc: Global,
    file: &mut H,
    default: &str,
    tree: &UserInputAst,
) -> Result<Ids, SearchError>
    requires { IsReady tree.now }
    ensures told { FindsNumbersTold (H.state file.old).contents tree.now default.now result }
    ensures error { IfErr result IsOfFile }
    ensures short { (H.state file.old).size < 4 → result ≡ Err SearchError.Corrupt }
    ensures file { LeavesFile (H.state file.old) (H.state file.new) (result ≡ Err SearchError.Read) }
    ensures reads { (H.state file.new).reads ≤ (H.state file.old).reads + (4 + 2 * length (asked tree.now default.now)) }
    ensures fetched { FetchesTree tree.now default.now (H.state file.old) (H.state file.new) }
{
    let index = match OpenIndex::open(alloc, file) {
        Ok(index) => index,
        Err(error) => return Err(error.into()),
    };
    match find_documents(alloc, file, &index, default, tree) {
        Ok(found) => Ok(found.into_ids(alloc)?),
        Err(error) => Err(error),
    }
}

// The documents that satisfy a tree: those of a lone literal as the list that the file has, all others as a set.
fn find_documents<H: FileHandle>(
    alloc: Global,
    file: &mut H,
    index: &OpenIndex,
    default: &str,
    tree: &UserInputAst,
) -> Result<FoundDocuments, SearchError>
    requires lies { LiesIn index.now (H.state file.old).size }
    ensures found { IfOk result (Finds index.now (H.state file.old) (λ doc. satisfies doc tree.now default.now)) }
    ensures error { IfErr result (IsSearchError index.now (H.state file.old) (has_waiting_leaf tree.now)) }
    ensures asks { Asks index.now (lookups_of tree.now default.now) (H.state file.old) (H.state file.new) result }
{
    if let Some(literal) = lone_literal(tree) {
        return literal_members(alloc, file, index, default, literal);
    }
    match tree_members(alloc, file, index, default, tree) {
        Ok(members) => Ok(FoundDocuments::from_set(members)),
        Err(error) => Err(error),
    }
}
