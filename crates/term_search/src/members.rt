// The set of the documents that satisfy a tree.
ghost use Rattle.std.specs.Prelude.{Some, false, ◌≡◌, [], ◌∷◌, map, unwrap_or, IfOk, IfErr, IfSome, OnOk};
ghost use Rattle.std.specs.FinSet as set;
ghost use Rattle.term_search.specs.Search.{lookups_of};
ghost use Rattle.query_tree.specs.declared.tree.UserInputLeaf.TheVariants.{Literal};
ghost use Rattle.index_reading.specs.Opened.{LiesIn, AreNumbers};
ghost use Rattle.printed_queries.specs.Satisfies.{satisfies};
ghost use Rattle.printed_queries.specs.Lookups.{lookups_of_leaf};
ghost use Rattle.term_search.specs.Leaves.{has_waiting_leaf, is_waiting_among, is_waiting_leaf};
ghost use Rattle.term_search.specs.Members.{Finds, Posts, Adds, Asks, IsSearchError, AddsMark, holds_term, holds_any, meets_leaf, meets_clause, lookup_of, literal_lookups, clause_lookups};

use crate::SearchError;
use document_sets::{DocSet, FoundDocuments, JoinedSets};
use documents::{is_field, key_of};
use index_reading::OpenIndex;
use owned_bytes::{FileHandle, Ids, Text};
use query_tree::{Occur, UserInputAst, UserInputLeaf, UserInputLiteral};
use std::alloc::Global;

// The numbers of the documents that hold a term in a field, where the file has its key. A field that no document can have
// is not looked for.
fn numbers_at<H: FileHandle>(
    alloc: Global,
    file: &mut H,
    index: &OpenIndex,
    field: &str,
    term: &str,
) -> Result<Option<Ids>, SearchError>
    requires lies { LiesIn index.now (H.state file.old).size }
    ensures found { IfOk result (Posts index.now (H.state file.old) (holds_term field.now term.now)) }
    ensures numbers { IfOk result (λ numbers. IfSome numbers (AreNumbers index.now.documents)) }
    ensures error { IfErr result (IsSearchError index.now (H.state file.old) false) }
    ensures asks { Asks index.now (lookup_of field.now term.now ∷ []) (H.state file.old) (H.state file.new) result }
{
    if !is_field(field) {
        return Ok(None);
    }
    let key = key_of(alloc, field, term)?;
    match index.numbers_at(alloc, file, key.as_slice()) {
        Ok(numbers) => Ok(numbers),
        Err(error) => Err(error.into()),
    }
}

// Adds the documents that hold a term in a field.
fn add_term<H: FileHandle>(
    alloc: Global,
    file: &mut H,
    index: &OpenIndex,
    field: &str,
    term: &str,
    members: &mut DocSet,
) -> Result<(), SearchError>
    requires lies { LiesIn index.now (H.state file.old).size }
    requires over { members.old.max_value ≡ index.now.documents }
    ensures adds { OnOk result (Adds index.now (H.state file.old) (holds_term field.now term.now) members.old members.new) }
    ensures over { members.new.max_value ≡ index.now.documents }
    ensures error { IfErr result (IsSearchError index.now (H.state file.old) false) }
    ensures asks { Asks index.now (lookup_of field.now term.now ∷ []) (H.state file.old) (H.state file.new) result }
{
    match numbers_at(alloc, file, index, field, term) {
        Ok(Some(numbers)) => Ok(members.extend(alloc, numbers.as_slice())?),
        Ok(None) => Ok(()),
        Err(error) => Err(error),
    }
}

// Adds the documents that hold one of the terms in a field.
fn add_terms<H: FileHandle>(
    alloc: Global,
    file: &mut H,
    index: &OpenIndex,
    field: &str,
    terms: &[Text],
    members: &mut DocSet,
) -> Result<(), SearchError>
    requires lies { LiesIn index.now (H.state file.old).size }
    requires over { members.old.max_value ≡ index.now.documents }
    ensures adds { OnOk result (Adds index.now (H.state file.old) (holds_any field.now terms.now) members.old members.new) }
    ensures over { members.new.max_value ≡ index.now.documents }
    ensures error { IfErr result (IsSearchError index.now (H.state file.old) false) }
    ensures asks { Asks index.now (map (lookup_of field.now) terms.now) (H.state file.old) (H.state file.new) result }
{
    for term in terms {
        match add_term(alloc, file, index, field, term.as_str(), members) {
            Ok(()) => {}
            Err(error) => return Err(error),
        }
    }
    Ok(())
}

// No documents of an index.
fn no_documents(index: &OpenIndex) -> FoundDocuments
    ensures { result ≡ record { elements = set.empty; max_value = index.now.documents } }
{
    FoundDocuments::from_set(DocSet::empty(index.documents))
}

// The documents that hold a term in a field: the list that the file has.
fn term_members<H: FileHandle>(
    alloc: Global,
    file: &mut H,
    index: &OpenIndex,
    field: &str,
    term: &str,
) -> Result<FoundDocuments, SearchError>
    requires lies { LiesIn index.now (H.state file.old).size }
    ensures found { IfOk result (Finds index.now (H.state file.old) (holds_term field.now term.now)) }
    ensures error { IfErr result (IsSearchError index.now (H.state file.old) false) }
    ensures asks { Asks index.now (lookup_of field.now term.now ∷ []) (H.state file.old) (H.state file.new) result }
{
    match numbers_at(alloc, file, index, field, term) {
        Ok(Some(numbers)) => Ok(FoundDocuments::from_ids(index.documents, numbers)),
        Ok(None) => Ok(no_documents(index)),
        Err(error) => Err(error),
    }
}

// The field, or the default field where there is none.
fn field_or<'a>(field: &'a Option<Text>, default: &'a str) -> &'a str
    ensures { result.now ≡ unwrap_or field.now default.now }
{
    match field {
        Some(field) => field.as_str(),
        None => default,
    }
}

// The documents that satisfy a literal.
pub fn literal_members<H: FileHandle>(
    alloc: Global,
    file: &mut H,
    index: &OpenIndex,
    default: &str,
    literal: &UserInputLiteral,
) -> Result<FoundDocuments, SearchError>
    requires lies { LiesIn index.now (H.state file.old).size }
    ensures found { IfOk result (Finds index.now (H.state file.old) (meets_leaf default.now (Literal literal.now))) }
    ensures error { IfErr result (IsSearchError index.now (H.state file.old) literal.now.prefix) }
    ensures asks { Asks index.now (literal_lookups default.now literal.now) (H.state file.old) (H.state file.new) result }
{
    if literal.prefix {
        return Err(SearchError::NotYet);
    }
    if literal.slop > 0 {
        return Ok(no_documents(index));
    }
    let field = field_or(&literal.field_name, default);
    match term_members(alloc, file, index, field, literal.phrase.as_str()) {
        Ok(members) => Ok(members),
        Err(error) => Err(error),
    }
}

// The documents that hold one of the elements in a field.
fn set_members<H: FileHandle>(
    alloc: Global,
    file: &mut H,
    index: &OpenIndex,
    field: &str,
    elements: &[Text],
) -> Result<DocSet, SearchError>
    requires lies { LiesIn index.now (H.state file.old).size }
    ensures found { IfOk result (Finds index.now (H.state file.old) (holds_any field.now elements.now)) }
    ensures error { IfErr result (IsSearchError index.now (H.state file.old) false) }
    ensures asks { Asks index.now (map (lookup_of field.now) elements.now) (H.state file.old) (H.state file.new) result }
{
    let mut members = DocSet::empty(index.documents);
    match add_terms(alloc, file, index, field, elements, &mut members) {
        Ok(()) => Ok(members),
        Err(error) => Err(error),
    }
}

// The documents that satisfy a literal, as a set.
fn literal_set<H: FileHandle>(
    alloc: Global,
    file: &mut H,
    index: &OpenIndex,
    default: &str,
    literal: &UserInputLiteral,
) -> Result<DocSet, SearchError>
    requires lies { LiesIn index.now (H.state file.old).size }
    ensures found { IfOk result (Finds index.now (H.state file.old) (meets_leaf default.now (Literal literal.now))) }
    ensures error { IfErr result (IsSearchError index.now (H.state file.old) literal.now.prefix) }
    ensures asks { Asks index.now (literal_lookups default.now literal.now) (H.state file.old) (H.state file.new) result }
{
    match literal_members(alloc, file, index, default, literal) {
        Ok(members) => Ok(members.into_set(alloc)?),
        Err(error) => Err(error),
    }
}

// The documents that satisfy a leaf.
fn leaf_members<H: FileHandle>(
    alloc: Global,
    file: &mut H,
    index: &OpenIndex,
    default: &str,
    leaf: &UserInputLeaf,
) -> Result<DocSet, SearchError>
    requires lies { LiesIn index.now (H.state file.old).size }
    ensures found { IfOk result (Finds index.now (H.state file.old) (meets_leaf default.now leaf.now)) }
    ensures error { IfErr result (IsSearchError index.now (H.state file.old) (is_waiting_leaf leaf.now)) }
    ensures asks { Asks index.now (lookups_of_leaf default.now leaf.now) (H.state file.old) (H.state file.new) result }
{
    match leaf {
        UserInputLeaf::Literal(literal) => literal_set(alloc, file, index, default, literal),
        UserInputLeaf::All => Ok(DocSet::full(index.documents)),
        UserInputLeaf::Set { field, elements } => set_members(
            alloc,
            file,
            index,
            field_or(field, default),
            elements.as_slice(),
        ),
        UserInputLeaf::Range { .. } | UserInputLeaf::Exists { .. } => Err(SearchError::NotYet),
        UserInputLeaf::Regex { .. } => Ok(DocSet::empty(index.documents)),
    }
}

// Adds the set of a tree that has this mark.
fn join(joined: &mut JoinedSets, mark: Option<Occur>, members: DocSet)
    requires { members.max_value ≡ joined.old.documents }
    ensures marks { AddsMark mark members.elements joined.old joined.new }
    ensures documents { joined.new.documents ≡ joined.old.documents }
{
    match mark {
        Some(occur) => join_marked(joined, occur, members),
        None => joined.offer(members),
    }
}

// The same for a tree that is marked.
fn join_marked(joined: &mut JoinedSets, occur: Occur, members: DocSet)
    requires { members.max_value ≡ joined.old.documents }
    ensures marks { AddsMark (Some occur) members.elements joined.old joined.new }
    ensures documents { joined.new.documents ≡ joined.old.documents }
{
    match occur {
        Occur::Must => joined.require(members),
        Occur::MustNot => joined.exclude(members),
        Occur::Should => joined.offer(members),
    }
}

// The documents that satisfy a tree, where a leaf without a field is of the default field.
#[cycle(members)]
pub fn tree_members<H: FileHandle>(
    alloc: Global,
    file: &mut H,
    index: &OpenIndex,
    default: &str,
    tree: &UserInputAst,
) -> Result<DocSet, SearchError>
    requires lies { LiesIn index.now (H.state file.old).size }
    ensures found { IfOk result (Finds index.now (H.state file.old) (λ doc. satisfies doc tree.now default.now)) }
    ensures error { IfErr result (IsSearchError index.now (H.state file.old) (has_waiting_leaf tree.now)) }
    ensures asks { Asks index.now (lookups_of tree.now default.now) (H.state file.old) (H.state file.new) result }
{
    match tree {
        UserInputAst::Clause(pairs) => {
            clause_members(alloc, file, index, default, pairs.as_slice())
        }
        UserInputAst::Boost(inner, _) => tree_members(alloc, file, index, default, inner.get()),
        UserInputAst::Leaf(leaf) => leaf_members(alloc, file, index, default, leaf.get()),
    }
}

// The documents that satisfy a clause of these trees.
#[cycle(members)]
fn clause_members<H: FileHandle>(
    alloc: Global,
    file: &mut H,
    index: &OpenIndex,
    default: &str,
    pairs: &[(Option<Occur>, UserInputAst)],
) -> Result<DocSet, SearchError>
    requires lies { LiesIn index.now (H.state file.old).size }
    ensures found { IfOk result (Finds index.now (H.state file.old) (meets_clause default.now pairs.now)) }
    ensures error { IfErr result (IsSearchError index.now (H.state file.old) (is_waiting_among pairs.now)) }
    ensures asks { Asks index.now (clause_lookups default.now pairs.now) (H.state file.old) (H.state file.new) result }
{
    let mut joined = JoinedSets::new(index.documents);
    for pair in pairs {
        match tree_members(alloc, file, index, default, &pair.1) {
            Ok(members) => join(&mut joined, pair.0, members),
            Err(error) => return Err(error),
        }
    }
    Ok(joined.into_set())
}
