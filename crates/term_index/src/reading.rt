// Documents from JSON.
ghost use Rattle.std.specs.Prelude.{◌≡◌, ◌++◌, ◌∷◌, [], Some, None, IfOk, IfErr, OnOk, map, string_bytes};
ghost use Rattle.serde_json.specs.View.{view, members_view};
ghost use Rattle.term_index.specs.Reading.{both, gathered, pair_of_text, pairs_of_texts, pairs_of_member, pairs_of_members};
ghost use Rattle.term_index.specs.Reading.{doc_of, docs_of_value, docs_of};

use documents::{Doc, Pair, Pairs};
use owned_bytes::Text;
use serde_json::{Map, Value};
use std::alloc::{AllocError, Global};
use thiserror::Error;

/// Why there are no documents.
#[derive(Clone, Copy, Debug, PartialEq, Eq, Error)]
pub enum DocumentsError {
    #[error("out of memory")]
    Memory,
    /// The bytes are no UTF-8, no JSON, or JSON of another shape.
    #[error("the bytes are no documents")]
    Bad,
}

/// The documents of a JSON text: an array of objects, whose members are texts or arrays of texts.
pub fn read_documents(alloc: Global, bytes: &[u8]) -> Result<Vec<Doc>, DocumentsError>
    ensures ok { IfOk result (λ docs. docs_of bytes.now ≡ Some docs.items) }
    ensures bad { IfErr result (λ e. e ≡ DocumentsError.Bad → docs_of bytes.now ≡ None) }
{
    let value = match Value::from_slice(alloc, bytes) {
        Ok(value) => value,
        Err(e) => {
            return if e.is_memory() {
                Err(DocumentsError::Memory)
            } else {
                Err(DocumentsError::Bad)
            };
        }
    };
    docs_of_value(alloc, value)
}

// The documents of a value.
fn docs_of_value(alloc: Global, value: Value) -> Result<Vec<Doc>, DocumentsError>
    ensures ok { IfOk result (λ docs. docs_of_value (view value) ≡ Some docs.items) }
    ensures bad { IfErr result (λ e. e ≡ DocumentsError.Bad → docs_of_value (view value) ≡ None) }
{
    match value {
        Value::Array(objects) => read_docs(alloc, objects),
        _ => Err(DocumentsError::Bad),
    }
}

// The documents of objects.
fn read_docs(alloc: Global, objects: Vec<Value>) -> Result<Vec<Doc>, DocumentsError>
    ensures ok { IfOk result (λ docs. gathered doc_of (map view objects.items) ≡ Some docs.items) }
    ensures bad { IfErr result (λ e. e ≡ DocumentsError.Bad → gathered doc_of (map view objects.items) ≡ None) }
{
    let Ok(mut docs) = Vec::with_capacity(alloc, objects.len()) else {
        return Err(DocumentsError::Memory);
    };
    for object in objects {
        let doc = read_doc(alloc, object)?;
        if docs.push(doc).is_err() {
            return Err(DocumentsError::Memory);
        }
    }
    Ok(docs)
}

// The document of an object.
fn read_doc(alloc: Global, object: Value) -> Result<Doc, DocumentsError>
    ensures ok { IfOk result (λ doc. doc_of (view object) ≡ Some (doc ∷ [])) }
    ensures bad { IfErr result (λ e. e ≡ DocumentsError.Bad → doc_of (view object) ≡ None) }
{
    match object {
        Value::Object(members) => match read_members(alloc, members) {
            Ok(pairs) => Ok(Doc { pairs }),
            Err(e) => Err(e),
        },
        _ => Err(DocumentsError::Bad),
    }
}

// The pairs of the members of an object.
fn read_members(alloc: Global, members: Map<String, Value>) -> Result<Pairs, DocumentsError>
    ensures ok { IfOk result (λ pairs. pairs_of_members (members_view members.entries) ≡ Some pairs) }
    ensures bad { IfErr result (λ e. e ≡ DocumentsError.Bad → pairs_of_members (members_view members.entries) ≡ None) }
{
    let mut pairs = Pairs::new(alloc);
    for (name, value) in members {
        read_member(alloc, name, value, &mut pairs)?;
    }
    Ok(pairs)
}

// Appends the pairs of a member.
fn read_member(
    alloc: Global,
    name: String,
    value: Value,
    pairs: &mut Pairs,
) -> Result<(), DocumentsError>
    ensures ok { OnOk result (both (Some pairs.old) (pairs_of_member (string_bytes name) (view value)) ≡ Some pairs.new) }
    ensures bad { IfErr result (λ e. e ≡ DocumentsError.Bad → pairs_of_member (string_bytes name) (view value) ≡ None) }
{
    match value {
        Value::Array(texts) => read_texts(alloc, name.as_str(), texts, pairs),
        Value::String(text) => push_pair(Text::from(name), Text::from(text), pairs),
        _ => Err(DocumentsError::Bad),
    }
}

// Appends the pairs of texts.
fn read_texts(
    alloc: Global,
    name: &str,
    texts: Vec<Value>,
    pairs: &mut Pairs,
) -> Result<(), DocumentsError>
    ensures ok { OnOk result (both (Some pairs.old) (pairs_of_texts name.now (map view texts.items)) ≡ Some pairs.new) }
    ensures bad { IfErr result (λ e. e ≡ DocumentsError.Bad → pairs_of_texts name.now (map view texts.items) ≡ None) }
{
    for text in texts {
        read_text(alloc, name, text, pairs)?;
    }
    Ok(())
}

// Appends the pair of a text.
fn read_text(
    alloc: Global,
    name: &str,
    text: Value,
    pairs: &mut Pairs,
) -> Result<(), DocumentsError>
    ensures ok { OnOk result (both (Some pairs.old) (pair_of_text name.now (view text)) ≡ Some pairs.new) }
    ensures bad { IfErr result (λ e. e ≡ DocumentsError.Bad → pair_of_text name.now (view text) ≡ None) }
{
    let Value::String(text) = text else {
        return Err(DocumentsError::Bad);
    };
    match Text::from_str(alloc, name) {
        Ok(field) => push_pair(field, Text::from(text), pairs),
        Err(_) => Err(DocumentsError::Memory),
    }
}

// Appends a pair.
fn push_pair(field: Text, term: Text, pairs: &mut Pairs) -> Result<(), DocumentsError>
    ensures ok { OnOk result (pairs.new ≡ pairs.old ++ record { field = field; term = term } ∷ []) }
    ensures kind { IfErr result (λ e. e ≡ DocumentsError.Memory) }
{
    match pairs.push(Pair { field, term }) {
        Ok(()) => Ok(()),
        Err(_) => Err(DocumentsError::Memory),
    }
}
