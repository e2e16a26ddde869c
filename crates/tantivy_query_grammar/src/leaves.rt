// Ranges, sets, existence, patterns and fields.
ghost use Rattle.std.specs.Prelude.{◌≡◌, ◌++◌, ◌∷◌, [], codes, IsTrue, not};
ghost use Rattle.query_tree.specs.declared.tree.UserInputLeaf.{UserInputLeaf};
ghost use Rattle.query_tree.specs.Reader.{◌or◌};
ghost use Rattle.query_tree.specs.Characters as characters;
ghost use Rattle.query_tree.specs.Reader as reader;
ghost use Rattle.query_tree.specs.Grammar as grammar;
ghost use Rattle.tantivy_query_grammar.specs.Compared.{compared};
ghost use Rattle.tantivy_query_grammar.specs.Gives.{Reads, Gives, Gets, with_list};

use crate::classes::Class;
use crate::cursor::Cursor;
use crate::reading::{Kind, after, after_tag, is_before, started, tag, take};
use crate::stop::Stop;
use crate::words::{negative_number, simple_term, some_spaces, spaces, term};
use owned_bytes::{Text, Texts};
use query_tree::{UserInputBound, UserInputLeaf, leaf_under_field};
use std::alloc::{AllocError, Global};

#[tactic(auto, unfolding(query_tree::specs::Grammar::bound))]
fn bound(alloc: Global, at: Cursor) -> Result<(Text, Cursor), Stop>
    ensures { Reads result (grammar.bound at.entry.text.now) }
{
    match negative_number(alloc, at) {
        Err(Stop::Failed) => started(alloc, Kind::BoundFirst, Kind::Bound, at),
        found => found,
    }
}

/// What a sign asks of a value, against the bound behind it.
#[derive(Clone, Copy, Debug, PartialEq, Eq)]
pub enum Comparison {
    AtLeast,
    AtMost,
    Below,
    Above,
}

#[tactic(auto, unfolding(query_tree::specs::Grammar::sign))]
fn sign(at: Cursor) -> Option<(Comparison, Cursor)>
    ensures { Gets (λ x. (compared x.0, x.1.text.now)) result (grammar.sign at.entry.text.now) }
{
    if let Some(rest) = after_tag(at, &['>', '=']) {
        return Some((Comparison::AtLeast, rest));
    }
    if let Some(rest) = after_tag(at, &['<', '=']) {
        return Some((Comparison::AtMost, rest));
    }
    if let Some(rest) = after_tag(at, &['<']) {
        return Some((Comparison::Below, rest));
    }
    let rest = after_tag(at, &['>'])?;
    Some((Comparison::Above, rest))
}

fn range_of(comparison: Comparison, bound: Text) -> UserInputLeaf
    ensures { result ≡ compared comparison bound }
{
    let (lower, upper) = match comparison {
        Comparison::AtLeast => (UserInputBound::Inclusive(bound), UserInputBound::Unbounded),
        Comparison::AtMost => (UserInputBound::Unbounded, UserInputBound::Inclusive(bound)),
        Comparison::Below => (UserInputBound::Unbounded, UserInputBound::Exclusive(bound)),
        Comparison::Above => (UserInputBound::Exclusive(bound), UserInputBound::Unbounded),
    };
    UserInputLeaf::Range {
        field: None,
        lower,
        upper,
    }
}

// A range with one bound, behind a sign.
#[tactic(auto, unfolding(query_tree::specs::Grammar::half_range))]
fn half_range(alloc: Global, at: Cursor) -> Result<(UserInputLeaf, Cursor), Stop>
    ensures { Reads result (grammar.half_range at.entry.text.now) }
{
    let (comparison, rest) = sign(spaces(at)).ok_or(Stop::Failed)?;
    let (bound, rest) = bound(alloc, spaces(rest))?;
    Ok((range_of(comparison, bound), rest))
}

// Whether the bracket is a square one.
#[tactic(auto, unfolding(query_tree::specs::Grammar::bracket))]
fn bracket(square: char, brace: char, at: Cursor) -> Result<(bool, Cursor), Stop>
    ensures { Reads result (grammar.bracket square brace at.entry.text.now) }
{
    match after(at, Class::Is(square)) {
        Some(rest) => Ok((true, rest)),
        None => Ok((false, take(at, Class::Is(brace))?)),
    }
}

fn bounded(is_inclusive: bool, text: Text) -> UserInputBound
    ensures { result ≡ grammar.bounded is_inclusive text }
{
    if text.as_str() == "*" {
        UserInputBound::Unbounded
    } else if is_inclusive {
        UserInputBound::Inclusive(text)
    } else {
        UserInputBound::Exclusive(text)
    }
}

// A range between two brackets.
#[tactic(auto, unfolding(query_tree::specs::Grammar::full_range))]
fn full_range(alloc: Global, at: Cursor) -> Result<(UserInputLeaf, Cursor), Stop>
    ensures { Reads result (grammar.full_range at.entry.text.now) }
{
    let (is_lower_inclusive, rest) = bracket('[', '{', at)?;
    let (lower, rest) = bound(alloc, spaces(rest))?;
    let rest = tag(some_spaces(rest)?, &['T', 'O'])?;
    let (upper, rest) = bound(alloc, some_spaces(rest)?)?;
    let (is_upper_inclusive, rest) = bracket(']', '}', spaces(rest))?;
    let range = UserInputLeaf::Range {
        field: None,
        lower: bounded(is_lower_inclusive, lower),
        upper: bounded(is_upper_inclusive, upper),
    };
    Ok((range, rest))
}

#[tactic(auto, unfolding(query_tree::specs::Grammar::range))]
fn range(alloc: Global, at: Cursor) -> Result<(UserInputLeaf, Cursor), Stop>
    ensures { Reads result (grammar.range at.entry.text.now) }
{
    match half_range(alloc, at) {
        Err(Stop::Failed) => full_range(alloc, at),
        found => found,
    }
}

// One more element, behind spaces.
fn next_element(alloc: Global, at: Cursor) -> Result<(Text, Cursor), Stop>
    ensures { Reads result (grammar.next_element at.entry.text.now) }
{
    let (_, element, rest) = simple_term(alloc, some_spaces(at)?)?;
    Ok((element, rest))
}

// The elements that come next, behind those that were found before.
#[tactic(auto, using(crate::proofs::Loops::listed_turn, crate::proofs::Loops::list_stops, crate::proofs::Loops::list_ends, crate::proofs::Loops::list_deep))]
fn more_elements(alloc: Global, mut found: Texts, at: Cursor) -> Result<(Texts, Cursor), Stop>
    ensures { Reads result (with_list found (reader.repeated grammar.next_element at.entry.text.now)) }
{
    let mut rest = at;
    for _turn in 0..at.text.len() {
        match next_element(alloc, rest) {
            Ok((element, after)) => {
                found.push(element)?;
                rest = after;
            }
            Err(Stop::Failed) => break,
            Err(stop) => return Err(stop),
        }
    }
    Ok((found, rest))
}

// Terms with spaces between, or none.
#[tactic(auto, unfolding(query_tree::specs::Grammar::elements, crate::specs::Gives::with_list))]
fn elements(alloc: Global, at: Cursor) -> Result<(Texts, Cursor), Stop>
    ensures { Reads result (grammar.elements at.entry.text.now) }
{
    let mut found = Texts::new(alloc);
    match simple_term(alloc, at) {
        Ok((_, first, rest)) => {
            found.push(first)?;
            more_elements(alloc, found, rest)
        }
        Err(Stop::Failed) => Ok((found, at)),
        Err(stop) => Err(stop),
    }
}

#[tactic(auto, unfolding(query_tree::specs::Grammar::set))]
fn set(alloc: Global, at: Cursor) -> Result<(UserInputLeaf, Cursor), Stop>
    ensures { Reads result (grammar.set at.entry.text.now) }
{
    let rest = tag(spaces(at), &['I', 'N'])?;
    let rest = take(some_spaces(rest)?, Class::Is('['))?;
    let (elements, rest) = elements(alloc, spaces(rest))?;
    let rest = take(rest, Class::Is(']'))?;
    Ok((
        UserInputLeaf::Set {
            field: None,
            elements,
        },
        rest,
    ))
}

/// A star that stands for all.
#[tactic(auto, unfolding(query_tree::specs::Grammar::star_alone))]
pub fn star_alone(at: Cursor) -> Result<(UserInputLeaf, Cursor), Stop>
    ensures { Reads result (grammar.star_alone at.entry.text.now) }
{
    let rest = take(at, Class::Is('*'))?;
    if is_before(rest, Class::AfterStar) {
        Ok((UserInputLeaf::All, rest))
    } else {
        Err(Stop::Failed)
    }
}

#[tactic(auto, unfolding(query_tree::specs::Grammar::exists))]
fn exists(at: Cursor) -> Result<(UserInputLeaf, Cursor), Stop>
    ensures { Reads result (grammar.exists at.entry.text.now) }
{
    star_alone(spaces(at))
}

#[tactic(auto, unfolding(query_tree::specs::Grammar::regex))]
fn regex(alloc: Global, at: Cursor) -> Result<(UserInputLeaf, Cursor), Stop>
    ensures { Reads result (grammar.regex at.entry.text.now) }
{
    let rest = take(at, Class::Is('/'))?;
    let (pattern, rest) = started(alloc, Kind::Regex, Kind::Regex, rest)?;
    let rest = take(rest, Class::Is('/'))?;
    if !is_before(rest, Class::AfterRegex) {
        return Err(Stop::Failed);
    }
    Ok((
        UserInputLeaf::Regex {
            field: None,
            pattern,
        },
        rest,
    ))
}

// Whether a field with its colon stands here, without reading it.
fn begins_field(at: Cursor) -> bool
    ensures { IsTrue (not result) → grammar.field at.entry.text.now ≡ reader.Failed }
{
    match at.starts.first() {
        Some(begins) => *begins,
        None => false,
    }
}

/// A field with its colon, and the spaces round that.
#[tactic(auto, unfolding(query_tree::specs::Grammar::field))]
pub fn field(alloc: Global, at: Cursor) -> Result<(Text, Cursor), Stop>
    ensures { Reads result (grammar.field at.entry.text.now) }
{
    if !begins_field(at) {
        return Err(Stop::Failed);
    }
    let (name, rest) = started(alloc, Kind::FieldFirst, Kind::Field, at)?;
    let rest = take(spaces(rest), Class::Is(':'))?;
    Ok((name, spaces(rest)))
}

// The first of the leaves that have no field of their own here.
#[tactic(auto, unfolding(query_tree::specs::Grammar::bare_leaf))]
fn bare_leaf(alloc: Global, at: Cursor) -> Result<(UserInputLeaf, Cursor), Stop>
    ensures { Reads result (grammar.bare_leaf at.entry.text.now) }
{
    match range(alloc, at) {
        Err(Stop::Failed) => {}
        found => return found,
    }
    match set(alloc, at) {
        Err(Stop::Failed) => {}
        found => return found,
    }
    match exists(at) {
        Err(Stop::Failed) => {}
        found => return found,
    }
    match regex(alloc, at) {
        Err(Stop::Failed) => {}
        found => return found,
    }
    term(alloc, at)
}

fn optional_field(alloc: Global, at: Cursor) -> Result<(Option<Text>, Cursor), Stop>
    ensures { Reads result (reader.optional grammar.field at.entry.text.now) }
{
    match field(alloc, at) {
        Ok((name, rest)) => Ok((Some(name), rest)),
        Err(Stop::Failed) => Ok((None, at)),
        Err(stop) => Err(stop),
    }
}

/// A leaf with its field, if it has one.
#[tactic(auto, unfolding(query_tree::specs::Grammar::plain_leaf, query_tree::specs::Rewriting::with_field))]
pub fn plain_leaf(alloc: Global, at: Cursor) -> Result<(UserInputLeaf, Cursor), Stop>
    ensures { Reads result (grammar.plain_leaf at.entry.text.now) }
{
    let (name, rest) = optional_field(alloc, at)?;
    let (leaf, rest) = bare_leaf(alloc, rest)?;
    match name {
        None => Ok((leaf, rest)),
        Some(field) => Ok((leaf_under_field(alloc, &field, leaf)?, rest)),
    }
}
