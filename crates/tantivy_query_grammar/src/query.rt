// A whole query.
ghost use Rattle.std.specs.Prelude.{◌≡◌, IfOk};
ghost use Rattle.std.specs.Str.{chars};
ghost use Rattle.query_tree.specs.Grammar as grammar;
ghost use Rattle.query_tree.specs.Answer.{tree_of, Answers};
ghost use Rattle.tantivy_query_grammar.specs.Gives.{GivesWhole};

use crate::cursor::Cursor;
use crate::items::ast;
use crate::starts::starts_of;
use crate::stop::Stop;
use crate::words::spaces;
use query_tree::{Error, ParseError, UserInputAst, rewritten};
use std::alloc::{AllocError, Global};

const MAX_LEVELS: usize = 128;

// The tree of all of the text.
#[tactic(auto, unfolding(query_tree::specs::Grammar::query, query_tree::specs::Reader::end))]
fn whole(alloc: Global, at: Cursor) -> Result<UserInputAst, Stop>
    ensures { GivesWhole result (grammar.query at.entry.text.now) }
{
    let at = spaces(at);
    let (tree, rest) = match ast(alloc, MAX_LEVELS, at) {
        Ok(found) => found,
        Err(Stop::Failed) => (UserInputAst::empty_query(alloc), at),
        Err(stop) => return Err(stop),
    };
    if rest.text.is_empty() {
        Ok(tree)
    } else {
        Err(Stop::Failed)
    }
}

#[tactic(auto, using(std::proofs::lemmas::Str::chars_from_encodes))]
fn characters_of(alloc: Global, query: &str) -> Result<Vec<char>, AllocError>
    ensures { IfOk result (λ v. v.items ≡ chars query.now) }
{
    query.chars().collect(alloc)
}

/// The tree of a query by the strict grammar, which `tree_of` gives exactly.
///
/// A query that is not in the grammar is `Refused`. One with more than 128 parentheses, field
/// groups and `NOT` inside one another is `TooDeep`, even where it would be refused anyway.
#[tactic(auto, unfolding(query_tree::specs::Answer::tree_of))]
pub fn parse_query(alloc: Global, query: &str) -> Result<UserInputAst, ParseError>
    ensures { Answers result (tree_of query.now) }
{
    let text = characters_of(alloc, query)?;
    let starts = starts_of(alloc, &text)?;
    let at = Cursor {
        text: &text,
        starts: &starts,
    };
    match whole(alloc, at) {
        Ok(tree) => Ok(rewritten(alloc, tree)?),
        Err(Stop::Memory) => Err(ParseError::Memory),
        Err(Stop::Failed) => Err(ParseError::Refused(Error)),
        Err(Stop::Deep) => Err(ParseError::TooDeep),
    }
}

/// The same as `parse_query`.
pub fn parse_to_ast(alloc: Global, query: &str) -> Result<UserInputAst, ParseError>
    ensures { Answers result (tree_of query.now) }
{
    parse_query(alloc, query)
}
