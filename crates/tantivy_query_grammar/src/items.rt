// Items and trees. What a leaf encloses is read one level further in.
ghost use Rattle.std.specs.Prelude.{◌≡◌, ◌++◌, ◌∷◌, [], None, ◌<◌, length, IfOk};
ghost use Rattle.std.specs.Option.{ForSome};
ghost use Rattle.query_tree.specs.Decimals.{AreDigits, trimmed_decimal};
ghost use Rattle.query_tree.specs.Reader as reader;
ghost use Rattle.query_tree.specs.Grammar as grammar;
ghost use Rattle.query_tree.specs.Rewriting as rewriting;
ghost use Rattle.query_tree.specs.Aggregation as aggregation;
ghost use Rattle.tantivy_query_grammar.specs.Gives.{Reads, Gives, with_list};

use crate::classes::Class;
use crate::cursor::Cursor;
use crate::leaves::{field, plain_leaf, star_alone};
use crate::reading::{after, after_tag, tag, take};
use crate::stop::Stop;
use crate::words::{digits, fraction, some_spaces, spaces};
use owned_bytes::{Boxed, Items, Text};
use query_tree::{Decimal, Item, Occur, Operand, UserInputAst, aggregated, negated, under_field};
use std::alloc::{AllocError, Global};

// `-` or `+`, or nothing.
#[tactic(auto, unfolding(query_tree::specs::Grammar::mark))]
fn mark(at: Cursor) -> (Option<Occur>, Cursor)
    ensures { reader.optional grammar.mark at.entry.text.now ≡ reader.Found result.0 result.1.text.now }
{
    if let Some(rest) = after(at, Class::Is('-')) {
        return (Some(Occur::MustNot), rest);
    }
    if let Some(rest) = after(at, Class::Is('+')) {
        return (Some(Occur::Must), rest);
    }
    (None, at)
}

// `AND ` or `OR `, or nothing.
#[tactic(auto, unfolding(query_tree::specs::Grammar::operand))]
fn operand(at: Cursor) -> (Option<Operand>, Cursor)
    ensures { reader.optional grammar.operand at.entry.text.now ≡ reader.Found result.0 result.1.text.now }
{
    if let Some(rest) = after_tag(at, &['A', 'N', 'D', ' ']) {
        return (Some(Operand::And), rest);
    }
    if let Some(rest) = after_tag(at, &['O', 'R', ' ']) {
        return (Some(Operand::Or), rest);
    }
    (None, at)
}

fn optional_boost(alloc: Global, at: Cursor) -> Result<(Option<Decimal>, Cursor), Stop>
    ensures { Reads result (reader.optional grammar.boost at.entry.text.now) }
{
    match boost(alloc, at) {
        Ok((factor, rest)) => Ok((Some(factor), rest)),
        Err(Stop::Failed) => Ok((None, at)),
        Err(stop) => Err(stop),
    }
}

#[tactic(auto, unfolding(query_tree::specs::Grammar::boost))]
fn boost(alloc: Global, at: Cursor) -> Result<(Decimal, Cursor), Stop>
    ensures { Reads result (grammar.boost at.entry.text.now) }
{
    let rest = take(at, Class::Is('^'))?;
    let (whole, rest) = digits(alloc, rest)?;
    let (after_dot, rest) = fraction(alloc, rest)?;
    Ok((decimal(alloc, &whole, &after_dot)?, rest))
}

#[tactic(auto, unfolding(query_tree::specs::Decimals::trimmed_decimal))]
fn decimal(alloc: Global, whole: &Text, after_dot: &Option<Text>) -> Result<Decimal, AllocError>
    requires not_empty { 0 < length whole.now }
    requires digits { AreDigits whole.now }
    requires fraction_digits { ForSome after_dot.now AreDigits }
    ensures { IfOk result (λ d. d ≡ trimmed_decimal whole.now after_dot.now) }
{
    match after_dot {
        Some(digits) => Decimal::new(alloc, whole.as_str(), digits.as_str()),
        None => Decimal::new(alloc, whole.as_str(), ""),
    }
}

fn is_one(factor: &Decimal) -> bool
    ensures { result ≡ grammar.is_one factor.now }
{
    factor.whole() == "1" && factor.fraction() == ""
}

// A boost of 1 is dropped.
#[tactic(auto, unfolding(query_tree::specs::Grammar::boosted))]
fn boosted(
    alloc: Global,
    tree: UserInputAst,
    factor: Option<Decimal>,
) -> Result<UserInputAst, AllocError>
    ensures { IfOk result (λ t. t ≡ grammar.boosted tree factor) }
{
    let Some(factor) = factor else {
        return Ok(tree);
    };
    if is_one(&factor) {
        return Ok(tree);
    }
    Ok(UserInputAst::Boost(Boxed::new(alloc, tree)?, factor))
}

#[cycle(parser)]
#[tactic(auto, unfolding(query_tree::specs::Grammar::parenthesized))]
fn parenthesized(alloc: Global, levels: usize, at: Cursor) -> Result<(UserInputAst, Cursor), Stop>
    ensures { Reads result (grammar.parenthesized (grammar.enclosed_tree levels) at.entry.text.now) }
{
    let rest = take(at, Class::Is('('))?;
    let (tree, rest) = enclosed_tree(alloc, levels, rest)?;
    Ok((tree, take(rest, Class::Is(')'))?))
}

#[cycle(parser)]
#[tactic(auto, using(query_tree::proofs::Levels::tree_opens, query_tree::proofs::Levels::tree_too_deep))]
fn enclosed_tree(alloc: Global, levels: usize, at: Cursor) -> Result<(UserInputAst, Cursor), Stop>
    ensures { Reads result (grammar.enclosed_tree levels at.entry.text.now) }
{
    if levels == 0 {
        return Err(Stop::Deep);
    }
    ast(alloc, levels - 1, at)
}

#[cycle(parser)]
#[tactic(auto, using(query_tree::proofs::Levels::leaf_opens, query_tree::proofs::Levels::leaf_too_deep))]
fn enclosed_leaf(alloc: Global, levels: usize, at: Cursor) -> Result<(UserInputAst, Cursor), Stop>
    ensures { Reads result (grammar.enclosed_leaf levels at.entry.text.now) }
{
    if levels == 0 {
        return Err(Stop::Deep);
    }
    leaf(alloc, levels - 1, at)
}

#[cycle(parser)]
#[tactic(auto, unfolding(query_tree::specs::Grammar::negation))]
fn negation(alloc: Global, levels: usize, at: Cursor) -> Result<(UserInputAst, Cursor), Stop>
    ensures { Reads result (grammar.negation (grammar.enclosed_leaf levels) at.entry.text.now) }
{
    let rest = some_spaces(tag(at, &['N', 'O', 'T'])?)?;
    let (tree, rest) = enclosed_leaf(alloc, levels, rest)?;
    Ok((negated(alloc, tree)?, rest))
}

// A field for a whole tree.
#[cycle(parser)]
#[tactic(auto, unfolding(query_tree::specs::Grammar::field_group))]
fn field_group(alloc: Global, levels: usize, at: Cursor) -> Result<(UserInputAst, Cursor), Stop>
    ensures { Reads result (grammar.field_group (grammar.enclosed_tree levels) at.entry.text.now) }
{
    let (name, rest) = field(alloc, at)?;
    let rest = take(spaces(rest), Class::Is('('))?;
    let (tree, rest) = enclosed_tree(alloc, levels, spaces(rest))?;
    let rest = take(rest, Class::Is(')'))?;
    Ok((under_field(alloc, &name, tree)?, rest))
}

#[cycle(parser)]
#[tactic(auto, using(query_tree::proofs::Levels::leaf_is), unfolding(query_tree::specs::Grammar::leaf_enclosing))]
fn leaf(alloc: Global, levels: usize, at: Cursor) -> Result<(UserInputAst, Cursor), Stop>
    ensures { Reads result (grammar.leaf levels at.entry.text.now) }
{
    match parenthesized(alloc, levels, at) {
        Err(Stop::Failed) => {}
        found => return found,
    }
    match star_alone(at) {
        Ok((leaf, rest)) => return Ok((UserInputAst::from_leaf(alloc, leaf)?, rest)),
        Err(Stop::Failed) => {}
        Err(stop) => return Err(stop),
    }
    match negation(alloc, levels, at) {
        Err(Stop::Failed) => {}
        found => return found,
    }
    match plain_leaf(alloc, at) {
        Ok((leaf, rest)) => return Ok((UserInputAst::from_leaf(alloc, leaf)?, rest)),
        Err(Stop::Failed) => {}
        Err(stop) => return Err(stop),
    }
    field_group(alloc, levels, at)
}

// A leaf with its mark and its boost, behind an operand.
#[cycle(parser)]
#[tactic(auto, unfolding(query_tree::specs::Grammar::item_after))]
fn item_after(
    alloc: Global,
    levels: usize,
    operand: Option<Operand>,
    at: Cursor,
) -> Result<(Item, Cursor), Stop>
    ensures { Reads result (grammar.item_after (grammar.leaf levels) operand at.entry.text.now) }
{
    let (mark, rest) = mark(at);
    let (tree, rest) = leaf(alloc, levels, rest)?;
    let (factor, rest) = optional_boost(alloc, rest)?;
    let tree = boosted(alloc, tree, factor)?;
    Ok((
        Item {
            operand,
            mark,
            tree,
        },
        rest,
    ))
}

#[cycle(parser)]
#[tactic(auto, unfolding(query_tree::specs::Grammar::next_item))]
fn next_item(alloc: Global, levels: usize, at: Cursor) -> Result<(Item, Cursor), Stop>
    ensures { Reads result (grammar.next_item (grammar.leaf levels) at.entry.text.now) }
{
    let (operand, rest) = operand(at);
    let (item, rest) = item_after(alloc, levels, operand, spaces(rest))?;
    Ok((item, spaces(rest)))
}

// The items that come next, behind those that were found before.
#[cycle(parser)]
#[tactic(auto, using(crate::proofs::Loops::listed_turn, crate::proofs::Loops::list_stops, crate::proofs::Loops::list_ends, crate::proofs::Loops::list_deep))]
fn more_items(
    alloc: Global,
    levels: usize,
    mut found: Items<Item>,
    at: Cursor,
) -> Result<(Items<Item>, Cursor), Stop>
    ensures { Reads result (with_list found (reader.repeated (grammar.next_item (grammar.leaf levels)) at.entry.text.now)) }
{
    let mut rest = at;
    for _turn in 0..at.text.len() {
        match next_item(alloc, levels, rest) {
            Ok((item, after)) => {
                found.push(item)?;
                rest = after;
            }
            Err(Stop::Failed) => break,
            Err(stop) => return Err(stop),
        }
    }
    Ok((found, rest))
}

// One or more items behind spaces, if there are any.
#[cycle(parser)]
#[tactic(auto, unfolding(query_tree::specs::Grammar::next_items, crate::specs::Gives::with_list))]
fn next_items(alloc: Global, levels: usize, at: Cursor) -> Result<(Items<Item>, Cursor), Stop>
    ensures { Reads result (grammar.next_items (grammar.leaf levels) at.entry.text.now) }
{
    let rest = some_spaces(at)?;
    let (first, rest) = next_item(alloc, levels, rest)?;
    let mut found = Items::new(alloc);
    found.push(first)?;
    more_items(alloc, levels, found, rest)
}

/// A tree: items with spaces round them, made one.
#[cycle(parser)]
#[tactic(auto, unfolding(query_tree::specs::Grammar::ast_of_leaves))]
pub fn ast(alloc: Global, levels: usize, at: Cursor) -> Result<(UserInputAst, Cursor), Stop>
    ensures { Reads result (grammar.ast levels at.entry.text.now) }
{
    let (first, rest) = item_after(alloc, levels, None, spaces(at))?;
    let (others, rest) = match next_items(alloc, levels, rest) {
        Err(Stop::Failed) => (Items::new(alloc), rest),
        Err(stop) => return Err(stop),
        Ok(found) => found,
    };
    Ok((aggregated(alloc, first, others)?, spaces(rest)))
}
