// One tree of a list of items.
ghost use Rattle.std.specs.Prelude.{◌≡◌, [], ◌∷◌, ◌++◌, Some, IfOk, OnOk, IfNone, IfSome, ◌<◌, length, reverse};
ghost use Rattle.query_tree.specs.declared.tree.Occur.TheVariants.{Must};
ghost use Rattle.query_tree.specs.Aggregation as aggregation;
ghost use Rattle.query_tree.specs.FromTheLeft.{AggregatesFromTheLeft};
ghost use Rattle.query_tree.specs.Groups.{HoldsGroups, Adds, clause_of};

use crate::item::{Item, Operand};
use crate::tree::{Clauses, Occur, UserInputAst};
use owned_bytes::Items;
use std::alloc::{AllocError, Global};
use std::mem;

type Pair = (Option<Occur>, UserInputAst);

// The default mark of an item that begins a group, by the operands before and after it.
#[tactic(auto, unfolding(crate::specs::Aggregation::default_mark))]
fn default_mark(before: Option<Operand>, after: Option<Operand>) -> Option<Occur>
    ensures { result ≡ aggregation.default_mark before after }
{
    match (before, after) {
        (_, Some(Operand::And)) => Some(Occur::Must),
        (_, Some(Operand::Or)) => Some(Occur::Should),
        (Some(Operand::Or), None) => Some(Occur::Should),
        (Some(Operand::And), None) => None,
        (None, None) => None,
    }
}

fn mark_or(mark: Option<Occur>, default: Option<Occur>) -> Option<Occur>
    ensures { result ≡ aggregation.mark_or mark default }
{
    match mark {
        Some(mark) => Some(mark),
        None => default,
    }
}

/// A clause of one tree that must not hold.
pub fn negated(alloc: Global, tree: UserInputAst) -> Result<UserInputAst, AllocError>
    ensures { IfOk result (λ t. t ≡ aggregation.negated tree) }
{
    let mut pairs = Clauses::new(alloc);
    pairs.push((Some(Occur::MustNot), tree))?;
    Ok(UserInputAst::Clause(pairs))
}

// The pair of an item that begins a group.
#[tactic(auto, unfolding(crate::specs::Aggregation::first_pair))]
fn first_pair(
    alloc: Global,
    mark: Option<Occur>,
    default: Option<Occur>,
    tree: UserInputAst,
) -> Result<Pair, AllocError>
    ensures { IfOk result (λ pair. pair ≡ aggregation.first_pair mark default tree) }
{
    match (mark, default) {
        (Some(Occur::MustNot), Some(Occur::Should)) => {
            Ok((Some(Occur::Should), negated(alloc, tree)?))
        }
        _ => Ok((mark_or(mark, default), tree)),
    }
}

#[tactic(auto, unfolding(crate::specs::Aggregation::lone))]
fn lone(alloc: Global, mark: Option<Occur>, tree: UserInputAst) -> Result<UserInputAst, AllocError>
    ensures { IfOk result (λ t. t ≡ aggregation.lone mark tree) }
{
    match mark {
        Some(Occur::MustNot) => negated(alloc, tree),
        _ => Ok(tree),
    }
}

// The pair that a group gives.
#[tactic(auto, unfolding(crate::specs::Aggregation::pair_of_group))]
fn pair_of_group(mut group: Vec<Pair>) -> Pair
    ensures { result ≡ aggregation.pair_of_group group.items }
{
    if group.len() == 1 {
        if let Some(pair) = group.pop() {
            return pair;
        }
    }
    (
        Some(Occur::Should),
        UserInputAst::Clause(Items::from_vec(group)),
    )
}

/// What the later items gave: the pairs that join the group before them, and the pairs of the
/// groups that begin with them, both last first.
#[derive(Drop)]
pub struct Groups {
    pub joining: Vec<Pair>,
    pub pairs: Vec<Pair>,
}

impl Groups {
    #[tactic(auto, unfolding(crate::specs::Aggregation::grouped))]
    fn new(alloc: Global) -> Groups
        ensures { HoldsGroups result (aggregation.grouped []) }
    {
        Groups {
            joining: Vec::new(alloc),
            pairs: Vec::new(alloc),
        }
    }

    // The group of this pair and of those that join it.
    fn group_of(&mut self, alloc: Global, pair: Pair) -> Result<Vec<Pair>, AllocError>
        ensures group { IfOk result (λ group. reverse group.items ≡ self.old.joining.items ++ pair ∷ []) }
        ensures joining { OnOk result (self.new.joining.items ≡ []) }
        ensures pairs { self.new.pairs.items ≡ self.old.pairs.items }
    {
        let mut group = mem::replace(&mut self.joining, Vec::new(alloc));
        group.push(pair)?;
        group.reverse();
        Ok(group)
    }

    // An item in front of the later ones begins a group.
    fn begin(&mut self, alloc: Global, item: Item, after: Option<Operand>) -> Result<(), AllocError>
        ensures { Adds (aggregation.beginning item after) self.old self.new result }
    {
        let default = default_mark(item.operand, after);
        let pair = first_pair(alloc, item.mark, default, item.tree)?;
        let group = self.group_of(alloc, pair)?;
        self.pairs.push(pair_of_group(group))?;
        Ok(())
    }

    // An item in front of the later ones.
    fn add(&mut self, alloc: Global, item: Item, after: Option<Operand>) -> Result<(), AllocError>
        ensures { Adds (aggregation.grouped_by item.operand item after) self.old self.new result }
    {
        match item.operand {
            Some(Operand::And) => {
                self.joining
                    .push((mark_or(item.mark, Some(Occur::Must)), item.tree))?;
                Ok(())
            }
            _ => self.begin(alloc, item, after),
        }
    }
}

// The groups of these items, behind the first one.
fn groups_of(alloc: Global, items: Items<Item>) -> Result<Groups, AllocError>
    ensures { IfOk result (λ held. HoldsGroups held (aggregation.grouped items)) }
{
    let mut groups = Groups::new(alloc);
    let mut after = None;
    for item in items.into_vec().into_iter().rev() {
        let operand = item.operand;
        groups.add(alloc, item, after)?;
        after = operand;
    }
    Ok(groups)
}

// The clause of the first group and of the pairs of the later ones, last first.
fn clause_of(group: Vec<Pair>, later: Vec<Pair>) -> Result<UserInputAst, AllocError>
    ensures { IfOk result (λ t. t ≡ clause_of group.items later.items) }
{
    if later.as_slice().is_empty() {
        return Ok(UserInputAst::Clause(Items::from_vec(group)));
    }
    let mut pairs = later;
    pairs.push(pair_of_group(group))?;
    pairs.reverse();
    Ok(UserInputAst::Clause(Items::from_vec(pairs)))
}

// One tree of two or more items.
fn tree_of_items(
    alloc: Global,
    first: Item,
    second: Option<Operand>,
    others: Items<Item>,
) -> Result<UserInputAst, AllocError>
    requires second { second ≡ aggregation.operand_after others }
    requires others { 0 < length others }
    ensures { IfOk result (λ t. t ≡ aggregation.aggregated first others) }
{
    let mut groups = groups_of(alloc, others)?;
    let default = default_mark(first.operand, second);
    let pair = first_pair(alloc, first.mark, default, first.tree)?;
    let group = groups.group_of(alloc, pair)?;
    clause_of(group, groups.pairs)
}

/// One tree of the items. A lone item gives its tree, and others give the clause of their groups.
#[tactic(auto, unfolding(crate::specs::Aggregation::aggregated))]
pub fn aggregated(
    alloc: Global,
    first: Item,
    others: Items<Item>,
) -> Result<UserInputAst, AllocError>
    ensures { IfOk result (λ t. t ≡ aggregation.aggregated first others) }
{
    match operand_of(others.as_slice()) {
        None => lone(alloc, first.mark, first.tree),
        Some(second) => tree_of_items(alloc, first, second, others),
    }
}

/// A law, with nothing to run. The tree is the one that the items give when they are taken from the left: an item after `AND`
/// adds its pair to the last group, and every other one begins a group. The code takes them from the right.
pub fn aggregates_from_the_left()
    ensures { AggregatesFromTheLeft }
{}

// The operand of the first of these items, if there is one.
fn operand_of(items: &[Item]) -> Option<Option<Operand>>
    ensures none { IfNone result (items.now ≡ []) }
    ensures operand { IfSome result (λ operand. operand ≡ aggregation.operand_after items.now) }
    ensures some { IfSome result (λ _. 0 < length items.now) }
{
    match items {
        [] => None,
        [second, ..] => Some(second.operand),
    }
}
