// The rewriting at the end: equal pairs once, and lone pairs out of their clauses.
ghost use Rattle.std.specs.Prelude.{◌≡◌, [], None, map, IfOk};
ghost use Rattle.indexmap.specs.IndexSet.{insert_all};
ghost use Rattle.query_tree.specs.declared.tree.UserInputAst.TheVariants.{Clause};
ghost use Rattle.query_tree.specs.Rewriting as spec;

use crate::tree::{Clauses, Occur, UserInputAst};
use indexmap::IndexSet;
use owned_bytes::Items;
use std::alloc::{AllocError, Global};
use std::hash::Hash;

type Pair = (Option<Occur>, UserInputAst);

/// The tree with equal pairs once in each clause, the first of them, and without unmarked clauses
/// of one pair inside others. Boosts stay as they are.
#[cycle(rewriting)]
#[tactic(auto, using(crate::proofs::Equations::trees_rewritten))]
pub fn rewritten(alloc: Global, tree: UserInputAst) -> Result<UserInputAst, AllocError>
    ensures { IfOk result (λ t. t ≡ spec.rewritten tree) }
{
    match tree {
        UserInputAst::Clause(pairs) => {
            let pairs = each_rewritten(alloc, pairs)?;
            Ok(UserInputAst::Clause(all_unwrapped(alloc, once(alloc, pairs)?)?))
        }
        UserInputAst::Boost(inner, factor) => Ok(UserInputAst::Boost(inner, factor)),
        UserInputAst::Leaf(leaf) => Ok(UserInputAst::Leaf(leaf)),
    }
}

#[cycle(rewriting)]
fn each_rewritten(alloc: Global, pairs: Clauses) -> Result<Clauses, AllocError>
    ensures { IfOk result (λ done. done ≡ map (λ p. (p.0, spec.rewritten p.1)) pairs) }
{
    let mut done = Vec::with_capacity(alloc, pairs.len())?;
    for (occur, tree) in pairs.into_vec() {
        done.push((occur, rewritten(alloc, tree)?))?;
    }
    Ok(Items::from_vec(done))
}

// Equal pairs once, the first of them.
fn once(alloc: Global, pairs: Clauses) -> Result<Clauses, AllocError>
    ensures { IfOk result (λ kept. kept ≡ spec.without_repeats pairs) }
{
    let kept = first_ones(alloc, pairs.into_vec())?;
    Ok(Items::from_vec(kept))
}

// The items in order, the first of equal ones.
fn first_ones<T: Eq + Hash + Drop>(alloc: Global, items: Vec<T>) -> Result<Vec<T>, AllocError>
    ensures { IfOk result (λ kept. kept.items ≡ insert_all T.eq [] items.items) }
{
    let seen = set_of(alloc, items)?;
    seen.into_iter().collect(alloc)
}

// A set that keeps the order in which its items came.
fn set_of<T: Eq + Hash + Drop>(alloc: Global, items: Vec<T>) -> Result<IndexSet<T>, AllocError>
    ensures { IfOk result (λ set. set.keys ≡ insert_all T.eq [] items.items) }
{
    items.into_iter().collect(alloc)
}

fn all_unwrapped(alloc: Global, pairs: Clauses) -> Result<Clauses, AllocError>
    ensures { IfOk result (λ done. done ≡ map spec.unwrapped pairs) }
{
    let mut done = Vec::with_capacity(alloc, pairs.len())?;
    for (occur, tree) in pairs.into_vec() {
        done.push(unwrapped(occur, tree))?;
    }
    Ok(Items::from_vec(done))
}

// An unmarked clause of exactly one pair gives that pair.
fn unwrapped(occur: Option<Occur>, tree: UserInputAst) -> Pair
    ensures { result ≡ spec.unwrapped (occur, tree) }
{
    match (occur, tree) {
        (None, UserInputAst::Clause(pairs)) => only_pair(pairs),
        (occur, tree) => (occur, tree),
    }
}

fn only_pair(mut pairs: Clauses) -> Pair
    ensures { result ≡ spec.unwrapped (None, Clause pairs) }
{
    if pairs.len() == 1 {
        if let Some(pair) = pairs.pop() {
            return pair;
        }
    }
    (None, UserInputAst::Clause(pairs))
}
