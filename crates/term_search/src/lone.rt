// Trees that are a lone literal.
ghost use Rattle.std.specs.Prelude.{◌≡◌, IfSome};
ghost use Rattle.printed_queries.specs.Satisfies as spec;
ghost use Rattle.term_search.specs.Members.{IsLone, IsLoneIn};

use query_tree::{Occur, UserInputAst, UserInputLeaf, UserInputLiteral};

// The literal that a tree of one leaf is.
fn leaf_literal(tree: &UserInputAst) -> Option<&UserInputLiteral>
    ensures { IfSome result (λ literal. IsLone tree.now literal.now) }
{
    match tree {
        UserInputAst::Leaf(leaf) => match leaf.get() {
            UserInputLeaf::Literal(literal) => Some(literal),
            _ => None,
        },
        _ => None,
    }
}

// Whether the mark is `MustNot`.
fn is_must_not(mark: Option<Occur>) -> bool
    ensures { result ≡ spec.is_must_not mark }
{
    match mark {
        Some(Occur::MustNot) => true,
        Some(Occur::Must) | Some(Occur::Should) | None => false,
    }
}

// The literal that a clause of one tree is, where that tree may not be missing.
fn clause_literal(pairs: &[(Option<Occur>, UserInputAst)]) -> Option<&UserInputLiteral>
    ensures { IfSome result (λ literal. IsLoneIn pairs.now literal.now) }
{
    if pairs.len() != 1 {
        return None;
    }
    let pair = &pairs[0];
    if is_must_not(pair.0) {
        return None;
    }
    match leaf_literal(&pair.1) {
        Some(literal) => Some(literal),
        None => None,
    }
}

/// The literal that a tree is: its one leaf, alone or in a clause.
pub fn lone_literal(tree: &UserInputAst) -> Option<&UserInputLiteral>
    ensures { IfSome result (λ literal. IsLone tree.now literal.now) }
{
    match tree {
        UserInputAst::Clause(pairs) => match clause_literal(pairs.as_slice()) {
            Some(literal) => Some(literal),
            None => None,
        },
        _ => leaf_literal(tree),
    }
}
