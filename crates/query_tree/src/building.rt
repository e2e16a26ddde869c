// Marks composed, and trees made of trees.
ghost use Rattle.std.specs.Prelude.{◌≡◌, ◌<◌, [], ◌∷◌, Some, map, length, IfOk};
ghost use Rattle.query_tree.specs.declared.tree.UserInputLeaf.TheVariants.{Literal};
ghost use Rattle.query_tree.specs.declared.tree.UserInputAst.TheVariants.{Clause, Leaf};
ghost use Rattle.query_tree.specs.declared.tree.Occur.TheVariants.{Should, Must};
ghost use Rattle.query_tree.specs.Building.{composed, occur_text, bound_text, under_mark};

use crate::tree::{Clauses, Occur, UserInputAst, UserInputBound, UserInputLeaf, UserInputLiteral};
use owned_bytes::{Boxed, Items};
use std::alloc::{AllocError, Global};
use std::fmt;

impl Occur {
    /// The mark of what stands under `right` inside `left`: `Should` leaves the other mark, and a
    /// `MustNot` inside a `MustNot` is a `Must`.
    pub fn compose(left: Occur, right: Occur) -> Occur
        ensures { result ≡ composed left right }
    {
        match (left, right) {
            (Occur::Should, _) => right,
            (Occur::Must, Occur::MustNot) => Occur::MustNot,
            (Occur::Must, _) => Occur::Must,
            (Occur::MustNot, Occur::MustNot) => Occur::Must,
            (Occur::MustNot, _) => Occur::MustNot,
        }
    }

    /// The order of composing does not matter.
    pub fn compose_is_associative(_a: Occur, _b: Occur, _c: Occur)
        ensures { composed (composed _a _b) _c ≡ composed _a (composed _b _c) }
    {}

    /// Nor does the order of the marks, and `Should` leaves each mark as it is.
    pub fn compose_is_commutative(_a: Occur, _b: Occur)
        ensures swapped { composed _a _b ≡ composed _b _a }
        ensures neutral_left { composed Should _a ≡ _a }
        ensures neutral_right { composed _a Should ≡ _a }
    {}
}

impl fmt::Display for Occur {
    ghost use Rattle.std.specs.Prelude.{Some};
    ghost use Rattle.query_tree.specs.Building.{occur_text};

    ghost output = { λ occur. Some (occur_text occur) };

    fn fmt<W: fmt::Write>(&self, f: &mut fmt::Formatter<W>) -> fmt::Result {
        f.write_str(match self {
            Occur::Should => "?",
            Occur::Must => "+",
            Occur::MustNot => "-",
        })
    }
}

impl UserInputBound {
    /// The bound's text, and `*` where there is no bound.
    pub fn term_str(&self) -> &str
        ensures { result.now ≡ bound_text self.now }
    {
        match self {
            UserInputBound::Inclusive(text) => text.as_str(),
            UserInputBound::Exclusive(text) => text.as_str(),
            UserInputBound::Unbounded => "*",
        }
    }
}

impl From<UserInputLiteral> for UserInputLeaf {
    ghost use Rattle.std.specs.Prelude.{◌≡◌};
    ghost use Rattle.query_tree.specs.declared.tree.UserInputLeaf.TheVariants.{Literal};

    ghost from_gives = { λ literal leaf. leaf ≡ Literal literal };

    fn from(literal: UserInputLiteral) -> Self {
        UserInputLeaf::Literal(literal)
    }
}

impl UserInputAst {
    /// A clause of this tree alone, under the mark.
    pub fn unary(self, alloc: Global, occur: Occur) -> Result<UserInputAst, AllocError>
        ensures { IfOk result (λ t. t ≡ Clause ((Some occur, self) ∷ [])) }
    {
        let mut pairs = Clauses::new(alloc);
        pairs.push((Some(occur), self))?;
        Ok(UserInputAst::Clause(pairs))
    }

    /// The clause without trees.
    pub fn empty_query(alloc: Global) -> UserInputAst
        ensures { result ≡ Clause [] }
    {
        UserInputAst::Clause(Clauses::new(alloc))
    }

    /// All of the trees. A lone tree is given back.
    pub fn and(alloc: Global, asts: Vec<UserInputAst>) -> Result<UserInputAst, AllocError>
        requires { 0 < length asts.items }
        ensures { IfOk result (λ t. t ≡ under_mark Must asts.items) }
    {
        joined(alloc, Occur::Must, asts)
    }

    /// Any of the trees. A lone tree is given back.
    pub fn or(alloc: Global, asts: Vec<UserInputAst>) -> Result<UserInputAst, AllocError>
        requires { 0 < length asts.items }
        ensures { IfOk result (λ t. t ≡ under_mark Should asts.items) }
    {
        joined(alloc, Occur::Should, asts)
    }

    /// A tree of this leaf alone.
    pub fn from_leaf(alloc: Global, leaf: UserInputLeaf) -> Result<UserInputAst, AllocError>
        ensures { IfOk result (λ t. t ≡ Leaf leaf) }
    {
        Ok(UserInputAst::Leaf(Boxed::new(alloc, leaf)?))
    }
}

fn joined(
    alloc: Global,
    occur: Occur,
    mut asts: Vec<UserInputAst>,
) -> Result<UserInputAst, AllocError>
    ensures { IfOk result (λ t. t ≡ under_mark occur asts.items) }
{
    if asts.len() == 1 {
        if let Some(tree) = asts.pop() {
            return Ok(tree);
        }
    }
    Ok(UserInputAst::Clause(marked(alloc, occur, asts)?))
}

fn marked(alloc: Global, occur: Occur, asts: Vec<UserInputAst>) -> Result<Clauses, AllocError>
    ensures { IfOk result (λ pairs. pairs ≡ map (λ tree. (Some occur, tree)) asts.items) }
{
    let mut pairs = Vec::with_capacity(alloc, asts.len())?;
    for tree in asts {
        pairs.push((Some(occur), tree))?;
    }
    Ok(Items::from_vec(pairs))
}
