// What keeps a search from a tree.
ghost use Rattle.std.specs.Prelude.{◌≡◌, List, [], ◌∷◌, ◌++◌};
ghost use Rattle.query_tree.specs.declared.tree.UserInputLeaf.{UserInputLeaf};
ghost use Rattle.term_search.specs.Search.{leaves_of};
ghost use Rattle.term_search.specs.Leaves as spec;
ghost use Rattle.term_search.specs.Leaves.{Sees, leaves_among};

use crate::Kind;
use query_tree::{Occur, UserInputAst, UserInputLeaf};

/// What of some leaves keeps a search from them.
#[derive(Clone, Copy)]
pub struct Obstacles {
    /// Of what kind the first leaf is that no search takes.
    pub unsupported: Option<Kind>,
    /// Whether some leaf is still to be learned.
    pub waiting: bool,
}

impl Obstacles {
    /// Those of leaves, and then of other leaves.
    fn or(self, others: Obstacles) -> Obstacles
        ensures { (before after : List UserInputLeaf) → Sees before self → Sees after others → Sees (before ++ after) result }
    {
        Obstacles {
            unsupported: first_of(self.unsupported, others.unsupported),
            waiting: self.waiting | others.waiting,
        }
    }
}

fn first_of(kind: Option<Kind>, other: Option<Kind>) -> Option<Kind>
    ensures { result ≡ spec.first_of kind other }
{
    match kind {
        Some(kind) => Some(kind),
        None => other,
    }
}

fn obstacles_in(leaf: &UserInputLeaf) -> Obstacles
    ensures { Sees (leaf.now ∷ []) result }
{
    let (unsupported, waiting) = match leaf {
        UserInputLeaf::Literal(literal) if literal.slop > 0 => (Some(Kind::Slop), literal.prefix),
        UserInputLeaf::Literal(literal) => (None, literal.prefix),
        UserInputLeaf::All | UserInputLeaf::Set { .. } => (None, false),
        UserInputLeaf::Range { .. } | UserInputLeaf::Exists { .. } => (None, true),
        UserInputLeaf::Regex { .. } => (Some(Kind::Regex), false),
    };
    Obstacles {
        unsupported,
        waiting,
    }
}

/// What keeps a search from the leaves of a tree.
#[cycle(obstacles)]
#[tactic(auto, using(crate::proofs::Equations::all_leaves))]
pub fn obstacles_of(tree: &UserInputAst) -> Obstacles
    ensures { Sees (leaves_of tree.now) result }
{
    match tree {
        UserInputAst::Clause(pairs) => obstacles_among(pairs.as_slice()),
        UserInputAst::Boost(inner, _) => obstacles_of(inner.get()),
        UserInputAst::Leaf(leaf) => obstacles_in(leaf.get()),
    }
}

#[cycle(obstacles)]
fn obstacles_among(pairs: &[(Option<Occur>, UserInputAst)]) -> Obstacles
    ensures { Sees (leaves_among pairs.now) result }
{
    let mut found = Obstacles {
        unsupported: None,
        waiting: false,
    };
    for pair in pairs {
        found = found.or(obstacles_of(&pair.1));
    }
    found
}
