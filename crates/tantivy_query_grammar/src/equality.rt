// Equality of trees.
ghost use Rattle.std.specs.Prelude.{◌≡◌, ◌↔◌, IsTrue};
ghost use Rattle.query_tree.specs.contracts.tree.UserInputAstPartialEq.TheImpl as comparisons;
ghost use Rattle.tantivy_query_grammar.specs.Hashed.{AreHashedAlike};

use query_tree::UserInputAst;

/// Whether two trees are equal, which they are exactly where all of their parts are equal: the same
/// as `==`.
pub fn are_equal(left: &UserInputAst, right: &UserInputAst) -> bool
    ensures { IsTrue result ↔ left.now ≡ right.now }
{
    *left == *right
}

/// Trees that `==` finds equal feed a hasher the same.
pub fn equal_trees_hash_equally(_left: &UserInputAst, _right: &UserInputAst)
    ensures { IsTrue (comparisons.ghosts.eq _left.now _right.now) → AreHashedAlike _left.now _right.now }
{}
