// The default field.
ghost use Rattle.std.specs.Prelude.{◌≡◌, IfOk, map};
ghost use Rattle.query_tree.specs.Rewriting as rewriting;

use crate::tree::{Clauses, UserInputAst, UserInputLeaf, UserInputLiteral};
use owned_bytes::{Boxed, Text};
use std::alloc::{AllocError, Global};

fn field_or(alloc: Global, own: Option<Text>, field: &Text) -> Result<Option<Text>, AllocError>
    ensures { IfOk result (λ f. f ≡ rewriting.field_or own field.now) }
{
    match own {
        Some(own) => Ok(Some(own)),
        None => Ok(Some(Text::from_str(alloc, field.as_str())?)),
    }
}

/// The leaf with this field where it has none. All becomes the field's existence.
#[tactic(auto, unfolding(crate::specs::Rewriting::leaf_under_field))]
pub fn leaf_under_field(
    alloc: Global,
    field: &Text,
    leaf: UserInputLeaf,
) -> Result<UserInputLeaf, AllocError>
    ensures { IfOk result (λ l. l ≡ rewriting.leaf_under_field field.now leaf) }
{
    match leaf {
        UserInputLeaf::Literal(literal) => {
            let UserInputLiteral {
                field_name,
                phrase,
                delimiter,
                slop,
                prefix,
            } = literal;
            Ok(UserInputLeaf::Literal(UserInputLiteral {
                field_name: field_or(alloc, field_name, field)?,
                phrase,
                delimiter,
                slop,
                prefix,
            }))
        }
        UserInputLeaf::All => Ok(UserInputLeaf::Exists {
            field: Text::from_str(alloc, field.as_str())?,
        }),
        UserInputLeaf::Range {
            field: own,
            lower,
            upper,
        } => Ok(UserInputLeaf::Range {
            field: field_or(alloc, own, field)?,
            lower,
            upper,
        }),
        UserInputLeaf::Set {
            field: own,
            elements,
        } => Ok(UserInputLeaf::Set {
            field: field_or(alloc, own, field)?,
            elements,
        }),
        UserInputLeaf::Exists { field: own } => Ok(UserInputLeaf::Exists { field: own }),
        UserInputLeaf::Regex {
            field: own,
            pattern,
        } => Ok(UserInputLeaf::Regex {
            field: field_or(alloc, own, field)?,
            pattern,
        }),
    }
}

/// The tree with this field in every leaf without one, inside clauses and boosts.
#[cycle(under)]
#[tactic(auto, using(crate::proofs::Equations::trees_under_field))]
pub fn under_field(
    alloc: Global,
    name: &Text,
    tree: UserInputAst,
) -> Result<UserInputAst, AllocError>
    ensures { IfOk result (λ t. t ≡ rewriting.under_field name.now tree) }
{
    match tree {
        UserInputAst::Clause(pairs) => {
            Ok(UserInputAst::Clause(pairs_under_field(alloc, name, pairs)?))
        }
        UserInputAst::Boost(inner, factor) => {
            let inner = under_field(alloc, name, inner.into_inner())?;
            Ok(UserInputAst::Boost(Boxed::new(alloc, inner)?, factor))
        }
        UserInputAst::Leaf(leaf) => {
            let leaf = leaf_under_field(alloc, name, leaf.into_inner())?;
            Ok(UserInputAst::Leaf(Boxed::new(alloc, leaf)?))
        }
    }
}

#[cycle(under)]
fn pairs_under_field(alloc: Global, name: &Text, pairs: Clauses) -> Result<Clauses, AllocError>
    ensures { IfOk result (λ done. done ≡ map (λ p. (p.0, rewriting.under_field name.now p.1)) pairs) }
{
    let mut done = Clauses::new(alloc);
    for (occur, tree) in pairs.into_vec() {
        done.push((occur, under_field(alloc, name, tree)?))?;
    }
    Ok(done)
}
