// Copies, which equal what they copy.
ghost use Rattle.std.specs.Prelude.{◌≡◌, IfOk};

use crate::tree::{Clauses, Occur, UserInputAst, UserInputBound, UserInputLeaf, UserInputLiteral};
use owned_bytes::{Boxed, Text};
use std::alloc::{AllocError, Global};

type Pair = (Option<Occur>, UserInputAst);

fn text_or_none(alloc: Global, text: &Option<Text>) -> Result<Option<Text>, AllocError>
    ensures { IfOk result (λ t. t ≡ text.now) }
{
    match text {
        Some(text) => Ok(Some(text.clone(alloc)?)),
        None => Ok(None),
    }
}

impl UserInputBound {
    /// The same bound.
    pub fn clone(&self, alloc: Global) -> Result<UserInputBound, AllocError>
        ensures { IfOk result (λ b. b ≡ self.now) }
    {
        match self {
            UserInputBound::Inclusive(text) => Ok(UserInputBound::Inclusive(text.clone(alloc)?)),
            UserInputBound::Exclusive(text) => Ok(UserInputBound::Exclusive(text.clone(alloc)?)),
            UserInputBound::Unbounded => Ok(UserInputBound::Unbounded),
        }
    }
}

impl UserInputLiteral {
    /// The same literal.
    pub fn clone(&self, alloc: Global) -> Result<UserInputLiteral, AllocError>
        ensures { IfOk result (λ l. l ≡ self.now) }
    {
        Ok(UserInputLiteral {
            field_name: text_or_none(alloc, &self.field_name)?,
            phrase: self.phrase.clone(alloc)?,
            delimiter: self.delimiter,
            slop: self.slop,
            prefix: self.prefix,
        })
    }
}

impl UserInputLeaf {
    /// The same leaf.
    pub fn clone(&self, alloc: Global) -> Result<UserInputLeaf, AllocError>
        ensures { IfOk result (λ l. l ≡ self.now) }
    {
        match self {
            UserInputLeaf::Literal(literal) => Ok(UserInputLeaf::Literal(literal.clone(alloc)?)),
            UserInputLeaf::All => Ok(UserInputLeaf::All),
            UserInputLeaf::Range {
                field,
                lower,
                upper,
            } => Ok(UserInputLeaf::Range {
                field: text_or_none(alloc, field)?,
                lower: lower.clone(alloc)?,
                upper: upper.clone(alloc)?,
            }),
            UserInputLeaf::Set { field, elements } => Ok(UserInputLeaf::Set {
                field: text_or_none(alloc, field)?,
                elements: elements.clone(alloc)?,
            }),
            UserInputLeaf::Exists { field } => Ok(UserInputLeaf::Exists {
                field: field.clone(alloc)?,
            }),
            UserInputLeaf::Regex { field, pattern } => Ok(UserInputLeaf::Regex {
                field: text_or_none(alloc, field)?,
                pattern: pattern.clone(alloc)?,
            }),
        }
    }
}

impl UserInputAst {
    /// The same tree.
    #[cycle(copying)]
    pub fn clone(&self, alloc: Global) -> Result<UserInputAst, AllocError>
        ensures { IfOk result (λ t. t ≡ self.now) }
    {
        match self {
            UserInputAst::Clause(pairs) => {
                Ok(UserInputAst::Clause(pairs_copied(alloc, pairs.as_slice())?))
            }
            UserInputAst::Boost(tree, factor) => Ok(UserInputAst::Boost(
                Boxed::new(alloc, tree.get().clone(alloc)?)?,
                factor.clone(alloc)?,
            )),
            UserInputAst::Leaf(leaf) => Ok(UserInputAst::Leaf(Boxed::new(
                alloc,
                leaf.get().clone(alloc)?,
            )?)),
        }
    }
}

#[cycle(copying)]
fn pairs_copied(alloc: Global, pairs: &[Pair]) -> Result<Clauses, AllocError>
    ensures { IfOk result (λ copy. copy ≡ pairs.now) }
{
    let mut copy = Clauses::new(alloc);
    for pair in pairs {
        copy.push((pair.0, pair.1.clone(alloc)?))?;
    }
    Ok(copy)
}

/// The copy of a list of trees with their marks, as a method.
pub trait CloneClauses {
    /// The same list.
    fn clone(&self, alloc: Global) -> Result<Clauses, AllocError>;
}

impl CloneClauses for Clauses {
    fn clone(&self, alloc: Global) -> Result<Clauses, AllocError>
        ensures { IfOk result (λ copy. copy ≡ self.now) }
    {
        pairs_copied(alloc, self.as_slice())
    }
}
