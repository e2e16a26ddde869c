// Documents, as lists of pairs of a field and a term.
ghost use Rattle.std.specs.Prelude.{◌≡◌, [], ◌∷◌, ◌++◌, length, OnOk, OnErr};

use owned_bytes::Text;
use std::alloc::{AllocError, Global};
use std::marker::Model;

/// A term in a field.
#[derive(Debug, PartialEq, Eq, Hash, Drop)]
pub struct Pair {
    pub field: Text,
    pub term: Text,
}

/// Pairs, which contracts see as the list of them.
#[derive(Debug, Drop)]
pub struct Pairs {
    items: Vec<Pair>,
}

impl Model for Pairs {
    ghost use Rattle.std.specs.Prelude.{List};
    ghost use Rattle.documents.specs.declared.documents.Pair.{Pair};

    ghost Value = { List Pair };

    ghost view = { λ pairs. pairs.items.items };
}

impl Pairs {
    /// No pairs.
    pub fn new(alloc: Global) -> Pairs
        ensures { result ≡ [] }
    {
        Pairs {
            items: Vec::new(alloc),
        }
    }

    /// Adds a pair at the end. Without memory nothing changes.
    pub fn push(&mut self, item: Pair) -> Result<(), AllocError>
        ensures ok { OnOk result (self.new ≡ self.old ++ item ∷ []) }
        ensures err { OnErr result (self.new ≡ self.old) }
    {
        self.items.push(item)?;
        Ok(())
    }

    /// How many pairs there are.
    pub fn len(&self) -> usize
        ensures { result ≡ length self.now }
    {
        self.items.len()
    }

    /// The pairs, in order.
    pub fn as_slice(&self) -> &[Pair]
        ensures { result.now ≡ self.now }
    {
        self.items.as_slice()
    }
}

/// A document, as its pairs.
#[derive(Debug, Drop)]
pub struct Doc {
    pub pairs: Pairs,
}
