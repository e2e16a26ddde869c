// The command `tree`: the tree of a query.
ghost use Rattle.std.specs.Prelude.{◌≡◌};
ghost use Rattle.owned_bytes.specs.Outside.{HasCause};
ghost use Rattle.term_index.specs.Tree.{TreeEnds, PrintsTree};

use crate::Outcome;
use crate::printing::print_tree;
use owned_bytes::Sink;
use std::alloc::Global;
use tantivy_query_grammar::{ParseError, parse_query};

/// Prints the tree of a query, as JSON.
pub fn show<O: Sink>(alloc: Global, query: &str, out: &mut O) -> Outcome
    ensures ends { TreeEnds query.now result }
    ensures prints { PrintsTree query.now result (O.written out.old) (O.written out.new) }
    ensures out_fault { HasCause (O.faults out.old) (O.faults out.new) (result ≡ Outcome.OutFault) }
{
    match parse_query(alloc, query) {
        Ok(tree) => print_tree(alloc, &tree, out),
        Err(ParseError::Memory) => Outcome::Memory,
        Err(ParseError::Refused(_)) => Outcome::Query,
        Err(ParseError::TooDeep) => Outcome::TooDeep,
    }
}
