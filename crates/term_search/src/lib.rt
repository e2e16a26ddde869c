//! The search of an index file for the documents that satisfy a query.
#![tactic(auto)]

mod answer;
mod lone;
mod members;
mod obstacles;
mod search;

pub use answer::{Answer, Kind, SearchError};
pub use documents::{Doc, Fault, Pair, Pairs, PlacedFault, are_valid, documents_size, first_fault};
pub use index_writing::{WriteError, write_index};
pub use printed_queries::{Bound, Expr, expr_depth, is_plain, print_expr};
pub use search::search_index;
