//! The trees of queries, and what a query text means.
#![tactic(auto)]

mod aggregating;
mod answer;
mod building;
mod copies;
mod decimal;
mod fields;
mod item;
mod rewriting;
mod showing;
mod tree;

pub use aggregating::{aggregated, aggregates_from_the_left, negated};
pub use answer::{Error, ParseError};
pub use copies::CloneClauses;
pub use decimal::Decimal;
pub use fields::{leaf_under_field, under_field};
pub use item::{Item, Operand};
pub use rewriting::rewritten;
pub use tree::{
    Clauses, Delimiter, Occur, UserInputAst, UserInputBound, UserInputLeaf, UserInputLiteral,
};
