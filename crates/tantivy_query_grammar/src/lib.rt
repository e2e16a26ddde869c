//! The strict query grammar: a text is read as a tree, refused, or found too deep.
#![tactic(auto)]

mod classes;
mod cursor;
mod equality;
mod items;
mod leaves;
mod query;
mod reading;
mod starts;
mod stop;
mod words;

pub use equality::{are_equal, equal_trees_hash_equally};
pub use query::{parse_query, parse_to_ast};
pub use query_json::to_json;
pub use query_tree::{
    Clauses, CloneClauses, Decimal, Delimiter, Error, Occur, ParseError, UserInputAst,
    UserInputBound, UserInputLeaf, UserInputLiteral,
};
