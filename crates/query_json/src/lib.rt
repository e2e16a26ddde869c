//! The JSON of query trees.
#![tactic(auto)]

mod leaves;
mod texts;
mod trees;

pub use trees::to_json;
