//! Expressions over documents, their printed texts, and what a printed expression means.
#![tactic(auto)]

mod expr;
mod law;
mod plain;
mod print;

pub use expr::{Bound, Expr, expr_depth};
pub use law::{leaves_are_looked_up, printed_means_the_same, rows_hold};
pub use plain::is_plain;
pub use print::print_expr;
