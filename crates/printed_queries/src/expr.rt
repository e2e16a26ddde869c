// Expressions over documents.
ghost use Rattle.std.specs.Prelude.{◌≡◌, ◌^◌, ◌-◌, min};
ghost use Rattle.query_tree.specs.Printing.{depth, depth_under_and, depth_under_not};
ghost use Rattle.printed_queries.specs.Expressions.{expression_of};

use owned_bytes::{Text, Texts};

/// One end of a range of terms.
#[derive(Debug, PartialEq, Eq, Hash, Drop)]
pub enum Bound {
    Inclusive(Text),
    Exclusive(Text),
    Unbounded,
}

/// What a document is asked for. The first text is the field.
#[derive(PartialEq, Eq, Hash, Drop)]
pub enum Expr {
    Term(Text, Text),
    Prefix(Text, Text),
    Range(Text, Bound, Bound),
    Set(Text, Texts),
    Exists(Text),
    Not(Box<Expr>),
    And(Box<Expr>, Box<Expr>),
    Or(Box<Expr>, Box<Expr>),
}

fn under_and(expr: &Expr, inner: u64) -> u64
    ensures { result ≡ min (depth_under_and (expression_of expr.now) inner) (2 ^ 64 - 1) }
{
    match expr {
        Expr::Or(..) => inner.saturating_add(1),
        _ => inner,
    }
}

fn under_not(expr: &Expr, inner: u64) -> u64
    ensures { result ≡ min (depth_under_not (expression_of expr.now) inner) (2 ^ 64 - 1) }
{
    match expr {
        Expr::Or(..) | Expr::And(..) => inner.saturating_add(1),
        _ => inner,
    }
}

/// The greatest number of parentheses and `NOT` inside one another in the printed text, up to the greatest `u64`.
#[tactic(auto, unfolding(query_tree::specs::Printing::depth))]
pub fn expr_depth(expr: &Expr) -> u64
    ensures { result ≡ min (depth (expression_of expr.now)) (2 ^ 64 - 1) }
{
    match expr {
        Expr::Not(inner) => under_not(inner, expr_depth(inner)).saturating_add(1),
        Expr::And(left, right) => {
            let left_depth = under_and(left, expr_depth(left));
            left_depth.max(under_and(right, expr_depth(right)))
        }
        Expr::Or(left, right) => expr_depth(left).max(expr_depth(right)),
        _ => 0,
    }
}
