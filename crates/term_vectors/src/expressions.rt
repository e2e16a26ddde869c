// Expressions as texts of the strict grammar, and which of them are plain.
use owned_bytes::{Text, Texts};
use printed_queries::{Bound, Expr, expr_depth, is_plain, print_expr};
use std::alloc::{AllocError, Global};
use std::test::Fail;
use tantivy_query_grammar::parse_query;

fn term(alloc: Global, field: &str, word: &str) -> Result<Expr, AllocError> {
    let field = Text::from_str(alloc, field)?;
    Ok(Expr::Term(field, Text::from_str(alloc, word)?))
}

fn prefix(alloc: Global, field: &str, word: &str) -> Result<Expr, AllocError> {
    let field = Text::from_str(alloc, field)?;
    Ok(Expr::Prefix(field, Text::from_str(alloc, word)?))
}

fn not(alloc: Global, inner: Expr) -> Result<Expr, AllocError> {
    Ok(Expr::Not(Box::new(alloc, inner)?))
}

fn and(alloc: Global, left: Expr, right: Expr) -> Result<Expr, AllocError> {
    let left = Box::new(alloc, left)?;
    Ok(Expr::And(left, Box::new(alloc, right)?))
}

fn or(alloc: Global, left: Expr, right: Expr) -> Result<Expr, AllocError> {
    let left = Box::new(alloc, left)?;
    Ok(Expr::Or(left, Box::new(alloc, right)?))
}

fn a_or_b(alloc: Global) -> Result<Expr, AllocError> {
    let left = term(alloc, "f", "a")?;
    or(alloc, left, term(alloc, "f", "b")?)
}

fn a_and_b(alloc: Global) -> Result<Expr, AllocError> {
    let left = term(alloc, "f", "a")?;
    and(alloc, left, term(alloc, "f", "b")?)
}

// a or b, but no word that begins with c.
fn without_c(alloc: Global) -> Result<Expr, AllocError> {
    let left = a_or_b(alloc)?;
    let right = not(alloc, prefix(alloc, "f", "c")?)?;
    and(alloc, left, right)
}

// From this bound on, in the field f.
fn above(alloc: Global, bound: &str) -> Result<Expr, AllocError> {
    let field = Text::from_str(alloc, "f")?;
    let lower = Bound::Inclusive(Text::from_str(alloc, bound)?);
    Ok(Expr::Range(field, lower, Bound::Unbounded))
}

// Above a, and at most b.
fn between(alloc: Global) -> Result<Expr, AllocError> {
    let field = Text::from_str(alloc, "f")?;
    let lower = Bound::Exclusive(Text::from_str(alloc, "a")?);
    let upper = Bound::Inclusive(Text::from_str(alloc, "b")?);
    Ok(Expr::Range(field, lower, upper))
}

fn one_of(alloc: Global) -> Result<Expr, AllocError> {
    let mut words = Texts::new(alloc);
    words.push(Text::from_str(alloc, "a")?)?;
    words.push(Text::from_str(alloc, "b c")?)?;
    Ok(Expr::Set(Text::from_str(alloc, "IN")?, words))
}

// Whether the expression is plain and prints as this text.
fn prints(alloc: Global, expr: Expr, want: &str) -> Result<bool, AllocError> {
    let printed = print_expr(alloc, &expr)?;
    Ok(is_plain(&expr) && printed.as_str() == want)
}

#[test]
fn leaves_as_texts(rt: HostRuntime) -> Result<(), Fail> {
    let alloc = rt.alloc();
    assert!(rt; prints(alloc, term(alloc, "a b", "c")?, "a\\ b:\"c\"")?);
    assert!(rt; prints(alloc, term(alloc, "f", "x\"y")?, "f:\"x\\\"y\"")?);
    assert!(rt; prints(alloc, one_of(alloc)?, "IN:IN [\"a\" \"b c\"]")?);
    assert!(rt; prints(alloc, between(alloc)?, "f:{a TO b]")?);
    assert!(rt; prints(alloc, above(alloc, "a")?, "f:[a TO *]")?);
    assert!(rt; prints(alloc, Expr::Exists(Text::from_str(alloc, "f")?), "f:*")?);
    Ok(())
}

#[test]
fn joined_expressions_as_texts(rt: HostRuntime) -> Result<(), Fail> {
    let alloc = rt.alloc();
    let want = "(f:\"a\" OR f:\"b\") AND NOT f:\"c\"*";
    assert!(rt; prints(alloc, without_c(alloc)?, want)?);
    let want = "NOT (f:\"a\" AND f:\"b\")";
    assert!(rt; prints(alloc, not(alloc, a_and_b(alloc)?)?, want)?);
    Ok(())
}

#[test]
fn a_printed_expression_is_read(rt: HostRuntime) -> Result<(), Fail> {
    let alloc = rt.alloc();
    let printed = print_expr(alloc, &without_c(alloc)?)?;
    let tree = parse_query(alloc, printed.as_str())?;
    let debug = format!(in alloc; "{tree:?}")?;
    assert_eq!(rt;
        debug.as_str(),
        "(+(?\"f\":\"a\" ?\"f\":\"b\") +(-\"f\":\"c\"*))"
    );
    Ok(())
}

#[test]
fn plain_fields(rt: HostRuntime) -> Result<(), Fail> {
    for (field, want) in [("", false), ("-f", false), ("a\tb", false), ("NOT", true)] {
        assert_eq!(rt; is_plain(&term(rt.alloc(), field, "a")?), want, "{field}");
    }
    Ok(())
}

#[test]
fn plain_bounds(rt: HostRuntime) -> Result<(), Fail> {
    for (bound, want) in [("*", false), ("-5a", false), ("-5.5", true)] {
        assert_eq!(rt; is_plain(&above(rt.alloc(), bound)?), want, "{bound}");
    }
    Ok(())
}

#[test]
fn depths(rt: HostRuntime) -> Result<(), Fail> {
    let alloc = rt.alloc();
    assert_eq!(rt; expr_depth(&term(alloc, "f", "a")?), 0);
    assert_eq!(rt; expr_depth(&not(alloc, term(alloc, "f", "a")?)?), 1);
    // the parentheses round an Or under an And, and beside it a NOT
    assert_eq!(rt; expr_depth(&without_c(alloc)?), 1);
    assert_eq!(rt; expr_depth(&not(alloc, a_or_b(alloc)?)?), 2);
    Ok(())
}
