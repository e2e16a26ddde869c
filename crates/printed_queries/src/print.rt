// The printed text of an expression.
ghost use Rattle.std.specs.Prelude.{◌≡◌, ◌++◌, ◌∷◌, [], if◌then◌else◌, map, encode_utf8_all, codes, IfOk, OnOk};
ghost use Rattle.std.specs.List.{flat_map};
ghost use Rattle.std.specs.Str.{chars, IsAscii};
ghost use Rattle.query_tree.specs.Printing.{Term, Prefix, Range, Set, Exists, Not, And, Or};
ghost use Rattle.query_tree.specs.Printing.{escaped, printed_text, printed_field, printed_lower, printed_upper, printed_elements, more_elements, in_parentheses, printed, print};
ghost use Rattle.printed_queries.specs.Expressions.{expression_of, bound_of};
ghost use Rattle.printed_queries.specs.Escapes.{is_escaped_in, escapes, printed_under_and, printed_under_not, Writes, Prints};

use crate::plain::split_first;
use crate::{Bound, Expr};
use owned_bytes::Text;
use std::alloc::{AllocError, Global};

// Where a text is printed, which decides on the characters that have a backslash in front.
#[derive(Clone, Copy)]
enum Place {
    Field,
    Quotes,
}

#[tactic(auto, unfolding(query_tree::specs::Characters::is_special))]
fn is_escaped(place: Place, c: char) -> bool
    ensures { result ≡ is_escaped_in place c }
{
    match place {
        Place::Field => matches!(
            c,
            '+' | '^'
                | ':'
                | '{'
                | '}'
                | '"'
                | '\''
                | '['
                | ']'
                | '('
                | ')'
                | '!'
                | '\\'
                | '*'
                | '`'
                | ' '
        ),
        Place::Quotes => c == '"' || c == '\\',
    }
}

fn push_character(out: &mut Text, place: Place, c: char) -> Result<(), AllocError>
    ensures { OnOk result (Writes out.old out.new (escaped (is_escaped_in place c) c)) }
{
    if is_escaped(place, c) {
        out.push('\\')?;
    }
    out.push(c)
}

fn push_escaped(out: &mut Text, place: Place, text: &str) -> Result<(), AllocError>
    ensures { OnOk result (Writes out.old out.new (escapes place (chars text.now))) }
{
    let mut left = text;
    while let Some((c, rest)) = split_first(left) {
        push_character(out, place, c)?;
        left = rest;
    }
    Ok(())
}

fn push_plain(out: &mut Text, text: &str) -> Result<(), AllocError>
    ensures { OnOk result (Writes out.old out.new (chars text.now)) }
{
    out.push_str(text)?;
    Ok(())
}

fn push_char(out: &mut Text, c: char) -> Result<(), AllocError>
    ensures { OnOk result (Writes out.old out.new (c ∷ [])) }
{
    out.push(c)?;
    Ok(())
}

fn push_field_str(out: &mut Text, field: &str) -> Result<(), AllocError>
    ensures { OnOk result (Writes out.old out.new (printed_field (chars field.now))) }
{
    push_escaped(out, Place::Field, field)?;
    push_char(out, ':')?;
    Ok(())
}

fn push_text_str(out: &mut Text, text: &str) -> Result<(), AllocError>
    ensures { OnOk result (Writes out.old out.new (printed_text (chars text.now))) }
{
    push_char(out, '"')?;
    push_escaped(out, Place::Quotes, text)?;
    push_char(out, '"')?;
    Ok(())
}

fn push_field(out: &mut Text, field: &Text) -> Result<(), AllocError>
    ensures { OnOk result (Writes out.old out.new (printed_field (chars field.now))) }
{
    push_field_str(out, field.as_str())
}

fn push_text(out: &mut Text, text: &Text) -> Result<(), AllocError>
    ensures { OnOk result (Writes out.old out.new (printed_text (chars text.now))) }
{
    push_text_str(out, text.as_str())
}

fn push_before(out: &mut Text, c: char, text: &str) -> Result<(), AllocError>
    ensures { OnOk result (Writes out.old out.new (c ∷ chars text.now)) }
{
    push_char(out, c)?;
    push_plain(out, text)?;
    Ok(())
}

fn push_behind(out: &mut Text, text: &str, c: char) -> Result<(), AllocError>
    ensures { OnOk result (Writes out.old out.new (chars text.now ++ c ∷ [])) }
{
    push_plain(out, text)?;
    push_char(out, c)?;
    Ok(())
}

fn push_two(out: &mut Text, first: char, second: char) -> Result<(), AllocError>
    ensures { OnOk result (Writes out.old out.new (first ∷ second ∷ [])) }
{
    push_char(out, first)?;
    push_char(out, second)?;
    Ok(())
}

fn push_lower(out: &mut Text, bound: &Bound) -> Result<(), AllocError>
    ensures { OnOk result (Writes out.old out.new (printed_lower (bound_of bound.now))) }
{
    match bound {
        Bound::Inclusive(text) => push_before(out, '[', text.as_str()),
        Bound::Exclusive(text) => push_before(out, '{', text.as_str()),
        Bound::Unbounded => push_two(out, '[', '*'),
    }
}

fn push_upper(out: &mut Text, bound: &Bound) -> Result<(), AllocError>
    ensures { OnOk result (Writes out.old out.new (printed_upper (bound_of bound.now))) }
{
    match bound {
        Bound::Inclusive(text) => push_behind(out, text.as_str(), ']'),
        Bound::Exclusive(text) => push_behind(out, text.as_str(), '}'),
        Bound::Unbounded => push_two(out, '*', ']'),
    }
}

fn push_element(out: &mut Text, text: &Text) -> Result<(), AllocError>
    ensures { OnOk result (Writes out.old out.new (codes " " ++ printed_text (chars text.now))) }
{
    push_char(out, ' ')?;
    push_text(out, text)?;
    Ok(())
}

fn push_more_elements(out: &mut Text, texts: &[Text]) -> Result<(), AllocError>
    ensures { OnOk result (Writes out.old out.new (more_elements (map chars texts.now))) }
{
    for text in texts {
        push_element(out, text)?;
    }
    Ok(())
}

fn push_first_element(out: &mut Text, first: &Text, others: &[Text]) -> Result<(), AllocError>
    ensures { OnOk result (Writes out.old out.new (printed_elements (map chars (first.now ∷ others.now)))) }
{
    push_text(out, first)?;
    push_more_elements(out, others)?;
    Ok(())
}

fn push_elements(out: &mut Text, texts: &[Text]) -> Result<(), AllocError>
    ensures { OnOk result (Writes out.old out.new (printed_elements (map chars texts.now))) }
{
    match texts.split_first() {
        None => Ok(()),
        Some((first, others)) => push_first_element(out, first, others),
    }
}

// Pushes ASCII text.
fn push_word(out: &mut Text, word: &str) -> Result<(), AllocError>
    requires { IsAscii word.now }
    ensures { OnOk result (Writes out.old out.new word.now) }
{
    out.push_str(word)?;
    Ok(())
}

fn push_term(out: &mut Text, field: &Text, text: &Text) -> Result<(), AllocError>
    ensures { OnOk result (Prints out.old out.new (Term (chars field.now) (chars text.now))) }
{
    push_field(out, field)?;
    push_text(out, text)?;
    Ok(())
}

fn push_prefix(out: &mut Text, field: &Text, text: &Text) -> Result<(), AllocError>
    ensures { OnOk result (Prints out.old out.new (Prefix (chars field.now) (chars text.now))) }
{
    push_field(out, field)?;
    push_text(out, text)?;
    push_char(out, '*')?;
    Ok(())
}

fn push_range(out: &mut Text, field: &Text, lower: &Bound, upper: &Bound) -> Result<(), AllocError>
    ensures { OnOk result (Prints out.old out.new (Range (chars field.now) (bound_of lower.now) (bound_of upper.now))) }
{
    push_field(out, field)?;
    push_lower(out, lower)?;
    push_word(out, " TO ")?;
    push_upper(out, upper)?;
    Ok(())
}

fn push_set(out: &mut Text, field: &Text, texts: &[Text]) -> Result<(), AllocError>
    ensures { OnOk result (Prints out.old out.new (Set (chars field.now) (map chars texts.now))) }
{
    push_field(out, field)?;
    push_word(out, "IN [")?;
    push_elements(out, texts)?;
    push_char(out, ']')?;
    Ok(())
}

fn push_exists(out: &mut Text, field: &Text) -> Result<(), AllocError>
    ensures { OnOk result (Prints out.old out.new (Exists (chars field.now))) }
{
    push_field(out, field)?;
    push_char(out, '*')?;
    Ok(())
}

#[cycle(printing)]
fn push_expr(out: &mut Text, expr: &Expr) -> Result<(), AllocError>
    ensures { OnOk result (Prints out.old out.new (expression_of expr.now)) }
{
    match expr {
        Expr::Term(field, text) => push_term(out, field, text),
        Expr::Prefix(field, text) => push_prefix(out, field, text),
        Expr::Range(field, lower, upper) => push_range(out, field, lower, upper),
        Expr::Set(field, texts) => push_set(out, field, texts.as_slice()),
        Expr::Exists(field) => push_exists(out, field),
        Expr::Not(inner) => push_not(out, inner),
        Expr::And(left, right) => push_and(out, left, right),
        Expr::Or(left, right) => push_or(out, left, right),
    }
}

#[cycle(printing)]
fn push_not(out: &mut Text, inner: &Expr) -> Result<(), AllocError>
    ensures { OnOk result (Prints out.old out.new (Not (expression_of inner.now))) }
{
    push_word(out, "NOT ")?;
    push_under_not(out, inner)?;
    Ok(())
}

#[cycle(printing)]
fn push_and(out: &mut Text, left: &Expr, right: &Expr) -> Result<(), AllocError>
    ensures { OnOk result (Prints out.old out.new (And (expression_of left.now) (expression_of right.now))) }
{
    push_under_and(out, left)?;
    push_word(out, " AND ")?;
    push_under_and(out, right)?;
    Ok(())
}

#[cycle(printing)]
fn push_or(out: &mut Text, left: &Expr, right: &Expr) -> Result<(), AllocError>
    ensures { OnOk result (Prints out.old out.new (Or (expression_of left.now) (expression_of right.now))) }
{
    push_expr(out, left)?;
    push_word(out, " OR ")?;
    push_expr(out, right)?;
    Ok(())
}

#[cycle(printing)]
fn push_enclosed(out: &mut Text, expr: &Expr) -> Result<(), AllocError>
    ensures { OnOk result (Writes out.old out.new (in_parentheses (printed (expression_of expr.now)))) }
{
    push_char(out, '(')?;
    push_expr(out, expr)?;
    push_char(out, ')')?;
    Ok(())
}

#[cycle(printing)]
fn push_under_and(out: &mut Text, expr: &Expr) -> Result<(), AllocError>
    ensures { OnOk result (Writes out.old out.new (printed_under_and (expression_of expr.now))) }
{
    match expr {
        Expr::Or(..) => push_enclosed(out, expr),
        _ => push_expr(out, expr),
    }
}

#[cycle(printing)]
fn push_under_not(out: &mut Text, expr: &Expr) -> Result<(), AllocError>
    ensures { OnOk result (Writes out.old out.new (printed_under_not (expression_of expr.now))) }
{
    match expr {
        Expr::Or(..) | Expr::And(..) => push_enclosed(out, expr),
        _ => push_expr(out, expr),
    }
}

/// The text of the expression, as the grammar of queries reads it. Parentheses stand only where they are needed.
#[tactic(auto, unfolding(query_tree::specs::Printing::print))]
pub fn print_expr(alloc: Global, expr: &Expr) -> Result<Text, AllocError>
    ensures { IfOk result (λ text. text ≡ print (expression_of expr.now)) }
{
    let mut out = Text::new(alloc);
    push_expr(&mut out, expr)?;
    Ok(out)
}
