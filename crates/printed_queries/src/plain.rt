// Which expressions are plain: those whose printed text the grammar reads as the same.
ghost use Rattle.std.specs.Prelude.{◌≡◌, ◌∷◌, [], IsTrue, ◌↔◌, MatchOption, not, ◌&&◌};
ghost use Rattle.std.specs.List.{list_all};
ghost use Rattle.std.specs.Str.{chars};
ghost use Rattle.std.specs.Char.{is_ascii_digit};
ghost use Rattle.query_tree.specs.Characters as characters;
ghost use Rattle.query_tree.specs.Reader.{skip};
ghost use Rattle.printed_queries.specs.Meaning as meaning;
ghost use Rattle.printed_queries.specs.Expressions.{expression_of, bound_of};

use crate::{Bound, Expr};

fn is_plain_character(c: char) -> bool
    ensures { result ≡ meaning.is_plain_character c }
{
    !matches!(c, '\t' | '\r' | '\n')
}

#[tactic(auto, unfolding(query_tree::specs::Characters::is_bound_character))]
fn is_bound_character(c: char) -> bool
    ensures { result ≡ characters.is_bound_character c }
{
    !(c.is_whitespace() || matches!(c, '{' | '}' | '"' | '[' | ']' | '(' | ')'))
}

// The first character, and the text after it.
#[tactic(auto, using(std::proofs::lemmas::Str::chars_past_char))]
pub(crate) fn split_first(text: &str) -> Option<(char, &str)>
    ensures { MatchOption result (chars text.now ≡ []) (λ parts. chars text.now ≡ parts.0 ∷ chars parts.1.now) }
{
    let mut characters = text.chars();
    let first = characters.next()?;
    Some((first, characters.as_str()))
}

fn are_plain_characters(text: &str) -> bool
    ensures { result ≡ list_all meaning.is_plain_character (chars text.now) }
{
    text.chars().all(|c| is_plain_character(c))
}

#[tactic(auto, unfolding(crate::specs::Meaning::is_plain_field))]
fn is_plain_field(field: &str) -> bool
    ensures { result ≡ meaning.is_plain_field (chars field.now) }
{
    match split_first(field) {
        None => false,
        Some((first, _)) => first != '-' && are_plain_characters(field),
    }
}

// The text from its first character on that is no digit.
fn without_digits(text: &str) -> &str
    ensures { chars result.now ≡ skip is_ascii_digit (chars text.now) }
{
    let mut left = text;
    while let Some((first, rest)) = split_first(left) {
        if !first.is_ascii_digit() {
            return left;
        }
        left = rest;
    }
    left
}

fn holds_digits_alone(text: &str) -> bool
    ensures { result ≡ list_all is_ascii_digit (chars text.now) }
{
    text.chars().all(|c| c.is_ascii_digit())
}

#[tactic(auto, unfolding(crate::specs::Meaning::are_digits))]
fn are_digits(text: &str) -> bool
    ensures { result ≡ meaning.are_digits (chars text.now) }
{
    match split_first(text) {
        None => false,
        Some((first, rest)) => first.is_ascii_digit() && holds_digits_alone(rest),
    }
}

#[tactic(auto, unfolding(crate::specs::Meaning::is_fraction))]
fn is_fraction(text: &str) -> bool
    ensures { result ≡ meaning.is_fraction (chars text.now) }
{
    match split_first(text) {
        None => true,
        Some((first, rest)) => first == '.' && are_digits(rest),
    }
}

#[tactic(auto, unfolding(crate::specs::Meaning::is_plain_after))]
fn is_plain_after(first: char, text: &str) -> bool
    ensures { result ≡ meaning.is_plain_after first (chars text.now) }
{
    match split_first(text) {
        None => true,
        Some((second, rest)) => {
            if first == '-' && second.is_ascii_digit() {
                is_fraction(without_digits(rest))
            } else {
                true
            }
        }
    }
}

#[tactic(auto, unfolding(crate::specs::Meaning::is_star))]
fn is_star(first: char, text: &str) -> bool
    ensures { result ≡ meaning.is_star first (chars text.now) }
{
    match split_first(text) {
        None => first == '*',
        Some(_) => false,
    }
}

fn are_bound_characters(text: &str) -> bool
    ensures { result ≡ list_all characters.is_bound_character (chars text.now) }
{
    text.chars().all(|c| is_bound_character(c))
}

#[tactic(auto, unfolding(crate::specs::Meaning::is_plain_word))]
fn is_plain_word(word: &str) -> bool
    ensures { result ≡ meaning.is_plain_word (chars word.now) }
{
    match split_first(word) {
        None => false,
        Some((first, rest)) => {
            are_bound_characters(word)
                && first != '`'
                && !is_star(first, rest)
                && is_plain_after(first, rest)
        }
    }
}

#[tactic(auto, unfolding(crate::specs::Meaning::is_plain_bound))]
fn is_plain_bound(bound: &Bound) -> bool
    ensures { result ≡ meaning.is_plain_bound (bound_of bound.now) }
{
    match bound {
        Bound::Inclusive(text) | Bound::Exclusive(text) => is_plain_word(text.as_str()),
        Bound::Unbounded => true,
    }
}

/// Whether the grammar reads the printed text as this very expression: no field is empty, begins with `-` or has a tab, a line
/// feed or a carriage return, and the bounds of ranges are plain words.
#[tactic(auto, unfolding(crate::specs::Meaning::is_plain))]
pub fn is_plain(expr: &Expr) -> bool
    ensures { result ≡ meaning.is_plain (expression_of expr.now) }
{
    match expr {
        Expr::Term(field, _) | Expr::Prefix(field, _) | Expr::Set(field, _) | Expr::Exists(field) =>
            { is_plain_field(field.as_str()) }
        Expr::Range(field, lower, upper) => {
            is_plain_field(field.as_str()) && is_plain_bound(lower) && is_plain_bound(upper)
        }
        Expr::Not(inner) => is_plain(inner),
        Expr::And(left, right) | Expr::Or(left, right) => is_plain(left) && is_plain(right),
    }
}
