// Numbers, words and terms.
ghost use Rattle.std.specs.Prelude.{◌≡◌, ◌<◌, length, IfOk, IfSome};
ghost use Rattle.query_tree.specs.Reader.{Found};
ghost use Rattle.query_tree.specs.Decimals.{AreDigits};
ghost use Rattle.query_tree.specs.Grammar as grammar;
ghost use Rattle.tantivy_query_grammar.specs.Gives.{Reads, Gives};

use crate::classes::Class;
use crate::cursor::Cursor;
use crate::reading::{Kind, after, joined, skip, started, tag, take};
use crate::stop::Stop;
use owned_bytes::Text;
use query_tree::{Delimiter, UserInputLeaf, UserInputLiteral};
use std::alloc::{AllocError, Global};

/// Passes over spaces.
pub fn spaces(at: Cursor) -> Cursor
    ensures { grammar.spaces at.entry.text.now ≡ Found tt result.text.now }
{
    skip(at, Class::Space)
}

/// Passes over spaces, one at least.
pub fn some_spaces(at: Cursor) -> Result<Cursor, Stop>
    ensures { Gives (λ x. (tt, x.text.now)) result (grammar.some_spaces at.entry.text.now) }
{
    Ok(spaces(take(at, Class::Space)?))
}

/// Digits, one at least.
#[tactic(auto, unfolding(query_tree::specs::Grammar::digits))]
pub fn digits(alloc: Global, at: Cursor) -> Result<(Text, Cursor), Stop>
    ensures read { Reads result (grammar.digits at.entry.text.now) }
    ensures digits { IfOk result (λ x. AreDigits x.0) }
    ensures not_empty { IfOk result (λ x. 0 < length x.0) }
{
    started(alloc, Kind::Digit, Kind::Digit, at)
}

fn dot_and_digits(alloc: Global, at: Cursor) -> Result<(Text, Cursor), Stop>
    ensures read { Reads result (grammar.dot_and_digits at.entry.text.now) }
    ensures digits { IfOk result (λ x. AreDigits x.0) }
{
    digits(alloc, take(at, Class::Is('.'))?)
}

/// A dot and digits, or nothing.
#[tactic(auto, unfolding(query_tree::specs::Grammar::fraction))]
pub fn fraction(alloc: Global, at: Cursor) -> Result<(Option<Text>, Cursor), Stop>
    ensures read { Reads result (grammar.fraction at.entry.text.now) }
    ensures digits { IfOk result (λ x. IfSome x.0 AreDigits) }
{
    match dot_and_digits(alloc, at) {
        Ok((digits, rest)) => Ok((Some(digits), rest)),
        Err(Stop::Failed) => Ok((None, at)),
        Err(stop) => Err(stop),
    }
}

fn number_text(alloc: Global, whole: &Text, after_dot: &Option<Text>) -> Result<Text, AllocError>
    ensures { IfOk result (λ t. t ≡ grammar.negative_text whole.now after_dot.now) }
{
    let mut number = Text::new(alloc);
    number.push('-')?;
    number.push_str(whole.as_str())?;
    if let Some(digits) = after_dot {
        number.push('.')?;
        number.push_str(digits.as_str())?;
    }
    Ok(number)
}

/// A minus, digits, and a dot with digits where it is there.
#[tactic(auto, unfolding(query_tree::specs::Grammar::negative_number))]
pub fn negative_number(alloc: Global, at: Cursor) -> Result<(Text, Cursor), Stop>
    ensures { Reads result (grammar.negative_number at.entry.text.now) }
{
    let rest = take(at, Class::Is('-'))?;
    let (whole, rest) = digits(alloc, rest)?;
    let (after_dot, rest) = fraction(alloc, rest)?;
    Ok((number_text(alloc, &whole, &after_dot)?, rest))
}

// A text between two of these quotes.
#[tactic(auto, unfolding(query_tree::specs::Grammar::quoted, crate::specs::Gives::with_front))]
fn quoted(alloc: Global, quote: char, at: Cursor) -> Result<(Text, Cursor), Stop>
    ensures { Reads result (grammar.quoted quote at.entry.text.now) }
{
    let rest = take(at, Class::Is(quote))?;
    let (phrase, rest) = joined(Text::new(alloc), Kind::Quoted(quote), rest)?;
    Ok((phrase, take(rest, Class::Is(quote))?))
}

fn is_reserved(word: &str) -> bool
    ensures { result ≡ grammar.is_reserved word.now }
{
    matches!(word, "OR" | "AND" | "NOT" | "IN")
}

#[tactic(auto, unfolding(query_tree::specs::Grammar::word))]
fn word(alloc: Global, at: Cursor) -> Result<(Text, Cursor), Stop>
    ensures { Reads result (grammar.word at.entry.text.now) }
{
    let (word, rest) = started(alloc, Kind::WordFirst, Kind::Word, at)?;
    if is_reserved(word.as_str()) {
        return Err(Stop::Failed);
    }
    Ok((word, rest))
}

/// A term without its end.
#[tactic(auto, unfolding(query_tree::specs::Grammar::simple_term))]
pub fn simple_term(alloc: Global, at: Cursor) -> Result<(Delimiter, Text, Cursor), Stop>
    ensures { Gives (λ x. ((x.0, x.1), x.2.text.now)) result (grammar.simple_term at.entry.text.now) }
{
    match negative_number(alloc, at) {
        Ok((number, rest)) => return Ok((Delimiter::None, number, rest)),
        Err(Stop::Failed) => {}
        Err(stop) => return Err(stop),
    }
    match quoted(alloc, '\'', at) {
        Ok((phrase, rest)) => return Ok((Delimiter::SingleQuotes, phrase, rest)),
        Err(Stop::Failed) => {}
        Err(stop) => return Err(stop),
    }
    match quoted(alloc, '"', at) {
        Ok((phrase, rest)) => return Ok((Delimiter::DoubleQuotes, phrase, rest)),
        Err(Stop::Failed) => {}
        Err(stop) => return Err(stop),
    }
    let (word, rest) = word(alloc, at)?;
    Ok((Delimiter::None, word, rest))
}

#[tactic(auto, using(crate::proofs::Numbers::number_turn, crate::proofs::Numbers::number_grows, crate::proofs::Numbers::number_ends), unfolding(query_tree::specs::Grammar::small_number))]
fn number_of(digits: &[u8]) -> Option<u32>
    ensures { result ≡ grammar.small_number digits.now }
{
    let mut number = 0u64;
    for digit in digits {
        number = 10 * number + u64::from(digit.saturating_sub(b'0'));
        if number > 0xffff_ffff {
            return None;
        }
    }
    Some(number as u32)
}

#[tactic(auto, unfolding(query_tree::specs::Grammar::slop))]
fn slop(alloc: Global, at: Cursor) -> Result<(u32, Cursor), Stop>
    ensures { Reads result (grammar.slop at.entry.text.now) }
{
    let (digits, rest) = digits(alloc, take(at, Class::Is('~'))?)?;
    match number_of(digits.as_str().as_bytes()) {
        Some(number) => Ok((number, rest)),
        None => Err(Stop::Failed),
    }
}

// The slop, and whether a prefix is meant.
#[tactic(auto, unfolding(query_tree::specs::Grammar::term_end))]
fn term_end(alloc: Global, at: Cursor) -> Result<(u32, bool, Cursor), Stop>
    ensures { Gives (λ x. ((x.0, x.1), x.2.text.now)) result (grammar.term_end at.entry.text.now) }
{
    if let Some(rest) = after(at, Class::Is('*')) {
        return Ok((0, true, rest));
    }
    match slop(alloc, at) {
        Ok((slop, rest)) => Ok((slop, false, rest)),
        Err(Stop::Failed) => Ok((0, false, at)),
        Err(stop) => Err(stop),
    }
}

/// A word or phrase with its end, as a literal without a field.
#[tactic(auto, unfolding(query_tree::specs::Grammar::term))]
pub fn term(alloc: Global, at: Cursor) -> Result<(UserInputLeaf, Cursor), Stop>
    ensures { Reads result (grammar.term at.entry.text.now) }
{
    let (delimiter, phrase, rest) = simple_term(alloc, at)?;
    let (slop, prefix, rest) = term_end(alloc, rest)?;
    let literal = UserInputLiteral {
        field_name: None,
        phrase,
        delimiter,
        slop,
        prefix,
    };
    Ok((UserInputLeaf::Literal(literal), rest))
}
