// Characters of a class, and pieces of texts.
ghost use Rattle.std.specs.Prelude.{◌≡◌, ◌++◌, OnOk};
ghost use Rattle.query_tree.specs.Reader as reader;
ghost use Rattle.query_tree.specs.Reader.{◌or◌};
ghost use Rattle.tantivy_query_grammar.specs.declared.reading.Kind.TheVariants as kind;
ghost use Rattle.query_tree.specs.Grammar.{started as started_by, pair as pair_in, pair_word};
ghost use Rattle.tantivy_query_grammar.specs.Classes.{test_of};
ghost use Rattle.tantivy_query_grammar.specs.Pieces.{piece_of, piece_text, plain_piece, escaped_piece, GetsPiece};
ghost use Rattle.tantivy_query_grammar.specs.Gives.{Reads, Gives, Gets, with_front};

use crate::classes::{Class, is_escaped};
use crate::cursor::Cursor;
use crate::stop::Stop;
use owned_bytes::Text;
use std::alloc::{AllocError, Global};

/// One character of the class.
#[tactic(auto, unfolding(query_tree::specs::Reader::one))]
pub fn one(at: Cursor, class: Class) -> Option<(char, Cursor)>
    ensures { Gets (λ x. (x.0, x.1.text.now)) result (reader.one (test_of class) at.entry.text.now) }
{
    let (first, text) = at.text.split_first()?;
    let (_, starts) = at.starts.split_first()?;
    if class.has(*first) {
        Some((*first, Cursor { text, starts }))
    } else {
        None
    }
}

/// The end of the text, or a character of the class.
#[tactic(auto, unfolding(query_tree::specs::Reader::is_before))]
pub fn is_before(at: Cursor, class: Class) -> bool
    ensures { result ≡ reader.is_before (test_of class) at.entry.text.now }
{
    match at.text.first() {
        None => true,
        Some(next) => class.has(*next),
    }
}

/// A backslash and a character of the class.
pub fn pair(at: Cursor, class: Class) -> Option<(char, Cursor)>
    ensures { Gets (λ x. (x.0, x.1.text.now)) result (pair_in (test_of class) at.entry.text.now) }
{
    let (_, rest) = one(at, Class::Is('\\'))?;
    one(rest, class)
}

/// What a text has next, and how it is spelled.
#[derive(Clone, Copy)]
pub enum Kind {
    Quoted(char),
    Digit,
    Field,
    FieldFirst,
    Regex,
    Bound,
    BoundFirst,
    Word,
    WordFirst,
}

/// A character, with a backslash in front where that is kept.
#[derive(Clone, Copy)]
pub struct Piece {
    pub has_backslash: bool,
    pub character: char,
}

fn plain(at: Cursor, class: Class) -> Option<(Piece, Cursor)>
    ensures { GetsPiece result (plain_piece class at.entry.text.now) }
{
    let (character, rest) = one(at, class)?;
    Some((
        Piece {
            has_backslash: false,
            character,
        },
        rest,
    ))
}

fn escaped(at: Cursor, class: Class) -> Option<(Piece, Cursor)>
    ensures { GetsPiece result (escaped_piece class at.entry.text.now) }
{
    let (character, rest) = pair(at, class)?;
    Some((
        Piece {
            has_backslash: false,
            character,
        },
        rest,
    ))
}

// The character alone where it is white, escaped or a minus, else both.
#[tactic(auto, unfolding(query_tree::specs::Characters::is_unescaped_in_word))]
fn pair_in_word(at: Cursor) -> Option<(Piece, Cursor)>
    ensures { GetsPiece result (pair_word at.entry.text.now) }
{
    let (character, rest) = pair(at, Class::Any)?;
    let is_unescaped = character.is_whitespace() || is_escaped(character) || character == '-';
    Some((
        Piece {
            has_backslash: !is_unescaped,
            character,
        },
        rest,
    ))
}

// A backslash and a character of the first class, or a character of the second.
fn escaped_or_plain(at: Cursor, marked: Class, bare: Class) -> Option<(Piece, Cursor)>
    ensures { GetsPiece result ((escaped_piece marked or plain_piece bare) at.entry.text.now) }
{
    match escaped(at, marked) {
        None => plain(at, bare),
        found => found,
    }
}

// A character of the first class, or a backslash and a character of the second.
fn plain_or_escaped(at: Cursor, bare: Class, marked: Class) -> Option<(Piece, Cursor)>
    ensures { GetsPiece result ((plain_piece bare or escaped_piece marked) at.entry.text.now) }
{
    match plain(at, bare) {
        None => escaped(at, marked),
        found => found,
    }
}

fn field_piece(at: Cursor) -> Option<(Piece, Cursor)>
    ensures { GetsPiece result (piece_of kind.Field at.entry.text.now) }
{
    match plain_or_escaped(at, Class::Field, Class::Special) {
        None => plain(at, Class::Is('\\')),
        found => found,
    }
}

fn word_piece(at: Cursor, class: Class) -> Option<(Piece, Cursor)>
    ensures { GetsPiece result ((pair_word or plain_piece class) at.entry.text.now) }
{
    match pair_in_word(at) {
        None => plain(at, class),
        found => found,
    }
}

/// The next piece of a text of the kind.
pub fn next_piece(kind: Kind, at: Cursor) -> Option<(Piece, Cursor)>
    ensures { GetsPiece result (piece_of kind at.entry.text.now) }
{
    match kind {
        Kind::Quoted(quote) => escaped_or_plain(at, Class::Any, Class::Not(quote)),
        Kind::Digit => plain(at, Class::Digit),
        Kind::Field => field_piece(at),
        Kind::FieldFirst => plain_or_escaped(at, Class::FieldFirst, Class::Special),
        Kind::Regex => escaped_or_plain(at, Class::Is('/'), Class::Not('/')),
        Kind::Bound => plain(at, Class::Bound),
        Kind::BoundFirst => plain(at, Class::BoundFirst),
        Kind::Word => word_piece(at, Class::Word),
        Kind::WordFirst => word_piece(at, Class::WordFirst),
    }
}

fn push_piece(found: &mut Text, piece: Piece) -> Result<(), AllocError>
    ensures { OnOk result (found.new ≡ found.old ++ piece_text piece) }
{
    if piece.has_backslash {
        found.push('\\')?;
    }
    found.push(piece.character)
}

/// The pieces of the kind that come next, behind what was found before.
#[tactic(auto, using(crate::proofs::Loops::joined_turn, crate::proofs::Loops::front_stops, crate::proofs::Loops::front_ends))]
pub fn joined(mut found: Text, kind: Kind, at: Cursor) -> Result<(Text, Cursor), Stop>
    ensures { Reads result (with_front found (reader.joined (piece_of kind) at.entry.text.now)) }
{
    let mut rest = at;
    for _turn in 0..at.text.len() {
        let Some((next, after)) = next_piece(kind, rest) else {
            break;
        };
        push_piece(&mut found, next)?;
        rest = after;
    }
    Ok((found, rest))
}

/// The characters of the class that come next are passed over.
#[tactic(auto, using(crate::proofs::Loops::skip_goes_on, crate::proofs::Loops::skip_stops, crate::proofs::Loops::one_shortens))]
pub fn skip(at: Cursor, class: Class) -> Cursor
    ensures { reader.skip (test_of class) at.entry.text.now ≡ result.text.now }
{
    let mut rest = at;
    while let Some((_, after)) = one(rest, class) {
        rest = after;
    }
    rest
}

/// A first piece, and then as many others as there are.
#[tactic(auto, unfolding(crate::specs::Gives::with_front))]
pub fn started(alloc: Global, first: Kind, other: Kind, at: Cursor) -> Result<(Text, Cursor), Stop>
    ensures { Reads result (started_by (piece_of first) (piece_of other) at.entry.text.now) }
{
    let Some((piece, rest)) = next_piece(first, at) else {
        return Err(Stop::Failed);
    };
    let mut found = Text::new(alloc);
    push_piece(&mut found, piece)?;
    joined(found, other, rest)
}

/// What stands behind one character of the class.
pub fn after(at: Cursor, class: Class) -> Option<Cursor>
    ensures { Gets (λ x. (tt, x.text.now)) result (reader.taken (test_of class) at.entry.text.now) }
{
    let (_, rest) = one(at, class)?;
    Some(rest)
}

/// The same, or a failure.
pub fn take(at: Cursor, class: Class) -> Result<Cursor, Stop>
    ensures { Gives (λ x. (tt, x.text.now)) result (reader.taken (test_of class) at.entry.text.now) }
{
    after(at, class).ok_or(Stop::Failed)
}

/// What stands behind these characters.
#[tactic(auto, unfolding(query_tree::specs::Reader::tag))]
pub fn after_tag<'a>(at: Cursor<'a>, word: &[char]) -> Option<Cursor<'a>>
    ensures { Gets (λ x. (tt, x.text.now)) result (reader.tag word.now at.entry.text.now) }
{
    match word {
        [] => Some(at),
        [first, others @ ..] => after_tag(after(at, Class::Is(*first))?, others),
    }
}

/// The same, or a failure.
pub fn tag<'a>(at: Cursor<'a>, word: &[char]) -> Result<Cursor<'a>, Stop>
    ensures { Gives (λ x. (tt, x.text.now)) result (reader.tag word.now at.entry.text.now) }
{
    after_tag(at, word).ok_or(Stop::Failed)
}
