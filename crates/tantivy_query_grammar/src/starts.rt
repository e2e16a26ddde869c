// Where fields start, found in one pass from the end of a query.
ghost use Rattle.std.specs.Prelude.{◌≡◌, ℕ, List, ◌∷◌, IfOk};
ghost use Rattle.tantivy_query_grammar.specs.FieldStarts.{field_starts, opens, closes, has_colon};
ghost use Rattle.tantivy_query_grammar.specs.Ahead.{ahead_of};

use crate::classes::Class;
use std::alloc::{AllocError, Global};

/// What stands behind a character.
#[derive(Clone, Copy)]
pub struct Ahead {
    /// The rest of a field and its colon.
    pub closes: bool,
    /// The same one character later.
    pub closes_later: bool,
    /// A character that a backslash may stand in front of.
    pub special: bool,
    /// A colon behind spaces.
    pub colon: bool,
}

#[tactic(auto, unfolding(crate::specs::FieldStarts::opens))]
fn starts_field(c: char, ahead: Ahead) -> bool
    ensures { (rest : List ℕ) → ahead ≡ ahead_of rest → result ≡ opens c rest }
{
    if Class::FieldFirst.has(c) {
        ahead.closes
    } else {
        c == '\\' && ahead.special && ahead.closes_later
    }
}

fn closes_field(c: char, ahead: Ahead) -> bool
    ensures { (rest : List ℕ) → ahead ≡ ahead_of rest → result ≡ closes (c ∷ rest) }
{
    if Class::Field.has(c) {
        ahead.closes
    } else if c == '\\' {
        if ahead.special {
            ahead.closes_later
        } else {
            ahead.closes
        }
    } else {
        colon_from(c, ahead)
    }
}

fn colon_from(c: char, ahead: Ahead) -> bool
    ensures { (rest : List ℕ) → ahead ≡ ahead_of rest → result ≡ has_colon (c ∷ rest) }
{
    if Class::Space.has(c) {
        ahead.colon
    } else {
        c == ':'
    }
}

// What stands behind the character before this one.
fn from(c: char, ahead: Ahead) -> Ahead
    ensures { (rest : List ℕ) → ahead ≡ ahead_of rest → result ≡ ahead_of (c ∷ rest) }
{
    Ahead {
        closes: closes_field(c, ahead),
        closes_later: ahead.closes,
        special: Class::Special.has(c),
        colon: colon_from(c, ahead),
    }
}

/// For each character, whether a field with its colon starts there.
#[tactic(auto, using(crate::proofs::Fields::starts_turn, crate::proofs::Fields::from_turn))]
pub fn starts_of(alloc: Global, text: &[char]) -> Result<Vec<bool>, AllocError>
    ensures { IfOk result (λ starts. starts.items ≡ field_starts text.now) }
{
    let mut starts = vec![in alloc; false; text.len()]?;
    let mut ahead = Ahead {
        closes: false,
        closes_later: false,
        special: false,
        colon: false,
    };
    let mut at = text.len();
    while at > 0 {
        at -= 1;
        let c = text[at];
        starts[at] = starts_field(c, ahead);
        ahead = from(c, ahead);
    }
    Ok(starts)
}
