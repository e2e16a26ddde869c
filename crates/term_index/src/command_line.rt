// The commands, and the words that are one.
ghost use Rattle.std.specs.Prelude.{◌≡◌, ◌≢◌, ◌∷◌, [], ℕ, List, codes, decimal, IfNone, IfSome, IsTrue, ◌↔◌};
ghost use Rattle.term_index.specs.Shown.{Parses, ParsesNumber};

use crate::Word;
use itoa::Buffer;

/// The most pages that `build` takes.
pub const MAX_PAGES: u32 = 4096;

/// The most documents that `gen` makes.
pub const MAX_COUNT: u64 = 100_000;

/// What the words of a command line ask for.
#[derive(Clone, Copy)]
pub enum Command<'a> {
    Build {
        path: &'a str,
        pages: u32,
    },
    Search {
        path: &'a str,
        field: &'a str,
        query: &'a str,
    },
    Ask {
        field: &'a str,
        query: &'a str,
    },
    Tree {
        query: &'a str,
    },
    Generate {
        seed: u64,
        count: u64,
    },
}

// The word is the number in decimal.
fn is_text_of(number: u64, word: &str) -> bool
    ensures { IsTrue result ↔ (word.now ≡ decimal number) }
{
    let mut buffer = Buffer::new();
    word == buffer.format(number)
}

// The number of which the word is the decimal text.
fn number_of(word: &str) -> Option<u64>
    ensures { ParsesNumber word.now result }
{
    match word.parse::<u64>() {
        Ok(number) => {
            if is_text_of(number, word) {
                Some(number)
            } else {
                None
            }
        }
        Err(_) => None,
    }
}

// The word, where there is one.
fn one_word(words: &[Word]) -> Option<&str>
    ensures none { IfNone result ((a : List ℕ) → words.now ≢ a ∷ []) }
    ensures some { IfSome result (λ word. words.now ≡ word.now ∷ []) }
{
    match words {
        [word] => Some(word.as_str()),
        _ => None,
    }
}

// The words, where there are two.
fn two_words(words: &[Word]) -> Option<(&str, &str)>
    ensures none { IfNone result ((a b : List ℕ) → words.now ≢ a ∷ b ∷ []) }
    ensures some { IfSome result (λ parts. words.now ≡ parts.0.now ∷ parts.1.now ∷ []) }
{
    match words {
        [first, second] => Some((first.as_str(), second.as_str())),
        _ => None,
    }
}

// The words, where there are three.
fn three_words(words: &[Word]) -> Option<(&str, &str, &str)>
    ensures none { IfNone result ((a b c : List ℕ) → words.now ≢ a ∷ b ∷ c ∷ []) }
    ensures some { IfSome result (λ parts. words.now ≡ parts.0.now ∷ parts.1.now ∷ parts.2.now ∷ []) }
{
    match words {
        [first, second, third] => Some((first.as_str(), second.as_str(), third.as_str())),
        _ => None,
    }
}

// `build PATH PAGES`, behind its first word.
fn build_of(rest: &[Word]) -> Option<Command<'_>>
    ensures { Parses (codes "build" ∷ rest.now) result }
{
    let Some((path, pages)) = two_words(rest) else {
        return None;
    };
    let Some(pages) = number_of(pages) else {
        return None;
    };
    if path.is_empty() {
        return None;
    }
    if pages == 0 {
        return None;
    }
    if pages > MAX_PAGES as u64 {
        return None;
    }
    Some(Command::Build {
        path,
        pages: pages as u32,
    })
}

// `search PATH FIELD QUERY`, behind its first word.
fn search_of(rest: &[Word]) -> Option<Command<'_>>
    ensures { Parses (codes "search" ∷ rest.now) result }
{
    match three_words(rest) {
        Some((path, field, query)) if !path.is_empty() => Some(Command::Search {
            path,
            field,
            query,
        }),
        _ => None,
    }
}

// `ask FIELD QUERY`, behind its first word.
fn ask_of(rest: &[Word]) -> Option<Command<'_>>
    ensures { Parses (codes "ask" ∷ rest.now) result }
{
    match two_words(rest) {
        Some((field, query)) => Some(Command::Ask { field, query }),
        None => None,
    }
}

// `tree QUERY`, behind its first word.
fn tree_of(rest: &[Word]) -> Option<Command<'_>>
    ensures { Parses (codes "tree" ∷ rest.now) result }
{
    match one_word(rest) {
        Some(query) => Some(Command::Tree { query }),
        None => None,
    }
}

// `gen SEED COUNT`, behind its first word.
fn generate_of(rest: &[Word]) -> Option<Command<'_>>
    ensures { Parses (codes "gen" ∷ rest.now) result }
{
    let Some((seed, count)) = two_words(rest) else {
        return None;
    };
    let Some(seed) = number_of(seed) else {
        return None;
    };
    let Some(count) = number_of(count) else {
        return None;
    };
    if count > MAX_COUNT {
        return None;
    }
    Some(Command::Generate { seed, count })
}

// The command of this name, with the words behind it.
fn named<'a>(name: &str, rest: &'a [Word]) -> Option<Command<'a>>
    ensures { Parses (name.now ∷ rest.now) result }
{
    if name == "build" {
        build_of(rest)
    } else if name == "search" {
        search_of(rest)
    } else if name == "ask" {
        ask_of(rest)
    } else if name == "tree" {
        tree_of(rest)
    } else if name == "gen" {
        generate_of(rest)
    } else {
        None
    }
}

/// The command whose form the words are.
pub fn command_of(words: &[Word]) -> Option<Command<'_>>
    ensures { Parses words.now result }
{
    match words {
        [name, rest @ ..] => named(name.as_str(), rest),
        [] => None,
    }
}
