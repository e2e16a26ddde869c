// Classes of characters.
ghost use Rattle.std.specs.Prelude.{◌≡◌};
ghost use Rattle.query_tree.specs.Characters as characters;
ghost use Rattle.tantivy_query_grammar.specs.Classes.{test_of};

/// A class of characters.
#[derive(Clone, Copy)]
pub enum Class {
    Any,
    Is(char),
    Not(char),
    Space,
    Digit,
    Special,
    AfterStar,
    AfterRegex,
    Field,
    FieldFirst,
    Word,
    WordFirst,
    Bound,
    BoundFirst,
}

#[tactic(auto, unfolding(query_tree::specs::Characters::is_space))]
fn is_space(c: char) -> bool
    ensures { result ≡ characters.is_space c }
{
    matches!(c, ' ' | '\t' | '\r' | '\n')
}

#[tactic(auto, unfolding(query_tree::specs::Characters::is_special))]
fn is_special(c: char) -> bool
    ensures { result ≡ characters.is_special c }
{
    matches!(
        c,
        '+' | '^'
            | ':'
            | '{'
            | '}'
            | '"'
            | '\''
            | '['
            | ']'
            | '('
            | ')'
            | '!'
            | '\\'
            | '*'
            | '`'
            | ' '
    )
}

/// Whether the character ends a word, where no backslash stands in front.
#[tactic(auto, unfolding(query_tree::specs::Characters::is_escaped))]
pub fn is_escaped(c: char) -> bool
    ensures { result ≡ characters.is_escaped c }
{
    matches!(
        c,
        '^' | ':' | '{' | '}' | '"' | '\'' | '[' | ']' | '(' | ')' | '\\' | '`'
    )
}

#[tactic(auto, unfolding(query_tree::specs::Characters::is_after_star))]
fn is_after_star(c: char) -> bool
    ensures { result ≡ characters.is_after_star c }
{
    is_space(c) || is_escaped(c) && c != '\\'
}

#[tactic(auto, unfolding(query_tree::specs::Characters::is_after_regex))]
fn is_after_regex(c: char) -> bool
    ensures { result ≡ characters.is_after_regex c }
{
    is_space(c) || matches!(c, ')' | '^')
}

#[tactic(auto, unfolding(query_tree::specs::Characters::is_word_character))]
fn is_word_character(c: char) -> bool
    ensures { result ≡ characters.is_word_character c }
{
    !(c.is_whitespace() || is_escaped(c))
}

#[tactic(auto, unfolding(query_tree::specs::Characters::is_bound_character))]
fn is_bound_character(c: char) -> bool
    ensures { result ≡ characters.is_bound_character c }
{
    !(c.is_whitespace() || matches!(c, '{' | '}' | '"' | '[' | ']' | '(' | ')'))
}

impl Class {
    /// Whether the character is of the class.
    #[tactic(auto, unfolding(query_tree::specs::Characters::is_field_character))]
    pub fn has(self, c: char) -> bool
        ensures { result ≡ test_of self c }
    {
        match self {
            Class::Any => true,
            Class::Is(wanted) => c == wanted,
            Class::Not(other) => c != other,
            Class::Space => is_space(c),
            Class::Digit => c.is_ascii_digit(),
            Class::Special => is_special(c),
            Class::AfterStar => is_after_star(c),
            Class::AfterRegex => is_after_regex(c),
            Class::Field => !is_special(c),
            Class::FieldFirst => !is_special(c) && c != '-',
            Class::Word => is_word_character(c),
            Class::WordFirst => is_word_character(c) && c != '-',
            Class::Bound => is_bound_character(c),
            Class::BoundFirst => is_bound_character(c) && c != '`',
        }
    }
}
