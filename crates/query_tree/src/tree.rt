// The trees of queries.
use crate::decimal::Decimal;
use owned_bytes::{Boxed, Items, Text, Texts};

/// What a tree's place in a clause asks of a document.
#[derive(Clone, Copy, Debug, PartialEq, Eq, Hash)]
pub enum Occur {
    Should,
    Must,
    MustNot,
}

/// What stood round a phrase.
#[derive(Clone, Copy, Debug, PartialEq, Eq, Hash)]
pub enum Delimiter {
    SingleQuotes,
    DoubleQuotes,
    None,
}

/// A word or a phrase. Its Debug text is the phrase in its delimiters, behind `"field":` where it
/// has a field, and then `~slop` for a slop above 0, or `*` for a prefix.
#[derive(PartialEq, Eq, Hash, Drop)]
pub struct UserInputLiteral {
    /// Where the phrase is looked for. Without one, the caller's default fields are meant.
    pub field_name: Option<Text>,
    /// The phrase without its quotes and without the backslashes that were read as escapes.
    pub phrase: Text,
    pub delimiter: Delimiter,
    /// How many moves the words of the phrase may take, the number behind `~`.
    pub slop: u32,
    /// Whether a `*` stood behind the quotes. A bare word keeps its star in the phrase instead.
    pub prefix: bool,
}

/// One end of a range.
#[derive(Debug, PartialEq, Eq, Hash, Drop)]
pub enum UserInputBound {
    Inclusive(Text),
    Exclusive(Text),
    Unbounded,
}

/// What a query asks of one field at a time.
#[derive(PartialEq, Eq, Hash, Drop)]
pub enum UserInputLeaf {
    Literal(UserInputLiteral),
    /// Every document, `*` without a field.
    All,
    /// The terms between two bounds, in the order of their bytes.
    Range {
        field: Option<Text>,
        lower: UserInputBound,
        upper: UserInputBound,
    },
    /// Any of these terms.
    Set {
        field: Option<Text>,
        elements: Texts,
    },
    /// Any term of this field, `*` behind it.
    Exists {
        field: Text,
    },
    /// The terms that a pattern matches. What the pattern means is not said here.
    Regex {
        field: Option<Text>,
        pattern: Text,
    },
}

/// Trees with their marks, in order.
pub type Clauses = Items<(Option<Occur>, UserInputAst)>;

/// The tree of a query. Its Debug text is short: `(+a ?(b)^2)`.
#[derive(PartialEq, Eq, Hash, Drop)]
pub enum UserInputAst {
    /// Trees joined by their marks. Without trees it is the empty query.
    Clause(Clauses),
    /// A tree whose score counts so many times.
    Boost(Boxed<UserInputAst>, Decimal),
    Leaf(Boxed<UserInputLeaf>),
}
