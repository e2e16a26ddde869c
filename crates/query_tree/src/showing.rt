// The debug text of a tree.
ghost use Rattle.std.specs.Prelude.{map};
ghost use Rattle.std.specs.List.{join_with_byte};
ghost use Rattle.std.specs.Fmt.{WritesOnOk};
ghost use Rattle.query_tree.specs.Texts as texts;

use crate::decimal::Decimal;
use crate::tree::{
    Delimiter, Occur, UserInputAst, UserInputBound, UserInputLeaf, UserInputLiteral,
};
use owned_bytes::Text;
use std::fmt::{self, Debug};

type Pair = (Option<Occur>, UserInputAst);

// In front of a leaf that has a field.
fn show_field<W: fmt::Write>(field: &Option<Text>, f: &mut fmt::Formatter<W>) -> fmt::Result
    ensures { WritesOnOk W.write_str_gives f.old result (texts.field_text field.now) f.new }
{
    match field {
        Some(field) => write!(f, "\"{}\":", field.as_str()),
        None => Ok(()),
    }
}

fn show_mark<W: fmt::Write>(mark: Option<Occur>, f: &mut fmt::Formatter<W>) -> fmt::Result
    ensures { WritesOnOk W.write_str_gives f.old result (texts.mark_text mark) f.new }
{
    match mark {
        None => f.write_str("*"),
        Some(Occur::Should) => f.write_str("?"),
        Some(Occur::Must) => f.write_str("+"),
        Some(Occur::MustNot) => f.write_str("-"),
    }
}

fn show_delimited<W: fmt::Write>(
    delimiter: Delimiter,
    phrase: &Text,
    f: &mut fmt::Formatter<W>,
) -> fmt::Result
    ensures { WritesOnOk W.write_str_gives f.old result (texts.delimited_text delimiter phrase.now) f.new }
{
    match delimiter {
        Delimiter::SingleQuotes => write!(f, "'{}'", phrase.as_str()),
        Delimiter::DoubleQuotes => write!(f, "\"{}\"", phrase.as_str()),
        Delimiter::None => f.write_str(phrase.as_str()),
    }
}

fn show_end<W: fmt::Write>(slop: u32, prefix: bool, f: &mut fmt::Formatter<W>) -> fmt::Result
    ensures { WritesOnOk W.write_str_gives f.old result (texts.end_text slop prefix) f.new }
{
    if slop > 0 {
        write!(f, "~{slop}")
    } else if prefix {
        f.write_str("*")
    } else {
        Ok(())
    }
}

fn show_lower<W: fmt::Write>(lower: &UserInputBound, f: &mut fmt::Formatter<W>) -> fmt::Result
    ensures { WritesOnOk W.write_str_gives f.old result (texts.lower_text lower.now) f.new }
{
    match lower {
        UserInputBound::Inclusive(text) => write!(f, "[\"{}\"", text.as_str()),
        UserInputBound::Exclusive(text) => write!(f, "{{\"{}\"", text.as_str()),
        UserInputBound::Unbounded => f.write_str("{\"*\""),
    }
}

fn show_upper<W: fmt::Write>(upper: &UserInputBound, f: &mut fmt::Formatter<W>) -> fmt::Result
    ensures { WritesOnOk W.write_str_gives f.old result (texts.upper_text upper.now) f.new }
{
    match upper {
        UserInputBound::Inclusive(text) => write!(f, "\"{}\"]", text.as_str()),
        UserInputBound::Exclusive(text) => write!(f, "\"{}\"}}", text.as_str()),
        UserInputBound::Unbounded => f.write_str("\"*\"}"),
    }
}

fn show_gap<W: fmt::Write>(field: &Option<Text>, f: &mut fmt::Formatter<W>) -> fmt::Result
    ensures { WritesOnOk W.write_str_gives f.old result (texts.set_gap field.now) f.new }
{
    match field {
        Some(_) => f.write_str(" "),
        None => Ok(()),
    }
}

// A blank in front of all but the first.
fn show_blank<W: fmt::Write>(shown: usize, f: &mut fmt::Formatter<W>) -> fmt::Result
    ensures { WritesOnOk W.write_str_gives f.old result (texts.gap shown) f.new }
{
    if shown == 0 { Ok(()) } else { f.write_str(" ") }
}

fn show_elements<W: fmt::Write>(elements: &[Text], f: &mut fmt::Formatter<W>) -> fmt::Result
    ensures { WritesOnOk W.write_str_gives f.old result (join_with_byte 32 (map texts.in_quotes elements.now)) f.new }
{
    for (shown, element) in elements.iter().enumerate() {
        show_blank(shown, f)?;
        write!(f, "\"{}\"", element.as_str())?;
    }
    Ok(())
}

impl Debug for UserInputLiteral {
    ghost use Rattle.std.specs.Prelude.{Some};
    ghost use Rattle.query_tree.specs.Texts.{literal_text};

    ghost debug_output = { λ literal. Some (literal_text literal) };

    fn fmt<W: fmt::Write>(&self, f: &mut fmt::Formatter<W>) -> fmt::Result {
        show_field(&self.field_name, f)?;
        show_delimited(self.delimiter, &self.phrase, f)?;
        show_end(self.slop, self.prefix, f)
    }
}

fn show_range<W: fmt::Write>(
    field: &Option<Text>,
    lower: &UserInputBound,
    upper: &UserInputBound,
    f: &mut fmt::Formatter<W>,
) -> fmt::Result
    ensures { WritesOnOk W.write_str_gives f.old result (texts.range_text field.now lower.now upper.now) f.new }
{
    show_field(field, f)?;
    show_lower(lower, f)?;
    f.write_str(" TO ")?;
    show_upper(upper, f)
}

fn show_set<W: fmt::Write>(
    field: &Option<Text>,
    elements: &[Text],
    f: &mut fmt::Formatter<W>,
) -> fmt::Result
    ensures { WritesOnOk W.write_str_gives f.old result (texts.set_text field.now elements.now) f.new }
{
    show_field(field, f)?;
    show_gap(field, f)?;
    f.write_str("IN [")?;
    show_elements(elements, f)?;
    f.write_str("]")
}

fn show_regex<W: fmt::Write>(
    field: &Option<Text>,
    pattern: &Text,
    f: &mut fmt::Formatter<W>,
) -> fmt::Result
    ensures { WritesOnOk W.write_str_gives f.old result (texts.regex_text field.now pattern.now) f.new }
{
    show_field(field, f)?;
    write!(f, "/{}/", pattern.as_str())
}

impl Debug for UserInputLeaf {
    ghost use Rattle.std.specs.Prelude.{Some};
    ghost use Rattle.query_tree.specs.Texts.{leaf_text};

    ghost debug_output = { λ leaf. Some (leaf_text leaf) };

    #[tactic(auto, unfolding(crate::specs::Texts::leaf_text))]
    fn fmt<W: fmt::Write>(&self, f: &mut fmt::Formatter<W>) -> fmt::Result {
        match self {
            UserInputLeaf::Literal(literal) => literal.fmt(f),
            UserInputLeaf::All => f.write_str("*"),
            UserInputLeaf::Range {
                field,
                lower,
                upper,
            } => show_range(field, lower, upper, f),
            UserInputLeaf::Set { field, elements } => show_set(field, elements.as_slice(), f),
            UserInputLeaf::Exists { field } => write!(f, "$exists(\"{}\")", field.as_str()),
            UserInputLeaf::Regex { field, pattern } => show_regex(field, pattern, f),
        }
    }
}

fn show_number<W: fmt::Write>(number: &Decimal, f: &mut fmt::Formatter<W>) -> fmt::Result
    ensures { WritesOnOk W.write_str_gives f.old result (texts.decimal_text number.now.whole number.now.fraction) f.new }
{
    if number.fraction().is_empty() {
        f.write_str(number.whole())
    } else {
        write!(f, "{}.{}", number.whole(), number.fraction())
    }
}

impl Debug for UserInputAst {
    ghost use Rattle.std.specs.Prelude.{Some};
    ghost use Rattle.query_tree.specs.Texts.{debug_text};

    ghost debug_output = { λ tree. Some (debug_text tree) };

    #[cycle(showing)]
    fn fmt<W: fmt::Write>(&self, f: &mut fmt::Formatter<W>) -> fmt::Result {
        match self {
            UserInputAst::Clause(pairs) => {
                if pairs.is_empty() {
                    return f.write_str("<emptyclause>");
                }
                f.write_str("(")?;
                show_pairs(pairs.as_slice(), f)?;
                f.write_str(")")
            }
            UserInputAst::Boost(tree, factor) => {
                write!(f, "({:?})^", tree.get())?;
                show_number(factor, f)
            }
            UserInputAst::Leaf(leaf) => leaf.get().fmt(f),
        }
    }
}

#[cycle(showing)]
fn show_pairs<W: fmt::Write>(pairs: &[Pair], f: &mut fmt::Formatter<W>) -> fmt::Result
    ensures { WritesOnOk W.write_str_gives f.old result (join_with_byte 32 (map texts.whole_pair pairs.now)) f.new }
{
    for (shown, pair) in pairs.iter().enumerate() {
        show_blank(shown, f)?;
        show_mark(pair.0, f)?;
        pair.1.fmt(f)?;
    }
    Ok(())
}
