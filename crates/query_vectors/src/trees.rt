// Trees that are made by hand, copied, compared and shown.
ghost use Rattle.std.specs.Prelude.{◌<◌, IfOk, length};

use owned_bytes::Text;
use std::alloc::{AllocError, Global};
use std::test::Fail;
use tantivy_query_grammar::{
    Clauses, CloneClauses, Decimal, Delimiter, Error, Occur, ParseError, UserInputAst,
    UserInputBound, UserInputLeaf, UserInputLiteral, are_equal, equal_trees_hash_equally,
    parse_query, parse_to_ast, to_json,
};

fn literal(alloc: Global, phrase: &str) -> Result<UserInputLiteral, AllocError> {
    Ok(UserInputLiteral {
        field_name: None,
        phrase: Text::from_str(alloc, phrase)?,
        delimiter: Delimiter::None,
        slop: 0,
        prefix: false,
    })
}

fn word(alloc: Global, phrase: &str) -> Result<UserInputAst, AllocError> {
    UserInputAst::from_leaf(alloc, UserInputLeaf::from(literal(alloc, phrase)?))
}

fn two_words(alloc: Global) -> Result<Vec<UserInputAst>, AllocError>
    ensures { IfOk result (λ trees. 0 < length trees.items) }
{
    let mut trees = Vec::with_capacity(alloc, 2)?;
    trees.push(word(alloc, "a")?)?;
    trees.push(word(alloc, "b")?)?;
    Ok(trees)
}

fn debug(alloc: Global, tree: &UserInputAst) -> Result<String, AllocError> {
    format!(in alloc; "{tree:?}")
}

// All of two words.
fn all_of_words(alloc: Global) -> Result<String, AllocError> {
    debug(alloc, &UserInputAst::and(alloc, two_words(alloc)?)?)
}

// Any of two words.
fn any_of_words(alloc: Global) -> Result<String, AllocError> {
    debug(alloc, &UserInputAst::or(alloc, two_words(alloc)?)?)
}

// Not a word.
fn not_a_word(alloc: Global) -> Result<String, AllocError> {
    debug(alloc, &word(alloc, "a")?.unary(alloc, Occur::MustNot)?)
}

#[test]
fn trees_of_trees(rt: HostRuntime) -> Result<(), Fail> {
    let alloc = rt.alloc();
    assert_eq!(rt; all_of_words(alloc)?.as_str(), "(+a +b)");
    assert_eq!(rt; any_of_words(alloc)?.as_str(), "(?a ?b)");
    assert_eq!(rt; not_a_word(alloc)?.as_str(), "(-a)");
    let empty = debug(alloc, &UserInputAst::empty_query(alloc))?;
    assert_eq!(rt; empty.as_str(), "<emptyclause>");
    Ok(())
}

#[test]
fn both_parsers_answer_the_same(rt: HostRuntime) -> Result<(), Fail> {
    let alloc = rt.alloc();
    let tree = parse_to_ast(alloc, "+a -b")?;
    assert_eq!(rt; debug(alloc, &tree)?.as_str(), "(+a -b)");
    assert!(rt; are_equal(&tree, &parse_query(alloc, "+a  -b")?));
    assert!(rt; !are_equal(&tree, &parse_query(alloc, "+a +b")?));
    Ok(())
}

#[test]
fn copies_are_equal(rt: HostRuntime) -> Result<(), Fail> {
    let alloc = rt.alloc();
    for query in [
        "*",
        "f:[a TO b}",
        "f:IN [a b]",
        "f:*",
        "/a.c/",
        "(a^2.5 OR 'b'~3) -c",
    ] {
        let tree = parse_query(alloc, query)?;
        let copy = tree.clone(alloc)?;
        assert!(rt; copy == tree, "{query}");
        equal_trees_hash_equally(&copy, &tree);
    }
    Ok(())
}

#[test]
fn parts_are_copied(rt: HostRuntime) -> Result<(), Fail> {
    let alloc = rt.alloc();
    let bound = UserInputBound::Inclusive(Text::from_str(alloc, "a")?);
    let copy = bound.clone(alloc)?;
    assert!(rt; copy == bound);
    assert_eq!(rt; copy.term_str(), "a");
    assert_eq!(rt; UserInputBound::Unbounded.term_str(), "*");
    let leaf = UserInputLeaf::Literal(literal(alloc, "a")?.clone(alloc)?);
    assert!(rt; leaf.clone(alloc)? == leaf);
    let mut pairs = Clauses::new(alloc);
    pairs.push((Some(Occur::Must), word(alloc, "a")?))?;
    let copy = pairs.clone(alloc)?;
    assert!(rt; copy == pairs);
    assert_eq!(rt; debug(alloc, &UserInputAst::Clause(copy))?.as_str(), "(+a)");
    Ok(())
}

#[test]
fn decimals_are_trimmed(rt: HostRuntime) -> Result<(), Fail> {
    let alloc = rt.alloc();
    for (whole, fraction, wanted, behind) in [("007", "50", "7", "5"), ("00", "", "0", "")] {
        let number = Decimal::new(alloc, whole, fraction)?;
        let copy = number.clone(alloc)?;
        assert!(rt; copy == number);
        assert_eq!(rt; copy.whole(), wanted);
        assert_eq!(rt; copy.fraction(), behind);
    }
    Ok(())
}

#[test]
fn marks(rt: HostRuntime) -> Result<(), Fail> {
    let alloc = rt.alloc();
    let twice = Occur::compose(Occur::MustNot, Occur::MustNot);
    assert_eq!(rt; twice, Occur::Must);
    Occur::compose_is_associative(twice, Occur::Should, Occur::Must);
    Occur::compose_is_commutative(twice, Occur::Should);
    assert_eq!(rt; format!(in alloc; "{twice}")?.as_str(), "+");
    Ok(())
}

#[test]
fn refusals_as_texts(rt: HostRuntime) -> Result<(), Fail> {
    let alloc = rt.alloc();
    let refused = ParseError::Refused(Error);
    assert_eq!(rt;
        format!(in alloc; "{refused}")?.as_str(),
        "the query is not in the grammar"
    );
    assert!(rt; parse_query(alloc, "a)").err() == Some(refused));
    Ok(())
}

#[test]
fn a_tree_as_json(rt: HostRuntime) -> Result<(), Fail> {
    let alloc = rt.alloc();
    let json = to_json(alloc, &parse_query(alloc, "*")?)?;
    assert_eq!(rt; json.as_str(), "{\"type\":\"all\"}");
    Ok(())
}
