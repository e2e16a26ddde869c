// The JSON of trees.
ghost use Rattle.std.specs.Prelude.{◌≡◌, ◌++◌, map, IfOk, OnOk};
ghost use Rattle.query_tree.specs.Json as spec;
ghost use Rattle.query_json.specs.Pieces.{pair_json};

use crate::leaves::push_leaf;
use crate::texts::{push_comma, push_decimal, push_mark};
use owned_bytes::Text;
use query_tree::{Occur, UserInputAst};
use std::alloc::{AllocError, Global};

/// The JSON of a tree, without blanks.
///
/// A clause is `{"type":"bool","clauses":[[MARK,TREE],..]}`, where a mark is `null`, `"should"`,
/// `"must"` or `"must_not"`; a boost is `{"type":"boost","underlying":TREE,"boost":NUMBER}`, and a
/// leaf an object of its kind. Texts are written as `serde_json` writes them.
pub fn to_json(alloc: Global, ast: &UserInputAst) -> Result<Text, AllocError>
    ensures { IfOk result (λ t. t ≡ spec.json_text ast.now) }
{
    let mut out = Text::new(alloc);
    push_tree(alloc, &mut out, ast)?;
    Ok(out)
}

#[cycle(writing)]
fn push_tree(alloc: Global, out: &mut Text, tree: &UserInputAst) -> Result<(), AllocError>
    ensures { OnOk result (out.new ≡ out.old ++ spec.json_text tree.now) }
{
    match tree {
        UserInputAst::Clause(pairs) => {
            out.push_str("{\"type\":\"bool\",\"clauses\":[")?;
            push_pairs(alloc, out, pairs.as_slice())?;
            out.push_str("]}")
        }
        UserInputAst::Boost(tree, factor) => {
            out.push_str("{\"type\":\"boost\",\"underlying\":")?;
            push_tree(alloc, out, tree.get())?;
            out.push_str(",\"boost\":")?;
            push_decimal(out, factor)?;
            out.push_str("}")
        }
        UserInputAst::Leaf(leaf) => push_leaf(alloc, out, leaf.get()),
    }
}

#[cycle(writing)]
fn push_pairs(
    alloc: Global,
    out: &mut Text,
    pairs: &[(Option<Occur>, UserInputAst)],
) -> Result<(), AllocError>
    ensures { OnOk result (out.new ≡ out.old ++ spec.commas (map pair_json pairs.now)) }
{
    for (written, pair) in pairs.iter().enumerate() {
        push_comma(out, written)?;
        out.push_str("[")?;
        push_mark(out, pair.0)?;
        out.push_str(",")?;
        push_tree(alloc, out, &pair.1)?;
        out.push_str("]")?;
    }
    Ok(())
}
