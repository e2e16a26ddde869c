// The JSON of leaves, behind what was written before.
ghost use Rattle.std.specs.Prelude.{◌≡◌, ◌++◌, codes, map, OnOk};
ghost use Rattle.query_tree.specs.declared.tree.UserInputLeaf.TheVariants.{Range, Set, Exists, Regex};
ghost use Rattle.json.specs.Print.{quoted};
ghost use Rattle.query_tree.specs.Json as spec;
ghost use Rattle.query_json.specs.Pieces.{literal_end};

use crate::texts::{
    bool_word, delimiter_word, push_comma, push_field, push_named, push_number, push_quoted,
};
use owned_bytes::Text;
use query_tree::{UserInputBound, UserInputLeaf, UserInputLiteral};
use std::alloc::{AllocError, Global};

// A bound that has a text, with what stands before its value.
fn push_value(alloc: Global, out: &mut Text, before: &str, text: &Text) -> Result<(), AllocError>
    ensures { OnOk result (out.new ≡ ((out.old ++ before.now) ++ quoted text.now) ++ codes "}") }
{
    push_named(alloc, out, before, text.as_str())?;
    out.push_str("}")
}

#[tactic(auto, using(crate::proofs::Shapes::exclusive_shape))]
fn push_bound(alloc: Global, out: &mut Text, bound: &UserInputBound) -> Result<(), AllocError>
    ensures { OnOk result (out.new ≡ out.old ++ spec.bound_json bound.now) }
{
    match bound {
        UserInputBound::Inclusive(text) => {
            push_value(alloc, out, "{\"type\":\"inclusive\",\"value\":", text)
        }
        UserInputBound::Exclusive(text) => {
            push_value(alloc, out, "{\"type\":\"exclusive\",\"value\":", text)
        }
        UserInputBound::Unbounded => out.push_str("{\"type\":\"unbounded\"}"),
    }
}

// What stands behind the phrase of a literal.
fn push_literal_end(
    alloc: Global,
    out: &mut Text,
    literal: &UserInputLiteral,
) -> Result<(), AllocError>
    ensures { OnOk result (out.new ≡ out.old ++ literal_end literal.now) }
{
    out.push_str(",\"delimiter\":")?;
    out.push_str(delimiter_word(literal.delimiter))?;
    out.push_str(",\"slop\":")?;
    push_number(alloc, out, literal.slop)?;
    out.push_str(",\"prefix\":")?;
    out.push_str(bool_word(literal.prefix))?;
    out.push_str("}")
}

fn push_literal(alloc: Global, out: &mut Text, literal: &UserInputLiteral) -> Result<(), AllocError>
    ensures { OnOk result (out.new ≡ out.old ++ spec.literal_json literal.now) }
{
    push_field(
        alloc,
        out,
        "{\"type\":\"literal\",\"field_name\":",
        &literal.field_name,
    )?;
    push_named(alloc, out, ",\"phrase\":", literal.phrase.as_str())?;
    push_literal_end(alloc, out, literal)
}

fn push_range(
    alloc: Global,
    out: &mut Text,
    field: &Option<Text>,
    lower: &UserInputBound,
    upper: &UserInputBound,
) -> Result<(), AllocError>
    ensures { OnOk result (out.new ≡ out.old ++ spec.leaf_json (Range field.now lower.now upper.now)) }
{
    push_field(alloc, out, "{\"type\":\"range\",\"field\":", field)?;
    out.push_str(",\"lower\":")?;
    push_bound(alloc, out, lower)?;
    out.push_str(",\"upper\":")?;
    push_bound(alloc, out, upper)?;
    out.push_str("}")
}

fn push_elements(alloc: Global, out: &mut Text, elements: &[Text]) -> Result<(), AllocError>
    ensures { OnOk result (out.new ≡ out.old ++ spec.commas (map quoted elements.now)) }
{
    for (written, element) in elements.iter().enumerate() {
        push_comma(out, written)?;
        push_quoted(alloc, out, element.as_str())?;
    }
    Ok(())
}

fn push_set(
    alloc: Global,
    out: &mut Text,
    field: &Option<Text>,
    elements: &[Text],
) -> Result<(), AllocError>
    ensures { OnOk result (out.new ≡ out.old ++ spec.leaf_json (Set field.now elements.now)) }
{
    push_field(alloc, out, "{\"type\":\"set\",\"field\":", field)?;
    out.push_str(",\"elements\":[")?;
    push_elements(alloc, out, elements)?;
    out.push_str("]}")
}

#[tactic(auto, using(crate::proofs::Shapes::regex_shape))]
fn push_regex(
    alloc: Global,
    out: &mut Text,
    field: &Option<Text>,
    pattern: &Text,
) -> Result<(), AllocError>
    ensures { OnOk result (out.new ≡ out.old ++ spec.leaf_json (Regex field.now pattern.now)) }
{
    push_field(alloc, out, "{\"type\":\"regex\",\"field\":", field)?;
    push_named(alloc, out, ",\"pattern\":", pattern.as_str())?;
    out.push_str("}")
}

fn push_exists(alloc: Global, out: &mut Text, field: &Text) -> Result<(), AllocError>
    ensures { OnOk result (out.new ≡ out.old ++ spec.leaf_json (Exists field.now)) }
{
    push_named(
        alloc,
        out,
        "{\"type\":\"exists\",\"field\":",
        field.as_str(),
    )?;
    out.push_str("}")
}

#[tactic(auto, unfolding(query_tree::specs::Json::leaf_json))]
/// Writes the JSON of a leaf.
pub fn push_leaf(alloc: Global, out: &mut Text, leaf: &UserInputLeaf) -> Result<(), AllocError>
    ensures { OnOk result (out.new ≡ out.old ++ spec.leaf_json leaf.now) }
{
    match leaf {
        UserInputLeaf::Literal(literal) => push_literal(alloc, out, literal),
        UserInputLeaf::All => out.push_str("{\"type\":\"all\"}"),
        UserInputLeaf::Range {
            field,
            lower,
            upper,
        } => push_range(alloc, out, field, lower, upper),
        UserInputLeaf::Set { field, elements } => push_set(alloc, out, field, elements.as_slice()),
        UserInputLeaf::Exists { field } => push_exists(alloc, out, field),
        UserInputLeaf::Regex { field, pattern } => push_regex(alloc, out, field, pattern),
    }
}
