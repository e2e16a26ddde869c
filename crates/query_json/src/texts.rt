// The JSON of texts, and of what is nearly a text, behind what was written before.
ghost use Rattle.std.specs.Prelude.{◌≡◌, ◌++◌, string_bytes, IfOk, OnOk};
ghost use Rattle.std.specs.Fmt.{decimal};
ghost use Rattle.json.specs.Print.{quoted as quoted_by};
ghost use Rattle.query_tree.specs.Json as spec;
ghost use Rattle.query_json.specs.Pieces as pieces;

use owned_bytes::Text;
use query_tree::{Decimal, Delimiter, Occur};
use serde_json::Value;
use std::alloc::{AllocError, Global};

// The text in quotes, as `serde_json` writes it.
fn quoted(alloc: Global, text: &str) -> Result<String, AllocError>
    ensures { IfOk result (λ s. string_bytes s ≡ quoted_by text.now) }
{
    let value = Value::String(String::from_str(alloc, text)?);
    value.to_string(alloc)
}

/// Writes a text in quotes, with its escapes.
pub fn push_quoted(alloc: Global, out: &mut Text, text: &str) -> Result<(), AllocError>
    ensures { OnOk result (out.new ≡ out.old ++ quoted_by text.now) }
{
    let quoted = quoted(alloc, text)?;
    out.push_str(quoted.as_str())
}

/// The text, with what stands before it.
pub fn push_named(alloc: Global, out: &mut Text, before: &str, text: &str) -> Result<(), AllocError>
    ensures { OnOk result (out.new ≡ (out.old ++ before.now) ++ quoted_by text.now) }
{
    out.push_str(before)?;
    push_quoted(alloc, out, text)
}

/// The field of a leaf, `null` where it has none, with what stands before it.
pub fn push_field(
    alloc: Global,
    out: &mut Text,
    before: &str,
    field: &Option<Text>,
) -> Result<(), AllocError>
    ensures { OnOk result (out.new ≡ (out.old ++ before.now) ++ spec.field_json field.now) }
{
    out.push_str(before)?;
    match field {
        Some(field) => push_quoted(alloc, out, field.as_str()),
        None => out.push_str("null"),
    }
}

/// What stands round a phrase, as a word in quotes.
pub fn delimiter_word(delimiter: Delimiter) -> &'static str
    ensures { result.now ≡ spec.delimiter_json delimiter }
{
    match delimiter {
        Delimiter::SingleQuotes => "\"single_quotes\"",
        Delimiter::DoubleQuotes => "\"double_quotes\"",
        Delimiter::None => "\"none\"",
    }
}

/// `true` or `false`.
pub fn bool_word(value: bool) -> &'static str
    ensures { result.now ≡ spec.bool_json value }
{
    if value { "true" } else { "false" }
}

fn number_text(alloc: Global, number: u32) -> Result<String, AllocError>
    ensures { IfOk result (λ s. string_bytes s ≡ decimal number) }
{
    number.to_string(alloc)
}

/// Writes a whole number in decimal.
pub fn push_number(alloc: Global, out: &mut Text, number: u32) -> Result<(), AllocError>
    ensures { OnOk result (out.new ≡ out.old ++ decimal number) }
{
    let digits = number_text(alloc, number)?;
    out.push_str(digits.as_str())
}

/// Writes a mark as a word in quotes, or `null`.
pub fn push_mark(out: &mut Text, mark: Option<Occur>) -> Result<(), AllocError>
    ensures { OnOk result (out.new ≡ out.old ++ spec.mark_json mark) }
{
    out.push_str(match mark {
        None => "null",
        Some(Occur::Should) => "\"should\"",
        Some(Occur::Must) => "\"must\"",
        Some(Occur::MustNot) => "\"must_not\"",
    })
}

/// A whole number has `.0` behind it.
pub fn push_decimal(out: &mut Text, number: &Decimal) -> Result<(), AllocError>
    ensures { OnOk result (out.new ≡ out.old ++ spec.number_json number.now.whole number.now.fraction) }
{
    out.push_str(number.whole())?;
    out.push_str(".")?;
    if number.fraction().is_empty() {
        out.push_str("0")
    } else {
        out.push_str(number.fraction())
    }
}

/// A comma in front of all but the first.
pub fn push_comma(out: &mut Text, written: usize) -> Result<(), AllocError>
    ensures { OnOk result (out.new ≡ out.old ++ pieces.comma written) }
{
    if written == 0 {
        Ok(())
    } else {
        out.push_str(",")
    }
}
