// Answers, as texts of the output.
ghost use Rattle.std.specs.Prelude.{◌≡◌, Err, IfOk};
ghost use Rattle.owned_bytes.specs.Outside.{HasCause, WritesAll};
ghost use Rattle.term_index.specs.Printing.{lines, tree_line, PrintsText};

use crate::Outcome;
use itoa::Buffer;
use owned_bytes::{Sink, SinkError, Text};
use std::alloc::{AllocError, Global};
use tantivy_query_grammar::{UserInputAst, to_json};

// The most bytes that the line of a number has.
const LINE: usize = 11;

// The numbers in decimal, each with a line feed.
fn lines_of(alloc: Global, numbers: &[u32]) -> Result<Vec<u8>, AllocError>
    ensures { IfOk result (λ text. text.items ≡ lines numbers.now) }
{
    let mut text = Vec::with_capacity(alloc, numbers.len().saturating_mul(LINE))?;
    let mut buffer = Buffer::new();
    for number in numbers {
        text.extend_from_slice(buffer.format(*number).as_bytes())?;
        text.push(b'\n')?;
    }
    Ok(text)
}

// The JSON of a tree, with a line feed.
fn line_of(alloc: Global, tree: &UserInputAst) -> Result<Text, AllocError>
    ensures { IfOk result (λ text. text ≡ tree_line tree.now) }
{
    let mut text = to_json(alloc, tree)?;
    text.push_str("\n")?;
    Ok(text)
}

// Writes a text, and flushes.
fn write_text<O: Sink>(text: &[u8], out: &mut O) -> Result<(), SinkError>
    ensures bytes { WritesAll (O.written out.old) (O.written out.new) result text.now }
    ensures cause { HasCause (O.faults out.old) (O.faults out.new) (result ≡ Err SinkError.Failed) }
{
    out.write_all(text)?;
    out.flush()
}

// Prints a text.
fn print_text<O: Sink>(text: &[u8], out: &mut O) -> Outcome
    ensures prints { PrintsText result text.now (O.written out.old) (O.written out.new) }
    ensures out_fault { HasCause (O.faults out.old) (O.faults out.new) (result ≡ Outcome.OutFault) }
{
    match write_text(text, out) {
        Ok(()) => Outcome::Done,
        Err(SinkError::Failed) => Outcome::OutFault,
        Err(SinkError::Memory) => Outcome::Memory,
    }
}

/// Prints numbers, each with a line feed, and flushes.
pub fn print_numbers<O: Sink>(alloc: Global, numbers: &[u32], out: &mut O) -> Outcome
    ensures prints { PrintsText result (lines numbers.now) (O.written out.old) (O.written out.new) }
    ensures out_fault { HasCause (O.faults out.old) (O.faults out.new) (result ≡ Outcome.OutFault) }
{
    match lines_of(alloc, numbers) {
        Ok(text) => print_text(text.as_slice(), out),
        Err(_) => Outcome::Memory,
    }
}

/// Prints the JSON of a tree and a line feed, and flushes.
pub fn print_tree<O: Sink>(alloc: Global, tree: &UserInputAst, out: &mut O) -> Outcome
    ensures prints { PrintsText result (tree_line tree.now) (O.written out.old) (O.written out.new) }
    ensures out_fault { HasCause (O.faults out.old) (O.faults out.new) (result ≡ Outcome.OutFault) }
{
    match line_of(alloc, tree) {
        Ok(text) => print_text(text.as_str().as_bytes(), out),
        Err(_) => Outcome::Memory,
    }
}
