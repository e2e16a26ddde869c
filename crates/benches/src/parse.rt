// Queries of many words, parsed.
use std::alloc::{AllocError, Global};
use std::time::{Clock, Instant};
use tantivy_query_grammar::parse_query;

/// So many different words with this text between them.
fn words(alloc: Global, count: u32, between: &str) -> Result<String, AllocError> {
    let mut text = String::new(alloc);
    for number in 0..count {
        if number > 0 {
            text.push_str(between)?;
        }
        text.push_str(format!(in alloc; "w{number}")?.as_str())?;
    }
    Ok(text)
}

/// This word so many times.
fn repeated(alloc: Global, count: u32, word: &str) -> Result<String, AllocError> {
    let mut text = String::new(alloc);
    for _turn in 0..count {
        text.push_str(word)?;
    }
    Ok(text)
}

fn time_query<R: Clock + Print + AllocGlobal>(
    rt: &R,
    name: &str,
    query: &str,
) -> anyhow::Result<()> {
    let start = Instant::now(rt)?;
    let is_tree = parse_query(rt.alloc(), query).is_ok();
    let micros = start.elapsed(rt)?.as_micros();
    println!(rt; "parse: {name}: {micros} us, a tree: {is_tree}")?;
    Ok(())
}

/// Prints how long queries of so many words take.
pub fn time<R: Clock + Print + AllocGlobal>(rt: &R, count: u32) -> anyhow::Result<()> {
    let alloc = rt.alloc();
    time_query(rt, "words and blanks", words(alloc, count, " ")?.as_str())?;
    time_query(
        rt,
        "words and line feeds",
        words(alloc, count, "\n")?.as_str(),
    )?;
    time_query(rt, "words and AND", words(alloc, count, " AND ")?.as_str())?;
    time_query(rt, "NOT alone", repeated(alloc, count, "NOT ")?.as_str())
}
