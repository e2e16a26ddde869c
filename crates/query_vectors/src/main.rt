//! Checks the rows of a table on standard input: queries, and what the strict grammar makes of them.
//!
//! A row is a line of JSON, as `{"query":"a a","answer":"tree","debug":"(*a)","json":"{..}"}`. The
//! answer is `tree`, `refused` or `too deep`, and only a tree has the two texts. Each row that comes
//! out otherwise is printed with what came out, and at the end how many rows there were.
#![tactic(auto)]

#[cfg(test)]
mod trees;

use anyhow::Context;
use serde_json::Value;
use std::alloc::Global;
use std::io::{BufRead, BufReader};
use tantivy_query_grammar::{ParseError, parse_query, to_json};

/// What a query comes out as. The texts are empty where it has no tree.
#[derive(PartialEq, Eq, Debug, Drop)]
struct Row {
    answer: String,
    debug: String,
    json: String,
}

fn without_tree(alloc: Global, answer: &str) -> anyhow::Result<Row> {
    Ok(Row {
        answer: String::from_str(alloc, answer)?,
        debug: String::new(alloc),
        json: String::new(alloc),
    })
}

/// What the crates make of this query.
fn read_query(alloc: Global, query: &str) -> anyhow::Result<Row> {
    match parse_query(alloc, query) {
        Ok(tree) => Ok(Row {
            answer: String::from_str(alloc, "tree")?,
            debug: format!(in alloc; "{tree:?}")?,
            json: String::from_str(alloc, to_json(alloc, &tree)?.as_str())?,
        }),
        Err(ParseError::Refused(_)) => without_tree(alloc, "refused"),
        Err(ParseError::TooDeep) => without_tree(alloc, "too deep"),
        Err(error) => Err(error.into()),
    }
}

fn member(alloc: Global, row: &Value, name: &str) -> anyhow::Result<String> {
    let text = row.get(name).and_then(Value::as_str).unwrap_or("");
    Ok(String::from_str(alloc, text)?)
}

/// What the row says.
fn wanted(alloc: Global, row: &Value) -> anyhow::Result<Row> {
    Ok(Row {
        answer: member(alloc, row, "answer")?,
        debug: member(alloc, row, "debug")?,
        json: member(alloc, row, "json")?,
    })
}

fn check_row(rt: &HostRuntime, line: &str) -> anyhow::Result<()> {
    let alloc = rt.alloc();
    let row = Value::from_str(alloc, line).context("reading a row")?;
    let query = member(alloc, &row, "query")?;
    let found = read_query(alloc, query.as_str())?;
    if found != wanted(alloc, &row)? {
        println!(rt; "{query:?} comes out as {found:?}")?;
    }
    Ok(())
}

fn main(rt: HostRuntime) -> anyhow::Result<()> {
    let mut rows = 0u64;
    for line in BufReader::new(rt.alloc(), rt.stdin())?.lines(rt.alloc()) {
        check_row(&rt, line?.as_str())?;
        rows = rows.saturating_add(1);
    }
    println!(rt; "{rows} rows")?;
    Ok(())
}
