// An index file, written over a vector and searched in memory.
use owned_bytes::{BytesFile, OwnedBytes, Text, VecSink};
use std::alloc::{AllocError, Global};
use std::time::{Clock, Instant};
use term_search::{Doc, Pair, Pairs, search_index, write_index};

const PAGES: u32 = 4096;

fn add(alloc: Global, pairs: &mut Pairs, field: &str, term: &str) -> Result<(), AllocError> {
    let field = Text::from_str(alloc, field)?;
    let term = Text::from_str(alloc, term)?;
    pairs.push(Pair { field, term })
}

/// An identifier, a kind, four tags and a title.
fn document(alloc: Global, number: u32) -> Result<Doc, AllocError> {
    let mut pairs = Pairs::new(alloc);
    let id = format!(in alloc; "{number}")?;
    add(alloc, &mut pairs, "id", id.as_str())?;
    let kind = format!(in alloc; "k{}", number % 4)?;
    add(alloc, &mut pairs, "kind", kind.as_str())?;
    let tag = format!(in alloc; "t{}", number % 199)?;
    add(alloc, &mut pairs, "tag", tag.as_str())?;
    let other = format!(in alloc; "t{}", number / 7 % 211)?;
    add(alloc, &mut pairs, "tag", other.as_str())?;
    add(alloc, &mut pairs, "tag", "t1")?;
    add(alloc, &mut pairs, "tag", "t2")?;
    let title = format!(in alloc; "w{}", number / 3 % 4999)?;
    add(alloc, &mut pairs, "title", title.as_str())?;
    Ok(Doc { pairs })
}

fn documents(alloc: Global, count: u32) -> Result<Vec<Doc>, AllocError> {
    let mut docs = Vec::with_capacity(alloc, count as usize)?;
    for number in 0..count {
        docs.push(document(alloc, number)?)?;
    }
    Ok(docs)
}

fn time_search<R: Clock + Print + AllocGlobal>(
    rt: &R,
    file: &mut BytesFile,
    query: &str,
) -> anyhow::Result<()> {
    let start = Instant::now(rt)?;
    let answer = search_index(rt.alloc(), file, "title", query)?;
    let micros = start.elapsed(rt)?.as_micros();
    let found = answer.ids.len();
    println!(rt; "index: search {query}: {micros} us, {found} found")?;
    Ok(())
}

/// Prints how long writing an index of so many documents and three searches in it take.
pub fn time<R: Clock + Print + AllocGlobal>(rt: &R, count: u32) -> anyhow::Result<()> {
    let alloc = rt.alloc();
    let docs = documents(alloc, count)?;
    let mut sink = VecSink::new(alloc);
    let start = Instant::now(rt)?;
    write_index(alloc, docs.as_slice(), &mut sink, PAGES)?;
    let micros = start.elapsed(rt)?.as_micros();
    let bytes = sink.into_bytes();
    let length = bytes.len();
    println!(rt; "index: write {count} documents: {micros} us, {length} bytes")?;
    let mut file = BytesFile::new(OwnedBytes::new(alloc, bytes)?);
    time_search(rt, &mut file, "w7")?;
    time_search(rt, &mut file, "kind:k1 AND tag:t7 AND NOT title:w8")?;
    time_search(rt, &mut file, "tag:IN [t1 t7 t9] OR kind:k2")
}
