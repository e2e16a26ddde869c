// An index in a real file, written and then searched.
use owned_bytes::{BytesFile, OwnedBytes, SliceSource, StdSink, VecSink, WrapFile};
use std::alloc::{AllocError, Global};
use std::fs;
use std::fs::File;
use std::test::Fail;
use term_index::{Outcome, Word, run};

const DOCS: &[u8] = b"[{\"f\":\"a\"},{\"f\":[\"a\",\"b\"]},{\"f\":\"b\"}]";

fn words_of(alloc: Global, texts: &[&str]) -> Result<Vec<Word>, AllocError> {
    let mut words = Vec::new(alloc);
    for text in texts {
        words.push(Word::new(alloc, text)?)?;
    }
    Ok(words)
}

fn build(rt: &HostRuntime, path: &str) -> Result<Outcome, Fail> {
    let words = words_of(rt.alloc(), &["build", path, "1"])?;
    let mut docs = SliceSource::new(DOCS);
    let mut file = BytesFile::new(OwnedBytes::empty(rt.alloc())?);
    let mut store = StdSink::new(File::create(rt, path)?);
    let mut out = VecSink::new(rt.alloc());
    Ok(run(
        rt.alloc(),
        words.as_slice(),
        &mut docs,
        &mut file,
        &mut store,
        &mut out,
    ))
}

// How the search ends, and what it prints.
fn search(rt: &HostRuntime, path: &str, query: &str) -> Result<(Outcome, Vec<u8>), Fail> {
    let words = words_of(rt.alloc(), &["search", path, "f", query])?;
    let mut docs = SliceSource::new(b"");
    let mut file = WrapFile::new(File::open(rt, path)?)?;
    let mut store = VecSink::new(rt.alloc());
    let mut out = VecSink::new(rt.alloc());
    let outcome = run(
        rt.alloc(),
        words.as_slice(),
        &mut docs,
        &mut file,
        &mut store,
        &mut out,
    );
    Ok((outcome, out.into_bytes()))
}

#[test]
fn an_index_in_a_file(rt: HostRuntime) -> Result<(), Fail> {
    let path = "term_vectors_index";
    assert_eq!(rt; build(&rt, path)?, Outcome::Done);
    let (outcome, printed) = search(&rt, path, "f:\"a\" AND NOT f:\"b\"")?;
    assert_eq!(rt; outcome, Outcome::Done);
    assert_eq!(rt; printed.as_slice(), b"0\n".as_slice());
    let (outcome, printed) = search(&rt, path, "title:")?;
    assert_eq!(rt; outcome, Outcome::Query);
    assert!(rt; printed.is_empty());
    fs::remove_file(&rt, path)?;
    Ok(())
}
