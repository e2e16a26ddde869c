// Whole commands over documents, files and outputs in memory.
use owned_bytes::{BytesFile, MemFile, MemSink, MemSource, OwnedBytes, SliceSource, VecSink};
use std::alloc::{AllocError, Global};
use std::test::Fail;
use term_index::{Outcome, Word, run};

// Three documents, with the terms a, then a and b, then b in the field f.
const THREE: &[u8] = b"[{\"f\":\"a\"},{\"f\":[\"a\",\"b\"]},{\"f\":\"b\"}]";

// Two documents, with titles and tags.
const TWO: &[u8] =
    b"[{\"title\":\"hello\",\"tag\":[\"a\",\"b\"]},{\"title\":\"hello world\",\"tag\":\"b\"}]";

// The index of `THREE`.
const INDEX: &[u8] =
    b"\x03\x00\x00\x00\x04\x00\x00\x00\x00\x00\x00\x00\x94\x0b\x00\x00\x00\x00\x03\x00\x02\x02\x30\x66\x00\x61\x12\x62\x00\x00\x00\x00\x00\x00\x00\x00\x00\x00\x00\x00\x13\x00\x00\x00\x00\x00\x00\x00\x02\x00\x00\x00\x00\x00\x00\x00\x03\x00\x00\x00";

// The index of no documents.
const EMPTY: &[u8] =
    b"\x00\x00\x00\x00\x00\x00\x00\x00\x00\x00\x00\x00\x00\x00\x00\x00\x00\x00\x00\x00\x00\x00\x00\x00\x04\x00\x00\x00\x00\x00\x00\x00\x00\x00\x00\x00\x00\x00\x00\x00\x03\x00\x00\x00";

// How a command ended, and what it wrote and printed.
#[derive(Drop)]
struct Ended {
    outcome: Outcome,
    store: Vec<u8>,
    printed: Vec<u8>,
}

// The words, copied.
fn words_of(alloc: Global, texts: &[&str]) -> Result<Vec<Word>, AllocError> {
    let mut words = Vec::new(alloc);
    for text in texts {
        words.push(Word::new(alloc, text)?)?;
    }
    Ok(words)
}

// Runs the words over documents and a file.
fn end_of(alloc: Global, words: &[&str], docs: &[u8], file: &[u8]) -> Result<Ended, AllocError> {
    let words = words_of(alloc, words)?;
    let mut docs = SliceSource::new(docs);
    let bytes = Vec::from_slice(alloc, file)?;
    let mut file = BytesFile::new(OwnedBytes::new(alloc, bytes)?);
    let mut store = VecSink::new(alloc);
    let mut out = VecSink::new(alloc);
    let outcome = run(
        alloc,
        words.as_slice(),
        &mut docs,
        &mut file,
        &mut store,
        &mut out,
    );
    Ok(Ended {
        outcome,
        store: store.into_bytes(),
        printed: out.into_bytes(),
    })
}

#[test]
fn built(rt: HostRuntime) -> Result<(), Fail> {
    let rows: [(&[u8], &[u8]); 2] = [(THREE, INDEX), (b"[]", EMPTY)];
    for (docs, index) in rows {
        let ended = end_of(rt.alloc(), &["build", "x", "1"], docs, b"")?;
        assert_eq!(rt; ended.outcome, Outcome::Done);
        assert_eq!(rt; ended.store.as_slice(), index);
        assert!(rt; ended.printed.is_empty());
    }
    Ok(())
}

#[test]
fn asked(rt: HostRuntime) -> Result<(), Fail> {
    let rows: [(&[u8], &str, &str, Outcome, &[u8]); 20] = [
        (THREE, "f", "f:\"a\" AND NOT f:\"b\"", Outcome::Done, b"0\n"),
        (THREE, "f", "a AND b", Outcome::Done, b"1\n"),
        (THREE, "g", "f:a OR f:b", Outcome::Done, b"0\n1\n2\n"),
        (THREE, "g", "a OR b", Outcome::Done, b""),
        (THREE, "f", "NOT a", Outcome::Done, b"2\n"),
        // nothing, and everything
        (THREE, "f", "", Outcome::Done, b""),
        (THREE, "f", "*", Outcome::Done, b"0\n1\n2\n"),
        (b"[]", "f", "NOT f:\"a\"", Outcome::Done, b""),
        (b"[]", "f", "*", Outcome::Done, b""),
        // a phrase is one term
        (TWO, "title", "\"hello world\"", Outcome::Done, b"1\n"),
        (TWO, "title", "hello", Outcome::Done, b"0\n"),
        (TWO, "title", "tag:b AND NOT tag:a", Outcome::Done, b"1\n"),
        (TWO, "title", "tag:IN [\"a\" \"c\"]", Outcome::Done, b"0\n"),
        // a term that stands twice
        (
            b"[{\"f\":[\"a\",\"a\"]}]",
            "f",
            "f:a",
            Outcome::Done,
            b"0\n",
        ),
        // queries that are refused
        (
            TWO,
            "title",
            "\"hello world\"~2",
            Outcome::UnsupportedSlop,
            b"",
        ),
        (TWO, "title", "title:/h.*/", Outcome::UnsupportedRegex, b""),
        (TWO, "title", "title:", Outcome::Query, b""),
        // documents that are refused, before the query is looked at
        (b"[{\"f\":1}]", "f", "title:", Outcome::BadInput, b""),
        (b"{}", "f", "f:a", Outcome::BadInput, b""),
        (
            b"[{\"f\":\"a\"},{\"\":\"b\"}]",
            "f",
            "f:a",
            Outcome::BadField(1, 0),
            b"",
        ),
    ];
    for (docs, field, query, outcome, printed) in rows {
        let ended = end_of(rt.alloc(), &["ask", field, query], docs, b"")?;
        assert_eq!(rt; ended.outcome, outcome, "{query}");
        assert_eq!(rt; ended.printed.as_slice(), printed, "{query}");
    }
    Ok(())
}

#[test]
fn trees(rt: HostRuntime) -> Result<(), Fail> {
    let rows: [(&str, Outcome, &[u8]); 3] = [
        (
            "a a",
            Outcome::Done,
            b"{\"type\":\"bool\",\"clauses\":[[null,{\"type\":\"literal\",\"field_name\":null,\"phrase\":\"a\",\"delimiter\":\"none\",\"slop\":0,\"prefix\":false}]]}\n",
        ),
        ("title:", Outcome::Query, b""),
        ("[-5a TO b]", Outcome::Query, b""),
    ];
    for (query, outcome, printed) in rows {
        let ended = end_of(rt.alloc(), &["tree", query], b"", b"")?;
        assert_eq!(rt; ended.outcome, outcome, "{query}");
        assert_eq!(rt; ended.printed.as_slice(), printed, "{query}");
    }
    Ok(())
}

// So many parentheses round `f:a`.
fn nested(alloc: Global, levels: usize) -> Result<String, AllocError> {
    let mut text = String::new(alloc);
    for _ in 0..levels {
        text.push_str("(")?;
    }
    text.push_str("f:a")?;
    for _ in 0..levels {
        text.push_str(")")?;
    }
    Ok(text)
}

#[test]
fn nesting(rt: HostRuntime) -> Result<(), Fail> {
    let rows: [(usize, Outcome, &[u8]); 2] = [
        (128, Outcome::Done, b"0\n1\n"),
        (129, Outcome::TooDeep, b""),
    ];
    for (levels, outcome, printed) in rows {
        let query = nested(rt.alloc(), levels)?;
        let ended = end_of(
            rt.alloc(),
            &["search", "x", "f", query.as_str()],
            b"",
            INDEX,
        )?;
        assert_eq!(rt; ended.outcome, outcome);
        assert_eq!(rt; ended.printed.as_slice(), printed);
    }
    Ok(())
}

// The index of `THREE`, with another byte at a place.
fn changed(alloc: Global, place: usize, byte: u8) -> Result<Vec<u8>, AllocError> {
    let mut bytes = Vec::from_slice(alloc, INDEX)?;
    if place < bytes.len() {
        bytes[place] = byte;
    }
    Ok(bytes)
}

#[test]
fn damaged(rt: HostRuntime) -> Result<(), Fail> {
    let alloc = rt.alloc();
    let compressed = changed(alloc, 17, 1)?;
    let other = changed(alloc, 17, 7)?;
    let rows: [(&[u8], Outcome); 6] = [
        (INDEX, Outcome::Done),
        (&INDEX[..59], Outcome::Version(768)),
        (compressed.as_slice(), Outcome::Compressed(13)),
        (other.as_slice(), Outcome::Corrupt),
        (b"\x03\x00\x00\x00", Outcome::Corrupt),
        (b"\x03\x00\x00", Outcome::Corrupt),
    ];
    for (file, outcome) in rows {
        let ended = end_of(alloc, &["search", "x", "f", "f:\"a\""], b"", file)?;
        assert_eq!(rt; ended.outcome, outcome);
    }
    Ok(())
}

// One document, whose field `f` has a term of so many bytes; behind it a member of this name.
fn long_term(alloc: Global, length: usize, more: &str) -> Result<String, AllocError> {
    let mut text = String::from_str(alloc, "[{\"f\":\"")?;
    for _ in 0..length {
        text.push_str("a")?;
    }
    text.push_str("\"")?;
    text.push_str(more)?;
    text.push_str("}]")?;
    Ok(text)
}

#[test]
fn long_keys(rt: HostRuntime) -> Result<(), Fail> {
    let rows: [(usize, &str, Outcome); 3] = [
        (65_533, "", Outcome::Done),
        (65_534, "", Outcome::KeyTooLong(0, 0)),
        // members stand in the order of their names
        (65_534, ",\"\":\"a\"", Outcome::BadField(0, 0)),
    ];
    for (length, more, outcome) in rows {
        let docs = long_term(rt.alloc(), length, more)?;
        let ended = end_of(
            rt.alloc(),
            &["build", "x", "1"],
            docs.as_str().as_bytes(),
            b"",
        )?;
        assert_eq!(rt; ended.outcome, outcome);
    }
    Ok(())
}

// Searches a file whose third call fails, twice.
fn searched_twice(alloc: Global) -> Result<(Outcome, Outcome, Vec<u8>), AllocError> {
    let words = words_of(alloc, &["search", "x", "f", "f:\"a\""])?;
    let bytes = OwnedBytes::new(alloc, Vec::from_slice(alloc, INDEX)?)?;
    let mut file = MemFile::new(bytes, Vec::from_slice(alloc, &[3])?);
    let mut docs = SliceSource::new(b"");
    let mut store = VecSink::new(alloc);
    let mut out = VecSink::new(alloc);
    let first = run(
        alloc,
        words.as_slice(),
        &mut docs,
        &mut file,
        &mut store,
        &mut out,
    );
    let second = run(
        alloc,
        words.as_slice(),
        &mut docs,
        &mut file,
        &mut store,
        &mut out,
    );
    Ok((first, second, out.into_bytes()))
}

#[test]
fn failed_read(rt: HostRuntime) -> Result<(), Fail> {
    let (first, second, printed) = searched_twice(rt.alloc())?;
    assert_eq!(rt; first, Outcome::ReadFault);
    assert_eq!(rt; second, Outcome::Done);
    assert_eq!(rt; printed.as_slice(), b"0\n1\n".as_slice());
    Ok(())
}

// The call of the source, of the store and of the output that fails (0: none does), and what comes of it.
#[derive(Clone, Copy)]
struct Faulty {
    command: &'static str,
    source: u64,
    store: u64,
    output: u64,
    outcome: Outcome,
}

// How a command over `THREE` ends with these faults, and whether the store then has a prefix of the index.
fn end_with(alloc: Global, row: Faulty) -> Result<(Outcome, bool), AllocError> {
    let words = if row.command == "build" {
        words_of(alloc, &["build", "x", "1"])?
    } else {
        words_of(alloc, &["ask", "f", "f:a"])?
    };
    let mut docs = MemSource::new(THREE, Vec::from_slice(alloc, &[row.source])?);
    let mut file = BytesFile::new(OwnedBytes::empty(alloc)?);
    let mut store = MemSink::new(alloc, Vec::from_slice(alloc, &[row.store])?);
    let mut out = MemSink::new(alloc, Vec::from_slice(alloc, &[row.output])?);
    let outcome = run(
        alloc,
        words.as_slice(),
        &mut docs,
        &mut file,
        &mut store,
        &mut out,
    );
    Ok((outcome, INDEX.starts_with(store.bytes())))
}

#[test]
fn faults(rt: HostRuntime) -> Result<(), Fail> {
    let row = |command, source, store, output, outcome| Faulty {
        command,
        source,
        store,
        output,
        outcome,
    };
    let rows = [
        row("build", 0, 0, 0, Outcome::Done),
        row("build", 1, 0, 0, Outcome::InFault),
        row("build", 2, 0, 0, Outcome::InFault),
        row("build", 0, 1, 0, Outcome::StoreFault),
        row("ask", 0, 1, 0, Outcome::Done),
        row("ask", 1, 0, 0, Outcome::InFault),
        row("ask", 0, 0, 1, Outcome::OutFault),
        row("ask", 0, 0, 2, Outcome::OutFault),
    ];
    for row in rows {
        let (outcome, is_prefix) = end_with(rt.alloc(), row)?;
        assert_eq!(rt; outcome, row.outcome);
        assert_eq!(rt; is_prefix, true);
    }
    Ok(())
}

#[test]
fn lines(rt: HostRuntime) -> Result<(), Fail> {
    let rows: [(Outcome, &[u8]); 7] = [
        (Outcome::Done, b""),
        (Outcome::Usage, b"usage\n"),
        (Outcome::BadField(0, 12), b"bad field 0 12\n"),
        (
            Outcome::KeyTooLong(18_446_744_073_709_551_615, 3),
            b"key too long 18446744073709551615 3\n",
        ),
        (Outcome::Version(768), b"version 768\n"),
        (Outcome::Compressed(13), b"compressed 13\n"),
        (Outcome::Memory, b"out of memory\n"),
    ];
    for (outcome, line) in rows {
        let mut sink = VecSink::new(rt.alloc());
        outcome.print_line(&mut sink)?;
        assert_eq!(rt; sink.bytes(), line);
    }
    Ok(())
}

#[test]
fn forms(rt: HostRuntime) -> Result<(), Fail> {
    let rows: [(&[&str], u8); 13] = [
        // no command
        (&[], 2),
        (&["find", "f"], 2),
        (&["build", "x", "0"], 2),
        (&["build", "x", "4097"], 2),
        (&["build", "x", "01"], 2),
        (&["build", "", "1"], 2),
        (&["search", "x", "f"], 2),
        (&["gen", "18446744073709551616", "1"], 2),
        (&["gen", "1", "100001"], 2),
        // commands
        (&["build", "x", "4096"], 0),
        (&["search", "x", "f", "a"], 6),
        (&["tree", ""], 0),
        (&["gen", "18446744073709551615", "0"], 9),
    ];
    for (words, status) in rows {
        let ended = end_of(rt.alloc(), words, b"[]", b"")?;
        assert_eq!(rt; ended.outcome.status(), status);
    }
    Ok(())
}

// How two commands after one another end over one source, store and output, and what these then hold.
fn end_in_turn(
    alloc: Global,
    first: &[&str],
    second: &[&str],
    docs: &[u8],
) -> Result<(Outcome, Outcome, usize, Vec<u8>, Vec<u8>), AllocError> {
    let first = words_of(alloc, first)?;
    let second = words_of(alloc, second)?;
    let mut docs = SliceSource::new(docs);
    let mut file = BytesFile::new(OwnedBytes::empty(alloc)?);
    let mut store = VecSink::new(alloc);
    let mut out = VecSink::new(alloc);
    let done = run(
        alloc,
        first.as_slice(),
        &mut docs,
        &mut file,
        &mut store,
        &mut out,
    );
    let left = docs.rest().len();
    let refused = run(
        alloc,
        second.as_slice(),
        &mut docs,
        &mut file,
        &mut store,
        &mut out,
    );
    Ok((done, refused, left, store.into_bytes(), out.into_bytes()))
}

// The source is read to its end, and what is there stays after a refusal.
#[test]
fn what_is_there_stays(rt: HostRuntime) -> Result<(), Fail> {
    let alloc = rt.alloc();
    let (done, refused, left, store, _) = end_in_turn(
        alloc,
        &["build", "x", "1"],
        &["build", "x", "1"],
        THREE,
    )?;
    assert_eq!(rt; (done, refused), (Outcome::Done, Outcome::BadInput));
    assert_eq!(rt; left, 0);
    assert_eq!(rt; store.as_slice(), INDEX);
    let (done, refused, left, _, printed) = end_in_turn(
        alloc,
        &["ask", "f", "a"],
        &["tree", "f:"],
        THREE,
    )?;
    assert_eq!(rt; (done, refused), (Outcome::Done, Outcome::Query));
    assert_eq!(rt; left, 0);
    assert_eq!(rt; printed.as_slice(), b"0\n1\n".as_slice());
    Ok(())
}
