// Index files byte by byte, and what is refused.
ghost use Rattle.std.specs.Prelude.{◌≤◌};

use documents::{Doc, Pair, Pairs};
use index_writing::{WriteError, write_index};
use owned_bytes::{MemSink, Text, VecSink};
use std::alloc::{AllocError, Global};
use std::test::Fail;

// Three documents of the field `f`: `a`; `a` and `b`; `b`.
const THREE: [u8; 60] = [
    3, 0, 0, 0, 4, 0, 0, 0, 0, 0, 0, 0, 0x94, // header and numbers
    0x0b, 0, 0, 0, 0, 3, 0, 2, 2, 0x30, 0x66, 0, 0x61, 0x12, 0x62, 0, 0, 0, 0, // block
    0, 0, 0, 0, 0, 0, 0, 0, // index part
    0x13, 0, 0, 0, 0, 0, 0, 0, 2, 0, 0, 0, 0, 0, 0, 0, 3, 0, 0, 0, // footer
];

const NONE: [u8; 44] = [
    0, 0, 0, 0, 0, 0, 0, 0, 0, 0, 0, 0, // header
    0, 0, 0, 0, 0, 0, 0, 0, 0, 0, 0, 0, // end of the blocks, and index part
    4, 0, 0, 0, 0, 0, 0, 0, 0, 0, 0, 0, 0, 0, 0, 0, 3, 0, 0, 0, // footer
];

// One document with one pair, whose number takes no bit.
const ONE: [u8; 56] = [
    1, 0, 0, 0, 1, 0, 0, 0, 0, 0, 0, 0, // header
    8, 0, 0, 0, 0, 2, 0, 1, 0x30, 0x66, 0, 0x61, 0, 0, 0, 0, // block
    0, 0, 0, 0, 0, 0, 0, 0, // index part
    0x10, 0, 0, 0, 0, 0, 0, 0, 1, 0, 0, 0, 0, 0, 0, 0, 3, 0, 0, 0, // footer
];

// A pair with copies of these texts.
fn pair_of(alloc: Global, field: &str, term: &str) -> Result<Pair, AllocError> {
    Ok(Pair {
        field: Text::from_str(alloc, field)?,
        term: Text::from_str(alloc, term)?,
    })
}

// A document of these pairs.
fn doc_of(alloc: Global, texts: &[(&str, &str)]) -> Result<Doc, AllocError> {
    let mut pairs = Pairs::new(alloc);
    for (field, term) in texts {
        pairs.push(pair_of(alloc, field, term)?)?;
    }
    Ok(Doc { pairs })
}

// A term of so many bytes that ends with a character of one byte.
fn long_term(alloc: Global, len: usize, last: char) -> Result<Text, AllocError> {
    let mut term = Text::new(alloc);
    for _i in 1..len {
        term.push('x')?;
    }
    term.push(last)?;
    Ok(term)
}

// One document of a field with so many different terms of a length.
fn long_doc(alloc: Global, field: &str, len: usize, count: u8) -> Result<Doc, AllocError> {
    let mut pairs = Pairs::new(alloc);
    for i in 0..count {
        let field = Text::from_str(alloc, field)?;
        let term = long_term(alloc, len, (b'0'.saturating_add(i)) as char)?;
        pairs.push(Pair { field, term })?;
    }
    Ok(Doc { pairs })
}

// What writing the documents answers, and what was written.
fn written(alloc: Global, docs: &[Doc], pages: u32) -> (Result<(), WriteError>, Vec<u8>)
    requires some { 1 ≤ pages }
    requires few { pages ≤ 4096 }
{
    let mut sink = VecSink::new(alloc);
    let answer = write_index(alloc, docs, &mut sink, pages);
    (answer, sink.into_bytes())
}

// The documents of `THREE`.
fn three_documents(alloc: Global) -> Result<[Doc; 3], AllocError> {
    let first = doc_of(alloc, &[("f", "a")])?;
    let second = doc_of(alloc, &[("f", "a"), ("f", "b")])?;
    let third = doc_of(alloc, &[("f", "b")])?;
    Ok([first, second, third])
}

#[test]
fn files_byte_by_byte(rt: HostRuntime) -> Result<(), Fail> {
    let alloc = rt.alloc();
    let (answer, bytes) = written(alloc, &three_documents(alloc)?, 1);
    assert_eq!(rt; answer, Ok(()));
    assert_eq!(rt; bytes.as_slice(), THREE.as_slice());
    let (answer, bytes) = written(alloc, &[], 1);
    assert_eq!(rt; answer, Ok(()));
    assert_eq!(rt; bytes.as_slice(), NONE.as_slice());
    // a pair that stands twice in a document
    let (answer, bytes) = written(alloc, &[doc_of(alloc, &[("f", "a"), ("f", "a")])?], 1);
    assert_eq!(rt; answer, Ok(()));
    assert_eq!(rt; bytes.as_slice(), ONE.as_slice());
    Ok(())
}

#[test]
fn documents_that_are_large(rt: HostRuntime) -> Result<(), Fail> {
    let alloc = rt.alloc();
    let large = [long_doc(alloc, "f", 60_000, 40)?];
    let (answer, bytes) = written(alloc, &large, 1);
    assert_eq!(rt; answer, Err(WriteError::ArenaFull));
    assert_eq!(rt; bytes.len(), 0);
    assert_eq!(rt; written(alloc, &large, 8).0, Ok(()));
    assert_eq!(rt;
        written(alloc, &[long_doc(alloc, "f", 60_000, 13)?], 1).0,
        Ok(())
    );
    Ok(())
}

#[test]
fn faults_by_their_places(rt: HostRuntime) -> Result<(), Fail> {
    let alloc = rt.alloc();
    assert_eq!(rt;
        written(alloc, &[long_doc(alloc, "f", 65_533, 1)?], 1).0,
        Ok(())
    );
    let long = [long_doc(alloc, "f", 65_534, 1)?];
    assert_eq!(rt;
        written(alloc, &long, 1).0,
        Err(WriteError::KeyTooLong(0, 0))
    );
    // the field before the length
    let (answer, bytes) = written(alloc, &[long_doc(alloc, "", 65_535, 1)?], 1);
    assert_eq!(rt; answer, Err(WriteError::BadField(0, 0)));
    assert_eq!(rt; bytes.len(), 0);
    let third = [
        doc_of(alloc, &[])?,
        doc_of(alloc, &[])?,
        doc_of(alloc, &[("f\u{1}", "a")])?,
    ];
    assert_eq!(rt;
        written(alloc, &third, 1).0,
        Err(WriteError::BadField(2, 0))
    );
    Ok(())
}

#[test]
fn sinks_that_fail(rt: HostRuntime) -> Result<(), Fail> {
    let alloc = rt.alloc();
    // the only write, and then the flush
    for (call, len) in [(1, 0), (2, 60)] {
        let mut fails = Vec::new(alloc);
        fails.push(call)?;
        let mut sink = MemSink::new(alloc, fails);
        let answer = write_index(alloc, &three_documents(alloc)?, &mut sink, 1);
        assert_eq!(rt; answer, Err(WriteError::Write));
        assert_eq!(rt; sink.bytes().len(), len);
    }
    Ok(())
}
