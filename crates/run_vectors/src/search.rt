// Searches of index files that are given as bytes.
use owned_bytes::{BytesFile, Ids, MemFile, OwnedBytes};
use std::alloc::Global;
use std::test::Fail;
use term_search::{Kind, SearchError, search_index};

// Three documents, with the terms a, then a and b, then b in the field f.
const THREE: [u8; 60] = [
    3, 0, 0, 0, 4, 0, 0, 0, 0, 0, 0, 0, 0x94, // header and numbers
    0x0b, 0, 0, 0, 0, 3, 0, 2, 2, 0x30, 0x66, 0, 0x61, 0x12, 0x62, 0, 0, 0, 0, // block
    0, 0, 0, 0, 0, 0, 0, 0, // index part
    0x13, 0, 0, 0, 0, 0, 0, 0, 2, 0, 0, 0, 0, 0, 0, 0, 3, 0, 0, 0, // footer
];

// One document, whose field f has the term of b, a byte 0, and c.
const ZERO: [u8; 58] = [
    1, 0, 0, 0, 1, 0, 0, 0, 0, 0, 0, 0, // header
    0x0a, 0, 0, 0, 0, 2, 0, 1, 0x50, 0x66, 0, 0x62, 0, 0x63, 0, 0, 0, 0, // block
    0, 0, 0, 0, 0, 0, 0, 0, // index part
    0x12, 0, 0, 0, 0, 0, 0, 0, 1, 0, 0, 0, 0, 0, 0, 0, 3, 0, 0, 0, // footer
];

// No documents, over the empty table of version 2.
const OLDER: [u8; 36] = [
    0, 0, 0, 0, 0, 0, 0, 0, 0, 0, 0, 0, // header
    0, 0, 0, 0, // end of the blocks
    4, 0, 0, 0, 0, 0, 0, 0, 0, 0, 0, 0, 0, 0, 0, 0, 2, 0, 0, 0, // footer
];

// The numbers that a search of the bytes finds.
fn found(alloc: Global, bytes: &[u8], field: &str, query: &str) -> Result<Ids, SearchError> {
    let mut file = BytesFile::new(OwnedBytes::new(alloc, bytes.to_vec(alloc)?)?);
    match search_index(alloc, &mut file, field, query) {
        Ok(answer) => Ok(answer.ids),
        Err(error) => Err(error),
    }
}

#[test]
fn numbers_are_found(rt: HostRuntime) -> Result<(), Fail> {
    let rows: [(&[u8], &str, &str, &[u32]); 14] = [
        (&THREE, "f", "a", &[0, 1]),
        (&THREE, "g", "f:\"a\" AND NOT f:\"b\"", &[0]),
        (&THREE, "g", "a", &[]),
        (&THREE, "f", "a AND b", &[1]),
        (&THREE, "f", "a^2 OR b", &[0, 1, 2]),
        (&THREE, "f", "(a)", &[0, 1]),
        (&THREE, "f", "a^2", &[0, 1]),
        (&THREE, "f", "c", &[]),
        (&THREE, "f", "-a", &[2]),
        (&THREE, "f", "IN [\"c\" \"b\"]", &[1, 2]),
        (&THREE, "f", "*", &[0, 1, 2]),
        (&THREE, "f", "", &[]),
        (&ZERO, "f", "\"b\u{0}c\"", &[0]),
        (&OLDER, "f", "a", &[]),
    ];
    for (bytes, field, query, numbers) in rows {
        let ids = found(rt.alloc(), bytes, field, query)?;
        assert_eq!(rt; ids.as_slice(), numbers, "{query}");
    }
    Ok(())
}

// A field that no document can have is not looked for.
#[test]
fn no_read_for_a_field_with_a_byte_0(rt: HostRuntime) -> Result<(), Fail> {
    let alloc = rt.alloc();
    let mut file = BytesFile::new(OwnedBytes::new(alloc, ZERO.to_vec(alloc)?)?);
    let answer = search_index(alloc, &mut file, "f\u{0}b", "c")?;
    assert!(rt; answer.ids.as_slice().is_empty());
    // those of opening alone
    assert_eq!(rt; file.reads(), 4);
    Ok(())
}

#[test]
fn refused_queries_read_nothing(rt: HostRuntime) -> Result<(), Fail> {
    let alloc = rt.alloc();
    let rows = [
        ("\"a b\"~2", SearchError::Unsupported(Kind::Slop)),
        ("/h.*/ AND \"a b\"~2", SearchError::Unsupported(Kind::Regex)),
        ("\"a\"* OR /h.*/", SearchError::Unsupported(Kind::Regex)),
        ("\"a\"*", SearchError::NotYet),
        ("[a TO b]", SearchError::NotYet),
        ("f:*", SearchError::NotYet),
    ];
    for (query, refusal) in rows {
        let mut file = BytesFile::new(OwnedBytes::new(alloc, THREE.to_vec(alloc)?)?);
        match search_index(alloc, &mut file, "f", query) {
            Ok(_) => assert!(rt; false, "{query}"),
            Err(error) => assert_eq!(rt; error, refusal, "{query}"),
        }
        assert_eq!(rt; file.reads(), 0, "{query}");
    }
    Ok(())
}

#[test]
fn a_read_that_fails(rt: HostRuntime) -> Result<(), Fail> {
    let alloc = rt.alloc();
    let bytes = OwnedBytes::new(alloc, THREE.to_vec(alloc)?)?;
    let mut file = MemFile::new(bytes, vec![in alloc; 3u64]?);
    match search_index(alloc, &mut file, "f", "a") {
        Ok(_) => assert!(rt; false),
        Err(error) => assert_eq!(rt; error, SearchError::Read),
    }
    let answer = search_index(alloc, &mut file, "f", "a")?;
    assert_eq!(rt; answer.ids.as_slice(), [0, 1].as_slice());
    Ok(())
}
