// The bytes of maps, what they are opened to, and the keys that are looked for.
use fst_map::{Fst, MapBuilder, MapError};
use owned_bytes::OwnedBytes;
use std::alloc::{AllocError, Global};
use std::test::Fail;

const KEYS: [&[u8]; 4] = [b"aaa", b"bbbbbbb", b"ccc", b"dddd"];

// How many keys, each key's end and value, and the keys.
const MAP: [u8; 89] = [
    4, 0, 0, 0, 0, 0, 0, 0, // count
    3, 0, 0, 0, 0, 0, 0, 0, 0, 0, 0, 0, 0, 0, 0, 0, //
    10, 0, 0, 0, 0, 0, 0, 0, 1, 0, 0, 0, 0, 0, 0, 0, //
    13, 0, 0, 0, 0, 0, 0, 0, 2, 0, 0, 0, 0, 0, 0, 0, //
    17, 0, 0, 0, 0, 0, 0, 0, 3, 0, 0, 0, 0, 0, 0, 0, //
    97, 97, 97, 98, 98, 98, 98, 98, 98, 98, 99, 99, 99, 100, 100, 100, 100,
];

// The bytes of the map of these keys to their numbers.
fn map_of(alloc: Global, keys: &[&[u8]]) -> Result<Vec<u8>, MapError> {
    let mut builder = MapBuilder::new(alloc);
    let mut value: u64 = 0;
    for key in keys {
        builder.insert(key, value)?;
        value = value.saturating_add(1);
    }
    builder.into_inner()
}

#[test]
fn maps_are_built(rt: HostRuntime) -> Result<(), Fail> {
    let alloc = rt.alloc();
    assert_eq!(rt; map_of(alloc, &KEYS)?.as_slice(), MAP.as_slice());
    assert_eq!(rt; map_of(alloc, &[])?.as_slice(), [0; 8].as_slice());
    assert_eq!(rt; map_of(alloc, &[b"b", b"ab"]), Err(MapError::Unsorted));
    Ok(())
}

// The map that these bytes spell.
fn opened(alloc: Global, bytes: &[u8]) -> Result<Fst, MapError> {
    Fst::open(alloc, OwnedBytes::new(alloc, bytes.to_vec(alloc)?)?)
}

#[test]
fn maps_are_read(rt: HostRuntime) -> Result<(), Fail> {
    let fst = opened(rt.alloc(), MAP.as_slice())?;
    assert_eq!(rt; fst.len(), 4);
    assert_eq!(rt; fst.key(0), b"aaa".as_slice());
    assert_eq!(rt; fst.key(1), b"bbbbbbb".as_slice());
    assert_eq!(rt; fst.key(3), b"dddd".as_slice());
    assert_eq!(rt; fst.value(3), 3);
    let mut walk = fst.walk();
    for (i, key) in KEYS.iter().enumerate() {
        assert_eq!(rt; walk.next(), Some((*key, i as u64)));
    }
    assert_eq!(rt; walk.next(), None);
    assert_eq!(rt; walk.next(), None);
    Ok(())
}

#[test]
fn keys_are_looked_for(rt: HostRuntime) -> Result<(), Fail> {
    let fst = opened(rt.alloc(), MAP.as_slice())?;
    let rows: [(&[u8], Option<usize>); 8] = [
        (b"", Some(0)),
        (b"aaa", Some(0)),
        (b"aaaa", Some(1)),
        (b"bbbde", Some(2)),
        (b"ccc", Some(2)),
        (b"dddd", Some(3)),
        (b"ddddd", None),
        (b"e", None),
    ];
    for (key, place) in rows {
        assert_eq!(rt; fst.first_at_or_above(key), place);
    }
    let empty = opened(rt.alloc(), [0; 8].as_slice())?;
    assert_eq!(rt; empty.first_at_or_above(b""), None);
    assert!(rt; empty.walk().next().is_none());
    Ok(())
}

// So many numbers of eight bytes, and the keys.
fn bytes_of(alloc: Global, numbers: &[u64], keys: &[u8]) -> Result<Vec<u8>, AllocError> {
    let mut bytes = Vec::new(alloc);
    for number in numbers {
        bytes.extend_from_slice(&number.to_le_bytes())?;
    }
    bytes.extend_from_slice(keys)?;
    Ok(bytes)
}

#[test]
fn other_bytes_are_no_map(rt: HostRuntime) -> Result<(), Fail> {
    let alloc = rt.alloc();
    let good = bytes_of(alloc, &[2, 1, 5, 2, 6], b"ab")?;
    assert_eq!(rt; opened(alloc, good.as_slice())?.len(), 2);
    let rows: [(&[u64], &[u8]); 9] = [
        // the ends fall
        (&[2, 2, 5, 1, 6], b"ab"),
        // the keys are equal
        (&[2, 1, 5, 2, 6], b"aa"),
        // the keys fall
        (&[2, 1, 5, 2, 6], b"ba"),
        // a byte follows the last key
        (&[2, 1, 5, 2, 6], b"abc"),
        // a byte of the last key is missing
        (&[2, 1, 5, 2, 6], b"a"),
        // an end is past the keys
        (&[2, 1, 5, 3, 6], b"ab"),
        // there are more keys than ends
        (&[u64::MAX, 1, 5], b"a"),
        // no count
        (&[], b"1234567"),
        (&[], b""),
    ];
    for (numbers, keys) in rows {
        let bytes = bytes_of(alloc, numbers, keys)?;
        assert_eq!(rt;
            opened(alloc, bytes.as_slice()).err(),
            Some(MapError::Corrupt)
        );
    }
    Ok(())
}
