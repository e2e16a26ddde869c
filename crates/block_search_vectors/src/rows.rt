// What no clause says: that each call succeeds, at worked bytes.
use crate::lookups::{hit_of, reader_of, value_of};
use block_search::{KeyHit, go_to_number_with_key};
use sstable_blocks::BlockError;
use std::test::Fail;

// A block of the keys `a`, `ab` and `b`, with the values 5, 7 and 7.
const BLOCK: [u8; 15] = [
    11, 0, 0, 0, 0, 3, 5, 2, 0, 0x10, b'a', 0x11, b'b', 0x10, b'b',
];

// The block, and behind it one whose compress byte is 1.
const BLOCK_AND_COMPRESSED: [u8; 20] = [
    11, 0, 0, 0, 0, 3, 5, 2, 0, 0x10, b'a', 0x11, b'b', 0x10, b'b', 9, 0, 0, 0, 1,
];

// Two blocks of one key each, `ab` and `b`.
const TWO_BLOCKS: [u8; 19] = [
    6, 0, 0, 0, 0, 1, 5, 0x20, b'a', b'b', 5, 0, 0, 0, 0, 1, 6, 0x10, b'b',
];

#[test]
fn keys_that_are_there(rt: HostRuntime) -> Result<(), Fail> {
    let alloc = rt.alloc();
    let rows: [(&[u8], u64, u64); 3] = [(b"a", 0, 5), (b"ab", 1, 7), (b"b", 2, 7)];
    for (key, number, value) in rows {
        let hit = hit_of(alloc, &BLOCK, key)?;
        assert_eq!(rt; hit, (KeyHit::Exact(number), Some(value)));
    }
    Ok(())
}

#[test]
fn keys_that_are_missing(rt: HostRuntime) -> Result<(), Fail> {
    let alloc = rt.alloc();
    let rows: [(&[u8], u64); 5] = [(b"", 0), (b"A", 0), (b"aa", 1), (b"abc", 2), (b"c", 3)];
    for (key, number) in rows {
        assert_eq!(rt; hit_of(alloc, &BLOCK, key)?, (KeyHit::Next(number), None));
    }
    assert_eq!(rt; hit_of(alloc, &[], b"a")?, (KeyHit::Next(0), None));
    Ok(())
}

#[test]
fn keys_over_two_blocks(rt: HostRuntime) -> Result<(), Fail> {
    let alloc = rt.alloc();
    let rows: [(&[u8], KeyHit); 4] = [
        (b"ab", KeyHit::Exact(0)),
        (b"b", KeyHit::Exact(1)),
        (b"ac", KeyHit::Next(1)),
        (b"bb", KeyHit::Next(2)),
    ];
    for (key, hit) in rows {
        let (found, _value) = hit_of(alloc, &TWO_BLOCKS, key)?;
        assert_eq!(rt; found, hit);
    }
    Ok(())
}

#[test]
fn numbers(rt: HostRuntime) -> Result<(), Fail> {
    let alloc = rt.alloc();
    for (number, value) in [(0, Some(5)), (1, Some(7)), (2, Some(7)), (3, None)] {
        assert_eq!(rt; value_of(alloc, &BLOCK, number)?, value);
    }
    Ok(())
}

#[test]
fn keys_of_numbers_one_after_the_other(rt: HostRuntime) -> Result<(), Fail> {
    let alloc = rt.alloc();
    let mut reader = reader_of(alloc, &BLOCK)?;
    let mut key = Vec::new(alloc);
    assert!(rt; go_to_number_with_key(&mut reader, 1, &mut key)?);
    assert_eq!(rt; key.as_slice(), b"ab".as_slice());
    assert!(rt; go_to_number_with_key(&mut reader, 0, &mut key)?);
    assert_eq!(rt; key.as_slice(), b"b".as_slice());
    assert!(rt; !go_to_number_with_key(&mut reader, 0, &mut key)?);
    Ok(())
}

#[test]
fn a_compressed_block_behind(rt: HostRuntime) -> Result<(), Fail> {
    let alloc = rt.alloc();
    let there = hit_of(alloc, &BLOCK_AND_COMPRESSED, b"a");
    assert_eq!(rt; there, Ok((KeyHit::Exact(0), Some(5))));
    let missing = hit_of(alloc, &BLOCK_AND_COMPRESSED, b"c");
    assert_eq!(rt; missing, Err(BlockError::Compressed(115)));
    let past = value_of(alloc, &BLOCK_AND_COMPRESSED, 3);
    assert_eq!(rt; past, Err(BlockError::Compressed(115)));
    let cut = hit_of(alloc, &[11, 0, 0, 0, 0, 3], b"a");
    assert_eq!(rt; cut, Err(BlockError::Corrupt));
    Ok(())
}
