// Index parts byte for byte.
use crate::blocks::Blocks;
use owned_bytes::VecSink;
use sstable_index::SstWriteError;
use std::alloc::Global;
use std::test::Fail;

#[test]
fn four_blocks(rt: HostRuntime) -> Result<(), Fail> {
    let mut blocks = Blocks::new(rt.alloc(), 10);
    blocks.add(b"aaa", 10, 5)?;
    blocks.add(b"bbbbbbb", 10, 5)?;
    blocks.add(b"ccc", 10, 5)?;
    blocks.add(b"dddd", 10, 5)?;
    let mut sink = VecSink::new(rt.alloc());
    assert_eq!(rt; blocks.builder.serialize(&mut sink)?, 89);
    let map: &[u8] = &[
        4, 0, 0, 0, 0, 0, 0, 0, 3, 0, 0, 0, 0, 0, 0, 0, 0, 0, 0, 0, 0, 0, 0, 0, 10, 0, 0, 0, 0, 0,
        0, 0, 1, 0, 0, 0, 0, 0, 0, 0, 13, 0, 0, 0, 0, 0, 0, 0, 2, 0, 0, 0, 0, 0, 0, 0, 17, 0, 0, 0,
        0, 0, 0, 0, 3, 0, 0, 0, 0, 0, 0, 0,
    ];
    let store: &[u8] = &[
        0x24, 0, 0, 0, 0, 0, 0, 0, 0, 0, 0, 0, 0, 0, 0, 0, 10, 0, 0, 0, 0, 0, 0, 0, 0, 0, 0, 0, 0,
        0, 0, 0, 10, 0, 0, 0, 5, 0, 0, 0, 1, 1, 3, 0, 0x7f,
    ];
    let mut wanted = Vec::new(rt.alloc());
    wanted.extend_from_slice(map)?;
    wanted.extend_from_slice(b"aaabbbbbbbcccdddd")?;
    wanted.extend_from_slice(store)?;
    wanted.extend_from_slice(&[89, 0, 0, 0, 0, 0, 0, 0])?;
    assert_eq!(rt; sink.bytes(), wanted.as_slice());
    Ok(())
}

#[test]
fn three_blocks_of_version_2(rt: HostRuntime) -> Result<(), Fail> {
    let mut blocks = Blocks::new(rt.alloc(), 0);
    blocks.add(&[0, 1, 2], 10, 5)?;
    blocks.add(&[0, 2, 2], 10, 5)?;
    blocks.add(&[0, 3, 2], 10, 5)?;
    let mut sink = VecSink::new(rt.alloc());
    blocks.builder.serialize_v2(&mut sink)?;
    let wanted: &[u8] = &[
        0x13, 0, 0, 0, 0, 0x03, 0x00, 0x0a, 0x00, 0x0a, 0x05, 0x0a, 0x05, 0x30, 0x00, 0x01, 0x02,
        0x21, 0x02, 0x02, 0x21, 0x03, 0x02, 0, 0, 0, 0,
    ];
    assert_eq!(rt; sink.bytes(), wanted);
    Ok(())
}

#[test]
fn at_most_one_block(rt: HostRuntime) -> Result<(), Fail> {
    let mut blocks = Blocks::new(rt.alloc(), 0);
    let mut sink = VecSink::new(rt.alloc());
    assert_eq!(rt; blocks.builder.serialize(&mut sink)?, 0);
    blocks.add(b"key", 10, 5)?;
    assert_eq!(rt; blocks.builder.serialize(&mut sink)?, 0);
    let zeros: &[u8] = &[0; 16];
    assert_eq!(rt; sink.bytes(), zeros);
    Ok(())
}

// The keys of an index of two blocks, the first of which is shortened before the second key.
fn shortened(alloc: Global, left: &[u8], right: &[u8]) -> Result<Vec<u8>, SstWriteError> {
    let mut blocks = Blocks::new(alloc, 0);
    blocks.add(left, 10, 5)?;
    blocks.shorten(right);
    blocks.add(right, 10, 5)?;
    let mut sink = VecSink::new(alloc);
    let map_len = blocks.builder.serialize(&mut sink)? as usize;
    let mut keys = Vec::new(alloc);
    if 40 <= map_len && map_len <= sink.bytes().len() {
        keys.extend_from_slice(&sink.bytes()[40..map_len])?;
    }
    Ok(keys)
}

#[test]
fn shortened_keys(rt: HostRuntime) -> Result<(), Fail> {
    // the last two go past bytes 255, and find no other byte
    let rows: [(&[u8], &[u8], &[u8]); 5] = [
        (b"abcd", b"abzz", b"abceabzz"),
        (b"aaaaaa", b"b", b"abb"),
        (b"ab", b"abc", b"ababc"),
        (&[97, 255, 255, 7, 9], b"c", &[97, 255, 255, 8, 99]),
        (&[97, 255, 255], b"c", &[97, 255, 255, 99]),
    ];
    for (left, right, keys) in rows {
        let found = shortened(rt.alloc(), left, right)?;
        assert_eq!(rt; found.as_slice(), keys);
    }
    Ok(())
}

// How many metas the store of so many blocks has.
fn metas_of(alloc: Global, count: u16) -> Result<u64, SstWriteError> {
    let mut blocks = Blocks::new(alloc, 0);
    for i in 0..count {
        blocks.add(&i.to_be_bytes(), 100 + i as u32, 7)?;
    }
    let mut sink = VecSink::new(alloc);
    let map_len = blocks.builder.serialize(&mut sink)? as usize;
    let bytes = sink.bytes();
    if map_len <= bytes.len() {
        if let Some(word) = bytes[map_len..].first_chunk::<8>() {
            return Ok(u64::from_le_bytes(*word) / 36);
        }
    }
    Ok(0)
}

#[test]
fn metas_of_many_blocks(rt: HostRuntime) -> Result<(), Fail> {
    assert_eq!(rt; metas_of(rt.alloc(), 2)?, 1);
    assert_eq!(rt; metas_of(rt.alloc(), 128)?, 1);
    assert_eq!(rt; metas_of(rt.alloc(), 129)?, 2);
    assert_eq!(rt; metas_of(rt.alloc(), 300)?, 3);
    Ok(())
}

#[test]
fn several_blocks_of_version_2(rt: HostRuntime) -> Result<(), Fail> {
    let first = [1; 3000];
    let second = [2; 3000];
    let third = [3; 3000];
    let mut blocks = Blocks::new(rt.alloc(), 0);
    blocks.add(&first, 10, 5)?;
    blocks.add(&second, 10, 5)?;
    blocks.add(&third, 10, 5)?;
    let mut sink = VecSink::new(rt.alloc());
    blocks.builder.serialize_v2(&mut sink)?;
    // 6 bytes of places and twice 3,004 of keys, and then 4 bytes of places and 3,004 of keys
    let mut wanted = Vec::new(rt.alloc());
    wanted.extend_from_slice(&[0x7f, 0x17, 0, 0, 0, 2, 0, 10, 0, 10, 5])?;
    wanted.extend_from_slice(&[1, 0, 0xb8, 0x17])?;
    wanted.extend_from_slice(&first)?;
    wanted.extend_from_slice(&[1, 0, 0xb8, 0x17])?;
    wanted.extend_from_slice(&second)?;
    wanted.extend_from_slice(&[0xc1, 0x0b, 0, 0, 0, 1, 20, 10, 10])?;
    wanted.extend_from_slice(&[1, 0, 0xb8, 0x17])?;
    wanted.extend_from_slice(&third)?;
    wanted.extend_from_slice(&[0; 4])?;
    assert_eq!(rt; sink.bytes(), wanted.as_slice());
    Ok(())
}
