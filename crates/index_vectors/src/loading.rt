// Indexes that are loaded and looked up.
use crate::blocks::Blocks;
use owned_bytes::{OwnedBytes, VecSink};
use sstable_blocks::BlockAddr;
use sstable_index::{
    LoadError, SSTableDataCorruption, SSTableIndexV2, SSTableIndexV3, SstWriteError,
};
use std::alloc::{AllocError, Global};
use std::test::Fail;

const CORRUPT: LoadError = LoadError::Corrupt(SSTableDataCorruption);

// Three blocks of version 2, in two blocks of the index.
const THREE_BLOCKS: [u8; 35] = [
    9, 0, 0, 0, 0, 1, 0, 10, 0, 0x30, 0, 1, 2, 13, 0, 0, 0, 0, 2, 10, 10, 5, 10, 5, 0x21, 2, 2,
    0x21, 3, 2, 0, 0, 0, 0, 7,
];

fn owned(alloc: Global, bytes: &[u8]) -> Result<OwnedBytes, AllocError> {
    let mut copy = Vec::new(alloc);
    copy.extend_from_slice(bytes)?;
    OwnedBytes::new(alloc, copy)
}

fn at(start: usize, end: usize, first_ordinal: u64) -> Option<BlockAddr> {
    Some(BlockAddr {
        first_ordinal,
        byte_range: start..end,
    })
}

fn load_v2(alloc: Global, bytes: &[u8]) -> Result<SSTableIndexV2, LoadError> {
    SSTableIndexV2::load(alloc, owned(alloc, bytes)?)
}

#[test]
fn three_blocks_of_version_2(rt: HostRuntime) -> Result<(), Fail> {
    let alloc = rt.alloc();
    // with four zero bytes behind the blocks, and without
    for len in [34, 30] {
        let index = load_v2(alloc, &THREE_BLOCKS[..len])?;
        assert_eq!(rt; index.get_block(0), at(0, 10, 0));
        assert_eq!(rt; index.get_block(1), at(10, 20, 5));
        assert_eq!(rt; index.get_block(2), at(20, 30, 10));
        assert_eq!(rt; index.get_block(3), None);
        assert_eq!(rt; index.locate_with_key(&[]), Some(0));
        assert_eq!(rt; index.locate_with_key(&[0, 1, 2]), Some(0));
        assert_eq!(rt; index.locate_with_key(&[0, 1, 3]), Some(1));
        assert_eq!(rt; index.get_block_with_key(&[0, 3]), at(20, 30, 10));
        assert_eq!(rt; index.get_block_with_key(&[0, 3, 3]), None);
        assert_eq!(rt; index.locate_with_ord(4), 0);
        assert_eq!(rt; index.locate_with_ord(5), 1);
        assert_eq!(rt; index.get_block_with_ord(99), at(20, 30, 10));
    }
    Ok(())
}

#[test]
fn damaged_indexes_of_version_2(rt: HostRuntime) -> Result<(), Fail> {
    let alloc = rt.alloc();
    // three zero bytes behind the blocks, a last block that is cut, and another byte behind the zero bytes
    for len in [33, 29, 35] {
        assert_eq!(rt; load_v2(alloc, &THREE_BLOCKS[..len]).err(), Some(CORRUPT));
    }
    let mut bytes = THREE_BLOCKS;
    bytes[17] = 1;
    assert_eq!(rt;
        load_v2(alloc, &bytes[..34]).err(),
        Some(LoadError::Compressed(13))
    );
    assert_eq!(rt;
        load_v2(alloc, &[]).map(|index| index.get_block(0)),
        Ok(None)
    );
    Ok(())
}

// The map of the four keys, and the store of their blocks.
fn four_blocks(alloc: Global, store: &[u8]) -> Result<OwnedBytes, AllocError> {
    let map: &[u8] = &[
        4, 0, 0, 0, 0, 0, 0, 0, 3, 0, 0, 0, 0, 0, 0, 0, 0, 0, 0, 0, 0, 0, 0, 0, 10, 0, 0, 0, 0, 0,
        0, 0, 1, 0, 0, 0, 0, 0, 0, 0, 13, 0, 0, 0, 0, 0, 0, 0, 2, 0, 0, 0, 0, 0, 0, 0, 17, 0, 0, 0,
        0, 0, 0, 0, 3, 0, 0, 0, 0, 0, 0, 0,
    ];
    let mut bytes = Vec::new(alloc);
    bytes.extend_from_slice(map)?;
    bytes.extend_from_slice(b"aaabbbbbbbcccdddd")?;
    bytes.extend_from_slice(store)?;
    OwnedBytes::new(alloc, bytes)
}

const STORE: [u8; 45] = [
    0x24, 0, 0, 0, 0, 0, 0, 0, 0, 0, 0, 0, 0, 0, 0, 0, 10, 0, 0, 0, 0, 0, 0, 0, 0, 0, 0, 0, 0, 0,
    0, 0, 10, 0, 0, 0, 5, 0, 0, 0, 1, 1, 3, 0, 0x7f,
];

#[test]
fn four_blocks_of_version_3(rt: HostRuntime) -> Result<(), Fail> {
    let alloc = rt.alloc();
    let index = SSTableIndexV3::load(alloc, four_blocks(alloc, &STORE)?, 89)?;
    assert_eq!(rt; index.get_block(0), at(10, 20, 0));
    assert_eq!(rt; index.get_block(3), at(40, 50, 15));
    assert_eq!(rt; index.get_block(4), None);
    assert_eq!(rt; index.locate_with_key(b"bbbde"), Some(2));
    assert_eq!(rt; index.get_block_with_key(b"bbbde"), at(30, 40, 10));
    assert_eq!(rt; index.get_block_with_key(b"e"), None);
    assert_eq!(rt; index.locate_with_ord(0), 0);
    assert_eq!(rt; index.locate_with_ord(9), 1);
    assert_eq!(rt; index.get_block_with_ord(10), at(30, 40, 10));
    assert_eq!(rt; index.get_block_with_ord(99), at(40, 50, 15));
    Ok(())
}

#[test]
fn damaged_indexes_of_version_3(rt: HostRuntime) -> Result<(), Fail> {
    let alloc = rt.alloc();
    // the bits of ordinals and of starts, the number of blocks, and how many blocks the map tells
    for (place, byte) in [(40, 0), (40, 57), (41, 0), (41, 57), (42, 128), (42, 2)] {
        let mut store = STORE;
        store[place] = byte;
        let loaded = SSTableIndexV3::load(alloc, four_blocks(alloc, &store)?, 89);
        assert_eq!(rt; loaded.err(), Some(CORRUPT));
    }
    let cut = SSTableIndexV3::load(alloc, four_blocks(alloc, &STORE[..44])?, 89);
    assert_eq!(rt; cut.err(), Some(CORRUPT));
    for fst_length in [0, 88, 90, 135] {
        let loaded = SSTableIndexV3::load(alloc, four_blocks(alloc, &STORE)?, fst_length);
        assert_eq!(rt; loaded.err(), Some(CORRUPT));
    }
    Ok(())
}

// 300 blocks of 100 bytes and more, and seven keys each.
fn many_blocks(alloc: Global) -> Result<Blocks, AllocError> {
    let mut blocks = Blocks::new(alloc, 0);
    for i in 0..300u16 {
        blocks.add(&i.to_be_bytes(), 100 + i as u32, 7)?;
    }
    Ok(blocks)
}

fn many_of_version_3(alloc: Global) -> Result<Option<SSTableIndexV3>, SstWriteError> {
    let mut sink = VecSink::new(alloc);
    let map_len = many_blocks(alloc)?.builder.serialize(&mut sink)?;
    let bytes = sink.bytes();
    let len = bytes.len().saturating_sub(8);
    Ok(SSTableIndexV3::load(alloc, owned(alloc, &bytes[..len])?, map_len).ok())
}

#[test]
fn many_blocks_of_version_3(rt: HostRuntime) -> Result<(), Fail> {
    let index = many_of_version_3(rt.alloc())?.expect(&rt, "it is read again");
    let mut start: usize = 0;
    for i in 0..300u16 {
        let end = start.saturating_add(100 + i as usize);
        assert_eq!(rt; index.get_block(i as u64), at(start, end, 7 * i as u64));
        assert_eq!(rt; index.locate_with_key(&i.to_be_bytes()), Some(i as u64));
        assert_eq!(rt; index.locate_with_ord(7 * i as u64 + 6), i as u64);
        start = end;
    }
    assert_eq!(rt; index.get_block(300), None);
    Ok(())
}

#[test]
fn many_blocks_of_version_2(rt: HostRuntime) -> Result<(), Fail> {
    let mut sink = VecSink::new(rt.alloc());
    many_blocks(rt.alloc())?.builder.serialize_v2(&mut sink)?;
    let index = load_v2(rt.alloc(), sink.bytes())?;
    let mut start: usize = 0;
    for i in 0..300u16 {
        let end = start.saturating_add(100 + i as usize);
        assert_eq!(rt; index.get_block(i as u64), at(start, end, 7 * i as u64));
        assert_eq!(rt; index.locate_with_key(&i.to_be_bytes()), Some(i as u64));
        assert_eq!(rt; index.locate_with_ord(7 * i as u64 + 6), i as u64);
        start = end;
    }
    assert_eq!(rt; index.get_block(300), None);
    Ok(())
}
