// Address stores, written and read again.
use block_addresses::{
    AddressStore, StoreError, addresses_are_found_alone, are_storable, stores_are_read_again,
    write_store,
};
use owned_bytes::OwnedBytes;
use sstable_blocks::BlockAddr;
use std::test::Fail;

// Four blocks of ten bytes and five keys each, from place 10 on.
const FOUR_BLOCKS: [u8; 45] = [
    36, 0, 0, 0, 0, 0, 0, 0, // length of the metas
    0, 0, 0, 0, 0, 0, 0, 0, // data offset
    10, 0, 0, 0, 0, 0, 0, 0, // range start
    0, 0, 0, 0, 0, 0, 0, 0, // first ordinal
    10, 0, 0, 0, // range slope
    5, 0, 0, 0, // ordinal slope
    1, 1, // ordinal bits, range bits
    3, 0, // the number of blocks less one
    0x7f,
];

fn opened(rt: &HostRuntime, bytes: &[u8]) -> Result<Result<AddressStore, StoreError>, Fail> {
    let bytes = OwnedBytes::new(rt.alloc(), bytes.to_vec(rt.alloc())?)?;
    Ok(AddressStore::open(rt.alloc(), bytes))
}

fn block(start: usize, end: usize, first_ordinal: u64) -> Option<BlockAddr> {
    Some(BlockAddr {
        first_ordinal,
        byte_range: start..end,
    })
}

#[test]
fn four_blocks(rt: HostRuntime) -> Result<(), Fail> {
    let mut bytes = Vec::new(rt.alloc());
    assert!(rt; are_storable(&[10, 20, 30, 40, 50], &[0, 5, 10, 15]));
    write_store(
        rt.alloc(),
        &[10, 20, 30, 40, 50],
        &[0, 5, 10, 15],
        &mut bytes,
    )?;
    assert_eq!(rt; bytes.as_slice(), FOUR_BLOCKS.as_slice());
    let store = opened(&rt, bytes.as_slice())??;
    assert_eq!(rt; store.len(), 4);
    assert_eq!(rt; store.get(0), block(10, 20, 0));
    assert_eq!(rt; store.get(2), block(30, 40, 10));
    assert_eq!(rt; store.get(3), block(40, 50, 15));
    assert_eq!(rt; store.get(4), None);
    assert_eq!(rt; store.get(u64::MAX), None);
    for (ord, number) in [(0, 0), (4, 0), (5, 1), (14, 2), (15, 3), (u64::MAX, 3)] {
        assert_eq!(rt; store.locate_with_ord(ord), number);
    }
    Ok(())
}

#[test]
fn two_blocks_behind_other_bytes(rt: HostRuntime) -> Result<(), Fail> {
    let mut bytes = b"ab".to_vec(rt.alloc())?;
    assert!(rt; are_storable(&[0, 9, 18], &[0, 1]));
    write_store(rt.alloc(), &[0, 9, 18], &[0, 1], &mut bytes)?;
    let expected: [u8; 47] = [
        97, 98, 36, 0, 0, 0, 0, 0, 0, 0, 0, 0, 0, 0, 0, 0, 0, 0, 0, 0, 0, 0, 0, 0, 0, 0, 0, 0, 0,
        0, 0, 0, 0, 0, 9, 0, 0, 0, 1, 0, 0, 0, 1, 1, 1, 0, 7,
    ];
    assert_eq!(rt; bytes.as_slice(), expected.as_slice());
    Ok(())
}

// Where block i of many starts: lengths go up and down.
fn start_at(i: u16) -> u64 {
    let i = i as u64;
    7 + 4000 * i + i * i % 977
}

// The position of its first key.
fn ordinal_at(i: u16) -> u64 {
    let i = i as u64;
    50 * i + i * 31 % 41
}

// The store of so many such blocks, where they can be stored.
fn many(rt: &HostRuntime, count: u16) -> Result<Option<Vec<u8>>, Fail> {
    let mut starts = Vec::new(rt.alloc());
    let mut ordinals = Vec::new(rt.alloc());
    for i in 0..count {
        starts.push(start_at(i))?;
        ordinals.push(ordinal_at(i))?;
    }
    starts.push(start_at(count))?;
    if !are_storable(&starts, &ordinals) {
        return Ok(None);
    }
    let mut bytes = Vec::new(rt.alloc());
    write_store(rt.alloc(), &starts, &ordinals, &mut bytes)?;
    Ok(Some(bytes))
}

// Whether the store has so many such blocks, each at its place.
fn has_many(store: &AddressStore, count: u16) -> bool {
    if count == 0 || store.len() != count as u64 || store.get(count as u64) != None {
        return false;
    }
    for i in 0..count {
        let ordinal = ordinal_at(i);
        let addr = block(start_at(i) as usize, start_at(i + 1) as usize, ordinal);
        if store.get(i as u64) != addr || store.locate_with_ord(ordinal) != i as u64 {
            return false;
        }
    }
    true
}

// One meta, two and three.
#[test]
fn many_blocks(rt: HostRuntime) -> Result<(), Fail> {
    stores_are_read_again();
    addresses_are_found_alone();
    for (count, metas_len) in [(128, 36), (129, 72), (300, 108)] {
        let bytes = many(&rt, count)?.unwrap_or(Vec::new(rt.alloc()));
        assert_eq!(rt; bytes.as_slice().first(), Some(&metas_len));
        let store = opened(&rt, bytes.as_slice())??;
        assert!(rt; has_many(&store, count));
    }
    Ok(())
}

#[test]
fn no_blocks(rt: HostRuntime) -> Result<(), Fail> {
    let mut bytes = Vec::new(rt.alloc());
    assert!(rt; are_storable(&[0], &[]));
    write_store(rt.alloc(), &[0], &[], &mut bytes)?;
    assert_eq!(rt; bytes.as_slice(), [0; 8].as_slice());
    let store = opened(&rt, bytes.as_slice())??;
    assert_eq!(rt; store.len(), 0);
    assert_eq!(rt; store.get(0), None);
    Ok(())
}

// The store of the four blocks with some bytes changed.
fn changed(rt: &HostRuntime, changes: &[(usize, u8)]) -> Result<Vec<u8>, Fail> {
    let mut bytes = FOUR_BLOCKS.to_vec(rt.alloc())?;
    for (place, byte) in changes {
        if let Some(old) = bytes.get_mut(*place) {
            *old = *byte;
        }
    }
    Ok(bytes)
}

#[test]
fn damaged_stores(rt: HostRuntime) -> Result<(), Fail> {
    let rows: [&[(usize, u8)]; 9] = [
        // The length of the metas is not that of one meta, or past the end.
        &[(0, 35)],
        &[(7, 1)],
        // The packed data begin behind their end, or end before those of five blocks.
        &[(8, 1)],
        &[(42, 4)],
        // Bits are outside of 1 to 56.
        &[(40, 0)],
        &[(41, 57)],
        // The second range is from 10 to 9.
        &[(32, 0), (44, 0x7b)],
        // The second ordinal is 9, and the third 8.
        &[(24, 9), (36, 0), (44, 0x77)],
        // There are 129 blocks.
        &[(42, 128)],
    ];
    for changes in rows {
        let bytes = changed(&rt, changes)?;
        let refused = opened(&rt, bytes.as_slice())?;
        assert!(rt; matches!(refused, Err(StoreError::Corrupt)));
    }
    for len in [0, 7, 43, 44] {
        let refused = opened(&rt, &FOUR_BLOCKS[..len])?;
        assert!(rt; matches!(refused, Err(StoreError::Corrupt)));
    }
    Ok(())
}
