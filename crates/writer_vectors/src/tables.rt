// Tables byte for byte.
use owned_bytes::VecSink;
use sstable_tables::{SstWriteError, Unfinished, Writer};
use sstable_values::U64MonotonicValueWriter;
use std::alloc::{AllocError, Global};
use std::test::Fail;

// The bytes of a table of these keys, whose values are their positions.
fn table(alloc: Global, block_len: usize, keys: &[&[u8]]) -> Result<Vec<u8>, SstWriteError> {
    let mut writer: Writer<VecSink, U64MonotonicValueWriter> = Writer::new(
        alloc,
        VecSink::new(alloc),
    );
    writer.set_block_len(block_len);
    for i in 0..keys.len() {
        writer.insert(keys[i], &(i as u64))?;
    }
    match writer.finish() {
        Ok(sink) => Ok(sink.into_bytes()),
        Err(Unfinished { sink, error }) => {
            drop(sink);
            Err(error)
        }
    }
}

// These pieces one after the other.
fn joined(alloc: Global, pieces: &[&[u8]]) -> Result<Vec<u8>, AllocError> {
    let mut bytes = Vec::new(alloc);
    for piece in pieces {
        bytes.extend_from_slice(piece)?;
    }
    Ok(bytes)
}

#[test]
fn two_blocks(rt: HostRuntime) -> Result<(), Fail> {
    let found = table(rt.alloc(), 0, &[b"a", b"b"])?;
    let blocks: &[u8] = &[
        5, 0, 0, 0, 0, 1, 0, 0x10, 0x61, 5, 0, 0, 0, 0, 1, 1, 0x10, 0x62, 0, 0, 0, 0,
    ];
    let map: &[u8] = &[
        2, 0, 0, 0, 0, 0, 0, 0, 1, 0, 0, 0, 0, 0, 0, 0, 0, 0, 0, 0, 0, 0, 0, 0, 2, 0, 0, 0, 0, 0,
        0, 0, 1, 0, 0, 0, 0, 0, 0, 0, 0x61, 0x62,
    ];
    let store: &[u8] = &[
        0x24, 0, 0, 0, 0, 0, 0, 0, 0, 0, 0, 0, 0, 0, 0, 0, 0, 0, 0, 0, 0, 0, 0, 0, 0, 0, 0, 0, 0,
        0, 0, 0, 9, 0, 0, 0, 1, 0, 0, 0, 1, 1, 1, 0, 7,
    ];
    let end: &[u8] = &[
        0x2a, 0, 0, 0, 0, 0, 0, 0, 0x16, 0, 0, 0, 0, 0, 0, 0, 2, 0, 0, 0, 0, 0, 0, 0, 3, 0, 0, 0,
    ];
    let wanted = joined(rt.alloc(), &[blocks, map, store, end])?;
    assert_eq!(rt; found.as_slice(), wanted.as_slice());
    Ok(())
}

#[test]
fn blocks_by_their_length(rt: HostRuntime) -> Result<(), Fail> {
    // each delta has two bytes, so the third key closes the block
    let mut found = table(rt.alloc(), 4, &[b"a", b"b", b"c", b"d"])?;
    let wanted: &[u8] = &[
        11, 0, 0, 0, 0, 3, 0, 1, 1, 0x10, 0x61, 0x10, 0x62, 0x10, 0x63, 5, 0, 0, 0, 0, 1, 3, 0x10,
        0x64, 0, 0, 0, 0,
    ];
    found.truncate(wanted.len());
    assert_eq!(rt; found.as_slice(), wanted);
    Ok(())
}

#[test]
fn one_block(rt: HostRuntime) -> Result<(), Fail> {
    let found = table(rt.alloc(), usize::MAX, &[b"a", b"ab"])?;
    let wanted: &[u8] = &[
        8, 0, 0, 0, 0, 2, 0, 1, 0x10, 0x61, 0x11, 0x62, 0, 0, 0, 0, 0, 0, 0, 0, 0, 0, 0, 0, 16, 0,
        0, 0, 0, 0, 0, 0, 2, 0, 0, 0, 0, 0, 0, 0, 3, 0, 0, 0,
    ];
    assert_eq!(rt; found.as_slice(), wanted);
    Ok(())
}

#[test]
fn no_block(rt: HostRuntime) -> Result<(), Fail> {
    let found = table(rt.alloc(), 0, &[])?;
    let wanted: &[u8] = &[
        0, 0, 0, 0, 0, 0, 0, 0, 0, 0, 0, 0, 4, 0, 0, 0, 0, 0, 0, 0, 0, 0, 0, 0, 0, 0, 0, 0, 3, 0,
        0, 0,
    ];
    assert_eq!(rt; found.as_slice(), wanted);
    Ok(())
}
