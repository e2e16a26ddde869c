// Keys that don't rise, and sinks that fail.
use crate::blocks::Blocks;
use owned_bytes::{MemSink, VecSink};
use sstable_index::SstWriteError;
use std::alloc::{AllocError, Global};
use std::test::Fail;

// Blocks of two keys.
fn two_blocks(alloc: Global, first: &[u8], second: &[u8]) -> Result<Blocks, AllocError> {
    let mut blocks = Blocks::new(alloc, 0);
    blocks.add(first, 10, 5)?;
    blocks.add(second, 10, 5)?;
    Ok(blocks)
}

#[test]
fn keys_that_do_not_rise(rt: HostRuntime) -> Result<(), Fail> {
    let alloc = rt.alloc();
    let mut sink = VecSink::new(alloc);
    let equal = two_blocks(alloc, b"ab", b"ab")?;
    assert_eq!(rt;
        equal.builder.serialize(&mut sink),
        Err(SstWriteError::Unsorted)
    );
    assert_eq!(rt;
        equal.builder.serialize_v2(&mut sink),
        Err(SstWriteError::Unsorted)
    );
    let falling = two_blocks(alloc, b"ab", b"a")?;
    assert_eq!(rt;
        falling.builder.serialize(&mut sink),
        Err(SstWriteError::Unsorted)
    );
    assert_eq!(rt;
        falling.builder.serialize_v2(&mut sink),
        Err(SstWriteError::Unsorted)
    );
    assert_eq!(rt; sink.bytes().len(), 0);
    Ok(())
}

#[test]
fn sinks_that_fail(rt: HostRuntime) -> Result<(), Fail> {
    let alloc = rt.alloc();
    let blocks = two_blocks(alloc, b"a", b"b")?;
    let mut fails = Vec::new(alloc);
    fails.push(1)?;
    fails.push(2)?;
    let mut sink = MemSink::new(alloc, fails);
    assert_eq!(rt;
        blocks.builder.serialize(&mut sink),
        Err(SstWriteError::Write)
    );
    assert_eq!(rt;
        blocks.builder.serialize_v2(&mut sink),
        Err(SstWriteError::Write)
    );
    assert_eq!(rt; sink.bytes().len(), 0);
    assert_eq!(rt; blocks.builder.serialize(&mut sink)?, 42);
    Ok(())
}
