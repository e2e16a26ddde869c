// Contents in which no values stand, and that a reader has none of the values from before.
use sstable_values::{
    BlockError, IndexValueReader, RangeValueReader, U64MonotonicValueReader, ValueReader,
    VecU32ValueReader,
};
use std::alloc::Global;
use std::test::Fail;

// Whether a reader refuses a content, and has no values after it.
fn refuses<R: ValueReader + Drop>(alloc: Global, content: &[u8]) -> bool {
    let mut reader = R::new(alloc);
    reader.load(content) == Err(BlockError::Corrupt) && reader.count() == Some(0)
}

#[test]
fn contents_without_values(rt: HostRuntime) -> Result<(), Fail> {
    let alloc = rt.alloc();
    // none, a count alone, a number too few, a sum past 64 bits
    let rows: [&[u8]; 4] = [
        &[],
        &[1],
        &[2, 1],
        &[2, 255, 255, 255, 255, 255, 255, 255, 255, 255, 1, 1],
    ];
    for content in rows {
        assert!(rt; refuses::<U64MonotonicValueReader>(alloc, content));
        assert!(rt; refuses::<RangeValueReader>(alloc, content));
    }
    // none, no first start, an ordinal too few, an end past 64 bits, an ordinal past 64 bits
    let rows: [&[u8]; 5] = [
        &[],
        &[0],
        &[1, 0, 10],
        &[1, 255, 255, 255, 255, 255, 255, 255, 255, 255, 1, 1, 0],
        &[
            2, 0, 0, 1, 0, 255, 255, 255, 255, 255, 255, 255, 255, 255, 1,
        ],
    ];
    for content in rows {
        assert!(rt; refuses::<IndexValueReader>(alloc, content));
    }
    // a count cut, far more lists than bytes, far more numbers than bytes
    let rows: [&[u8]; 3] = [
        &[1, 0, 0],
        &[255, 255, 255, 255, 0, 0, 0, 0],
        &[1, 0, 0, 0, 255, 255, 255, 255, 1, 0, 0, 0],
    ];
    for content in rows {
        assert!(rt; refuses::<VecU32ValueReader>(alloc, content));
    }
    Ok(())
}
