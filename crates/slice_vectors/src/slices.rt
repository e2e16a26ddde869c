// What no clause says: that each call over several slices succeeds, at worked bytes.
ghost use Rattle.std.specs.Prelude.{◌<◌, ◌+◌, ◌^◌, IfOk, length};

use owned_bytes::OwnedBytes;
use sstable_blocks::{BlockError, BlockReader, BlockSlice, DeltaReader, RangeValueReader};
use std::alloc::{AllocError, Global};
use std::test::Fail;

// A block of one key of one byte, whose value is 0..1.
fn block(key: u8) -> [u8; 10] {
    [6, 0, 0, 0, 0, 2, 0, 1, 0x10, key]
}

fn slice(
    alloc: Global,
    bytes: &[u8],
    first_ordinal: u64,
    start: u32,
) -> Result<BlockSlice, AllocError>
    ensures { IfOk result (λ slice. slice.start + length slice.bytes < 2 ^ 64) }
{
    Ok(BlockSlice {
        bytes: OwnedBytes::new(alloc, bytes.to_vec(alloc)?)?,
        first_ordinal,
        start: u64::from(start),
    })
}

// The first slice has one entry, the second none, and the third one.
#[test]
fn entries_of_slices(rt: HostRuntime) -> Result<(), Fail> {
    let alloc = rt.alloc();
    let first = slice(alloc, &block(b'a'), 7, 0)?;
    let empty = slice(alloc, &[], 12, 10)?;
    let last = slice(alloc, &block(b'b'), 20, 40)?;
    let mut reader: DeltaReader<RangeValueReader> = DeltaReader::from_multiple_blocks(
        alloc,
        vec![in alloc; first, empty, last]?,
    );
    for (key, ordinal) in [(b'a', 7), (b'b', 20)] {
        assert!(rt; reader.advance()?);
        assert_eq!(rt; reader.take_first_ordinal(), Some(ordinal));
        assert_eq!(rt; reader.take_first_ordinal(), None);
        assert_eq!(rt; reader.common_prefix_len(), 0);
        assert_eq!(rt; reader.suffix(), [key].as_slice());
        assert_eq!(rt; reader.value().end, 1);
    }
    assert!(rt; !reader.advance()?);
    assert!(rt; !reader.advance()?);
    Ok(())
}

// The first ordinal of the first slice is not asked for.
#[test]
fn the_ordinal_of_the_slice_it_came_to_last(rt: HostRuntime) -> Result<(), Fail> {
    let alloc = rt.alloc();
    let first = slice(alloc, &block(b'a'), 7, 0)?;
    let last = slice(alloc, &block(b'b'), 20, 10)?;
    let mut reader: DeltaReader<RangeValueReader> = DeltaReader::from_multiple_blocks(
        alloc,
        vec![in alloc; first, last]?,
    );
    assert!(rt; reader.advance()?);
    assert!(rt; reader.advance()?);
    assert_eq!(rt; reader.take_first_ordinal(), Some(20));
    assert_eq!(rt; reader.take_first_ordinal(), None);
    Ok(())
}

// The second block says 6 bytes and has 3. The second slice begins with a block whose compress byte is 1.
#[test]
fn errors_in_later_blocks(rt: HostRuntime) -> Result<(), Fail> {
    let alloc = rt.alloc();
    let cut = [6, 0, 0, 0, 0, 2, 0, 1, 0x10, b'a', 6, 0, 0, 0, 0, 2, 0];
    let mut reader: DeltaReader<RangeValueReader> = DeltaReader::from_multiple_blocks(
        alloc,
        vec![in alloc; slice(alloc, &cut, 0, 0)?]?,
    );
    assert!(rt; reader.advance()?);
    assert_eq!(rt; reader.advance(), Err(BlockError::Corrupt));
    assert_eq!(rt; reader.advance(), Err(BlockError::Corrupt));
    let first = slice(alloc, &block(b'a'), 0, 0)?;
    let second = slice(alloc, &[9, 0, 0, 0, 1], 1, 40)?;
    let mut reader: DeltaReader<RangeValueReader> = DeltaReader::from_multiple_blocks(
        alloc,
        vec![in alloc; first, second]?,
    );
    assert!(rt; reader.advance()?);
    assert_eq!(rt; reader.advance(), Err(BlockError::Compressed(40)));
    assert_eq!(rt; reader.advance(), Err(BlockError::Compressed(40)));
    Ok(())
}

#[test]
fn blocks_of_slices(rt: HostRuntime) -> Result<(), Fail> {
    let alloc = rt.alloc();
    let first = slice(alloc, &block(b'a'), 7, 0)?;
    let last = slice(alloc, &block(b'b'), 20, 10)?;
    let mut reader = BlockReader::from_multiple_blocks(alloc, vec![in alloc; first, last]?);
    assert_eq!(rt; reader.take_first_ordinal(), Some(7));
    assert!(rt; reader.read_block()?);
    assert_eq!(rt; reader.take_first_ordinal(), None);
    assert!(rt; reader.read_block()?);
    assert_eq!(rt; reader.take_first_ordinal(), Some(20));
    assert_eq!(rt; reader.buffer(), [2, 0, 1, 0x10, b'b'].as_slice());
    assert!(rt; !reader.read_block()?);
    let mut none = BlockReader::from_multiple_blocks(alloc, Vec::new(alloc));
    assert!(rt; !none.read_block()?);
    assert_eq!(rt; none.take_first_ordinal(), None);
    Ok(())
}

#[test]
fn a_reader_without_entries(rt: HostRuntime) -> Result<(), Fail> {
    let mut reader: DeltaReader<RangeValueReader> = DeltaReader::empty(rt.alloc());
    assert!(rt; !reader.advance()?);
    assert_eq!(rt; reader.take_first_ordinal(), None);
    Ok(())
}
