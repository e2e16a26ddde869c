// What no clause says: bytes from outside, and that each call succeeds.
use owned_bytes::{OwnedBytes, VecSink};
use sstable_blocks::{
    BlockError, BlockReader, DeltaReader, DeltaWriter, RangeValueReader, RangeValueWriter,
    ValueReader, ValueWriter, vint,
};
use std::test::Fail;

fn owned(rt: &HostRuntime, bytes: &[u8]) -> Result<OwnedBytes, Fail> {
    Ok(OwnedBytes::new(rt.alloc(), bytes.to_vec(rt.alloc())?)?)
}

#[test]
fn numbers_in_groups(rt: HostRuntime) -> Result<(), Fail> {
    let rows: [(u64, &[u8]); 3] = [
        (127, &[0x7f]),
        (128, &[0x80, 0x01]),
        (123_423_418, &[0xba, 0x95, 0xed, 0x3a]),
    ];
    for (number, bytes) in rows {
        let mut written = Vec::new(rt.alloc());
        vint::serialize_into_vec(number, &mut written)?;
        assert_eq!(rt; written.as_slice(), bytes);
        assert_eq!(rt; vint::deserialize_read(bytes), Some((bytes.len(), number)));
    }
    Ok(())
}

#[test]
fn ranges_that_adjoin(rt: HostRuntime) -> Result<(), Fail> {
    let mut writer = RangeValueWriter::new(rt.alloc());
    for (start, end) in [(100, 110), (110, 121), (121, 1250)] {
        writer.write(&(start..end))?;
    }
    assert!(rt; !writer.accepts(&(1..3)));
    let mut bytes = Vec::new(rt.alloc());
    writer.serialize_block(&mut bytes)?;
    assert_eq!(rt; bytes.as_slice(), [4, 100, 10, 11, 0xe9, 0x08].as_slice());
    let mut reader = RangeValueReader::new(rt.alloc());
    assert_eq!(rt; reader.load(bytes.as_slice())?, 6);
    assert_eq!(rt; reader.count(), Some(3));
    writer.clear();
    writer.write(&(1..3))?;
    assert!(rt; writer.write(&(4..10)).is_err());
    Ok(())
}

#[test]
fn entries_of_a_block(rt: HostRuntime) -> Result<(), Fail> {
    let mut writer: DeltaWriter<VecSink, RangeValueWriter> = DeltaWriter::new(
        rt.alloc(),
        VecSink::new(rt.alloc()),
    );
    writer.write_entry(0, b"a", &(0..1))?;
    writer.write_suffix(1, b"b")?;
    writer.write_value(&(1..3))?;
    assert_eq!(rt; writer.flush_block_if_required()?, None);
    writer.set_block_len(3);
    assert_eq!(rt; writer.flush_block_if_required()?, Some(0..13));
    assert_eq!(rt; writer.flush_block()?, None);
    let bytes = writer.finish().finish().into_bytes();
    let block = [9, 0, 0, 0, 0, 3, 0, 1, 2, 0x10, b'a', 0x11, b'b'];
    assert_eq!(rt; bytes.as_slice(), block.as_slice());
    let mut reader: DeltaReader<RangeValueReader> = DeltaReader::new(
        rt.alloc(),
        OwnedBytes::new(rt.alloc(), bytes)?,
        0,
    );
    for (keep, end) in [(0, 1), (1, 3)] {
        assert!(rt; reader.advance()?);
        assert_eq!(rt; reader.common_prefix_len(), keep);
        assert_eq!(rt; reader.suffix().len(), 1);
        assert_eq!(rt; reader.value().end, end);
    }
    assert!(rt; !reader.advance()?);
    let mut empty: DeltaReader<RangeValueReader> = DeltaReader::empty(rt.alloc());
    assert!(rt; !empty.advance()?);
    Ok(())
}

#[test]
fn damaged_blocks(rt: HostRuntime) -> Result<(), Fail> {
    let rows: [(&[u8], Result<bool, BlockError>); 7] = [
        (&[], Ok(false)),
        (&[1, 0, 0, 0, 1], Ok(false)),
        (&[2, 0, 0], Err(BlockError::Corrupt)),
        (&[2, 0, 0, 0], Err(BlockError::Corrupt)),
        (&[9, 0, 0, 0, 1], Err(BlockError::Compressed(7))),
        (&[2, 0, 0, 0, 2, 5], Err(BlockError::Corrupt)),
        (&[3, 0, 0, 0, 0, 5], Err(BlockError::Corrupt)),
    ];
    for (bytes, answer) in rows {
        let mut reader = BlockReader::new(rt.alloc(), owned(&rt, bytes)?, 7);
        assert_eq!(rt; reader.read_block(), answer);
        assert_eq!(rt; reader.read_block(), answer);
    }
    Ok(())
}

#[test]
fn the_parts_of_a_block(rt: HostRuntime) -> Result<(), Fail> {
    let bytes = [9, 0, 0, 0, 0, 0x80, 1, 1, 2, 3, 4, 5, 6];
    let mut reader = BlockReader::new(rt.alloc(), owned(&rt, &bytes)?, 0);
    assert!(rt; reader.read_block()?);
    assert_eq!(rt; reader.deserialize_u64()?, 128);
    let mut two = [0, 0];
    reader.read_exact(&mut two)?;
    assert_eq!(rt; two, [1, 2]);
    let mut three = [0, 0, 0];
    assert_eq!(rt; reader.read(&mut three), 3);
    assert_eq!(rt; three, [3, 4, 5]);
    let mut rest = Vec::new(rt.alloc());
    assert_eq!(rt; reader.read_to_end(&mut rest)?, 1);
    assert_eq!(rt; rest.as_slice(), [6].as_slice());
    Ok(())
}
