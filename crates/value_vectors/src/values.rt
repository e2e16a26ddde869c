// Values, the bytes that they are written as, and what may not come after them.
use sstable_values::{
    BlockAddr, IndexValueReader, IndexValueWriter, RangeValueReader, RangeValueWriter,
    U64MonotonicValueReader, U64MonotonicValueWriter, ValueError, ValueReader, ValueWriter,
    VecU32ValueReader, VecU32ValueWriter, VoidValueReader, VoidValueWriter,
};
use std::alloc::{AllocError, Global};
use std::test::Fail;

// The bytes of a writer's values.
fn written<W: ValueWriter>(alloc: Global, writer: &W) -> Result<Vec<u8>, AllocError> {
    let mut bytes = Vec::new(alloc);
    writer.serialize_block(&mut bytes)?;
    Ok(bytes)
}

#[test]
fn no_bytes(rt: HostRuntime) -> Result<(), Fail> {
    let mut writer = VoidValueWriter::new(rt.alloc());
    assert!(rt; writer.accepts(&()));
    writer.write(&())?;
    let bytes = written(rt.alloc(), &writer)?;
    assert_eq!(rt; bytes.len(), 0);
    writer.clear();
    let mut reader = VoidValueReader::new(rt.alloc());
    assert_eq!(rt; reader.load(&[1, 2, 3])?, 0);
    assert_eq!(rt; reader.count(), None);
    assert_eq!(rt; *reader.value(7), ());
    Ok(())
}

#[test]
fn numbers_that_do_not_fall(rt: HostRuntime) -> Result<(), Fail> {
    let rows: [(&[u64], &[u8]); 4] = [
        (&[], &[0]),
        (&[5, 5], &[2, 5, 0]),
        (&[1, 1, 300], &[3, 1, 0, 0xab, 0x02]),
        (&[7], &[1, 7]),
    ];
    let mut writer = U64MonotonicValueWriter::new(rt.alloc());
    let mut reader = U64MonotonicValueReader::new(rt.alloc());
    for (numbers, bytes) in rows {
        writer.clear();
        for number in numbers {
            writer.write(number)?;
        }
        assert_eq!(rt; written(rt.alloc(), &writer)?.as_slice(), bytes);
        assert_eq!(rt; reader.load(bytes)?, bytes.len());
        assert_eq!(rt; reader.count(), Some(numbers.len()));
        for (i, number) in numbers.iter().enumerate() {
            assert_eq!(rt; reader.value(i), number);
        }
    }
    assert!(rt; !writer.accepts(&6));
    assert_eq!(rt; writer.write(&6), Err(ValueError::Refused));
    assert!(rt; writer.accepts(&7));
    Ok(())
}

#[test]
fn ranges_that_adjoin(rt: HostRuntime) -> Result<(), Fail> {
    let ranges = [(100, 110), (110, 121), (121, 1250)];
    let mut writer = RangeValueWriter::new(rt.alloc());
    for (start, end) in ranges {
        writer.write(&(start..end))?;
    }
    let bytes = written(rt.alloc(), &writer)?;
    assert_eq!(rt; bytes.as_slice(), [4, 100, 10, 11, 0xe9, 0x08].as_slice());
    let mut reader = RangeValueReader::new(rt.alloc());
    assert_eq!(rt; reader.load(bytes.as_slice())?, 6);
    assert_eq!(rt; reader.count(), Some(3));
    for (i, (start, end)) in ranges.into_iter().enumerate() {
        assert_eq!(rt; *reader.value(i), start..end);
    }
    writer.clear();
    writer.write(&(1..3))?;
    assert_eq!(rt; writer.write(&(4..10)), Err(ValueError::Refused));
    Ok(())
}

#[test]
fn places_of_blocks(rt: HostRuntime) -> Result<(), Fail> {
    let rows = [(0, 10, 0), (10, 20, 5), (20, 30, 10)];
    let mut writer = IndexValueWriter::new(rt.alloc());
    for (start, end, first_ordinal) in rows {
        writer.write(&BlockAddr {
            first_ordinal,
            byte_range: start..end,
        })?;
    }
    let bytes = written(rt.alloc(), &writer)?;
    assert_eq!(rt; bytes.as_slice(), [3, 0, 10, 0, 10, 5, 10, 5].as_slice());
    let mut reader = IndexValueReader::new(rt.alloc());
    assert_eq!(rt; reader.load(bytes.as_slice())?, 8);
    assert_eq!(rt; reader.count(), Some(3));
    for (i, (start, end, first_ordinal)) in rows.into_iter().enumerate() {
        let block = reader.value(i).clone()?;
        assert_eq!(rt; block.byte_range, start..end);
        assert_eq!(rt; block.first_ordinal, first_ordinal);
    }
    // an ordinal that falls, a gap, a range backwards
    for (start, end, first_ordinal) in [(30, 40, 9), (31, 40, 11), (30, 29, 11)] {
        let block = BlockAddr {
            first_ordinal,
            byte_range: start..end,
        };
        assert!(rt; !writer.accepts(&block));
        assert_eq!(rt; writer.write(&block), Err(ValueError::Refused));
    }
    writer.clear();
    let bytes = written(rt.alloc(), &writer)?;
    assert_eq!(rt; bytes.as_slice(), [0, 0].as_slice());
    Ok(())
}

#[test]
fn lists_of_numbers(rt: HostRuntime) -> Result<(), Fail> {
    let lists: [&[u32]; 2] = [&[], &[1, 2, 0xffff_ffff]];
    let mut writer = VecU32ValueWriter::new(rt.alloc());
    for list in lists {
        let list = list.to_vec(rt.alloc())?;
        assert!(rt; writer.accepts(&list));
        writer.write(&list)?;
    }
    let bytes = written(rt.alloc(), &writer)?;
    let expected = [
        2, 0, 0, 0, // how many lists
        0, 0, 0, 0, // the first one's length
        3, 0, 0, 0, 1, 0, 0, 0, 2, 0, 0, 0, 255, 255, 255, 255,
    ];
    assert_eq!(rt; bytes.as_slice(), expected.as_slice());
    let mut reader = VecU32ValueReader::new(rt.alloc());
    assert_eq!(rt; reader.load(bytes.as_slice())?, 24);
    assert_eq!(rt; reader.count(), Some(2));
    for (i, list) in lists.into_iter().enumerate() {
        assert_eq!(rt; reader.value(i).as_slice(), list);
    }
    writer.clear();
    let bytes = written(rt.alloc(), &writer)?;
    assert_eq!(rt; bytes.as_slice(), [0, 0, 0, 0].as_slice());
    Ok(())
}
