// Keys that wait for their values.
use owned_bytes::VecSink;
use sstable_tables::{SstWriteError, Writer};
use sstable_values::U64MonotonicValueWriter;
use std::test::Fail;

#[test]
fn a_key_and_then_its_value(rt: HostRuntime) -> Result<(), Fail> {
    let alloc = rt.alloc();
    let mut writer: Writer<VecSink, U64MonotonicValueWriter> = Writer::new(
        alloc,
        VecSink::new(alloc),
    );
    match writer.insert_key(b"b") {
        Ok(pending) => pending.insert_value(&3)?,
        Err(error) => return Err(error.into()),
    }
    match writer.insert_key(b"a") {
        Ok(pending) => {
            drop(pending);
            assert!(rt; false);
        }
        Err(error) => assert_eq!(rt; error, SstWriteError::Unsorted),
    }
    match writer.insert_key(b"c") {
        Ok(pending) => drop(pending),
        Err(error) => return Err(error.into()),
    }
    writer.insert(b"c", &3)?;
    assert_eq!(rt; writer.insert(b"c", &3), Err(SstWriteError::Unsorted));
    Ok(())
}
