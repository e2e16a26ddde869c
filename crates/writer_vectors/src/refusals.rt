// Keys that don't rise, values that fall, and sinks that fail.
use owned_bytes::{MemSink, VecSink};
use sstable_tables::{SstWriteError, Unfinished, Writer};
use sstable_values::U64MonotonicValueWriter;
use std::test::Fail;

#[test]
fn keys_across_blocks(rt: HostRuntime) -> Result<(), Fail> {
    let alloc = rt.alloc();
    let mut writer: Writer<VecSink, U64MonotonicValueWriter> = Writer::create(
        alloc,
        VecSink::new(alloc),
    );
    writer.set_block_len(0);
    writer.insert(b"b", &7)?;
    assert_eq!(rt; writer.insert(b"a", &7), Err(SstWriteError::Unsorted));
    assert_eq!(rt; writer.insert(b"b", &7), Err(SstWriteError::Unsorted));
    // another block begins, so the value may fall
    writer.insert(b"c", &1)?;
    writer.set_block_len(100);
    writer.insert(b"d", &5)?;
    assert_eq!(rt; writer.insert(b"e", &4), Err(SstWriteError::ValueRefused));
    writer.insert(b"e", &5)?;
    Ok(())
}

#[test]
fn a_sink_that_fails(rt: HostRuntime) -> Result<(), Fail> {
    let alloc = rt.alloc();
    // the second call of the sink is the first block's values
    let sink = MemSink::new(alloc, vec![in alloc; 2]?);
    let mut writer: Writer<MemSink, U64MonotonicValueWriter> = Writer::new(alloc, sink);
    writer.set_block_len(0);
    assert_eq!(rt; writer.insert(b"a", &0), Err(SstWriteError::Write));
    assert_eq!(rt; writer.insert(b"b", &1), Err(SstWriteError::Spent));
    assert_eq!(rt; writer.flush_block_if_required(), Err(SstWriteError::Spent));
    match writer.finish() {
        Ok(sink) => {
            drop(sink);
            assert!(rt; false);
        }
        Err(Unfinished { sink, error }) => {
            assert_eq!(rt; error, SstWriteError::Spent);
            let front: &[u8] = &[5, 0, 0, 0, 0];
            assert_eq!(rt; sink.bytes(), front);
            drop(sink);
        }
    }
    Ok(())
}

#[test]
fn a_sink_that_fails_at_once(rt: HostRuntime) -> Result<(), Fail> {
    let alloc = rt.alloc();
    let sink = MemSink::new(alloc, vec![in alloc; 1]?);
    let mut writer: Writer<MemSink, U64MonotonicValueWriter> = Writer::new(alloc, sink);
    writer.insert(b"a", &0)?;
    match writer.finish() {
        Ok(sink) => {
            drop(sink);
            assert!(rt; false);
        }
        Err(Unfinished { sink, error }) => {
            assert_eq!(rt; error, SstWriteError::Write);
            let nothing: &[u8] = &[];
            assert_eq!(rt; sink.bytes(), nothing);
            drop(sink);
        }
    }
    Ok(())
}

#[test]
fn the_empty_key_twice(rt: HostRuntime) -> Result<(), Fail> {
    let alloc = rt.alloc();
    let mut writer: Writer<VecSink, U64MonotonicValueWriter> = Writer::new(
        alloc,
        VecSink::new(alloc),
    );
    writer.insert(b"", &0)?;
    assert_eq!(rt; writer.insert(b"", &0), Err(SstWriteError::Unsorted));
    writer.insert(b"a", &0)?;
    Ok(())
}
