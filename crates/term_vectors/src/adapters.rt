// The adapters over std, each once.
use common_wire::{FileHandle, FileSlice, HasLen, Sink, Source, StdSink, StdSource};
use std::fs;
use std::fs::File;
use std::io::Write;
use std::test::Fail;

#[test]
fn a_sink_over_a_writer(rt: HostRuntime) -> Result<(), Fail> {
    let mut bytes = Vec::new(rt.alloc());
    {
        let mut sink = StdSink::new(&mut bytes);
        sink.write_all(b"one")?;
        sink.write_all(b" two")?;
        sink.flush()?;
    }
    assert_eq!(rt; bytes.as_slice(), b"one two".as_slice());
    Ok(())
}

#[test]
fn a_source_over_a_reader(rt: HostRuntime) -> Result<(), Fail> {
    let bytes: &[u8] = b"one";
    let mut source = StdSource::new(bytes);
    let mut buf = [0u8; 8];
    assert_eq!(rt; source.read(&mut buf)?, 3);
    assert_eq!(rt; buf[..3], b"one"[..3]);
    assert_eq!(rt; source.read(&mut buf)?, 0);
    Ok(())
}

#[test]
fn a_file(rt: HostRuntime) -> Result<(), Fail> {
    let path = "term_vectors_file";
    {
        let mut file = File::create(&rt, path)?;
        file.write_all(b"one two")?;
    }
    let (mut handle, whole) = FileSlice::open(&rt, path)?;
    assert_eq!(rt; whole.len(), 7);
    let bytes = whole.read_bytes(rt.alloc(), &mut handle)?;
    assert_eq!(rt; bytes.as_slice(), b"one two".as_slice());
    assert_eq!(rt; handle.reads(), 1);
    assert_eq!(rt; handle.fetched(), 7);
    let none = handle.read_bytes(rt.alloc(), 3..3)?;
    assert_eq!(rt; none.len(), 0);
    assert_eq!(rt; handle.reads(), 1);
    fs::remove_file(&rt, path)?;
    Ok(())
}
