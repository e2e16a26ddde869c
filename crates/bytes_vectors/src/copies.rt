// Keys, copies, and a sink that is ended.
ghost use Rattle.std.specs.Prelude.{◌≡◌, IfOk};

use common_wire::{CountingWriter, TerminatingWrite};
use documents::key_of;
use owned_bytes::{CloneIn, Sink, Text, VecSink};
use std::alloc::{AllocError, Global};
use std::test::Fail;

fn copy_of<T: CloneIn>(alloc: Global, item: &T) -> Result<T, AllocError>
    ensures { IfOk result (λ copy. copy ≡ item.now) }
{
    item.clone_in(alloc)
}

#[test]
fn a_key_and_copies(rt: HostRuntime) -> Result<(), Fail> {
    let alloc = rt.alloc();
    let key = key_of(alloc, "f", "ab")?;
    assert_eq!(rt; key.as_slice(), [0x66, 0, 0x61, 0x62].as_slice());
    assert_eq!(rt; copy_of(alloc, &key)?.as_slice(), key.as_slice());
    let text = Text::from_str(alloc, "ab")?;
    assert_eq!(rt; copy_of(alloc, &text)?.as_str(), "ab");
    assert_eq!(rt; copy_of(alloc, &7u32)?, 7);
    Ok(())
}

#[test]
fn a_counting_writer_is_ended(rt: HostRuntime) -> Result<(), Fail> {
    let mut writer = CountingWriter::wrap(VecSink::new(rt.alloc()));
    writer.write_all(b"one")?;
    let (writer, answer) = writer.terminate();
    answer?;
    assert_eq!(rt; writer.written_bytes(), 3);
    assert_eq!(rt; writer.finish().bytes(), b"one".as_slice());
    Ok(())
}
