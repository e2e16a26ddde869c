// Parts of bytes and of files, numbers and lists: calls that may want memory, with memory at hand.
ghost use Rattle.std.specs.Prelude.{◌≡◌, IfOk, length};

use common_wire::{FileSlice, read_part, serialize_vint_u128};
use owned_bytes::{BytesFile, Ids, OwnedBytes, file_len, last_u32, last_u64};
use std::alloc::{AllocError, Global};
use std::test::Fail;

// The bytes 0 to 9.
fn ten(alloc: Global) -> Result<OwnedBytes, AllocError>
    ensures { IfOk result (λ bytes. length bytes ≡ 10) }
{
    OwnedBytes::new(alloc, [0, 1, 2, 3, 4, 5, 6, 7, 8, 9].to_vec(alloc)?)
}

#[test]
fn cuts_of_bytes(rt: HostRuntime) -> Result<(), Fail> {
    let alloc = rt.alloc();
    let part = ten(alloc)?.slice(alloc, 2..4)?;
    assert_eq!(rt; part.as_slice(), [2, 3].as_slice());
    let (front, back) = ten(alloc)?.split(alloc, 9)?;
    assert_eq!(rt; front.len(), 9);
    assert_eq!(rt; back.as_slice(), [9].as_slice());
    let (front, back) = ten(alloc)?.rsplit(alloc, 9)?;
    assert_eq!(rt; front.as_slice(), [0].as_slice());
    assert_eq!(rt; back.len(), 9);
    Ok(())
}

#[test]
fn parts_of_a_file(rt: HostRuntime) -> Result<(), Fail> {
    let alloc = rt.alloc();
    let mut file = BytesFile::new(ten(alloc)?);
    assert_eq!(rt; file_len(&file), 10);
    let part = read_part(alloc, &mut file, 3..5)?;
    assert_eq!(rt; part.as_slice(), [3, 4].as_slice());
    let slice = FileSlice::new(&file);
    let part = slice.read_bytes_slice(alloc, &mut file, 8..10)?;
    assert_eq!(rt; part.as_slice(), [8, 9].as_slice());
    assert_eq!(rt; file.reads(), 2);
    assert_eq!(rt; file.fetched(), 4);
    Ok(())
}

#[test]
fn pieces_of_a_file(rt: HostRuntime) -> Result<(), Fail> {
    let alloc = rt.alloc();
    let mut file = BytesFile::new(ten(alloc)?);
    let mut chunks = FileSlice::new(&file).stream_file_chunks();
    let piece = chunks.next_chunk(alloc, &mut file)?;
    assert_eq!(rt; piece.map_or(0, |piece| piece.len()), 10);
    Ok(())
}

#[test]
fn the_last_numbers(rt: HostRuntime) {
    assert_eq!(rt; last_u32(&[9, 1, 2, 0, 0]), 513);
    assert_eq!(rt; last_u64(&[9, 1, 2, 0, 0, 0, 0, 0, 0]), 513);
}

#[test]
fn numbers_and_lists(rt: HostRuntime) -> Result<(), Fail> {
    let alloc = rt.alloc();
    let mut bytes = Vec::new(alloc);
    serialize_vint_u128(128, &mut bytes)?;
    assert_eq!(rt; bytes.as_slice(), [0x00, 0x81].as_slice());
    let mut ids = Ids::new(alloc);
    ids.push(3)?;
    ids.push(5)?;
    let copy = ids.clone(alloc)?;
    assert_eq!(rt; copy.as_slice(), [3, 5].as_slice());
    assert_eq!(rt; ids.pop(), Some(5));
    Ok(())
}
