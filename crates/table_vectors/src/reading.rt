// Index files as bytes, and what opening them and looking into them answers.
use index_reading::{IndexError, OpenIndex};
use owned_bytes::{BytesFile, Ids, MemFile, OwnedBytes};
use std::alloc::Global;
use std::test::Fail;

// Three documents, with the terms a, then a and b, then b in the field f.
const FILE: [u8; 60] = [
    3, 0, 0, 0, 4, 0, 0, 0, 0, 0, 0, 0, // documents and numbers
    0x94, // the numbers 0, 1, 1, 2
    0x0b, 0, 0, 0, 0, 3, 0, 2, 2, 0x30, 0x66, 0, 0x61, 0x12, 0x62, 0, 0, 0, 0, // blocks
    0, 0, 0, 0, 0, 0, 0, 0, // index part
    0x13, 0, 0, 0, 0, 0, 0, 0, 2, 0, 0, 0, 0, 0, 0, 0, 3, 0, 0, 0, // footer
];

const NO_DOCUMENTS: [u8; 44] = [
    0, 0, 0, 0, 0, 0, 0, 0, 0, 0, 0, 0, 0, 0, 0, 0, 0, 0, 0, 0, 0, 0, 0, 0, 4, 0, 0, 0, 0, 0, 0, 0,
    0, 0, 0, 0, 0, 0, 0, 0, 3, 0, 0, 0,
];

fn file_of(alloc: Global, bytes: &[u8]) -> Result<BytesFile, IndexError> {
    Ok(BytesFile::new(OwnedBytes::new(alloc, bytes.to_vec(alloc)?)?))
}

// How many documents an index has.
fn documents(alloc: Global, bytes: &[u8]) -> Result<u32, IndexError> {
    let mut file = file_of(alloc, bytes)?;
    match OpenIndex::open(alloc, &mut file) {
        Ok(index) => Ok(index.documents),
        Err(e) => Err(e),
    }
}

// The numbers at a key; none where it is not there.
fn numbers(alloc: Global, bytes: &[u8], key: &[u8]) -> Result<Ids, IndexError> {
    let mut file = file_of(alloc, bytes)?;
    let index = match OpenIndex::open(alloc, &mut file) {
        Ok(index) => index,
        Err(e) => return Err(e),
    };
    match index.numbers_at(alloc, &mut file, key) {
        Ok(Some(numbers)) => Ok(numbers),
        Ok(None) => Ok(Ids::new(alloc)),
        Err(e) => Err(e),
    }
}

// Why there are no numbers at the key of f and a; None where there are.
fn refusal(alloc: Global, bytes: &[u8]) -> Option<IndexError> {
    match numbers(alloc, bytes, b"f\0a") {
        Ok(_) => None,
        Err(e) => Some(e),
    }
}

#[test]
fn files_open(rt: HostRuntime) -> Result<(), Fail> {
    let alloc = rt.alloc();
    assert_eq!(rt; documents(alloc, &FILE), Ok(3));
    assert_eq!(rt; documents(alloc, &NO_DOCUMENTS), Ok(0));
    Ok(())
}

#[test]
fn files_are_refused(rt: HostRuntime) -> Result<(), Fail> {
    let alloc = rt.alloc();
    assert_eq!(rt;
        documents(alloc, &FILE[..59]),
        Err(IndexError::Version(768))
    );
    assert_eq!(rt; documents(alloc, &[3, 0, 0, 0]), Err(IndexError::Corrupt));
    assert_eq!(rt; documents(alloc, &[3, 0, 0]), Err(IndexError::Corrupt));
    let mut file = FILE;
    file[56] = 2;
    assert_eq!(rt; documents(alloc, &file), Err(IndexError::Corrupt));
    let mut file = FILE;
    file[11] = 255;
    assert_eq!(rt; documents(alloc, &file), Err(IndexError::Corrupt));
    Ok(())
}

#[test]
fn keys_have_numbers(rt: HostRuntime) -> Result<(), Fail> {
    let alloc = rt.alloc();
    let at_a = numbers(alloc, &FILE, b"f\0a")?;
    assert_eq!(rt; at_a.as_slice(), [0, 1].as_slice());
    let at_b = numbers(alloc, &FILE, b"f\0b")?;
    assert_eq!(rt; at_b.as_slice(), [1, 2].as_slice());
    let nothing = numbers(alloc, &FILE, b"f\0")?;
    assert_eq!(rt; nothing.len(), 0);
    let nothing = numbers(alloc, &NO_DOCUMENTS, b"f\0a")?;
    assert_eq!(rt; nothing.len(), 0);
    Ok(())
}

#[test]
fn damage_is_told(rt: HostRuntime) -> Result<(), Fail> {
    let alloc = rt.alloc();
    let mut file = FILE;
    file[17] = 1;
    assert_eq!(rt; refusal(alloc, &file), Some(IndexError::Compressed(13)));
    file[17] = 7;
    assert_eq!(rt; refusal(alloc, &file), Some(IndexError::Corrupt));
    // The numbers 0, 0 do not rise, and 1, 3 has one that is no document's.
    let mut file = FILE;
    file[12] = 0x90;
    assert_eq!(rt; refusal(alloc, &file), Some(IndexError::Corrupt));
    file[12] = 0x9d;
    assert_eq!(rt; refusal(alloc, &file), Some(IndexError::Corrupt));
    // The places of the key end past the one number that there is.
    let mut file = FILE;
    file[4] = 1;
    assert_eq!(rt; refusal(alloc, &file), Some(IndexError::Corrupt));
    Ok(())
}

#[test]
fn a_read_that_fails(rt: HostRuntime) -> Result<(), Fail> {
    let alloc = rt.alloc();
    let bytes = OwnedBytes::new(alloc, FILE.to_vec(alloc)?)?;
    let mut file = MemFile::new(bytes, vec![in alloc; 4u64]?);
    match OpenIndex::open(alloc, &mut file) {
        Ok(_) => assert!(rt; false),
        Err(e) => assert_eq!(rt; e, IndexError::Read),
    }
    let index = OpenIndex::open(alloc, &mut file)?;
    assert_eq!(rt; index.documents, 3);
    assert_eq!(rt; file.reads(), 8);
    Ok(())
}
