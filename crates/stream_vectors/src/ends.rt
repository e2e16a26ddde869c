// Keys and values, ends and errors.
use crate::tables::{FIRST, LAST, seven_keys, slice};
use common_wire::WithoutKeys;
use fst_map::AlwaysMatch;
use sstable_blocks::{BlockError, U64MonotonicValueReader};
use sstable_streams::EntryStreamer;
use std::ops::Bound;
use std::test::Fail;

type Keyed = EntryStreamer<U64MonotonicValueReader, AlwaysMatch, Vec<u8>>;

type Keyless = EntryStreamer<U64MonotonicValueReader, AlwaysMatch, WithoutKeys>;

#[test]
fn keys_and_values(rt: HostRuntime) -> Result<(), Fail> {
    let alloc = rt.alloc();
    let rows: [(&[u8], u64); 7] = [
        (b"", 0),
        (b"a", 10),
        (b"ab", 20),
        (b"abc", 30),
        (b"b", 90),
        (b"ba", 100),
        (b"c", 110),
    ];
    let slices = seven_keys(alloc)?;
    let mut stream = Keyed::over_slices(
        alloc,
        slices,
        AlwaysMatch,
        Bound::Unbounded,
        Bound::Unbounded,
    )?;
    for (key, value) in rows {
        assert!(rt; stream.advance()?);
        assert_eq!(rt; stream.key(), key);
        assert_eq!(rt; *stream.value(), value);
    }
    assert_eq!(rt; stream.advance()?, false);
    Ok(())
}

#[test]
fn next_entry(rt: HostRuntime) -> Result<(), Fail> {
    let alloc = rt.alloc();
    let slices = seven_keys(alloc)?;
    let bound = b"b".to_vec(alloc)?;
    let mut stream = Keyed::over_slices(
        alloc,
        slices,
        AlwaysMatch,
        Bound::Excluded(bound),
        Bound::Unbounded,
    )?;
    let (key, value) = stream.next()?.ok_or("no entry")?;
    assert_eq!(rt; key, b"ba".as_slice());
    assert_eq!(rt; *value, 100);
    Ok(())
}

#[test]
fn next_value(rt: HostRuntime) -> Result<(), Fail> {
    let alloc = rt.alloc();
    let slices = seven_keys(alloc)?;
    let bound = b"b".to_vec(alloc)?;
    let mut stream = Keyless::over_slices(
        alloc,
        slices,
        AlwaysMatch,
        Bound::Excluded(bound),
        Bound::Unbounded,
    )?;
    let value = stream.next_without_key()?.ok_or("no value")?;
    assert_eq!(rt; *value, 100);
    Ok(())
}

#[test]
fn current_entries(rt: HostRuntime) -> Result<(), Fail> {
    let alloc = rt.alloc();
    let slices = seven_keys(alloc)?;
    let bound = b"ba".to_vec(alloc)?;
    let mut stream = Keyed::over_slices(
        alloc,
        slices,
        AlwaysMatch,
        Bound::Included(bound),
        Bound::Unbounded,
    )?;
    assert!(rt; stream.advance()?);
    assert_eq!(rt; stream.key(), b"ba".as_slice());
    assert_eq!(rt; *stream.value(), 100);
    assert_eq!(rt; stream.term_ord(), 10);
    Ok(())
}

#[test]
fn no_entries(rt: HostRuntime) -> Result<(), Fail> {
    let mut stream = Keyed::empty(rt.alloc())?;
    assert_eq!(rt; stream.advance()?, false);
    assert_eq!(rt; stream.advance()?, false);
    Ok(())
}

// The end comes with a key above the upper bound, and stays.
#[test]
fn an_end_within(rt: HostRuntime) -> Result<(), Fail> {
    let alloc = rt.alloc();
    let slices = seven_keys(alloc)?;
    let bound = b"a".to_vec(alloc)?;
    let mut stream = Keyless::over_slices(
        alloc,
        slices,
        AlwaysMatch,
        Bound::Unbounded,
        Bound::Excluded(bound),
    )?;
    assert!(rt; stream.advance()?);
    assert_eq!(rt; stream.term_ord(), 0);
    for _ in 0..3 {
        assert_eq!(rt; stream.advance()?, false);
    }
    Ok(())
}

// Behind the four entries of the first block stands one whose compress byte is 1.
#[test]
fn a_compressed_block(rt: HostRuntime) -> Result<(), Fail> {
    let alloc = rt.alloc();
    let mut bytes = FIRST.to_vec(alloc)?;
    bytes.extend_from_slice(&[9, 0, 0, 0, 1])?;
    let slices = vec![in alloc; slice(alloc, bytes.as_slice(), 5, 40)?]?;
    let mut stream = Keyless::over_slices(
        alloc,
        slices,
        AlwaysMatch,
        Bound::Unbounded,
        Bound::Unbounded,
    )?;
    for ordinal in 5..9 {
        assert!(rt; stream.advance()?);
        assert_eq!(rt; stream.term_ord(), ordinal);
    }
    for _ in 0..3 {
        assert_eq!(rt; stream.advance(), Err(BlockError::Compressed(57)));
    }
    Ok(())
}

// The second block is cut off.
#[test]
fn a_damaged_block(rt: HostRuntime) -> Result<(), Fail> {
    let alloc = rt.alloc();
    let mut bytes = FIRST.to_vec(alloc)?;
    bytes.extend_from_slice(&LAST[..9])?;
    let slices = vec![in alloc; slice(alloc, bytes.as_slice(), 0, 0)?]?;
    let mut stream = Keyed::over_slices(
        alloc,
        slices,
        AlwaysMatch,
        Bound::Unbounded,
        Bound::Unbounded,
    )?;
    for ordinal in 0..4 {
        assert!(rt; stream.advance()?);
        assert_eq!(rt; stream.term_ord(), ordinal);
    }
    assert_eq!(rt; stream.advance(), Err(BlockError::Corrupt));
    assert_eq!(rt; stream.advance(), Err(BlockError::Corrupt));
    Ok(())
}

// The position after the first entry's needs more than 64 bits.
#[test]
fn positions_past_64_bits(rt: HostRuntime) -> Result<(), Fail> {
    let alloc = rt.alloc();
    let slices = vec![in alloc; slice(alloc, &LAST, u64::MAX, 0)?]?;
    let mut stream = Keyed::over_slices(
        alloc,
        slices,
        AlwaysMatch,
        Bound::Unbounded,
        Bound::Unbounded,
    )?;
    assert!(rt; stream.advance()?);
    assert_eq!(rt; stream.term_ord(), u64::MAX);
    assert_eq!(rt; stream.advance(), Err(BlockError::Corrupt));
    assert_eq!(rt; stream.advance(), Err(BlockError::Corrupt));
    Ok(())
}
