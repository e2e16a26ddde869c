// Each of the four automata, also within bounds; with keys and without.
use crate::tables::{positions, positions_without_keys};
use fst_map::{AlwaysMatch, Exact, StartsWith, Union};
use std::ops::Bound;
use std::test::Fail;

#[test]
fn every_key(rt: HostRuntime) -> Result<(), Fail> {
    let alloc = rt.alloc();
    let found = positions(alloc, AlwaysMatch, Bound::Unbounded, Bound::Unbounded)?;
    assert_eq!(rt; found.as_slice(), [0, 1, 2, 3, 9, 10, 11].as_slice());
    Ok(())
}

#[test]
fn one_key(rt: HostRuntime) -> Result<(), Fail> {
    let alloc = rt.alloc();
    let rows: [(&[u8], &[u64]); 6] = [
        (b"", &[0]),
        (b"ab", &[2]),
        (b"b", &[9]),
        (b"ba", &[10]),
        (b"c", &[11]),
        (b"abb", &[]),
    ];
    for (key, wanted) in rows {
        let found = positions(alloc, Exact::new(key), Bound::Unbounded, Bound::Unbounded)?;
        assert_eq!(rt; found.as_slice(), wanted);
        let found = positions_without_keys(
            alloc,
            Exact::new(key),
            Bound::Unbounded,
            Bound::Unbounded,
        )?;
        assert_eq!(rt; found.as_slice(), wanted);
    }
    Ok(())
}

#[test]
fn keys_with_a_prefix(rt: HostRuntime) -> Result<(), Fail> {
    let alloc = rt.alloc();
    let rows: [(&[u8], Bound<&[u8]>, &[u64]); 5] = [
        (b"", Bound::Unbounded, &[0, 1, 2, 3, 9, 10, 11]),
        (b"a", Bound::Unbounded, &[1, 2, 3]),
        (b"ab", Bound::Excluded(b"ab"), &[3]),
        (b"b", Bound::Included(b"ab"), &[9, 10]),
        (b"d", Bound::Unbounded, &[]),
    ];
    for (prefix, lower, wanted) in rows {
        let found = positions(alloc, StartsWith::new(prefix), lower, Bound::Unbounded)?;
        assert_eq!(rt; found.as_slice(), wanted);
        let found = positions_without_keys(
            alloc,
            StartsWith::new(prefix),
            lower,
            Bound::Unbounded,
        )?;
        assert_eq!(rt; found.as_slice(), wanted);
    }
    Ok(())
}

#[test]
fn either_of_two(rt: HostRuntime) -> Result<(), Fail> {
    let alloc = rt.alloc();
    let either = Union::new(Exact::new(b""), StartsWith::new(b"b"));
    let found = positions(alloc, either, Bound::Unbounded, Bound::Unbounded)?;
    assert_eq!(rt; found.as_slice(), [0, 9, 10].as_slice());
    let found = positions_without_keys(
        alloc,
        either,
        Bound::Excluded(b""),
        Bound::Excluded(b"ba"),
    )?;
    assert_eq!(rt; found.as_slice(), [9].as_slice());
    Ok(())
}
