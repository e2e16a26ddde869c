// Bounds of each kind, at keys and between them; with keys and without.
use crate::tables::{positions, positions_without_keys};
use fst_map::AlwaysMatch;
use std::ops::Bound;
use std::test::Fail;

const ALL: [u64; 7] = [0, 1, 2, 3, 9, 10, 11];

#[test]
fn lower_bounds(rt: HostRuntime) -> Result<(), Fail> {
    let alloc = rt.alloc();
    let rows: [(Bound<&[u8]>, usize); 14] = [
        (Bound::Unbounded, 0),
        (Bound::Included(b""), 0),
        (Bound::Excluded(b""), 1),
        (Bound::Included(b"a"), 1),
        (Bound::Included(b"aa"), 2),
        (Bound::Excluded(b"aa"), 2),
        (Bound::Included(b"ab"), 2),
        (Bound::Excluded(b"ab"), 3),
        (Bound::Included(b"abd"), 4),
        (Bound::Included(b"b"), 4),
        (Bound::Excluded(b"b"), 5),
        (Bound::Included(b"c"), 6),
        (Bound::Excluded(b"c"), 7),
        (Bound::Included(b"d"), 7),
    ];
    for (lower, first) in rows {
        let found = positions(alloc, AlwaysMatch, lower, Bound::Unbounded)?;
        assert_eq!(rt; Some(found.as_slice()), ALL.get(first..));
        let found = positions_without_keys(alloc, AlwaysMatch, lower, Bound::Unbounded)?;
        assert_eq!(rt; Some(found.as_slice()), ALL.get(first..));
    }
    Ok(())
}

#[test]
fn upper_bounds(rt: HostRuntime) -> Result<(), Fail> {
    let alloc = rt.alloc();
    let rows: [(Bound<&[u8]>, usize); 14] = [
        (Bound::Unbounded, 7),
        (Bound::Excluded(b""), 0),
        (Bound::Included(b""), 1),
        (Bound::Excluded(b"a"), 1),
        (Bound::Excluded(b"aa"), 2),
        (Bound::Included(b"aa"), 2),
        (Bound::Excluded(b"ab"), 2),
        (Bound::Included(b"ab"), 3),
        (Bound::Excluded(b"abd"), 4),
        (Bound::Excluded(b"b"), 4),
        (Bound::Included(b"b"), 5),
        (Bound::Excluded(b"c"), 6),
        (Bound::Included(b"c"), 7),
        (Bound::Excluded(b"d"), 7),
    ];
    for (upper, count) in rows {
        let found = positions(alloc, AlwaysMatch, Bound::Unbounded, upper)?;
        assert_eq!(rt; Some(found.as_slice()), ALL.get(..count));
        let found = positions_without_keys(alloc, AlwaysMatch, Bound::Unbounded, upper)?;
        assert_eq!(rt; Some(found.as_slice()), ALL.get(..count));
    }
    Ok(())
}

#[test]
fn both_bounds(rt: HostRuntime) -> Result<(), Fail> {
    let alloc = rt.alloc();
    let rows: [(Bound<&[u8]>, Bound<&[u8]>, &[u64]); 6] = [
        (Bound::Included(b"ab"), Bound::Excluded(b"ba"), &[2, 3, 9]),
        (
            Bound::Excluded(b"a"),
            Bound::Included(b"ba"),
            &[2, 3, 9, 10],
        ),
        (Bound::Included(b"ab"), Bound::Included(b"ab"), &[2]),
        (Bound::Included(b"ab"), Bound::Excluded(b"ab"), &[]),
        (Bound::Excluded(b"ab"), Bound::Included(b"ab"), &[]),
        (Bound::Included(b"b"), Bound::Excluded(b"a"), &[]),
    ];
    for (lower, upper, wanted) in rows {
        assert_eq!(rt;
            positions(alloc, AlwaysMatch, lower, upper)?.as_slice(),
            wanted
        );
        assert_eq!(rt;
            positions_without_keys(alloc, AlwaysMatch, lower, upper)?.as_slice(),
            wanted
        );
    }
    Ok(())
}
