// The order of keys that are given by what they keep and add.
use sstable_blocks::DeltaKeyComparator;
use std::cmp::Ordering;
use std::test::Fail;

#[test]
fn keys_across_blocks(rt: HostRuntime) -> Result<(), Fail> {
    let mut comparator = DeltaKeyComparator::new();
    let rows: [(usize, &[u8], Ordering); 3] = [
        (0, b"baaaaa", Ordering::Less),
        (2, b"baaa", Ordering::Less),
        (0, b"bbbaaa", Ordering::Greater),
    ];
    for (keep, suffix, order) in rows {
        assert_eq!(rt;
            comparator.compare_across_blocks(b"bba", keep, suffix),
            order
        );
    }
    Ok(())
}

#[test]
fn a_block_begins_anew(rt: HostRuntime) -> Result<(), Fail> {
    let mut comparator = DeltaKeyComparator::new();
    assert_eq!(rt; comparator.compare(b"ab", 0, b"a"), Ordering::Less);
    assert_eq!(rt; comparator.compare(b"ab", 0, b"ab"), Ordering::Equal);
    Ok(())
}

#[test]
fn keys_in_two_parts(rt: HostRuntime) -> Result<(), Fail> {
    let mut comparator = DeltaKeyComparator::new();
    assert_eq!(rt;
        comparator.compare_prefix_and_suffix(b"ab", b"a", b"a"),
        Ordering::Less
    );
    assert_eq!(rt; comparator.compare(b"ab", 1, b"b"), Ordering::Equal);
    assert_eq!(rt;
        comparator.compare_prefix_and_suffix(b"ab", b"", b""),
        Ordering::Less
    );
    assert_eq!(rt;
        comparator.compare_prefix_and_suffix(b"ab", b"b", b""),
        Ordering::Greater
    );
    Ok(())
}

#[test]
fn any_bytes_are_allowed(_rt: HostRuntime) -> Result<(), Fail> {
    let mut comparator = DeltaKeyComparator::new();
    let _ = comparator.compare(b"abcdef", 0, b"abcdef");
    let _ = comparator.compare(b"a", 6, b"x");
    let _ = comparator.compare(b"", usize::MAX, b"x");
    Ok(())
}
