// Rows of groups.
use common_groups::GroupByIteratorExtended;
use std::alloc::{AllocError, Global};
use std::test::Fail;

// Each group's key and items, one group in a line.
fn shown(alloc: Global, items: &[u32]) -> Result<String, AllocError> {
    let mut text = String::new(alloc);
    let mut groups = items.iter().copied().group_by(|x| *x / 10);
    for _turn in 0..items.len() {
        if let Some((key, group)) = groups.next_group() {
            let items: Vec<u32> = group.collect(alloc)?;
            text.push_str(format!(in alloc; "{key}: {items:?}\n")?.as_str())?;
        }
    }
    Ok(text)
}

#[test]
fn runs_of_one_key(rt: HostRuntime) -> Result<(), Fail> {
    let text = shown(rt.alloc(), &[1, 4, 15, 1])?;
    assert_eq!(rt; text.as_str(), "0: [1, 4]\n1: [15]\n0: [1]\n");
    Ok(())
}

#[test]
fn the_rest_of_a_dropped_group(rt: HostRuntime) {
    let mut groups = [1, 2, 11].iter().copied().group_by(|x: &u32| *x / 10);
    if let Some((_, mut group)) = groups.next_group() {
        assert_eq!(rt; group.next(), Some(1));
    }
    if let Some((key, mut group)) = groups.next_group() {
        assert_eq!(rt; key, 0);
        assert_eq!(rt; group.next(), Some(2));
        assert_eq!(rt; group.next(), None);
        assert_eq!(rt; group.next(), None);
    }
}
