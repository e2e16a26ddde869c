// Sets by their lists.
use document_sets::{DocSet, FoundDocuments, JoinedSets};
use std::test::Fail;

#[test]
fn sets_of_all_kinds(rt: HostRuntime) -> Result<(), Fail> {
    let alloc = rt.alloc();
    let mut set = DocSet::from_numbers(alloc, 70, &[3, 69])?;
    set.union_with(DocSet::empty(70));
    set.union_with(DocSet::from_numbers(alloc, 70, &[0, 3])?);
    assert_eq!(rt; set.to_ids(alloc)?.as_slice(), [0, 3, 69].as_slice());
    set.intersect_with(DocSet::full(70));
    set.subtract(DocSet::from_numbers(alloc, 70, &[3])?);
    assert_eq!(rt; set.to_ids(alloc)?.as_slice(), [0, 69].as_slice());
    set.complement();
    assert!(rt; set.contains(68));
    assert!(rt; !set.contains(69));
    assert_eq!(rt; set.to_ids(alloc)?.len(), 68);
    assert_eq!(rt; set.documents(), 70);
    Ok(())
}

// These take no memory, so the number of documents does not matter.
#[test]
fn sets_without_memory(rt: HostRuntime) -> Result<(), Fail> {
    let alloc = rt.alloc();
    let mut set = DocSet::full(u32::MAX);
    set.complement();
    set.extend(alloc, &[])?;
    assert_eq!(rt; set.to_ids(alloc)?.len(), 0);
    Ok(())
}

// Of the documents 0 to 3: all but 1 of those with 0, 1 and 2.
#[test]
fn joined_sets(rt: HostRuntime) -> Result<(), Fail> {
    let alloc = rt.alloc();
    let mut joined = JoinedSets::new(4);
    joined.offer(DocSet::from_numbers(alloc, 4, &[3])?);
    joined.require(DocSet::from_numbers(alloc, 4, &[0, 1, 2])?);
    joined.exclude(DocSet::from_numbers(alloc, 4, &[1])?);
    assert_eq!(rt;
        joined.into_set().to_ids(alloc)?.as_slice(),
        [0, 2].as_slice()
    );
    let mut excluded = JoinedSets::new(4);
    excluded.exclude(DocSet::from_numbers(alloc, 4, &[1])?);
    assert_eq!(rt;
        excluded.into_set().to_ids(alloc)?.as_slice(),
        [0, 2, 3].as_slice()
    );
    assert_eq!(rt; JoinedSets::new(4).into_set().to_ids(alloc)?.len(), 0);
    Ok(())
}

#[test]
fn found_documents_as_a_list(rt: HostRuntime) -> Result<(), Fail> {
    let alloc = rt.alloc();
    let found = FoundDocuments::from_set(DocSet::from_numbers(alloc, 4, &[0, 3])?);
    assert_eq!(rt; found.documents(), 4);
    assert_eq!(rt; found.into_ids(alloc)?.as_slice(), [0, 3].as_slice());
    Ok(())
}
