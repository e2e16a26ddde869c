// Outside bytes, printed text, and each call once.
use common_bitset::{BitSet, Misfit, ReadOnlyBitSet, TinySet, intersect_bitsets};
use owned_bytes::{MemSink, OwnedBytes, SinkError, VecSink};
use std::test::Fail;

// A set of numbers below 70 with 1 and 69.
const SEVENTY: [u8; 20] = [70, 0, 0, 0, 2, 0, 0, 0, 0, 0, 0, 0, 32, 0, 0, 0, 0, 0, 0, 0];

#[test]
fn tiny_set_in_order(rt: HostRuntime) -> Result<(), Fail> {
    let mut set = TinySet::singleton(63).insert(0).insert(5).remove(5);
    assert_eq!(rt; format!(in rt.alloc(); "{set:?}")?.as_str(), "[0, 63]");
    assert_eq!(rt; set.pop_lowest(), Some(0));
    assert_eq!(rt; set.pop_lowest(), Some(63));
    assert_eq!(rt; set.pop_lowest(), None);
    Ok(())
}

#[test]
fn set_in_bytes(rt: HostRuntime) -> Result<(), Fail> {
    let mut set = BitSet::with_max_value(rt.alloc(), 70)?;
    assert!(rt; set.insert(1));
    assert!(rt; set.insert(69));
    assert!(rt; !set.insert(69));
    let elements: Vec<u32> = set.iter().collect(rt.alloc())?;
    assert_eq!(rt; elements.as_slice(), [1, 69].as_slice());
    let mut sink = VecSink::new(rt.alloc());
    set.serialize(&mut sink)?;
    assert_eq!(rt; sink.bytes(), SEVENTY.as_slice());
    assert_eq!(rt;
        format!(in rt.alloc(); "{set:?}")?.as_str(),
        "BitSet { len: 2, max_value: 70 }"
    );
    Ok(())
}

// The sink is flushed last: the fourth call, after the bound and two words.
#[test]
fn flush_is_the_last_call(rt: HostRuntime) -> Result<(), Fail> {
    let set = BitSet::with_max_value(rt.alloc(), 70)?;
    let mut sink = MemSink::new(rt.alloc(), vec![in rt.alloc(); 4]?);
    assert_eq!(rt; set.serialize(&mut sink), Err(SinkError::Failed));
    assert_eq!(rt; sink.bytes().len(), 20);
    Ok(())
}

#[test]
fn bytes_as_a_set(rt: HostRuntime) -> Result<(), Fail> {
    let bytes = OwnedBytes::new(rt.alloc(), SEVENTY.to_vec(rt.alloc())?)?;
    let set = ReadOnlyBitSet::open(bytes)?;
    assert_eq!(rt; set.len(), 2);
    let both = intersect_bitsets(rt.alloc(), &set, &set)?;
    let elements: Vec<u32> = both.iter().collect(rt.alloc())?;
    assert_eq!(rt; elements.as_slice(), [1, 69].as_slice());
    Ok(())
}

#[test]
fn a_bit_past_the_bound(rt: HostRuntime) -> Result<(), Fail> {
    let mut bytes = SEVENTY.to_vec(rt.alloc())?;
    assert_eq!(rt; bytes.len(), 20);
    bytes[12] = 64;
    let opened = ReadOnlyBitSet::open(OwnedBytes::new(rt.alloc(), bytes)?);
    assert_eq!(rt; opened.err(), Some(Misfit));
    Ok(())
}

#[test]
fn full_and_complement(rt: HostRuntime) -> Result<(), Fail> {
    let mut set = BitSet::with_max_value_and_full(rt.alloc(), 130)?;
    set.remove(64);
    let mut other = set.clone(rt.alloc())?;
    other.complement();
    assert_eq!(rt; other.len(), 1);
    assert_eq!(rt; other.first_non_empty_bucket(0), Some(1));
    set.union_with(&other);
    assert_eq!(rt; set.len(), 130);
    set.intersect_with(&other);
    assert_eq!(rt; set.len(), 1);
    set.intersect_update(&ReadOnlyBitSet::from_bitset(rt.alloc(), &other)?);
    assert!(rt; set.contains(64));
    set.clear();
    assert_eq!(rt; set.first_non_empty_bucket(0), None);
    Ok(())
}
