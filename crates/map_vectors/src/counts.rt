// How many comparisons a look-up makes.
ghost use Rattle.std.specs.Prelude.{◌≡◌, ◌+◌, ◌<◌, ◌≤◌, length};

use fst_map::{Fst, MapBuilder, MapError, Steps};
use owned_bytes::OwnedBytes;
use std::alloc::Global;
use std::cmp::Ordering;
use std::marker::Brand;
use std::sync::ledger::{Blank, Ledger};
use std::test::Fail;

// Among seven keys a look-up makes at most three comparisons.
fn among_seven<L: Ledger>(fst: &Fst, key: &[u8], steps: &mut Steps<L>) -> Option<usize>
    requires { length fst.now ≡ 7 }
    ensures { steps.new ≤ steps.old + 3 }
{
    fst.first_at_or_above_counted(key, steps)
}

// Among no keys it makes none.
fn among_none<L: Ledger>(fst: &Fst, key: &[u8], steps: &mut Steps<L>) -> Option<usize>
    requires { length fst.now ≡ 0 }
    ensures { steps.new ≡ steps.old }
{
    fst.first_at_or_above_counted(key, steps)
}

// The place among seven keys, and how the last of them compares with the key. These are at most four comparisons.
fn sought<L: Ledger>(fst: &Fst, key: &[u8], blank: Blank) -> (Option<usize>, Ordering)
    requires name { blank.name ≡ L.name }
    requires parts { blank.parts ≡ L.parts }
    requires shared { 0 < blank.parts }
    requires seven { length fst.now ≡ 7 }
{
    let mut steps = Steps::<L>::new(blank);
    let place = among_seven(fst, key, &mut steps);
    (place, fst.compare_at(6, key, &mut steps))
}

// The place among no keys.
fn sought_nowhere<L: Ledger>(fst: &Fst, key: &[u8], blank: Blank) -> Option<usize>
    requires name { blank.name ≡ L.name }
    requires parts { blank.parts ≡ L.parts }
    requires shared { 0 < blank.parts }
    requires none { length fst.now ≡ 0 }
{
    let mut steps = Steps::<L>::new(blank);
    among_none(fst, key, &mut steps)
}

// The map of the first keys of one byte from `a` on.
fn map_of(alloc: Global, count: u8) -> Result<Fst, MapError> {
    let mut builder = MapBuilder::new(alloc);
    for number in 0..count {
        builder.insert(&[number.saturating_add(b'a')], number as u64)?;
    }
    let bytes = OwnedBytes::new(alloc, builder.into_inner()?)?;
    Fst::open(alloc, bytes)
}

#[test]
fn seven_keys(rt: HostRuntime) -> Result<(), Fail> {
    let fst = map_of(rt.alloc(), 7)?;
    assert_eq!(rt; fst.len(), 7);
    let rows: [(&[u8], Option<usize>, Ordering); 5] = [
        (b"", Some(0), Ordering::Greater),
        (b"a", Some(0), Ordering::Greater),
        (b"dd", Some(4), Ordering::Greater),
        (b"g", Some(6), Ordering::Equal),
        (b"h", None, Ordering::Less),
    ];
    for (key, place, order) in rows {
        assert_eq!(rt; sought::<Brand>(&fst, key, Blank::new(1)), (place, order));
    }
    Ok(())
}

#[test]
fn no_keys(rt: HostRuntime) -> Result<(), Fail> {
    let fst = map_of(rt.alloc(), 0)?;
    assert_eq!(rt; fst.len(), 0);
    assert_eq!(rt; sought_nowhere::<Brand>(&fst, b"a", Blank::new(1)), None);
    Ok(())
}
