// Dates as bytes, alone, in pairs and in vectors: each counts as whole microseconds.
ghost use Rattle.std.specs.Prelude.{◌≡◌, IfOk, length};

use common_wire::{SliceSource, VecSink, WireError};
use std::alloc::{AllocError, Global};
use std::test::Fail;
use tantivy_common::{BinarySerializable, DateTime};

// 1,999 nanoseconds before 1970: one whole microsecond.
fn early() -> DateTime {
    DateTime::from_timestamp_nanos(-1999)
}

fn late() -> DateTime {
    DateTime::from_timestamp_nanos(2999)
}

fn bytes_of<T: BinarySerializable>(alloc: Global, value: &T) -> Result<Vec<u8>, Fail>
    requires { T.can_write (T.shown value.now) }
{
    let mut sink = VecSink::new(alloc);
    value.serialize(&mut sink)?;
    let mut bytes = Vec::new(alloc);
    bytes.extend_from_slice(sink.bytes())?;
    Ok(bytes)
}

fn two_dates(alloc: Global) -> Result<Vec<DateTime>, AllocError>
    ensures { IfOk result (λ dates. length dates.items ≡ 2) }
{
    let mut dates = Vec::new(alloc);
    dates.push(early())?;
    dates.push(late())?;
    Ok(dates)
}

#[test]
fn a_pair_of_dates(rt: HostRuntime) -> Result<(), Fail> {
    let pair = (early(), late());
    let bytes = bytes_of(rt.alloc(), &pair)?;
    assert_eq!(rt; bytes.len(), 16);
    assert_eq!(rt; bytes[..8], [255; 8][..]);
    assert_eq!(rt; bytes[8..], [2, 0, 0, 0, 0, 0, 0, 0][..]);
    assert_eq!(rt; pair.num_bytes(), 16);
    Ok(())
}

#[test]
fn a_vector_of_dates(rt: HostRuntime) -> Result<(), Fail> {
    let dates = two_dates(rt.alloc())?;
    let bytes = bytes_of(rt.alloc(), &dates)?;
    assert_eq!(rt; bytes.len(), 17);
    let mut source = SliceSource::new(bytes.as_slice());
    let again = Vec::<DateTime>::deserialize(rt.alloc(), &mut source)?;
    assert_eq!(rt; again.len(), 2);
    assert_eq!(rt; again[0].into_timestamp_nanos(), -1000);
    assert_eq!(rt; again[1].into_timestamp_nanos(), 2000);
    Ok(())
}

// 2^63 - 1 microseconds are too many nanoseconds.
#[test]
fn a_number_past_the_last_date(rt: HostRuntime) {
    let mut source = SliceSource::new(&[255, 255, 255, 255, 255, 255, 255, 127]);
    let answer = DateTime::deserialize(rt.alloc(), &mut source);
    assert_eq!(rt;
        answer.map(|date| date.into_timestamp_nanos()),
        Err(WireError::Invalid)
    );
}
