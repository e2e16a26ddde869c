// Rows of dates.
use common_dates::{DateTime, DateTimePrecision};
use common_wire::BinarySerializable;
use owned_bytes::VecSink;
use std::test::Fail;

#[test]
fn before_1970_toward_zero(rt: HostRuntime) -> Result<(), Fail> {
    let date = DateTime::from_timestamp_nanos(-1500);
    assert_eq!(rt; date.into_timestamp_micros(), -1);
    assert_eq!(rt; date.into_timestamp_millis(), 0);
    assert_eq!(rt;
        date.truncate(DateTimePrecision::Microseconds)
            .into_timestamp_nanos(),
        -1000
    );
    let mut sink = VecSink::new(rt.alloc());
    date.serialize(&mut sink)?;
    assert_eq!(rt; sink.bytes(), [255; 8].as_slice());
    Ok(())
}

#[test]
fn debug_is_the_instant(rt: HostRuntime) -> Result<(), Fail> {
    let date = DateTime::from_timestamp_secs(1_000_000_000);
    assert_eq!(rt;
        format!(in rt.alloc(); "{date:?}")?.as_str(),
        "2001-09-09T01:46:40Z"
    );
    let early = DateTime::from_timestamp_nanos(-1500);
    assert_eq!(rt;
        format!(in rt.alloc(); "{early:?}")?.as_str(),
        "1969-12-31T23:59:59.9999985Z"
    );
    Ok(())
}
