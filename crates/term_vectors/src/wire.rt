// Values as bytes, and bytes as values.
use common_wire::{BinarySerializable, ByteCount, SliceSource, VInt, VIntU128, VecSink, WireError};
use std::test::Fail;

#[test]
fn numbers_of_variable_length(rt: HostRuntime) -> Result<(), Fail> {
    let alloc = rt.alloc();
    let rows: [(u64, &[u8]); 5] = [
        (127, &[0xff]),
        (128, &[0x00, 0x81]),
        (16383, &[0x7f, 0xff]),
        (16384, &[0x00, 0x00, 0x81]),
        (
            u64::MAX,
            &[0x7f, 0x7f, 0x7f, 0x7f, 0x7f, 0x7f, 0x7f, 0x7f, 0x7f, 0x81],
        ),
    ];
    for (n, want) in rows {
        let mut out = Vec::new(alloc);
        VInt(n).serialize_into_vec(&mut out)?;
        assert_eq!(rt; out.as_slice(), want, "at {n}");
        let mut source = SliceSource::new(want);
        assert_eq!(rt; VInt::deserialize_u64(&mut source), Ok(n));
    }
    Ok(())
}

#[test]
fn bytes_that_spell_no_number(rt: HostRuntime) {
    let rows: [(&[u8], Result<u64, WireError>); 4] = [
        (&[0x80, 0x80], Ok(0)),
        (&[0; 11], Err(WireError::Invalid)),
        (&[0x7f; 5], Err(WireError::Ended)),
        (&[], Err(WireError::Ended)),
    ];
    for (bytes, want) in rows {
        let mut source = SliceSource::new(bytes);
        assert_eq!(rt; VInt::deserialize_u64(&mut source), want);
    }
}

#[test]
fn the_longest_number(rt: HostRuntime) -> Result<(), Fail> {
    let alloc = rt.alloc();
    let mut sink = VecSink::new(alloc);
    VIntU128(1 << 127).serialize(&mut sink)?;
    let mut want = [0u8; 19];
    want[18] = 0x82;
    assert_eq!(rt; sink.bytes(), want.as_slice());
    Ok(())
}

#[test]
fn a_text(rt: HostRuntime) -> Result<(), Fail> {
    let alloc = rt.alloc();
    let bytes: &[u8] = &[0x82, 0x61, 0x62];
    let mut source = SliceSource::new(bytes);
    let text = String::deserialize(alloc, &mut source)?;
    assert_eq!(rt; text.as_str(), "ab");
    let mut sink = VecSink::new(alloc);
    if text.len() < 10 {
        text.serialize(&mut sink)?;
    }
    assert_eq!(rt; sink.bytes(), bytes);
    Ok(())
}

#[test]
fn a_list(rt: HostRuntime) -> Result<(), Fail> {
    let alloc = rt.alloc();
    let bytes: &[u8] = &[0x82, 1, 0, 0, 0, 2, 0, 0, 0];
    let mut source = SliceSource::new(bytes);
    let list = Vec::<u32>::deserialize(alloc, &mut source)?;
    assert_eq!(rt; list.as_slice(), [1u32, 2].as_slice());
    Ok(())
}

#[test]
fn a_flag_of_two(rt: HostRuntime) {
    let mut source = SliceSource::new(&[2]);
    assert_eq!(rt;
        bool::deserialize(rt.alloc(), &mut source),
        Err(WireError::Invalid)
    );
}

#[test]
fn a_length_of_four_thousand_million_before_three_bytes(rt: HostRuntime) {
    let mut source = SliceSource::new(&[0x7f, 0x7f, 0x7f, 0x7f, 0x8f, 1, 2, 3]);
    let answer = Vec::<u8>::deserialize(rt.alloc(), &mut source);
    assert_eq!(rt; answer.map(|v| v.len()), Err(WireError::Ended));
}

#[test]
fn byte_counts(rt: HostRuntime) -> Result<(), Fail> {
    let rows: [(u64, &str); 5] = [
        (300, "300 B"),
        (999999, "1000.00 KB"),
        (1005, "1.01 KB"),
        (1500000, "1.50 MB"),
        (3213000000000, "3.21 TB"),
    ];
    for (n, want) in rows {
        let text = ByteCount::from(n).human_readable(rt.alloc())?;
        assert_eq!(rt; text.as_str(), want);
    }
    Ok(())
}
