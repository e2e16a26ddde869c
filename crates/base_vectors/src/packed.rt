use owned_bytes::{MemSink, SinkError, VecSink};
use std::alloc::Global;
use std::process::Abort;
use std::test::Fail;
use tantivy_bitpacker::{
    BitPacker, BitUnpacker, BlockedBitpacker, compute_num_bits, filter_vec_in_place,
    filter_vec_lanes, filter_vec_scalar, minmax, plain,
};

#[test]
fn widths_of_numbers(rt: HostRuntime) {
    let rows: [(u64, u8); 10] = [
        (0, 0),
        (1, 1),
        (3, 2),
        (4, 3),
        (255, 8),
        (256, 9),
        (5_000_000_000, 33),
        (72_057_594_037_927_935, 56),
        (72_057_594_037_927_936, 64),
        (u64::MAX, 64),
    ];
    for (n, bits) in rows {
        assert_eq!(rt; compute_num_bits(n), bits, "at {n}");
    }
}

#[test]
fn four_values_are_one_byte(rt: HostRuntime) -> Result<(), Fail> {
    let mut packer = BitPacker::new();
    let mut sink = VecSink::new(rt.alloc());
    for value in [0, 1, 1, 2] {
        packer.write(value, 2, &mut sink)?;
    }
    packer.close(&mut sink)?;
    let bytes = sink.into_bytes();
    assert_eq!(rt; bytes.as_slice(), [0x94].as_slice());
    let mut ids = Vec::new(rt.alloc());
    BitUnpacker::new(2).get_ids_for_value_range(1..=1, 0..4, bytes.as_slice(), &mut ids)?;
    assert_eq!(rt; ids.as_slice(), [1, 2].as_slice());
    Ok(())
}

// Two values of one width, the second at the last bytes.
fn reads_back(rt: &impl Abort, alloc: Global, width: u8, value: u64) -> Result<(), Fail> {
    assert!(rt; width == 56 && value < 72_057_594_037_927_936 || width == 64);
    let mut packer = BitPacker::default();
    let mut sink = VecSink::new(alloc);
    packer.write(value, width, &mut sink)?;
    packer.write(value / 2, width, &mut sink)?;
    packer.flush(&mut sink)?;
    let bytes = sink.into_bytes();
    assert_eq!(rt; bytes.len(), 2 * width as usize / 8);
    let unpacker = BitUnpacker::new(width);
    assert_eq!(rt; unpacker.bit_width(), width);
    assert_eq!(rt; unpacker.get(0, bytes.as_slice()), value);
    assert_eq!(rt; unpacker.get(1, bytes.as_slice()), value / 2);
    Ok(())
}

#[test]
fn the_greatest_widths_read_back(rt: HostRuntime) -> Result<(), Fail> {
    reads_back(&rt, rt.alloc(), 64, u64::MAX)?;
    reads_back(&rt, rt.alloc(), 56, 72_057_594_037_927_935)
}

#[test]
fn a_failed_write_leaves_the_packer(rt: HostRuntime) -> Result<(), Fail> {
    let mut fails = Vec::new(rt.alloc());
    fails.push(1)?;
    let mut sink = MemSink::new(rt.alloc(), fails);
    let mut packer = BitPacker::new();
    packer.write(5, 60, &mut sink)?;
    assert_eq!(rt; packer.write(7, 12, &mut sink), Err(SinkError::Failed));
    packer.write(7, 12, &mut sink)?;
    packer.close(&mut sink)?;
    assert_eq!(rt; sink.bytes(), [5, 0, 0, 0, 0, 0, 0, 112, 0].as_slice());
    Ok(())
}

// Of the numbers 1 to 4 in four bits each, the second and the third.
#[test]
fn numbers_in_a_vector(rt: HostRuntime) -> Result<(), Fail> {
    let numbers = BitUnpacker::new(4).numbers_u32(rt.alloc(), 1, 2, &[0x21, 0x43])?;
    assert_eq!(rt; numbers.as_slice(), [2, 3].as_slice());
    Ok(())
}

// The numbers from `start` on, decoded fast and plainly, and their ids.
fn fast_is_plain(
    rt: &impl Abort,
    alloc: Global,
    width: u8,
    start: u32,
    count: u32,
    bytes: &[u8],
) -> Result<(), Fail> {
    assert!(rt; (width <= 56 || width == 64) && start < 100 && count < 200);
    let bits = (start + count) as usize * width as usize;
    let end = (bits + 7) / 8;
    assert!(rt; end <= bytes.len());
    let bytes = &bytes[..end];
    let unpacker = BitUnpacker::new(width);
    let mut fast = vec![in alloc; 1; count as usize]?;
    let mut slow = vec![in alloc; 2; count as usize]?;
    unpacker.get_range(start, bytes, fast.as_mut_slice());
    plain::get_range(&unpacker, start, bytes, slow.as_mut_slice());
    assert_eq!(rt;
        fast.as_slice(),
        slow.as_slice(),
        "{count} of {width} bits from {start}"
    );
    let mut fast_ids = Vec::new(alloc);
    let mut slow_ids = Vec::new(alloc);
    let (low, high) = (
        u64::MAX >> 8 >> (63 - (width as u32).min(63)),
        u64::MAX >> (63 - (width as u32).min(63)),
    );
    unpacker.get_ids_for_value_range(low..=high, start..start + count, bytes, &mut fast_ids)?;
    plain::get_ids_for_value_range(
        &unpacker,
        low..=high,
        start..start + count,
        bytes,
        &mut slow_ids,
    )?;
    assert_eq!(rt;
        fast_ids.as_slice(),
        slow_ids.as_slice(),
        "{count} of {width} bits from {start}"
    );
    Ok(())
}

// Numbers that look random.
fn scattered(alloc: Global, count: usize) -> Result<Vec<u32>, Fail> {
    let mut state: u64 = 88_172_645_463_325_252;
    let mut numbers = Vec::with_capacity(alloc, count)?;
    for _ in 0..count {
        state ^= state << 13;
        state ^= state >> 7;
        state ^= state << 17;
        numbers.push((state % 4_294_967_296) as u32)?;
    }
    Ok(numbers)
}

#[test]
fn fast_reads_are_the_plain_reads(rt: HostRuntime) -> Result<(), Fail> {
    let mut bytes = Vec::new(rt.alloc());
    for number in scattered(rt.alloc(), 900)? {
        bytes.push((number % 256) as u8)?;
    }
    for width in 0..=64 {
        for count in [0, 1, 7, 8, 9, 31, 32, 33, 100] {
            for start in [0, 1, 7, 8] {
                if width <= 56 || width == 64 {
                    fast_is_plain(&rt, rt.alloc(), width, start, count, bytes.as_slice())?;
                }
            }
        }
    }
    Ok(())
}

#[test]
fn a_value_range_is_not_cut_to_32_bits(rt: HostRuntime) -> Result<(), Fail> {
    let bytes = [5, 0, 0, 0, 255, 255, 255, 255, 0, 0, 0, 0, 1, 0, 0, 0];
    let mut ids = Vec::new(rt.alloc());
    BitUnpacker::new(32).get_ids_for_value_range(4_294_967_296..=u64::MAX, 0..4, &bytes, &mut ids)?;
    assert_eq!(rt; ids.as_slice(), [].as_slice());
    BitUnpacker::new(32).get_ids_for_value_range(6..=4_294_967_300, 0..4, &bytes, &mut ids)?;
    assert_eq!(rt; ids.as_slice(), [1].as_slice());
    BitUnpacker::new(64).get_ids_for_value_range(
        4_294_967_296..=4_294_967_296,
        0..2,
        &bytes,
        &mut ids,
    )?;
    assert_eq!(rt; ids.as_slice(), [1].as_slice());
    BitUnpacker::new(64).get_ids_for_value_range(9..=8, 0..2, &bytes, &mut ids)?;
    assert_eq!(rt; ids.as_slice(), [].as_slice());
    Ok(())
}

// The three filters answer the same.
fn filters_agree(
    rt: &impl Abort,
    alloc: Global,
    low: u32,
    high: u32,
    offset: u32,
    numbers: &[u32],
) -> Result<(), Fail> {
    assert!(rt; offset <= 1000 && numbers.len() <= 1000);
    let mut lanes = numbers.to_vec(alloc)?;
    let mut scalar = numbers.to_vec(alloc)?;
    let mut in_place = numbers.to_vec(alloc)?;
    filter_vec_lanes(low..=high, offset, &mut lanes);
    filter_vec_scalar(low..=high, offset, &mut scalar);
    filter_vec_in_place(low..=high, offset, &mut in_place);
    assert_eq!(rt; lanes.as_slice(), scalar.as_slice(), "{low}..={high}");
    assert_eq!(rt; in_place.as_slice(), scalar.as_slice(), "{low}..={high}");
    Ok(())
}

#[test]
fn the_filters_agree(rt: HostRuntime) -> Result<(), Fail> {
    let numbers = scattered(rt.alloc(), 100)?;
    for count in [0, 1, 7, 8, 9, 16, 31, 32, 33, 100] {
        if count <= numbers.len() {
            for (low, high) in [
                (0, u32::MAX),
                (0, 0),
                (1_000_000_000, 3_000_000_000),
                (9, 8),
                (u32::MAX, u32::MAX),
            ] {
                for offset in [0, 1, 7, 8] {
                    filters_agree(&rt, rt.alloc(), low, high, offset, &numbers[..count])?;
                }
            }
        }
    }
    let mut few = [3, 9, 4, 4, 0, 5, 7, 4, 3, 8].to_vec(rt.alloc())?;
    filter_vec_in_place(3..=5, 20, &mut few);
    assert_eq!(rt; few.as_slice(), [20, 22, 23, 25, 27, 28].as_slice());
    Ok(())
}

#[test]
fn the_least_and_the_greatest(rt: HostRuntime) {
    assert_eq!(rt; minmax([4, 1, 9, 1, 3].iter().copied()), Some((1, 9)));
    assert_eq!(rt; minmax([7].iter().copied()), Some((7, 7)));
    let none: [i32; 0] = [];
    assert_eq!(rt; minmax(none.iter().copied()), None);
}

// The number that is added as the `i`-th: squares, and some numbers of 64 bits between them.
fn nth(i: u64) -> u64 {
    if i % 50 == 49 {
        u64::MAX - i
    } else {
        i.wrapping_mul(i)
    }
}

#[test]
fn a_flush_between_changes_no_number(rt: HostRuntime) -> Result<(), Fail> {
    let mut packer = BlockedBitpacker::new(rt.alloc())?;
    for i in 0..300 {
        if i == 100 {
            packer.flush()?;
        }
        assert!(rt; packer.len() < 300);
        packer.add(nth(i))?;
    }
    let copy = packer.clone(rt.alloc())?;
    packer.flush()?;
    assert_eq!(rt; packer.len(), 300);
    assert!(rt; packer.mem_usage() > 300);
    let mut numbers = packer.iter();
    for i in 0..300 {
        assert_eq!(rt; numbers.next(), Some(nth(i)), "at {i}");
        assert!(rt; copy.len() == 300);
        assert_eq!(rt; copy.get(i as usize), nth(i), "at {i} of the copy");
    }
    assert_eq!(rt; numbers.next(), None);
    assert_eq!(rt; numbers.next(), None);
    Ok(())
}
