// Numbers of 17 bits, packed, unpacked and filtered, by the fast bodies and by the plain ones.
ghost use Rattle.std.specs.Prelude.{◌≡◌, true, ◌*◌, ◌≤◌, length};

use owned_bytes::VecSink;
use std::alloc::{AllocError, Global};
use std::time::{Clock, Instant};
use tantivy_bitpacker::{BitPacker, BitUnpacker, filter_vec_lanes, filter_vec_scalar, plain};

const WIDTH: u8 = 17;

const GREATEST: u64 = 0x1_ffff;

// The most numbers that are filtered.
const LIMIT: usize = 100_000_000;

// Each call is timed so often, and the least time is printed: on a busy machine the others tell of the machine.
const ROUNDS: u32 = 7;

fn numbers(alloc: Global, count: u32) -> Result<Vec<u64>, AllocError> {
    let mut found = Vec::with_capacity(alloc, count as usize)?;
    for number in 0..count {
        found.push(u64::from(number.wrapping_mul(2_654_435_761)) & GREATEST)?;
    }
    Ok(found)
}

fn packed(alloc: Global, values: &[u64]) -> anyhow::Result<Vec<u8>> {
    let mut sink = VecSink::new(alloc);
    let mut packer = BitPacker::new();
    for value in values {
        packer.write(*value & GREATEST, WIDTH, &mut sink)?;
    }
    packer.close(&mut sink)?;
    Ok(sink.into_bytes())
}

/// Whether so many numbers of the width lie in the bytes.
fn holds(bytes: &[u8], count: u32) -> bool
    ensures { result ≡ true → count * 17 ≤ 8 * length bytes.now }
{
    (u64::from(count) * 17 + 7) / 8 <= bytes.len() as u64
}

fn time_ranges<R: Clock + Print + AllocGlobal>(
    rt: &R,
    bytes: &[u8],
    count: u32,
) -> anyhow::Result<()>
    requires { count * 17 ≤ 8 * length bytes.now }
{
    let unpacker = BitUnpacker::new(17);
    let mut output = vec![in rt.alloc(); 0u64; count as usize]?;
    let mut fast = u128::MAX;
    let mut slow = u128::MAX;
    for _ in 0..ROUNDS {
        let start = Instant::now(rt)?;
        unpacker.get_range(0, bytes, output.as_mut_slice());
        fast = start.elapsed(rt)?.as_micros().min(fast);
        let start = Instant::now(rt)?;
        plain::get_range(&unpacker, 0, bytes, output.as_mut_slice());
        slow = start.elapsed(rt)?.as_micros().min(slow);
    }
    println!(rt; "packed: get_range {fast} us, plain {slow} us")?;
    Ok(())
}

fn time_ids<R: Clock + Print + AllocGlobal>(rt: &R, bytes: &[u8], count: u32) -> anyhow::Result<()>
    requires { count * 17 ≤ 8 * length bytes.now }
{
    let unpacker = BitUnpacker::new(17);
    let mut ids = Vec::new(rt.alloc());
    let mut fast = u128::MAX;
    let mut slow = u128::MAX;
    for _ in 0..ROUNDS {
        let start = Instant::now(rt)?;
        unpacker.get_ids_for_value_range(1_000..=60_000, 0..count, bytes, &mut ids)?;
        fast = start.elapsed(rt)?.as_micros().min(fast);
        let start = Instant::now(rt)?;
        plain::get_ids_for_value_range(&unpacker, 1_000..=60_000, 0..count, bytes, &mut ids)?;
        slow = start.elapsed(rt)?.as_micros().min(slow);
    }
    let found = ids.len();
    println!(rt; "packed: get_ids_for_value_range {fast} us, plain {slow} us, {found} found")?;
    Ok(())
}

fn low_halves(alloc: Global, values: &[u64]) -> Result<Vec<u32>, AllocError> {
    let mut found = Vec::with_capacity(alloc, values.len())?;
    for value in values {
        found.push((*value & GREATEST) as u32)?;
    }
    Ok(found)
}

// How long the filter in lanes takes, and the one that takes one number at a time.
fn filter_round<R: Clock + AllocGlobal>(rt: &R, numbers: &[u32]) -> anyhow::Result<(u128, u128)>
    requires { length numbers.now ≤ LIMIT }
{
    let mut left = numbers.to_vec(rt.alloc())?;
    let mut right = numbers.to_vec(rt.alloc())?;
    let start = Instant::now(rt)?;
    filter_vec_lanes(1_000..=60_000, 0, &mut left);
    let lanes = start.elapsed(rt)?.as_micros();
    let start = Instant::now(rt)?;
    filter_vec_scalar(1_000..=60_000, 0, &mut right);
    Ok((lanes, start.elapsed(rt)?.as_micros()))
}

fn time_filters<R: Clock + Print + AllocGlobal>(rt: &R, values: &[u64]) -> anyhow::Result<()> {
    let numbers = low_halves(rt.alloc(), values)?;
    if numbers.len() > LIMIT {
        return Ok(());
    }
    let mut fast = u128::MAX;
    let mut slow = u128::MAX;
    for _ in 0..ROUNDS {
        let (lanes, scalar) = filter_round(rt, numbers.as_slice())?;
        fast = lanes.min(fast);
        slow = scalar.min(slow);
    }
    println!(rt; "packed: filter in lanes {fast} us, scalar {slow} us")?;
    Ok(())
}

/// Prints how long packing, unpacking and filtering so many numbers take.
pub fn time<R: Clock + Print + AllocGlobal>(rt: &R, count: u32) -> anyhow::Result<()> {
    let values = numbers(rt.alloc(), count)?;
    let start = Instant::now(rt)?;
    let bytes = packed(rt.alloc(), values.as_slice())?;
    let packing = start.elapsed(rt)?.as_micros();
    println!(rt; "packed: {count} numbers of 17 bits: packing {packing} us")?;
    if holds(bytes.as_slice(), count) {
        time_ranges(rt, bytes.as_slice(), count)?;
        time_ids(rt, bytes.as_slice(), count)?;
    }
    time_filters(rt, values.as_slice())
}
