// Sets of numbers: a complement, a union and an iteration.
ghost use Rattle.std.specs.Prelude.{◌<◌};

use common_bitset::{BitSet, ReadOnlyBitSet};
use std::alloc::{AllocError, Global};
use std::time::{Clock, Instant};

/// Every so manieth number below `count`.
fn every(alloc: Global, count: u32, step: u32) -> Result<BitSet, AllocError>
    requires { 0 < step }
{
    let mut set = BitSet::with_max_value(alloc, count)?;
    for element in 0..count {
        if element < set.max_value() && element % step == 0 {
            set.insert(element);
        }
    }
    Ok(set)
}

fn sum_of(set: &ReadOnlyBitSet) -> u64 {
    let mut sum = 0u64;
    for element in set.iter() {
        sum = sum.wrapping_add(u64::from(element));
    }
    sum
}

/// Prints how long three operations on sets of numbers below `count` take.
pub fn time<R: Clock + Print + AllocGlobal>(rt: &R, count: u32) -> anyhow::Result<()> {
    let alloc = rt.alloc();
    let mut left = every(alloc, count, 3)?;
    let right = every(alloc, count, 5)?;
    let start = Instant::now(rt)?;
    left.complement();
    let complement = start.elapsed(rt)?.as_micros();
    let start = Instant::now(rt)?;
    if left.max_value() == right.max_value() {
        left.union_with(&right);
    }
    let union = start.elapsed(rt)?.as_micros();
    let elements = left.len();
    let set = ReadOnlyBitSet::from_bitset(alloc, &left)?;
    let start = Instant::now(rt)?;
    let sum = sum_of(&set);
    let iteration = start.elapsed(rt)?.as_micros();
    println!(rt; "sets: below {count}, {elements} elements, sum {sum}")?;
    println!(rt; "sets: complement {complement} us, union {union} us, iteration {iteration} us")?;
    Ok(())
}
