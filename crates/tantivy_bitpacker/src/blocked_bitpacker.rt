// Numbers packed in blocks.
ghost use Rattle.std.specs.Prelude.{◌≡◌, ◌+◌, ◌-◌, ◌^◌, ◌<◌, ◌≤◌, [], ◌∷◌, ◌++◌, length, map, slice_index, vec_len, IfOk, OnOk, OnErr, All};
ghost use Rattle.std.specs.List.{flat_map};
ghost use Rattle.tantivy_bitpacker.specs.Packed.{packed};
ghost use Rattle.tantivy_bitpacker.specs.Blocked.{block_numbers, IsBlock, IsFullBlock, KeepsNumbers};

use crate::{BitPacker, BitUnpacker, compute_num_bits};
use owned_bytes::VecSink;
use std::alloc::{AllocError, Global};
use std::marker::Model;
use std::mem::size_of;

// How many numbers a whole block has.
const BLOCK_SIZE: usize = 128;

// Numbers packed at the width that the greatest of them needs, once the least is taken off each.
#[derive(Drop)]
struct PackedBlock {
    base_value: u64,
    num_bits: u8,
    count: usize,
    bytes: Vec<u8>,
}

impl PackedBlock {
    fn empty(alloc: Global) -> PackedBlock
        ensures block { IsBlock result }
        ensures numbers { block_numbers result ≡ [] }
        ensures count { result.count ≡ 0 }
    {
        PackedBlock {
            base_value: 0,
            num_bits: 0,
            count: 0,
            bytes: Vec::new(alloc),
        }
    }

    fn get(&self, idx: usize) -> u64
        requires block { IsBlock self.now }
        requires within { idx < self.now.count }
        ensures { result ≡ slice_index (block_numbers self.now) idx }
    {
        self.base_value + BitUnpacker::new(self.num_bits).get(idx as u32, &self.bytes)
    }
}

// The least and the greatest of the numbers.
fn extremes(numbers: &[u64]) -> (u64, u64)
    requires { 0 < length numbers.now }
    ensures least { All (λ x. result.0 ≤ x) numbers.now }
    ensures greatest { All (λ x. x ≤ result.1) numbers.now }
{
    let mut least = numbers[0];
    let mut greatest = numbers[0];
    for number in numbers {
        least = least.min(*number);
        greatest = greatest.max(*number);
    }
    (least, greatest)
}

// Packs each number with `base_value` taken off.
fn pack_above(
    alloc: Global,
    numbers: &[u64],
    base_value: u64,
    num_bits: u8,
) -> Result<Vec<u8>, AllocError>
    requires width { num_bits ≤ 64 }
    requires above { All (λ x. base_value ≤ x) numbers.now }
    requires fits { All (λ x. x - base_value < 2 ^ num_bits) numbers.now }
    ensures { IfOk result (λ bytes. bytes.items ≡ packed num_bits (map (λ x. x - base_value) numbers.now)) }
{
    let mut packer = BitPacker::new();
    let mut sink = VecSink::new(alloc);
    for number in numbers {
        match packer.write(*number - base_value, num_bits, &mut sink) {
            Ok(()) => {}
            Err(_) => return Err(AllocError),
        }
    }
    match packer.close(&mut sink) {
        Ok(()) => Ok(sink.into_bytes()),
        Err(_) => Err(AllocError),
    }
}

// The numbers as a block, of which there are 1 to 128.
fn pack(alloc: Global, numbers: &[u64]) -> Result<PackedBlock, AllocError>
    requires some { 0 < length numbers.now }
    requires few { length numbers.now ≤ BLOCK_SIZE }
    ensures block { IfOk result (λ block. IsBlock block) }
    ensures numbers { IfOk result (λ block. block_numbers block ≡ numbers.now) }
    ensures count { IfOk result (λ block. block.count ≡ length numbers.now) }
{
    let (least, greatest) = extremes(numbers);
    let num_bits = compute_num_bits(greatest - least);
    let bytes = pack_above(alloc, numbers, least, num_bits)?;
    Ok(PackedBlock {
        base_value: least,
        num_bits,
        count: numbers.len(),
        bytes,
    })
}

// The numbers of the block, unpacked.
fn unpack(alloc: Global, block: &PackedBlock) -> Result<Vec<u64>, AllocError>
    requires { IsBlock block.now }
    ensures { IfOk result (λ numbers. numbers.items ≡ block_numbers block.now) }
{
    let mut numbers = Vec::with_capacity(alloc, BLOCK_SIZE)?;
    for i in 0..block.count {
        numbers.push(block.get(i))?;
    }
    Ok(numbers)
}

// A block with the same numbers in bytes of its own.
fn copy_of(alloc: Global, block: &PackedBlock) -> Result<PackedBlock, AllocError>
    ensures sound { IfOk result (λ copy. IsBlock block.now → IsBlock copy) }
    ensures count { IfOk result (λ copy. copy.count ≡ block.now.count) }
    ensures numbers { IfOk result (λ copy. block_numbers copy ≡ block_numbers block.now) }
{
    Ok(PackedBlock {
        base_value: block.base_value,
        num_bits: block.num_bits,
        count: block.count,
        bytes: Vec::from_slice(alloc, &block.bytes)?,
    })
}

// Whole blocks with the same numbers.
fn copies_of(alloc: Global, blocks: &[PackedBlock]) -> Result<Vec<PackedBlock>, AllocError>
    requires { All IsFullBlock blocks.now }
    ensures full { IfOk result (λ copies. All IsFullBlock copies.items) }
    ensures numbers { IfOk result (λ copies. flat_map block_numbers copies.items ≡ flat_map block_numbers blocks.now) }
{
    let mut copies = Vec::with_capacity(alloc, blocks.len())?;
    for block in blocks {
        copies.push(copy_of(alloc, block)?)?;
    }
    Ok(copies)
}

// Takes the numbers of the shorter block back, so that more can follow them.
fn reopen(alloc: Global, tail: &mut PackedBlock, buffer: &mut Vec<u64>) -> Result<(), AllocError>
    requires block { IsBlock tail.old }
    requires apart { 0 < tail.old.count → buffer.old.items ≡ [] }
    ensures block { IsBlock tail.new }
    ensures numbers { block_numbers tail.new ++ buffer.new.items ≡ block_numbers tail.old ++ buffer.old.items }
    ensures apart { 0 < tail.new.count → buffer.new.items ≡ [] }
    ensures few { vec_len buffer.old ≤ BLOCK_SIZE → vec_len buffer.new ≤ BLOCK_SIZE }
    ensures ok { OnOk result (tail.new.count ≡ 0) }
{
    if tail.count > 0 {
        *buffer = unpack(alloc, tail)?;
        *tail = PackedBlock::empty(alloc);
    }
    Ok(())
}

// Packs the numbers of the buffer, as a whole block or as a shorter one.
fn store(
    alloc: Global,
    blocks: &mut Vec<PackedBlock>,
    tail: &mut PackedBlock,
    buffer: &mut Vec<u64>,
) -> Result<(), AllocError>
    requires full { All IsFullBlock blocks.old.items }
    requires block { IsBlock tail.old }
    requires apart { 0 < tail.old.count → buffer.old.items ≡ [] }
    requires few { vec_len buffer.old ≤ BLOCK_SIZE }
    ensures full { All IsFullBlock blocks.new.items }
    ensures block { IsBlock tail.new }
    ensures numbers { KeepsNumbers blocks.old.items tail.old buffer.old.items blocks.new.items tail.new buffer.new.items }
    ensures apart { 0 < tail.new.count → buffer.new.items ≡ [] }
    ensures few { vec_len buffer.new ≤ BLOCK_SIZE }
    ensures ok { OnOk result (vec_len buffer.new ≡ 0) }
    ensures whole { vec_len buffer.old ≡ BLOCK_SIZE → tail.new ≡ tail.old }
{
    if buffer.is_empty() {
        return Ok(());
    }
    let block = pack(alloc, buffer)?;
    if block.count == BLOCK_SIZE {
        blocks.push(block)?;
    } else {
        *tail = block;
    }
    buffer.clear();
    Ok(())
}

/// A list of numbers, packed in blocks of 128.
#[derive(Drop)]
pub struct BlockedBitpacker {
    alloc: Global,
    blocks: Vec<PackedBlock>,
    // A shorter block behind them, which a flush leaves.
    tail: PackedBlock,
    // The numbers that are not packed yet.
    buffer: Vec<u64>,
    len: usize,
}

impl Model for BlockedBitpacker {
    ghost use Rattle.std.specs.Prelude.{List, ℕ};
    ghost use Rattle.tantivy_bitpacker.specs.Blocked.{all_numbers, AreBlocks};

    ghost Value = { List ℕ };

    ghost view = { λ p. all_numbers p.blocks.items p.tail p.buffer.items };

    ghost invariant = { λ p. AreBlocks p.blocks.items p.tail p.buffer.items p.len };
}

impl BlockedBitpacker {
    ghost use Rattle.tantivy_bitpacker.specs.BlockedRest.{blocked_rest};

    /// The list without numbers.
    pub fn new(alloc: Global) -> Result<BlockedBitpacker, AllocError>
        ensures { IfOk result (λ packer. packer ≡ []) }
    {
        Ok(BlockedBitpacker {
            alloc,
            blocks: Vec::new(alloc),
            tail: PackedBlock::empty(alloc),
            buffer: Vec::new(alloc),
            len: 0,
        })
    }

    /// How many numbers it has.
    pub fn len(&self) -> usize
        ensures { result ≡ length self.now }
    {
        self.len
    }

    /// Adds a number at the end. Where there would be more than a `usize` counts, that is want of memory.
    pub fn add(&mut self, val: u64) -> Result<(), AllocError>
        ensures ok { OnOk result (self.new ≡ self.old ++ val ∷ []) }
        ensures err { OnErr result (self.new ≡ self.old) }
    {
        let Some(len) = self.len.checked_add(1) else {
            return Err(AllocError);
        };
        reopen(self.alloc, &mut self.tail, &mut self.buffer)?;
        if self.buffer.len() == BLOCK_SIZE {
            store(
                self.alloc,
                &mut self.blocks,
                &mut self.tail,
                &mut self.buffer,
            )?;
        }
        self.buffer.push(val)?;
        self.len = len;
        Ok(())
    }

    /// Packs the numbers that are not packed yet. The list stays as it is.
    pub fn flush(&mut self) -> Result<(), AllocError>
        ensures { self.new ≡ self.old }
    {
        store(
            self.alloc,
            &mut self.blocks,
            &mut self.tail,
            &mut self.buffer,
        )
    }

    /// The number that was added as the `idx`-th, counted from 0.
    pub fn get(&self, idx: usize) -> u64
        requires { idx < length self.now }
        ensures { result ≡ slice_index self.now idx }
    {
        let block = idx / BLOCK_SIZE;
        if block < self.blocks.len() {
            return self.blocks[block].get(idx % BLOCK_SIZE);
        }
        let rest = idx - BLOCK_SIZE * self.blocks.len();
        if rest < self.tail.count {
            self.tail.get(rest)
        } else {
            self.buffer[rest - self.tail.count]
        }
    }

    /// A list with the same numbers, in memory of its own.
    pub fn clone(&self, alloc: Global) -> Result<BlockedBitpacker, AllocError>
        ensures { IfOk result (λ copy. copy ≡ self.now) }
    {
        Ok(BlockedBitpacker {
            alloc,
            blocks: copies_of(alloc, &self.blocks)?,
            tail: copy_of(alloc, &self.tail)?,
            buffer: Vec::from_slice(alloc, &self.buffer)?,
            len: self.len,
        })
    }

    /// The numbers in the order in which they were added.
    pub fn iter(&self) -> BlockedIter<'_>
        ensures { blocked_rest result ≡ self.now }
    {
        BlockedIter {
            packer: self,
            next: 0,
        }
    }

    /// The memory that it takes, in bytes.
    pub fn mem_usage(&self) -> usize {
        let mut bytes = size_of::<BlockedBitpacker>();
        bytes = bytes.saturating_add(
            self.blocks
                .capacity()
                .saturating_mul(size_of::<PackedBlock>()),
        );
        bytes = bytes.saturating_add(self.buffer.capacity().saturating_mul(size_of::<u64>()));
        for block in &self.blocks {
            bytes = bytes.saturating_add(block.bytes.capacity());
        }
        bytes.saturating_add(self.tail.bytes.capacity())
    }
}

/// The numbers of a `BlockedBitpacker`. It stays at its end.
#[derive(Drop)]
pub struct BlockedIter<'a> {
    packer: &'a BlockedBitpacker,
    next: usize,
}

impl<'a> Iterator for BlockedIter<'a> {
    type Item = u64;

    ghost use Rattle.std.specs.Iterator.{YieldsFirst, item_count};
    ghost use Rattle.tantivy_bitpacker.specs.BlockedRest.{blocked_rest};

    ghost next_gives = { YieldsFirst blocked_rest };

    ghost remaining = { item_count blocked_rest };

    fn next(&mut self) -> Option<u64> {
        if self.next >= self.packer.len() {
            return None;
        }
        let number = self.packer.get(self.next);
        self.next += 1;
        Some(number)
    }
}
