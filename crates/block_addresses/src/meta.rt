// What an address store says of up to 128 blocks, in 36 bytes.
ghost use Rattle.std.specs.Prelude.{◌≡◌, ◌+◌, ◌-◌, ◌*◌, ◌^◌, ◌<◌, ◌≤◌, ◌++◌, ◌&&◌, length, drop, take, Some, option_map, OnOk};
ghost use Rattle.std.specs.Int.{w16, w32, w64, from_le_bytes};
ghost use Rattle.sstable_format.specs.Meta.{meta_at};
ghost use Rattle.sstable_format.specs.Store.{are_bits, start_of, ordinal_of, address_of, addresses_of_meta};
ghost use Rattle.block_addresses.specs.Opened.{HasBits, passing, fits_u64, fits_address, rises_from, ordinal_after};
ghost use Rattle.block_addresses.specs.Written.{meta_bytes};

use crate::line::Line;
use crate::number::number_at;
use sstable_blocks::BlockAddr;
use std::alloc::AllocError;
use std::marker::Model;

/// How many bytes a meta has.
pub(crate) const META_LEN: usize = 36;

/// What a store says of up to 128 blocks. Its bytes are where their packed data begin (`u64`), where the first block starts
/// (`u64`), the position of its first key (`u64`), the slopes of the starts and of the positions (`u32` each), the bits of a
/// position and of a start (`u8` each), and the number of blocks less one (`u16`).
#[derive(Drop)]
pub(crate) struct BlockAddrBlockMetadata {
    pub(crate) data_offset: u64,
    pub(crate) range_start: u64,
    pub(crate) first_ordinal: u64,
    pub(crate) range: Line,
    pub(crate) ordinal: Line,
    pub(crate) last_block: u16,
}

impl Model for BlockAddrBlockMetadata {
    ghost use Rattle.std.specs.Prelude.{◌+◌};
    ghost use Rattle.sstable_format.specs.Meta.{Meta};

    ghost Value = { Meta };

    ghost view = { λ m. record {
      data_offset = m.data_offset;
      range_start = m.range_start;
      first_ordinal = m.first_ordinal;
      range_slope = m.range.slope;
      ordinal_slope = m.ordinal.slope;
      ordinal_bits = m.ordinal.bits;
      range_bits = m.range.bits;
      block_count = m.last_block + 1;
    } };
}

// The number in eight bytes.
fn u64_at(place: usize, bytes: &[u8]) -> u64
    requires { place + 8 ≤ length bytes.now }
    ensures { result ≡ from_le_bytes w64 (take 8 (drop place bytes.now)) }
{
    let (_, rest) = bytes.split_at(place);
    u64::from_le_bytes([
        rest[0], rest[1], rest[2], rest[3], rest[4], rest[5], rest[6], rest[7],
    ])
}

// The number in four bytes.
fn u32_at(place: usize, bytes: &[u8]) -> u32
    requires { place + 4 ≤ length bytes.now }
    ensures { result ≡ from_le_bytes w32 (take 4 (drop place bytes.now)) }
{
    let (_, rest) = bytes.split_at(place);
    u32::from_le_bytes([rest[0], rest[1], rest[2], rest[3]])
}

// The number in two bytes.
fn u16_at(place: usize, bytes: &[u8]) -> u16
    requires { place + 2 ≤ length bytes.now }
    ensures { result ≡ from_le_bytes w16 (take 2 (drop place bytes.now)) }
{
    let (_, rest) = bytes.split_at(place);
    u16::from_le_bytes([rest[0], rest[1]])
}

// A number that a meta tells has 64 bits.
fn found(number: u64) -> Option<u64>
    ensures { result ≡ passing fits_u64 (Some number) }
{
    Some(number)
}

impl BlockAddrBlockMetadata {
    /// Reads the meta at the front of the bytes.
    pub(crate) fn read(bytes: &[u8]) -> BlockAddrBlockMetadata
        requires { 36 ≤ length bytes.now }
        ensures { meta_at bytes.now ≡ Some (result, drop 36 bytes.now) }
    {
        BlockAddrBlockMetadata {
            data_offset: u64_at(0, bytes),
            range_start: u64_at(8, bytes),
            first_ordinal: u64_at(16, bytes),
            range: Line {
                slope: u32_at(24, bytes),
                bits: bytes[33],
            },
            ordinal: Line {
                slope: u32_at(28, bytes),
                bits: bytes[32],
            },
            last_block: u16_at(34, bytes),
        }
    }

    /// Appends its bytes.
    pub(crate) fn write(&self, store: &mut Vec<u8>) -> Result<(), AllocError>
        ensures { OnOk result (store.new.items ≡ store.old.items ++ meta_bytes self.now) }
    {
        store.extend_from_slice(&self.data_offset.to_le_bytes())?;
        store.extend_from_slice(&self.range_start.to_le_bytes())?;
        store.extend_from_slice(&self.first_ordinal.to_le_bytes())?;
        store.extend_from_slice(&self.range.slope.to_le_bytes())?;
        store.extend_from_slice(&self.ordinal.slope.to_le_bytes())?;
        store.extend_from_slice(&self.ordinal.bits.to_le_bytes())?;
        store.extend_from_slice(&self.range.bits.to_le_bytes())?;
        store.extend_from_slice(&self.last_block.to_le_bytes())?;
        Ok(())
    }

    /// How many blocks it speaks of.
    pub(crate) fn block_count(&self) -> u32
        ensures count { result ≡ self.now.block_count }
        ensures most { result ≤ 65536 }
    {
        self.last_block as u32 + 1
    }

    // Whether its bits are such as can be read.
    fn has_bits(&self) -> bool
        ensures { result ≡ (are_bits self.now.range_bits && are_bits self.now.ordinal_bits) }
    {
        let readable = 1..=56;
        readable.contains(&self.range.bits) && readable.contains(&self.ordinal.bits)
    }

    /// The packed data of its blocks.
    pub(crate) fn part<'a>(&self, packed: &'a [u8]) -> &'a [u8]
        ensures { result.now ≡ drop self.now.data_offset packed.now }
    {
        if self.data_offset >= packed.len() as u64 {
            return &[];
        }
        &packed[self.data_offset as usize..]
    }

    // The bit at which block j is stored, from block 1 on.
    fn place(&self, j: u32) -> usize
        requires some { 1 ≤ j }
        requires few { j ≤ 65536 }
        ensures exact { result ≡ (j - 1) * (self.now.range_bits + self.now.ordinal_bits) }
        ensures far { result < 2 ^ 61 }
    {
        (j as usize - 1) * (self.range.bits as usize + self.ordinal.bits as usize)
    }

    // Where block j starts, or else the block before it ends.
    fn start(&self, j: u32, part: &[u8]) -> Option<u64>
        requires bits { HasBits self.now }
        requires few { j ≤ 65536 }
        ensures { result ≡ passing fits_u64 (start_of self.now part.now j) }
    {
        if j == 0 {
            return found(self.range_start);
        }
        number_at(self.range, self.range_start, j, self.place(j), part)
    }

    /// The position of the first key of block j.
    pub(crate) fn ordinal(&self, j: u32, part: &[u8]) -> Option<u64>
        requires bits { HasBits self.now }
        requires few { j ≤ 65536 }
        ensures { result ≡ passing fits_u64 (ordinal_of self.now part.now j) }
    {
        if j == 0 {
            return found(self.first_ordinal);
        }
        let place = self.place(j) + self.range.bits as usize;
        number_at(self.ordinal, self.first_ordinal, j, place, part)
    }

    /// The address of block j, from the packed data of the blocks.
    pub(crate) fn address(&self, j: u32, part: &[u8]) -> Option<BlockAddr>
        requires bits { HasBits self.now }
        requires few { j < 65536 }
        ensures { result ≡ passing fits_address (address_of self.now part.now j) }
    {
        let start = self.start(j, part)?;
        let end = self.start(j + 1, part)?;
        let first_ordinal = self.ordinal(j, part)?;
        Some(BlockAddr {
            first_ordinal,
            byte_range: start as usize..end as usize,
        })
    }
}

// Whether a range doesn't run backwards, and its ordinal isn't below this one.
fn rises_from(ordinal: u64, addr: &BlockAddr) -> bool
    ensures { result ≡ rises_from ordinal addr.now }
{
    addr.byte_range.start <= addr.byte_range.end && ordinal <= addr.first_ordinal
}

/// The last ordinal of a meta's blocks, where a table's blocks can have their addresses after one with this ordinal.
pub(crate) fn ordinal_after(
    meta: &BlockAddrBlockMetadata,
    packed: &[u8],
    ordinal: u64,
) -> Option<u64>
    ensures { result ≡ ordinal_after (addresses_of_meta packed.now meta.now) ordinal }
{
    if !meta.has_bits() {
        return None;
    }
    let part = meta.part(packed);
    let mut ordinal = ordinal;
    for j in 0..meta.block_count() {
        let addr = meta.address(j, part)?;
        if !rises_from(ordinal, &addr) {
            return None;
        }
        ordinal = addr.first_ordinal;
    }
    Some(ordinal)
}
