// Address stores as they are written.
ghost use Rattle.std.specs.Prelude.{◌≡◌, ℕ, ◌+◌, ◌-◌, ◌^◌, ◌<◌, ◌≤◌, ◌++◌, length, Some, slice_index, OnOk, OnErr, IsOk, Decides};
ghost use Rattle.std.specs.Io.{StartsWith};
ghost use Rattle.tantivy_bitpacker.specs.Packed.{packed_pieces};
ghost use Rattle.block_addresses.specs.Lines.{stored, after_first, IsNear, IsLineOf};
ghost use Rattle.sstable_format.specs.Store.{store_of};
ghost use Rattle.block_addresses.specs.Opened.{opened};
ghost use Rattle.block_addresses.specs.Shown.{shown_line};
ghost use Rattle.block_addresses.specs.Written.{blocks_of, deviations, meta_bytes, meta_of, packed_of, store_bytes};
ghost use Rattle.block_addresses.specs.Written.{addresses_of, steps_upto, IsNearFirst, AreNear, AreStorable};

use crate::STORE_BLOCK_LEN;
use crate::line::{Line, line_for};
use crate::meta::{BlockAddrBlockMetadata, META_LEN};
use owned_bytes::{SinkError, VecSink};
use std::alloc::{AllocError, Global};
use tantivy_bitpacker::BitPacker;

const MOST_BYTES: u64 = 4_294_967_299;

const MOST_KEYS: u64 = 4_294_967_296;

// What is stored of the number at a place, counted from the first on.
fn stored(line: Line, numbers: &[u64], i: usize) -> u64
    requires within { i < length numbers.now }
    requires few { i ≤ 128 }
    requires few_bits { line.bits ≤ 56 }
    requires low { slice_index numbers.now i - slice_index numbers.now 0 < 2 ^ 40 }
    requires near { IsNear (shown_line line) (i, slice_index numbers.now i - slice_index numbers.now 0) }
    ensures exact { result ≡ stored (shown_line line) (i, slice_index numbers.now i - slice_index numbers.now 0) }
    ensures fits { result < 2 ^ line.bits }
{
    let number = numbers[i].saturating_sub(numbers[0]);
    number + (1 << (line.bits - 1)) - line.slope as u64 * i as u64
}

// Packs the deviations of up to 128 blocks: of each one's start and of the position of its first key, and last of where
// the last one ends.
fn pack_group(
    range: Line,
    ordinal: Line,
    starts: &[u64],
    ordinals: &[u64],
    packed: &mut VecSink,
) -> Result<(), SinkError>
    requires ended { length starts.now ≡ length ordinals.now + 1 }
    requires some { 0 < length ordinals.now }
    requires few { length ordinals.now ≤ 128 }
    requires starts_low { IsNearFirst starts.now }
    requires ordinals_low { IsNearFirst ordinals.now }
    requires ranges { IsLineOf (shown_line range) (after_first starts.now) }
    requires positions { IsLineOf (shown_line ordinal) (after_first ordinals.now) }
    ensures { OnOk result (packed.new ≡ packed.old ++ packed_pieces (deviations
        (shown_line range) (shown_line ordinal) (after_first starts.now) (after_first ordinals.now))) }
{
    let mut packer = BitPacker::new();
    for i in 1..ordinals.len() {
        packer.write(stored(range, starts, i), range.bits, packed)?;
        packer.write(stored(ordinal, ordinals, i), ordinal.bits, packed)?;
    }
    packer.write(stored(range, starts, ordinals.len()), range.bits, packed)?;
    packer.close(packed)
}

// A sink in memory fails for want of memory alone.
fn in_memory(written: Result<(), SinkError>) -> Result<(), AllocError>
    ensures { OnOk result (IsOk written) }
{
    match written {
        Ok(()) => Ok(()),
        Err(_) => Err(AllocError),
    }
}

// Writes what the store says of up to 128 blocks, and packs their deviations.
fn write_group(
    starts: &[u64],
    ordinals: &[u64],
    store: &mut Vec<u8>,
    packed: &mut VecSink,
) -> Result<(), AllocError>
    requires { AreNear (blocks_of starts.now ordinals.now) }
    ensures meta { OnOk result (store.new.items
        ≡ store.old.items ++ meta_bytes (meta_of (length packed.old) (blocks_of starts.now ordinals.now))) }
    ensures packed { OnOk result (packed.new ≡ packed.old ++ packed_of (blocks_of starts.now ordinals.now)) }
{
    let range = line_for(starts);
    let ordinal = line_for(ordinals);
    let meta = BlockAddrBlockMetadata {
        data_offset: packed.bytes().len() as u64,
        range_start: starts[0],
        first_ordinal: ordinals[0],
        range,
        ordinal,
        last_block: (ordinals.len() - 1) as u16,
    };
    meta.write(store)?;
    in_memory(pack_group(range, ordinal, starts, ordinals, packed))?;
    Ok(())
}

// Whether no number is below the one before it, nor more than so much above it.
fn steps_upto(most: u64, numbers: &[u64]) -> bool
    ensures { result ≡ steps_upto most numbers.now }
{
    for i in 1..numbers.len() {
        let before = numbers[i - 1];
        let number = numbers[i];
        if number < before || number - before > most {
            return false;
        }
    }
    true
}

/// Whether blocks can be stored: each has at most 4,294,967,299 bytes, those of the greatest length of 32 bits and of the
/// length itself, and at most 2 ^ 32 keys.
pub fn are_storable(starts: &[u64], ordinals: &[u64]) -> bool
    ensures { Decides result (AreStorable (blocks_of starts.now ordinals.now)) }
{
    starts.len() == ordinals.len() + 1
        && steps_upto(MOST_BYTES, starts)
        && steps_upto(MOST_KEYS, ordinals)
}

/// Appends the store of blocks that adjoin. `starts` are where each starts, and last where the last one ends; `ordinals`
/// are the positions of their first keys.
pub fn write_store(
    alloc: Global,
    starts: &[u64],
    ordinals: &[u64],
    output: &mut Vec<u8>,
) -> Result<(), AllocError>
    requires { AreStorable (blocks_of starts.now ordinals.now) }
    ensures ok { OnOk result (output.new.items
        ≡ output.old.items ++ store_bytes (blocks_of starts.now ordinals.now)) }

    // What was written holds the addresses of the blocks, and is opened.
    ensures again { OnOk result (store_of (store_bytes (blocks_of starts.now ordinals.now))
        ≡ Some (addresses_of (blocks_of starts.now ordinals.now))) }
    ensures opens { OnOk result (opened (store_bytes (blocks_of starts.now ordinals.now))
        ≡ Some (addresses_of (blocks_of starts.now ordinals.now))) }
    ensures err { OnErr result (StartsWith output.new.items output.old.items) }
{
    let mut store = Vec::new(alloc);
    let mut packed = VecSink::new(alloc);
    let groups = (ordinals.len() + STORE_BLOCK_LEN - 1) / STORE_BLOCK_LEN;
    store.extend_from_slice(&((META_LEN * groups) as u64).to_le_bytes())?;
    for k in 0..groups {
        let first = k * STORE_BLOCK_LEN;
        let end = (first + STORE_BLOCK_LEN).min(ordinals.len());
        write_group(
            &starts[first..end + 1],
            &ordinals[first..end],
            &mut store,
            &mut packed,
        )?;
    }
    output.extend_from_slice(&store)?;
    output.extend_from_slice(packed.bytes())?;
    Ok(())
}
