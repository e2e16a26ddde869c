// The address store of an index of version 3, of which one address at a time is read.
ghost use Rattle.std.specs.Prelude.{◌≡◌, ◌≢◌, ℕ, ◌+◌, ◌*◌, ◌≤◌, ◌<◌, List, length, true, false, drop, None, Some, option_map, slice_index, IfOk, IfErr, IfSome, IsSome};
ghost use Rattle.sstable_values.specs.Codec.{Address};
ghost use Rattle.sstable_format.specs.Store.{store_of};
ghost use Rattle.block_addresses.specs.Found.{element_at};
ghost use Rattle.block_addresses.specs.Opened.{opened, passing, fits_u64, told, tells_then, tells_after, meta_of_group, ordinals_of};

use crate::meta::{BlockAddrBlockMetadata, META_LEN, ordinal_after};
use crate::{STORE_BLOCK_LEN, StoreError};
use owned_bytes::OwnedBytes;
use sstable_blocks::BlockAddr;
use std::alloc::Global;
use std::marker::Model;

// The blocks of more metas have no numbers of 64 bits.
const MOST_GROUPS: u64 = 1 << 57;

/// Where the blocks of a table stand, and the positions of their first keys. Contracts see the list.
#[derive(Drop)]
pub struct AddressStore {
    metas: OwnedBytes,
    packed: OwnedBytes,
    count: u64,
}

impl Model for AddressStore {
    ghost use Rattle.std.specs.Prelude.{List};
    ghost use Rattle.sstable_values.specs.Codec.{Address};
    ghost use Rattle.block_addresses.specs.Opened.{addresses_in, AreOpen};

    ghost Value = { List Address };

    ghost view = { λ store. addresses_in store.metas store.packed };

    ghost invariant = { λ store. AreOpen store.metas store.packed store.count };
}

// Whether a meta speaks of as many blocks as it must, where so many bytes of metas are behind it: every one but the last
// speaks of 128.
fn is_filled(count: u32, behind: usize) -> bool
    ensures filled { result ≡ true → (count ≤ 128) × (0 < behind → 128 ≤ count) }
    ensures unfilled { result ≡ false → (count ≢ 128) × (count < 128 → 0 < behind) }
{
    count as usize == STORE_BLOCK_LEN || (behind == 0 && (count as usize) < STORE_BLOCK_LEN)
}

// The last ordinal of the blocks of the first meta, where a table's blocks can have their addresses after one with this
// ordinal.
fn ordinal_after_first(metas: &[u8], packed: &[u8], ordinal: u64) -> Option<u64>
    requires { 0 < length metas.now }
    ensures long { IsSome result → META_LEN ≤ length metas.now }
    ensures next { tells_after ordinal metas.now packed.now
        ≡ tells_then result (told (drop META_LEN metas.now) packed.now) }
{
    if metas.len() < META_LEN {
        return None;
    }
    let meta = BlockAddrBlockMetadata::read(metas);
    if !is_filled(meta.block_count(), metas.len() - META_LEN) {
        return None;
    }
    ordinal_after(&meta, packed, ordinal)
}

// Whether metas and packed data tell addresses that a table's blocks can have.
fn tells_addresses(metas: &[u8], packed: &[u8]) -> bool
    ensures { result ≡ tells_after 0 metas.now packed.now }
{
    let mut rest = metas;
    let mut ordinal = 0;
    'metas: while !rest.is_empty() {
        match ordinal_after_first(rest, packed, ordinal) {
            Some(last) => ordinal = last,
            None => return false,
        }
        rest = &rest[META_LEN..];
    }
    true
}

// The meta of group k, where there is one.
fn meta_of_group(k: u64, metas: &[u8]) -> Option<BlockAddrBlockMetadata>
    ensures { result ≡ meta_of_group k metas.now }
{
    if k >= (metas.len() / META_LEN) as u64 {
        return None;
    }
    Some(BlockAddrBlockMetadata::read(&metas[k as usize * META_LEN..]))
}

// How many blocks the metas speak of, where the number has 64 bits.
fn count_of(metas: &[u8]) -> Option<u64>
    ensures { (packed : List ℕ) (found : List Address) → told metas.now packed ≡ Some found
        → result ≡ passing fits_u64 (Some (length found)) }
{
    let groups = (metas.len() / META_LEN) as u64;
    if groups == 0 {
        return Some(0);
    }
    if groups > MOST_GROUPS {
        return None;
    }
    let last = meta_of_group(groups - 1, metas)?;
    ((groups - 1) * STORE_BLOCK_LEN as u64).checked_add(last.block_count() as u64)
}

impl AddressStore {
    /// The store that these bytes are.
    pub fn open(alloc: Global, bytes: OwnedBytes) -> Result<AddressStore, StoreError>
        ensures ok { IfOk result (λ store. opened bytes ≡ Some store) }
        ensures holds { IfOk result (λ store. store_of bytes ≡ Some store) }
        ensures corrupt { IfErr result (λ e. e ≡ StoreError.Corrupt → opened bytes ≡ None) }
    {
        let mut bytes = bytes;
        if bytes.len() < 8 {
            return Err(StoreError::Corrupt);
        }
        let len = bytes.read_u64();
        if len > bytes.len() as u64 {
            return Err(StoreError::Corrupt);
        }
        let (metas, packed) = bytes.split(alloc, len as usize)?;
        if !tells_addresses(metas.as_slice(), packed.as_slice()) {
            return Err(StoreError::Corrupt);
        }
        match count_of(metas.as_slice()) {
            Some(count) => Ok(AddressStore {
                metas,
                packed,
                count,
            }),
            None => Err(StoreError::Corrupt),
        }
    }

    /// How many blocks there are.
    pub fn len(&self) -> u64
        ensures { result ≡ length self.now }
    {
        self.count
    }

    /// Where a block stands, by its number from 0 on; none where there is no such block.
    pub fn get(&self, block: u64) -> Option<BlockAddr>
        ensures element { result ≡ element_at self.now block }
        ensures ordered { IfSome result (λ addr. addr.start ≤ addr.end) }
    {
        let meta = meta_of_group(block / STORE_BLOCK_LEN as u64, self.metas.as_slice())?;
        let j = (block % STORE_BLOCK_LEN as u64) as u32;
        if j >= meta.block_count() {
            return None;
        }
        meta.address(j, meta.part(self.packed.as_slice()))
    }

    // The position of a block's first key.
    fn first_ordinal(&self, block: u64) -> u64
        requires { block < length self.now }
        ensures { result ≡ slice_index (ordinals_of self.now) block }
    {
        let groups = self.metas.as_slice();
        match meta_of_group(block / STORE_BLOCK_LEN as u64, groups) {
            Some(meta) => {
                let part = meta.part(self.packed.as_slice());
                let j = (block % STORE_BLOCK_LEN as u64) as u32;
                meta.ordinal(j, part).unwrap_or(0)
            }
            None => 0,
        }
    }

    /// The number of the last block whose first key isn't behind the position, or else of the first block.
    pub fn locate_with_ord(&self, ord: u64) -> u64
        requires { 0 < length self.now }
        ensures within { result < length self.now }
        ensures at_most { 0 < result → slice_index (ordinals_of self.now) result ≤ ord }
        ensures last { (i : ℕ) → result < i → i < length self.now → ord < slice_index (ordinals_of self.now) i }
    {
        let mut low = 0;
        let mut high = self.count;
        'halve: while high - low > 1 {
            let middle = low + (high - low) / 2;
            if self.first_ordinal(middle) <= ord {
                low = middle;
            } else {
                high = middle;
            }
        }
        low
    }
}
