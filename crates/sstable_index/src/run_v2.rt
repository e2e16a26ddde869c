// The blocks of an index of version 2, as they are read.
ghost use Rattle.std.specs.Prelude.{◌≡◌, ◌<◌, ◌≤◌, ◌&&◌, ◌||◌, ◌==◌, [], length, drop, true, false, Some, None, unwrap_or, IfOk, IfErr, IfSome, IfNone, OnOk};
ghost use Rattle.owned_bytes.specs.Keys.{is_below, shared};
ghost use Rattle.sstable_blocks.specs.Delta.{keep_and_add_at, delta_at};
ghost use Rattle.sstable_format.specs.Index.{is_zeros};
ghost use Rattle.sstable_index.specs.Loaded.{last_of};
ghost use Rattle.sstable_index.specs.ReadingV2.{may_come, with_keys_left, entries_behind, AddsEntries, DamagedOnly, RunIs, IsNoRun};

use crate::key_buffer::{comes_before, common_prefix_len, cut};
use crate::key_list::KeyList;
use crate::load_errors::{LoadError, SSTableDataCorruption};
use owned_bytes::OwnedBytes;
use sstable_blocks::{BlockAddr, BlockReader, IndexValueReader, ValueReader, vint};
use std::alloc::Global;

// What a delta keeps and adds, and where the added bytes begin.
fn keep_and_add(bytes: &[u8]) -> Option<((u64, u64), usize)>
    ensures within { IfSome result (λ found. (1 ≤ found.1) × (found.1 ≤ length bytes.now)) }
    ensures found { IfSome result (λ found. keep_and_add_at bytes.now ≡ Some (found.0, drop found.1 bytes.now)) }
    ensures none { IfNone result (keep_and_add_at bytes.now ≡ None) }
{
    let (first, rest) = bytes.split_first()?;
    let first = *first;
    if first != 1 {
        return Some(((u64::from(first % 16), u64::from(first / 16)), 1));
    }
    let (keep_len, keep) = vint::deserialize_read(rest)?;
    let (add_len, add) = vint::deserialize_read(&rest[keep_len..])?;
    Some(((keep, add), 1 + keep_len + add_len))
}

// The delta at the front: what it keeps, the bytes that it adds, and those after it.
fn delta_front(bytes: &[u8]) -> Option<(u64, &[u8], &[u8])>
    ensures found { IfSome result (λ found. delta_at bytes.now ≡ Some (record { keep = found.0; suffix = found.1.now }, found.2.now)) }
    ensures shorter { IfSome result (λ found. length found.2.now < length bytes.now) }
    ensures none { IfNone result (delta_at bytes.now ≡ None) }
{
    let Some(((keep, add), len)) = keep_and_add(bytes) else {
        return None;
    };
    let rest = &bytes[len..];
    if add > rest.len() as u64 {
        return None;
    }
    let (suffix, others) = rest.split_at(add as usize);
    Some((keep, suffix, others))
}

// Whether a key keeps all that it has in common with the one before, or nothing where a block begins. These are the rests of
// the two behind what is kept.
fn keeps_all(begins: bool, keep: u64, rest: &[u8], suffix: &[u8]) -> bool
    ensures { result ≡ ((begins && (keep == 0)) || (shared rest.now suffix.now == 0)) }
{
    (begins && keep == 0) || common_prefix_len(rest, suffix) == 0
}

// Whether a key is the first, or comes after the one before.
fn comes_behind(is_first: bool, rest: &[u8], suffix: &[u8]) -> bool
    ensures { result ≡ (is_first || is_below rest.now suffix.now) }
{
    is_first || comes_before(rest, suffix)
}

// Whether a key that keeps so many bytes of the last one may come next, or as the first of a block.
fn may_come(keys: &KeyList, begins: bool, keep: u64, suffix: &[u8]) -> bool
    ensures may { result ≡ may_come begins (last_of keys.now) keep suffix.now }
    ensures within { result ≡ true → keep ≤ length (unwrap_or (last_of keys.now) []) }
{
    let last = keys.last();
    if keep > last.len() as u64 {
        return false;
    }
    let rest = cut(last, keep as usize, last.len());
    if !keeps_all(begins, keep, rest, suffix) {
        return false;
    }
    comes_behind(keys.len() == 0, rest, suffix)
}

// Adds the key of the delta at the front, and answers the bytes after it.
fn push_delta<'a>(keys: &mut KeyList, begins: bool, deltas: &'a [u8]) -> Result<&'a [u8], LoadError>
    requires some { begins ≡ false → 0 < length deltas.now }
    requires later { begins ≡ false → 0 < length keys.old }
    ensures ok { IfOk result (λ others. with_keys_left begins keys.old deltas.now ≡ with_keys_left false keys.new others.now) }
    ensures grown { OnOk result (0 < length keys.new) }
    ensures shorter { IfOk result (λ others. length others.now < length deltas.now) }
    ensures err { IfErr result (λ e. DamagedOnly e (with_keys_left begins keys.old deltas.now ≡ None)) }
{
    let Some((keep, suffix, others)) = delta_front(deltas) else {
        return Err(LoadError::Corrupt(SSTableDataCorruption));
    };
    if !may_come(keys, begins, keep, suffix) {
        return Err(LoadError::Corrupt(SSTableDataCorruption));
    }
    keys.push(keep as usize, suffix)?;
    Ok(others)
}

// Adds the keys of a block's deltas.
fn push_keys(keys: &mut KeyList, deltas: &[u8]) -> Result<(), LoadError>
    ensures ok { OnOk result (with_keys_left true keys.old deltas.now ≡ Some keys.new) }
    ensures err { IfErr result (λ e. DamagedOnly e (with_keys_left true keys.old deltas.now ≡ None)) }
{
    let mut rest = match push_delta(keys, true, deltas) {
        Ok(rest) => rest,
        Err(e) => return Err(e),
    };
    'deltas: while !rest.is_empty() {
        match push_delta(keys, false, rest) {
            Ok(others) => rest = others,
            Err(e) => return Err(e),
        }
    }
    Ok(())
}

// Adds the entries of a block.
fn push_block(
    alloc: Global,
    content: &[u8],
    keys: &mut KeyList,
    addresses: &mut Vec<BlockAddr>,
) -> Result<(), LoadError>
    ensures ok { OnOk result (AddsEntries content.now keys.old keys.new addresses.old.items addresses.new.items) }
    ensures err { IfErr result (λ e. DamagedOnly e (entries_behind (last_of keys.old) content.now ≡ None)) }
{
    let mut values = IndexValueReader::new(alloc);
    let len = match values.load(content) {
        Ok(len) => len,
        Err(e) => return Err(LoadError::from(e)),
    };
    let before = keys.len();
    match push_keys(keys, &content[len..]) {
        Ok(()) => {}
        Err(e) => return Err(e),
    }
    let count = keys.len() - before;
    if values.count().unwrap_or(0) != count {
        return Err(LoadError::Corrupt(SSTableDataCorruption));
    }
    for i in 0..count {
        let addr = values.value(i);
        addresses.push(BlockAddr {
            first_ordinal: addr.first_ordinal,
            byte_range: addr.byte_range.start..addr.byte_range.end,
        })?;
    }
    Ok(())
}

// Reads a run of blocks, and answers its keys, its places and where it ends.
pub(crate) fn read_run(
    alloc: Global,
    data: OwnedBytes,
) -> Result<(KeyList, Vec<BlockAddr>, usize), LoadError>
    ensures ok { IfOk result (λ run. RunIs «data» run.0 run.1.items run.2) }
    ensures err { IfErr result (λ e. IsNoRun «data» e) }
{
    let mut keys = KeyList::new(alloc);
    let mut addresses = Vec::new(alloc);
    let mut end = 0;
    let len = data.len();
    let mut blocks = BlockReader::new(alloc, data, 0);
    'reading: loop {
        match blocks.read_block() {
            Ok(true) => {}
            Ok(false) => return Ok((keys, addresses, end)),
            Err(e) => return Err(LoadError::from(e)),
        }
        let content = blocks.buffer();
        match push_block(alloc, content, &mut keys, &mut addresses) {
            Ok(()) => {}
            Err(e) => return Err(e),
        }
        end += 5 + content.len();
    }
}

// Whether these bytes may stand behind the blocks: none, or four zero bytes.
pub(crate) fn is_end_of_index(rest: &[u8]) -> bool
    ensures { result ≡ (is_zeros 0 rest.now || is_zeros 4 rest.now) }
{
    match rest {
        [] => true,
        [0, 0, 0, 0] => true,
        _ => false,
    }
}
