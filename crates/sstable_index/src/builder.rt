// The index of a table's blocks, as it is built.
ghost use Rattle.std.specs.Prelude.{◌≡◌, ◌<◌, ◌≤◌, ◌+◌, ◌-◌, ◌++◌, ◌∷◌, [], length, take, drop, true, Some, Err, slice_index_or, OnOk, OnErr, IfOk, IfErr};
ghost use Rattle.std.specs.List.{flat_map};
ghost use Rattle.owned_bytes.specs.Outside.{HasCause, WritesAll};
ghost use Rattle.sstable_blocks.specs.Writing.{keys_in};
ghost use Rattle.sstable_format.specs.Store.{store_of, numbers_from};
ghost use Rattle.block_addresses.specs.Written.{store_bytes};
ghost use Rattle.sstable_index.specs.Building.{adjoin, address_of, addresses_in, blocks_at, MayComeNext, with_last_key_shortened, end_of, map_row, map_bytes, map_and_store, are_rising, Serializes, FromSink};

use crate::key_buffer::{comes_before, cut, shorten_from};
use crate::write_errors::SstWriteError;
use block_addresses::write_store;
use owned_bytes::{Sink, SinkError};
use sstable_values::BlockAddr;
use std::alloc::{AllocError, Global};
use std::marker::Model;
use std::ops::Range;

/// Gathers a key and a place for each block of a table. Contracts see the entries that were added.
///
/// The index part of version 3 is a map from the keys to the numbers of their blocks, a store of the blocks' places, and
/// the length of the map (`u64`); of at most one block it is eight zero bytes.
#[derive(Drop)]
pub struct SSTableIndexBuilder {
    alloc: Global,
    // the keys one after the other, and where each begins
    keys: Vec<u8>,
    key_starts: Vec<usize>,
    // where each block starts, and behind that where the last one ends
    starts: Vec<u64>,
    ordinals: Vec<u64>,
}

impl Model for SSTableIndexBuilder {
    ghost use Rattle.std.specs.Prelude.{List};
    ghost use Rattle.sstable_format.specs.Index.{IndexEntry};
    ghost use Rattle.sstable_index.specs.Built.{built, IsBuilt};

    ghost Value = { List IndexEntry };

    ghost view = { λ b. built b.keys.items b.key_starts.items b.starts.items b.ordinals.items };

    ghost invariant = { λ b. IsBuilt b.keys.items b.key_starts.items b.starts.items b.ordinals.items
        (built b.keys.items b.key_starts.items b.starts.items b.ordinals.items) };
}

// Appends a number. An error changes nothing.
fn push_number(numbers: &mut Vec<u64>, number: u64) -> Result<(), AllocError>
    ensures ok { OnOk result (numbers.new.items ≡ numbers.old.items ++ number ∷ []) }
    ensures err { OnErr result (numbers.new.items ≡ numbers.old.items) }
{
    match numbers.push(number) {
        Ok(()) => Ok(()),
        Err(_) => Err(AllocError),
    }
}

// Appends a key. An error changes nothing.
fn push_key(keys: &mut Vec<u8>, starts: &mut Vec<usize>, key: &[u8]) -> Result<(), AllocError>
    ensures key { OnOk result (keys.new.items ≡ keys.old.items ++ key.now) }
    ensures start { OnOk result (starts.new.items ≡ starts.old.items ++ length keys.old.items ∷ []) }
    ensures err_key { OnErr result (keys.new.items ≡ keys.old.items) }
    ensures err_start { OnErr result (starts.new.items ≡ starts.old.items) }
{
    let start = keys.len();
    keys.extend_from_slice(key)?;
    match starts.push(start) {
        Ok(()) => Ok(()),
        Err(_) => {
            keys.truncate(start);
            Err(AllocError)
        }
    }
}

// Appends where a block ends, behind where it starts if it is the first one. An error changes nothing.
fn push_range(starts: &mut Vec<u64>, range: Range<u64>) -> Result<(), AllocError>
    ensures first { OnOk result (starts.old.items ≡ [] → starts.new.items ≡ range.start ∷ range.end ∷ []) }
    ensures later { OnOk result (0 < length starts.old.items → starts.new.items ≡ starts.old.items ++ range.end ∷ []) }
    ensures err { OnErr result (starts.new.items ≡ starts.old.items) }
{
    if !starts.is_empty() {
        return push_number(starts, range.end);
    }
    push_number(starts, range.start)?;
    let pushed = push_number(starts, range.end);
    if pushed.is_err() {
        starts.clear();
    }
    pushed
}

// Appends a block's place. An error changes nothing.
fn push_place(
    starts: &mut Vec<u64>,
    ordinals: &mut Vec<u64>,
    range: Range<u64>,
    first_ordinal: u64,
) -> Result<(), AllocError>
    ensures first { OnOk result (starts.old.items ≡ [] → starts.new.items ≡ range.start ∷ range.end ∷ []) }
    ensures later { OnOk result (0 < length starts.old.items → starts.new.items ≡ starts.old.items ++ range.end ∷ []) }
    ensures ordinal { OnOk result (ordinals.new.items ≡ ordinals.old.items ++ first_ordinal ∷ []) }
    ensures err_range { OnErr result (starts.new.items ≡ starts.old.items) }
    ensures err_ordinal { OnErr result (ordinals.new.items ≡ ordinals.old.items) }
{
    let len = starts.len();
    push_range(starts, range)?;
    let pushed = push_number(ordinals, first_ordinal);
    if pushed.is_err() {
        starts.truncate(len);
    }
    pushed
}

// Appends the bytes at once.
pub(crate) fn append<W: Sink>(wrt: &mut W, bytes: &[u8]) -> Result<(), SstWriteError>
    ensures bytes { WritesAll (W.written wrt.old) (W.written wrt.new) result bytes.now }
    ensures error { IfErr result (λ e. FromSink e) }
    ensures cause { HasCause (W.faults wrt.old) (W.faults wrt.new) (result ≡ Err SstWriteError.Write) }
{
    match wrt.write_all(bytes) {
        Ok(()) => Ok(()),
        Err(SinkError::Memory) => Err(SstWriteError::Memory),
        Err(SinkError::Failed) => Err(SstWriteError::Write),
    }
}

impl SSTableIndexBuilder {
    /// A builder without blocks.
    pub fn new(alloc: Global) -> Self
        ensures { result ≡ [] }
    {
        SSTableIndexBuilder {
            alloc,
            keys: Vec::new(alloc),
            key_starts: Vec::new(alloc),
            starts: Vec::new(alloc),
            ordinals: Vec::new(alloc),
        }
    }

    /// Adds a block by its last key and its place. An error changes nothing.
    pub fn add_block(
        &mut self,
        last_key: &[u8],
        byte_range: Range<u64>,
        first_ordinal: u64,
    ) -> Result<(), AllocError>
        requires { MayComeNext self.old byte_range first_ordinal }
        ensures ok { OnOk result (self.new ≡ self.old ++ (last_key.now, address_of byte_range first_ordinal) ∷ []) }
        ensures err { OnErr result (self.new ≡ self.old) }
    {
        let len = self.keys.len();
        push_key(&mut self.keys, &mut self.key_starts, last_key)?;
        let pushed = push_place(
            &mut self.starts,
            &mut self.ordinals,
            byte_range,
            first_ordinal,
        );
        if pushed.is_err() {
            self.keys.truncate(len);
            self.key_starts.truncate(self.ordinals.len());
        }
        pushed
    }

    /// Shortens the last block's key to where it still comes before the next key, if it does.
    pub fn shorten_last_block_key_given_next_key(&mut self, next_key: &[u8])
        ensures { self.new ≡ with_last_key_shortened self.old next_key.now }
    {
        let len = self.key_starts.len();
        if len > 0 {
            let start = self.key_starts[len - 1];
            shorten_from(&mut self.keys, start, next_key);
        }
    }

    // How many blocks were added.
    pub(crate) fn len(&self) -> usize
        ensures { result ≡ length self.now }
    {
        self.ordinals.len()
    }

    // Where key i ends in the buffer of keys.
    fn key_end(&self, i: usize) -> usize
        requires { i < length self.now }
        ensures { result ≡ end_of (keys_in self.now) i }
    {
        let len = self.key_starts.len();
        if i + 1 < len {
            self.key_starts[i + 1]
        } else {
            self.keys.len()
        }
    }

    // Key i.
    pub(crate) fn key(&self, i: usize) -> &[u8]
        requires { i < length self.now }
        ensures { result.now ≡ slice_index_or (keys_in self.now) i [] }
    {
        cut(self.keys.as_slice(), self.key_starts[i], self.key_end(i))
    }

    // Where block i stands.
    pub(crate) fn block_addr(&self, i: usize) -> BlockAddr
        requires { i < length self.now }
        ensures place { drop i (addresses_in self.now) ≡ result ∷ drop (i + 1) (addresses_in self.now) }
        ensures adjoining { adjoin (addresses_in self.now) ≡ true }
    {
        BlockAddr {
            first_ordinal: self.ordinals[i],
            byte_range: self.starts[i] as usize..self.starts[i + 1] as usize,
        }
    }

    pub(crate) fn alloc(&self) -> Global {
        self.alloc
    }

    // Whether each key comes before the next.
    pub(crate) fn is_rising(&self) -> bool
        ensures { result ≡ are_rising self.now }
    {
        for i in 1..self.len() {
            if !comes_before(self.key(i - 1), self.key(i)) {
                return false;
            }
        }
        true
    }

    // Appends where each key ends, and its number.
    fn push_rows(&self, bytes: &mut Vec<u8>) -> Result<(), AllocError>
        ensures { OnOk result (bytes.new.items ≡ bytes.old.items ++ flat_map (map_row (keys_in self.now)) (numbers_from 0 (length self.now))) }
    {
        for i in 0..self.len() {
            bytes.extend_from_slice(&(self.key_end(i) as u64).to_le_bytes())?;
            bytes.extend_from_slice(&(i as u64).to_le_bytes())?;
        }
        Ok(())
    }

    // Appends the map of the keys to their numbers.
    fn push_map(&self, bytes: &mut Vec<u8>) -> Result<(), AllocError>
        ensures { OnOk result (bytes.new.items ≡ bytes.old.items ++ map_bytes (keys_in self.now)) }
    {
        bytes.extend_from_slice(&(self.len() as u64).to_le_bytes())?;
        self.push_rows(bytes)?;
        bytes.extend_from_slice(self.keys.as_slice())
    }

    // How many bytes an index part usually has at most.
    fn usual_size(&self) -> usize {
        self.len()
            .saturating_mul(32)
            .saturating_add(self.keys.len())
            .saturating_add(64)
    }

    // The index part of two blocks and more, and the length of its map.
    fn map_and_store(&self) -> Result<(Vec<u8>, u64), AllocError>
        requires { 1 < length self.now }
        ensures bytes { IfOk result (λ part. part.0.items ≡ map_and_store self.now) }
        ensures len { IfOk result (λ part. part.1 ≡ length (map_bytes (keys_in self.now))) }
        ensures again { IfOk result (λ _. store_of (store_bytes (blocks_at (addresses_in self.now))) ≡ Some (addresses_in self.now)) }
    {
        let mut bytes = Vec::with_capacity(self.alloc, self.usual_size())?;
        self.push_map(&mut bytes)?;
        let map_len = bytes.len() as u64;
        write_store(
            self.alloc,
            self.starts.as_slice(),
            self.ordinals.as_slice(),
            &mut bytes,
        )?;
        bytes.extend_from_slice(&map_len.to_le_bytes())?;
        Ok((bytes, map_len))
    }

    /// Appends the index part of version 3, and answers the length of its map; 0 for at most one block.
    pub fn serialize<W: Sink>(&self, wrt: &mut W) -> Result<u64, SstWriteError>
        ensures serializes { Serializes self.now (W.written wrt.old) (W.written wrt.new) result }
        ensures cause { HasCause (W.faults wrt.old) (W.faults wrt.new) (result ≡ Err SstWriteError.Write) }
    {
        if self.len() <= 1 {
            return match append(wrt, &[0; 8]) {
                Ok(()) => Ok(0),
                Err(e) => Err(e),
            };
        }
        if !self.is_rising() {
            return Err(SstWriteError::Unsorted);
        }
        let (bytes, map_len) = self.map_and_store()?;
        match append(wrt, bytes.as_slice()) {
            Ok(()) => Ok(map_len),
            Err(e) => Err(e),
        }
    }
}
