// Tables that are written.
ghost use Rattle.std.specs.Prelude.{◌≡◌, ◌+◌, ◌≤◌, ◌<◌, ◌^◌, ◌==◌, ◌||◌, ◌++◌, ◌∷◌, [], length, true, false, nat_lt, if◌then◌else◌, unwrap_or, Option, Some, None, Err, IfOk, IfErr, IfSome, OnOk, OnErr, IsTrue};
ghost use Rattle.owned_bytes.specs.Keys.{shared, is_below, is_rising};
ghost use Rattle.owned_bytes.specs.Outside.{HasCause, WritesAll};
ghost use Rattle.common_wire.specs.Counting.{inner_sink, bytes_counted};
ghost use Rattle.sstable_blocks.specs.Writing.{keys_in};
ghost use Rattle.sstable_format.specs.Index.{index_of_version};
ghost use Rattle.sstable_index.specs.Building.{MayComeNext, with_last_key_shortened, index_of, index_part};
ghost use Rattle.sstable_tables.specs.Making.{table_end, IsSinkError, handed, StopsBy};
ghost use Rattle.sstable_tables.specs.Made as made;

use common_wire::CountingWriter;
use owned_bytes::{Sink, SinkError};
use sstable_blocks::DeltaWriter;
use sstable_index::{SSTableIndexBuilder, SstWriteError, Unfinished};
use sstable_values::ValueWriter;
use std::alloc::{AllocError, Global};
use std::cmp::Ordering;
use std::marker::Model;
use std::mem::swap;
use std::ops::Range;

// Behind the blocks stand four bytes, and what they all have is told by a `u64`.
const MOST_BYTES: u64 = u64::MAX - 4;

// How many bytes two keys have in common at their front.
fn common_prefix_len(left: &[u8], right: &[u8]) -> usize
    ensures count { result ≡ shared left.now right.now }
    ensures fits { result ≤ length right.now }
{
    let most = left.len().min(right.len());
    for i in 0..most {
        if left[i] != right[i] {
            return i;
        }
    }
    most
}

// How many bytes a key keeps of the previous one: none at the beginning of a block.
fn keep_of(begun: bool, previous: &[u8], key: &[u8]) -> usize
    ensures count { result ≡ shared (if begun then previous.now else []) key.now }
    ensures fits { result ≤ length key.now }
{
    if begun {
        common_prefix_len(previous, key)
    } else {
        0
    }
}

// At the beginning of a block, shortens the key of the block before it.
fn shorten_at_first(begun: bool, index_builder: &mut SSTableIndexBuilder, key: &[u8])
    ensures { index_builder.new ≡ (if begun then index_builder.old else with_last_key_shortened index_builder.old key.now) }
{
    if !begun {
        index_builder.shorten_last_block_key_given_next_key(key);
    }
}

// Whether a key comes after the previous one, if so many were inserted.
fn comes_after(count: u64, previous: &[u8], key: &[u8]) -> bool
    ensures { result ≡ (count == 0 || is_below previous.now key.now) }
{
    count == 0 || previous.cmp(key) == Ordering::Less
}

// Adds a block to the index, unless the blocks have more bytes than can be told.
fn index_block(
    index_builder: &mut SSTableIndexBuilder,
    last_key: &[u8],
    place: Range<u64>,
    first_ordinal: u64,
) -> Result<(), AllocError>
    requires { MayComeNext index_builder.old place first_ordinal }
    ensures ok { OnOk result (index_builder.new ≡ index_builder.old ++ (last_key.now, record { start = place.start; end = place.end; first_ordinal = first_ordinal }) ∷ []) }
    ensures small { OnOk result (place.end + 4 < 2 ^ 64) }
    ensures err { OnErr result (index_builder.new ≡ index_builder.old) }
{
    if place.end > MOST_BYTES {
        return Err(AllocError);
    }
    index_builder.add_block(last_key, place, first_ordinal)
}

// What each later call answers after a block wasn't written out for this reason.
fn refusal_by(error: SstWriteError) -> SstWriteError
    ensures { result ≡ made.refusal_by error }
{
    match error {
        SstWriteError::BlockTooLong => SstWriteError::BlockTooLong,
        _ => SstWriteError::Spent,
    }
}

// Appends bytes.
fn append<W: Sink>(sink: &mut W, bytes: &[u8]) -> Result<(), SstWriteError>
    ensures bytes { WritesAll (W.written sink.old) (W.written sink.new) result bytes.now }
    ensures error { IfErr result (λ e. IsSinkError e) }
    ensures cause { HasCause (W.faults sink.old) (W.faults sink.new) (result ≡ Err SstWriteError.Write) }
{
    match sink.write_all(bytes) {
        Ok(()) => Ok(()),
        Err(SinkError::Memory) => Err(SstWriteError::Memory),
        Err(SinkError::Failed) => Err(SstWriteError::Write),
    }
}

// Appends a footer of version 3.
fn write_footer<W: Sink>(
    sink: &mut W,
    index_offset: u64,
    num_terms: u64,
) -> Result<(), SstWriteError>
    ensures bytes { WritesAll (W.written sink.old) (W.written sink.new) result (made.footer index_offset num_terms) }
    ensures error { IfErr result (λ e. IsSinkError e) }
    ensures cause { HasCause (W.faults sink.old) (W.faults sink.new) (result ≡ Err SstWriteError.Write) }
{
    let [a, b, c, d, e, f, g, h] = index_offset.to_le_bytes();
    let [i, j, k, l, m, n, o, p] = num_terms.to_le_bytes();
    append(
        sink,
        &[a, b, c, d, e, f, g, h, i, j, k, l, m, n, o, p, 3, 0, 0, 0],
    )
}

// Appends the end of a table: four zero bytes, the index part and the footer.
fn write_end<W: Sink>(
    sink: &mut W,
    index_builder: &SSTableIndexBuilder,
    index_offset: u64,
    num_terms: u64,
) -> Result<(), SstWriteError>
    requires { is_rising (keys_in index_builder.now) ≡ true }
    ensures bytes { WritesAll (W.written sink.old) (W.written sink.new) result (table_end index_builder.now index_offset num_terms) }
    ensures told { OnOk result (index_of_version 3 (index_part index_builder.now) ≡ Some (index_of index_builder.now)) }
    ensures error { IfErr result (λ e. IsSinkError e) }
    ensures cause { HasCause (W.faults sink.old) (W.faults sink.new) (result ≡ Err SstWriteError.Write) }
{
    match append(sink, &[0, 0, 0, 0]) {
        Ok(()) => match index_builder.serialize(sink) {
            Ok(_map_len) => write_footer(sink, index_offset, num_terms),
            Err(error) => Err(error),
        },
        Err(error) => Err(error),
    }
}

// Appends the end of a table whose blocks were written, and hands back the sink.
fn finish_table<W: Sink>(
    wrt: CountingWriter<W>,
    index_builder: &SSTableIndexBuilder,
    num_terms: u64,
) -> Result<W, Unfinished<W, SstWriteError>>
    requires fits { bytes_counted wrt + 4 < 2 ^ 64 }
    requires rising { is_rising (keys_in index_builder.now) ≡ true }
    ensures bytes { WritesAll (W.written (inner_sink wrt)) (W.written (handed result)) result (table_end index_builder.now (bytes_counted wrt + 4) num_terms) }
    ensures told { IfOk result (λ sink. index_of_version 3 (index_part index_builder.now) ≡ Some (index_of index_builder.now)) }
    ensures error { IfErr result (λ unfinished. IsSinkError unfinished.error) }
    ensures cause { HasCause (W.faults (inner_sink wrt)) (W.faults (handed result)) (StopsBy result SstWriteError.Write) }
{
    let index_offset = wrt.written_bytes() + 4;
    let mut sink = wrt.finish();
    match write_end(&mut sink, index_builder, index_offset, num_terms) {
        Ok(()) => Ok(sink),
        Err(error) => Err(Unfinished { sink, error }),
    }
}

/// Writes a table of entries whose keys rise, in blocks that are written out once their deltas have more bytes than the
/// block length, which is 4,000 at first.
///
/// Contracts see the list inserted so far and the sink. A call that answers `Write`, or `Memory` while a block is written
/// out, ends the writer: each later call answers `Spent`.
#[derive(Drop)]
pub struct Writer<W: Sink, T: ValueWriter> {
    alloc: Global,
    previous_key: Vec<u8>,
    // where a key is put before it becomes the previous one
    next_key: Vec<u8>,
    delta_writer: DeltaWriter<W, T>,
    index_builder: SSTableIndexBuilder,
    num_terms: u64,
    // the position of the open block's first key
    first_ordinal: u64,
    // what each later call answers, once a block was not written out
    refusal: Option<SstWriteError>,
}

impl<W: Sink, T: ValueWriter> Model for Writer<W, T> {
    ghost use Rattle.sstable_tables.specs.Making.{Making};

    ghost Value = { Making W T.Value.Shown };

    ghost use Rattle.sstable_tables.specs.Made.{made, IsMaking};

    ghost view = { λ w. made T.codec w.delta_writer w.index_builder w.previous_key.items w.num_terms w.first_ordinal w.refusal };

    ghost invariant = { λ w. IsMaking T.codec W.written W.faults w.delta_writer w.index_builder w.previous_key.items w.num_terms w.first_ordinal w.refusal };
}

impl<W: Sink, T: ValueWriter + Drop> Writer<W, T> {
    ghost use Rattle.sstable_tables.specs.Making.{Begins, may_come, IsTaken, Adds, Refuses, Inserting, Gathering, greatest_len, Closing, Lengthens, KeepsList, HasSmallBlocks, KeepsBlocksSmall, Finishing, IsNextKey, RefusesKey};
    ghost use Rattle.sstable_tables.specs.Made.{AreBlocks, closed_now};

    /// A writer of a table that is appended to what the sink has.
    pub fn new(alloc: Global, wrt: W) -> Self
        ensures begins { Begins result wrt }
        ensures small { HasSmallBlocks result }
    {
        Writer {
            alloc,
            previous_key: Vec::new(alloc),
            next_key: Vec::new(alloc),
            delta_writer: DeltaWriter::new(alloc, wrt),
            index_builder: SSTableIndexBuilder::new(alloc),
            num_terms: 0,
            first_ordinal: 0,
            refusal: None,
        }
    }

    /// The same as `new`.
    pub fn create(alloc: Global, wrt: W) -> Self
        ensures begins { Begins result wrt }
        ensures small { HasSmallBlocks result }
    {
        Self::new(alloc, wrt)
    }

    /// Sets the length that a block's deltas may have before it is closed.
    pub fn set_block_len(&mut self, block_len: usize)
        ensures { self.new ≡ record self.old { block_len = block_len } }
    {
        self.delta_writer.set_block_len(block_len);
    }

    // Whether the key comes after the last one.
    fn accepts(&self, key: &[u8]) -> bool
        ensures { result ≡ may_come self.now.last key.now }
    {
        comes_after(self.num_terms, self.previous_key.as_slice(), key)
    }

    // Adds an entry to the open block. An error changes nothing.
    fn add(&mut self, key: &[u8], value: &T::Value) -> Result<(), SstWriteError>
        ensures taken { OnOk result (IsTaken T.codec self.old key.now (T.Value.shown value.now)) }
        ensures ok { OnOk result (Adds self.old self.new key.now (T.Value.shown value.now)) }
        ensures refused { IfErr result (Refuses T.codec self.old key.now (T.Value.shown value.now)) }
        ensures err { OnErr result (self.new ≡ self.old) }
    {
        if let Some(refusal) = self.refusal {
            return Err(refusal);
        }
        if !self.accepts(key) {
            return Err(SstWriteError::Unsorted);
        }
        if self.num_terms == u64::MAX {
            return Err(SstWriteError::Memory);
        }
        self.next_key.clear();
        self.next_key.extend_from_slice(key)?;
        let begun = self.first_ordinal < self.num_terms;
        let keep = keep_of(begun, self.previous_key.as_slice(), key);
        self.delta_writer.write_entry(keep, &key[keep..], value)?;
        shorten_at_first(begun, &mut self.index_builder, key);
        swap(&mut self.previous_key, &mut self.next_key);
        self.num_terms += 1;
        Ok(())
    }

    // Closes the open block where it is due.
    fn close(&mut self) -> Result<(), SstWriteError>
        ensures closes { Closing T.codec W.written self.old self.new result }
        ensures blocks { OnOk result (IfSome self.old.closed (λ blocks. AreBlocks T.codec self.new (blocks ++ closed_now T.codec self.old))) }
        ensures cause { HasCause (W.faults self.old.sink) (W.faults self.new.sink) (result ≡ Err SstWriteError.Write) }
    {
        if let Some(refusal) = self.refusal {
            return Err(refusal);
        }
        match self.delta_writer.flush_block_if_required() {
            Ok(None) => Ok(()),
            Ok(Some(place)) => {
                let last_key = self.previous_key.as_slice();
                let added = index_block(
                    &mut self.index_builder,
                    last_key,
                    place,
                    self.first_ordinal,
                );
                self.first_ordinal = self.num_terms;
                match added {
                    Ok(()) => Ok(()),
                    Err(_error) => {
                        self.refusal = Some(SstWriteError::Spent);
                        Err(SstWriteError::Memory)
                    }
                }
            }
            Err(error) => {
                let error = SstWriteError::from(error);
                self.refusal = Some(refusal_by(error));
                Err(error)
            }
        }
    }

    /// Adds an entry, and closes its block where that is due. `Memory` comes also where 2^64 - 1 entries were inserted.
    pub fn insert(&mut self, key: &[u8], value: &T::Value) -> Result<(), SstWriteError>
        ensures inserts { Inserting T.codec W.written self.old self.new key.now (T.Value.shown value.now) result }
        ensures gathers { self.old.block_len ≡ greatest_len → Gathering T.codec self.old self.new key.now (T.Value.shown value.now) result }
        ensures list { OnOk result (Lengthens W.written self.old self.new key.now (T.Value.shown value.now)) }
        ensures small { OnOk result (KeepsBlocksSmall W.written self.old self.new) }
        ensures cause { HasCause (W.faults self.old.sink) (W.faults self.new.sink) (result ≡ Err SstWriteError.Write) }
    {
        self.add(key, value)?;
        self.close()
    }

    /// Closes the open block where its deltas have more bytes than the block length.
    pub fn flush_block_if_required(&mut self) -> Result<(), SstWriteError>
        ensures closes { Closing T.codec W.written self.old self.new result }
        ensures list { OnOk result (KeepsList W.written self.old self.new) }
        ensures small { OnOk result (KeepsBlocksSmall W.written self.old self.new) }
        ensures cause { HasCause (W.faults self.old.sink) (W.faults self.new.sink) (result ≡ Err SstWriteError.Write) }
    {
        self.close()
    }

    // A copy of the key, where it may come next.
    pub(crate) fn staged(&self, key: &[u8]) -> Result<Vec<u8>, SstWriteError>
        ensures key { IfOk result (λ staged. staged.items ≡ key.now) }
        ensures next { OnOk result (IsNextKey self.now key.now) }
        ensures refused { IfErr result (RefusesKey self.now key.now) }
    {
        if let Some(refusal) = self.refusal {
            return Err(refusal);
        }
        if !self.accepts(key) {
            return Err(SstWriteError::Unsorted);
        }
        let mut staged = Vec::new(self.alloc);
        staged.extend_from_slice(key)?;
        Ok(staged)
    }

    // The sink with its count, the index and the number of terms.
    fn parts(self) -> (CountingWriter<W>, SSTableIndexBuilder, u64)
        ensures sink { inner_sink result.0 ≡ self.sink }
        ensures counted { bytes_counted result.0 ≡ self.counted }
        ensures index { result.1 ≡ self.index }
        ensures count { result.2 ≡ self.count }
        ensures fits { self.refusal ≡ None → self.counted + 4 < 2 ^ 64 }
        ensures few { self.refusal ≡ None → self.count < 2 ^ 64 }
        ensures rising { self.refusal ≡ None → is_rising (keys_in self.index) ≡ true }
    {
        let Writer {
            previous_key,
            next_key,
            delta_writer,
            index_builder,
            num_terms,
            ..
        } = self;
        drop(previous_key);
        drop(next_key);
        (delta_writer.finish(), index_builder, num_terms)
    }

    /// Closes the last block, appends the end of the table, and hands back the sink.
    pub fn finish(self) -> Result<W, Unfinished<W, SstWriteError>>
        ensures finishes { Finishing T.codec W.written self result }
        ensures cause { HasCause (W.faults self.sink) (W.faults (handed result)) (StopsBy result SstWriteError.Write) }
    {
        let mut writer = self;
        // The last block is due whatever its length.
        writer.delta_writer.set_block_len(0);
        let closed = writer.close();
        let (wrt, index_builder, num_terms) = writer.parts();
        match closed {
            Ok(()) => finish_table(wrt, &index_builder, num_terms),
            Err(error) => Err(Unfinished {
                sink: wrt.finish(),
                error,
            }),
        }
    }
}
