// Gathering the entries of blocks, and writing these out.
ghost use Rattle.std.specs.Prelude.{◌≡◌, ◌<◌, ◌≤◌, ◌+◌, ◌^◌, [], ◌++◌, length, take, Err, Ok, None, OnOk, OnErr, OnSome, IfOk, IfErr, IsTrue};
ghost use Rattle.owned_bytes.specs.Outside.{HasCause};
ghost use Rattle.common_wire.specs.Counting.{inner_sink, bytes_counted};
ghost use Rattle.sstable_values.specs.Writes.{AreReadAgain};
ghost use Rattle.sstable_blocks.specs.Counted.{WritesThrough, CausedBelow, CountsMore, CountsOn};
ghost use Rattle.sstable_blocks.specs.Content.{block};
ghost use Rattle.sstable_blocks.specs.Block.{delta};
ghost use Rattle.sstable_blocks.specs.Writing.{length_limit};

use crate::errors::DeltaError;
use common_wire::CountingWriter;
use owned_bytes::{Sink, SinkError};
use sstable_values::{ValueError, ValueWriter, vint};
use std::alloc::{AllocError, Global};
use std::marker::Model;
use std::ops::Range;

// The length that a block's deltas may have before it is closed.
const BLOCK_LEN: usize = 4_000;

// Appends what a delta keeps and adds, and the added bytes; after an error it may have appended some of them.
fn push_parts(block: &mut Vec<u8>, keep: usize, suffix: &[u8]) -> Result<(), AllocError>
    ensures ok { OnOk result (block.new.items ≡ block.old.items ++ delta (record { keep = keep; suffix = suffix.now })) }
    ensures err { OnErr result (take (length block.old.items) block.new.items ≡ block.old.items) }
{
    if keep < 16 && suffix.len() < 16 {
        block.push(keep as u8 + 16 * suffix.len() as u8)?;
    } else {
        block.push(1)?;
        vint::serialize_into_vec(keep as u64, block)?;
        vint::serialize_into_vec(suffix.len() as u64, block)?;
    }
    block.extend_from_slice(suffix)?;
    Ok(())
}

// Appends a delta. An error changes nothing.
fn push_delta(block: &mut Vec<u8>, keep: usize, suffix: &[u8]) -> Result<(), AllocError>
    ensures ok { OnOk result (block.new.items ≡ block.old.items ++ delta (record { keep = keep; suffix = suffix.now })) }
    ensures err { OnErr result (block.new.items ≡ block.old.items) }
{
    let len = block.len();
    let pushed = push_parts(block, keep, suffix);
    if pushed.is_err() {
        block.truncate(len);
    }
    pushed
}

// Writes one piece after the other.
fn write_both<W: Sink>(
    sink: &mut CountingWriter<W>,
    first: &[u8],
    second: &[u8],
) -> Result<(), SinkError>
    ensures bytes { WritesThrough W.written sink.old sink.new result (first.now ++ second.now) }
    ensures cause { CausedBelow W.faults sink.old sink.new (result ≡ Err SinkError.Failed) }
    ensures count { OnOk result (CountsMore sink.old sink.new (length first.now + length second.now)) }
    ensures later { CountsOn sink.old sink.new }
{
    sink.write_all(first)?;
    sink.write_all(second)
}

// Writes a block of these values and deltas.
fn write_block<W: Sink>(
    sink: &mut CountingWriter<W>,
    values: &[u8],
    deltas: &[u8],
) -> Result<(), SinkError>
    requires { length values.now + length deltas.now + 1 < length_limit }
    ensures bytes { WritesThrough W.written sink.old sink.new result (block (values.now ++ deltas.now)) }
    ensures cause { CausedBelow W.faults sink.old sink.new (result ≡ Err SinkError.Failed) }
    ensures count { OnOk result (CountsMore sink.old sink.new (length (block (values.now ++ deltas.now)))) }
    ensures later { CountsOn sink.old sink.new }
{
    let len = (values.len() + deltas.len() + 1) as u32;
    let [a, b, c, d] = len.to_le_bytes();
    sink.write_all(&[a, b, c, d, 0])?;
    write_both(sink, values, deltas)
}

// Puts the bytes of a writer's values into the buffer.
fn serialize_values<T: ValueWriter>(
    value_writer: &T,
    buffer: &mut Vec<u8>,
) -> Result<(), AllocError>
    ensures ok { OnOk result (buffer.new.items ≡ T.codec.spelled (T.written value_writer.now)) }
    ensures again { OnOk result (AreReadAgain T.codec (T.written value_writer.now)) }
{
    buffer.clear();
    value_writer.serialize_block(buffer)
}

/// Gathers entries and writes them out as blocks. Contracts see the open block and the sink.
#[derive(Drop)]
pub struct DeltaWriter<W: Sink, T: ValueWriter> {
    block: Vec<u8>,
    write: CountingWriter<W>,
    value_writer: T,
    // kept so that its memory serves every block
    stateless_buffer: Vec<u8>,
    block_len: usize,
}

impl<W: Sink, T: ValueWriter> Model for DeltaWriter<W, T> {
    ghost use Rattle.common_wire.specs.Counting.{inner_sink, bytes_counted};
    ghost use Rattle.sstable_blocks.specs.Writing.{WriterState};

    ghost Value = { WriterState W T.Value.Shown };

    ghost view = { λ writer. record {
      deltas = writer.block.items;
      values = T.written writer.value_writer;
      block_len = writer.block_len;
      sink = inner_sink writer.write;
      written = W.written (inner_sink writer.write);
      faults = W.faults (inner_sink writer.write);
      counted = bytes_counted writer.write;
    } };
}

impl<W: Sink, T: ValueWriter + Drop> DeltaWriter<W, T> {
    ghost use Rattle.sstable_values.specs.Values.{Gains};
    ghost use Rattle.sstable_values.specs.Codec.{no_values};
    ghost use Rattle.sstable_values.specs.Writes.{RefusesValue};
    ghost use Rattle.sstable_blocks.specs.Writing.{default_block_len, with_delta, IsOpen, AddsEntry, Flushes, AddsToRun};

    /// A writer with an empty block, which is closed once its deltas have more than 4,000 bytes.
    pub fn new(alloc: Global, wrt: W) -> Self
        ensures sink { result.sink ≡ wrt }
        ensures written { result.written ≡ W.written wrt }
        ensures faults { result.faults ≡ W.faults wrt }
        ensures counted { result.counted ≡ 0 }
        ensures block_len { result.block_len ≡ default_block_len }
        ensures no_delta { result.deltas ≡ [] }
        ensures no_value { result.values ≡ no_values T.codec }
        ensures entries { IsOpen result [] }
    {
        DeltaWriter {
            block: Vec::new(alloc),
            write: CountingWriter::wrap(wrt),
            value_writer: T::new(alloc),
            stateless_buffer: Vec::new(alloc),
            block_len: BLOCK_LEN,
        }
    }

    /// Sets the length that a block's deltas may have before it is closed.
    pub fn set_block_len(&mut self, block_len: usize)
        ensures { self.new ≡ record self.old { block_len = block_len } }
    {
        self.block_len = block_len;
    }

    /// Adds a key to the open block, by what it keeps of the key before and adds to that. An error changes nothing.
    pub fn write_suffix(
        &mut self,
        common_prefix_len: usize,
        suffix: &[u8],
    ) -> Result<(), AllocError>
        ensures ok { OnOk result (self.new ≡ with_delta self.old common_prefix_len suffix.now) }
        ensures err { OnErr result (self.new ≡ self.old) }
    {
        push_delta(&mut self.block, common_prefix_len, suffix)
    }

    /// Adds a value to the open block. An error changes nothing.
    pub fn write_value(&mut self, value: &T::Value) -> Result<(), ValueError>
        ensures ok { OnOk result (Gains self.old.values (T.Value.shown value.now) self.new.values) }
        ensures accepted { OnOk result (IsTrue (T.codec.accepts self.old.values (T.Value.shown value.now))) }
        ensures refused { IfErr result (RefusesValue T.codec self.old.values (T.Value.shown value.now)) }
        ensures others { self.new ≡ record self.old { values = self.new.values } }
        ensures err { OnErr result (self.new ≡ self.old) }
    {
        self.value_writer.write(value)
    }

    /// Adds a key and its value to the open block. An error changes nothing.
    pub fn write_entry(
        &mut self,
        common_prefix_len: usize,
        suffix: &[u8],
        value: &T::Value,
    ) -> Result<(), ValueError>
        ensures key { OnOk result (self.new.deltas ≡ (with_delta self.old common_prefix_len suffix.now).deltas) }
        ensures value { OnOk result (Gains self.old.values (T.Value.shown value.now) self.new.values) }
        ensures accepted { OnOk result (IsTrue (T.codec.accepts self.old.values (T.Value.shown value.now))) }
        ensures refused { IfErr result (RefusesValue T.codec self.old.values (T.Value.shown value.now)) }
        ensures others { self.new ≡ record self.old { deltas = self.new.deltas; values = self.new.values } }
        ensures err { OnErr result (self.new ≡ self.old) }
        ensures fits { length self.new.deltas < 2 ^ 64 }
        ensures entries { OnOk result (AddsEntry self.old self.new common_prefix_len suffix.now (T.Value.shown value.now)) }
    {
        let len = self.block.len();
        self.write_suffix(common_prefix_len, suffix)?;
        let written = self.write_value(value);
        if written.is_err() {
            self.block.truncate(len);
        }
        written
    }

    /// Writes out the open block, and answers its place by the count of the sink; `None` where it has no delta.
    /// After `Write`, or `Memory` of the sink, a prefix of the block was written, and it stays open as it was.
    pub fn flush_block(&mut self) -> Result<Option<Range<u64>>, DeltaError>
        ensures flushes { Flushes T.codec self.old self.new result }
        ensures cause { HasCause self.old.faults self.new.faults (result ≡ Err DeltaError.Write) }
        // The next block is empty.
        ensures next { IfOk result (λ range. OnSome range (IsOpen self.new [])) }
        // Behind a run that ends with the bytes, the block is one more block of the run.
        ensures run { IfOk result (λ range. OnSome range (AddsToRun T.codec self.old)) }
        ensures told { self.new.written ≡ W.written self.new.sink }
        ensures failed { self.new.faults ≡ W.faults self.new.sink }
    {
        if self.block.is_empty() {
            return Ok(None);
        }
        serialize_values(&self.value_writer, &mut self.stateless_buffer)?;
        let start = self.write.written_bytes();
        let values = self.stateless_buffer.as_slice();
        let deltas = self.block.as_slice();
        if values.len() + deltas.len() >= u32::MAX as usize {
            return Err(DeltaError::BlockTooLong);
        }
        match write_block(&mut self.write, values, deltas) {
            Ok(()) => {
                self.block.clear();
                self.value_writer.clear();
                Ok(Some(start..self.write.written_bytes()))
            }
            Err(SinkError::Memory) => Err(DeltaError::Memory),
            Err(SinkError::Failed) => Err(DeltaError::Write),
        }
    }

    /// Writes out the open block where its deltas have more bytes than the block length.
    pub fn flush_block_if_required(&mut self) -> Result<Option<Range<u64>>, DeltaError>
        ensures due { self.old.block_len < length self.old.deltas → Flushes T.codec self.old self.new result }
        ensures not_due { length self.old.deltas ≤ self.old.block_len → (result ≡ Ok None) × (self.new ≡ self.old) }
        ensures cause { HasCause self.old.faults self.new.faults (result ≡ Err DeltaError.Write) }
        ensures next { IfOk result (λ range. OnSome range (IsOpen self.new [])) }
        ensures run { IfOk result (λ range. OnSome range (AddsToRun T.codec self.old)) }
        ensures told { self.new.written ≡ W.written self.new.sink }
        ensures failed { self.new.faults ≡ W.faults self.new.sink }
    {
        if self.block.len() > self.block_len {
            return self.flush_block();
        }
        Ok(None)
    }

    /// The sink, with the count of what was written to it.
    pub fn finish(self) -> CountingWriter<W>
        ensures sink { inner_sink result ≡ self.sink }
        ensures written { W.written (inner_sink result) ≡ self.written }
        ensures faults { W.faults (inner_sink result) ≡ self.faults }
        ensures counted { bytes_counted result ≡ self.counted }
    {
        let DeltaWriter {
            write,
            block,
            value_writer,
            stateless_buffer,
            ..
        } = self;
        drop(block);
        drop(value_writer);
        drop(stateless_buffer);
        write
    }
}
