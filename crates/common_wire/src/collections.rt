// Texts and lists.
ghost use Rattle.std.specs.Prelude.{◌≡◌, ◌≢◌, ℕ, List, ◌+◌, ◌-◌, ◌^◌, ◌≤◌, ◌<◌, ◌++◌, length, map, min, All, IfOk, IfErr, IsUtf8, string_bytes};
ghost use Rattle.std.specs.List.{flat_map};
ghost use Rattle.owned_bytes.specs.Outside.{HasCause, WritesAll, SinkFailed};
ghost use Rattle.common_wire.specs.Taking.{bytes_of, counted};
ghost use Rattle.common_wire.specs.Wire.{length_taken, max_length, text, text_of, text_bytes, blob, list_of, list_bytes, vint_bytes};
ghost use Rattle.common_wire.specs.Serialized.{SourceFailed, Takes, WritesEach};

use crate::reading::read_exact;
use crate::{BinarySerializable, VInt, WireError};
use owned_bytes::{Items, Sink, SinkError, Source, Text};
use std::alloc::Global;
use std::borrow::{CowSlice, CowStr};

/// The greatest length of a text or a list.
pub const MAX_LENGTH: u64 = 0xffff_ffff;

// A length, which is at most the greatest one.
fn deserialize_length<R: Source>(reader: &mut R) -> Result<u64, WireError>
    ensures bytes { Takes (λ (n : ℕ). n) length_taken (R.left reader.old) (R.left reader.new) result }
    ensures cause { HasCause (R.faults reader.old) (R.faults reader.new) (SourceFailed result) }
    ensures taken { R.taken reader.old ≤ R.taken reader.new }
    ensures bound { IfOk result (λ n. n ≤ max_length) }
{
    let length = VInt::deserialize_u64(reader)?;
    if length > MAX_LENGTH {
        return Err(WireError::Invalid);
    }
    Ok(length)
}

// Room for bytes grows with what is read, so many at a time: no more than this is taken before.
const FIRST_ROOM: usize = 4096;

// So many bytes, read piece by piece.
fn read_bytes<R: Source>(alloc: Global, count: usize, reader: &mut R) -> Result<Vec<u8>, WireError>
    ensures bytes { Takes (λ v. v.items) (bytes_of count) (R.left reader.old) (R.left reader.new) result }
    ensures cause { HasCause (R.faults reader.old) (R.faults reader.new) (SourceFailed result) }
    ensures taken { R.taken reader.old ≤ R.taken reader.new }
{
    let mut bytes = Vec::with_capacity(alloc, count.min(FIRST_ROOM))?;
    let mut buf = [0u8; FIRST_ROOM];
    while bytes.len() < count {
        let piece = (count - bytes.len()).min(buf.len());
        read_exact(reader, &mut buf[..piece])?;
        bytes.extend_from_slice(&buf[..piece])?;
    }
    Ok(bytes)
}

// So many bytes of UTF-8.
fn read_text<R: Source>(alloc: Global, count: usize, reader: &mut R) -> Result<String, WireError>
    ensures bytes { Takes string_bytes (text_of count) (R.left reader.old) (R.left reader.new) result }
    ensures cause { HasCause (R.faults reader.old) (R.faults reader.new) (SourceFailed result) }
    ensures taken { R.taken reader.old ≤ R.taken reader.new }
{
    let bytes = read_bytes(alloc, count, reader)?;
    match String::from_utf8(bytes) {
        Ok(text) => Ok(text),
        Err(_) => Err(WireError::Invalid),
    }
}

// A length, and then so many bytes.
fn read_blob<R: Source>(alloc: Global, reader: &mut R) -> Result<Vec<u8>, WireError>
    ensures bytes { Takes (λ v. v.items) blob (R.left reader.old) (R.left reader.new) result }
    ensures cause { HasCause (R.faults reader.old) (R.faults reader.new) (SourceFailed result) }
    ensures taken { R.taken reader.old ≤ R.taken reader.new }
{
    let count = deserialize_length(reader)?;
    read_bytes(alloc, count as usize, reader)
}

// A text's bytes.
fn serialize_text<W: Sink>(text: &[u8], writer: &mut W) -> Result<(), SinkError>
    ensures bytes { WritesAll (W.written writer.old) (W.written writer.new) result (text_bytes text.now) }
    ensures cause { HasCause (W.faults writer.old) (W.faults writer.new) (SinkFailed result) }
{
    VInt(text.len() as u64).serialize(writer)?;
    writer.write_all(text)
}

// How many bytes a text is written in.
fn text_num_bytes(text: &[u8]) -> u64
    ensures { result ≡ min (length (text_bytes text.now)) (2 ^ 64 - 1) }
{
    VInt(text.len() as u64)
        .num_bytes()
        .saturating_add(text.len() as u64)
}

impl BinarySerializable for String {
    ghost use Rattle.common_wire.specs.ListLaws.{IsTaking-text, text-again};

    type Shown = Text;

    ghost shown = { string_bytes };

    ghost is_value = { IsUtf8 };

    ghost can_write = { λ bytes. length bytes ≤ max_length };

    ghost as_written = { λ bytes. bytes };

    ghost wire = { text_bytes };

    ghost taking = { text };

    ghost is_taking = { IsTaking-text };

    ghost again = { λ bytes rest fits can. text-again bytes rest fits can };

    fn serialize<W: Sink>(&self, writer: &mut W) -> Result<(), SinkError> {
        serialize_text(self.as_bytes(), writer)
    }

    fn deserialize<R: Source>(alloc: Global, reader: &mut R) -> Result<Self, WireError> {
        let count = deserialize_length(reader)?;
        read_text(alloc, count as usize, reader)
    }

    fn num_bytes(&self) -> u64 {
        text_num_bytes(self.as_bytes())
    }
}

// The items, one after the other.
fn serialize_items<T: BinarySerializable, W: Sink>(
    items: &[T],
    writer: &mut W,
) -> Result<(), SinkError>
    requires { All (λ x. T.can_write (T.shown x)) items.now }
    ensures bytes { WritesEach (W.written writer.old) (W.written writer.new) result T.wire T.as_written T.shown items.now }
    ensures cause { HasCause (W.faults writer.old) (W.faults writer.new) (SinkFailed result) }
{
    for item in items {
        item.serialize(writer)?;
    }
    Ok(())
}

// How many bytes the items are written in.
fn items_num_bytes<T: BinarySerializable>(items: &[T]) -> u64
    requires { All (λ x. T.can_write (T.shown x)) items.now }
    ensures { result ≡ min (length (flat_map (λ x. T.wire (T.as_written (T.shown x))) items.now)) (2 ^ 64 - 1) }
{
    let mut sum: u64 = 0;
    for item in items {
        sum = sum.saturating_add(item.num_bytes());
    }
    sum
}

// So many items, one after the other.
fn deserialize_items<T: BinarySerializable + Drop, R: Source>(
    alloc: Global,
    len: u64,
    reader: &mut R,
) -> Result<Vec<T>, WireError>
    ensures bytes { Takes (λ v. map T.shown v.items) (counted len T.taking) (R.left reader.old) (R.left reader.new) result }
    ensures cause { HasCause (R.faults reader.old) (R.faults reader.new) (SourceFailed result) }
    ensures taken { R.taken reader.old ≤ R.taken reader.new }
{
    let mut items = Vec::new(alloc);
    for turn in 0..len {
        let _ = turn;
        let item = T::deserialize(alloc, reader)?;
        items.push(item)?;
    }
    Ok(items)
}

impl<T: BinarySerializable + Drop> BinarySerializable for Vec<T> {
    ghost use Rattle.common_wire.specs.ListLaws.{IsTaking-list, list-again};

    type Shown = Items<T::Shown>;

    ghost shown = { λ v. map T.shown v.items };

    ghost is_value = { All T.is_value };

    ghost can_write = { λ xs. (length xs ≤ max_length) × All T.can_write xs };

    ghost as_written = { map T.as_written };

    ghost wire = { list_bytes T.wire };

    ghost taking = { list_of T.taking };

    ghost is_taking = { IsTaking-list T.taking T.is_taking };

    ghost again = { λ xs rest fits can. list-again T.taking T.wire T.as_written T.is_value T.can_write T.again xs rest fits can.0 can.1 };

    fn serialize<W: Sink>(&self, writer: &mut W) -> Result<(), SinkError> {
        let items = self.as_slice();
        VInt(items.len() as u64).serialize(writer)?;
        serialize_items(items, writer)
    }

    fn deserialize<R: Source>(alloc: Global, reader: &mut R) -> Result<Self, WireError> {
        let count = deserialize_length(reader)?;
        deserialize_items(alloc, count, reader)
    }

    fn num_bytes(&self) -> u64 {
        let items = self.as_slice();
        VInt(items.len() as u64)
            .num_bytes()
            .saturating_add(items_num_bytes(items))
    }
}

impl<'a> BinarySerializable for CowStr<'a, Global> {
    ghost use Rattle.std.specs.Cow.{cow_str_bytes};
    ghost use Rattle.common_wire.specs.ListLaws.{IsTaking-text, text-again};

    type Shown = Text;

    ghost shown = { cow_str_bytes };

    ghost is_value = { IsUtf8 };

    ghost can_write = { λ bytes. length bytes ≤ max_length };

    ghost as_written = { λ bytes. bytes };

    ghost wire = { text_bytes };

    ghost taking = { text };

    ghost is_taking = { IsTaking-text };

    ghost again = { λ bytes rest fits can. text-again bytes rest fits can };

    fn serialize<W: Sink>(&self, writer: &mut W) -> Result<(), SinkError> {
        match self {
            CowStr::Borrowed(text) => serialize_text(text.as_bytes(), writer),
            CowStr::Owned(text) => serialize_text(text.as_bytes(), writer),
        }
    }

    /// The text is read as owned.
    fn deserialize<R: Source>(alloc: Global, reader: &mut R) -> Result<Self, WireError> {
        match String::deserialize(alloc, reader) {
            Ok(text) => Ok(CowStr::Owned(text)),
            Err(e) => Err(e),
        }
    }

    fn num_bytes(&self) -> u64 {
        match self {
            CowStr::Borrowed(text) => text_num_bytes(text.as_bytes()),
            CowStr::Owned(text) => text_num_bytes(text.as_bytes()),
        }
    }
}

impl<'a> BinarySerializable for CowSlice<'a, u8, Global> {
    ghost use Rattle.std.specs.Cow.{cow_slice_items};
    ghost use Rattle.common_wire.specs.ListLaws.{IsTaking-blob, blob-again};

    type Shown = Items<u8>;

    ghost shown = { cow_slice_items };

    ghost is_value = { All (λ b. b < 2 ^ 8) };

    ghost can_write = { λ bytes. length bytes ≤ max_length };

    ghost as_written = { λ bytes. bytes };

    ghost wire = { text_bytes };

    ghost taking = { blob };

    ghost is_taking = { IsTaking-blob };

    ghost again = { λ bytes rest fits can. blob-again bytes rest can };

    fn serialize<W: Sink>(&self, writer: &mut W) -> Result<(), SinkError> {
        match self {
            CowSlice::Borrowed(bytes) => serialize_text(bytes, writer),
            CowSlice::Owned(bytes) => serialize_text(bytes.as_slice(), writer),
        }
    }

    /// The bytes are read as owned.
    fn deserialize<R: Source>(alloc: Global, reader: &mut R) -> Result<Self, WireError> {
        match read_blob(alloc, reader) {
            Ok(bytes) => Ok(CowSlice::Owned(bytes)),
            Err(e) => Err(e),
        }
    }

    fn num_bytes(&self) -> u64 {
        match self {
            CowSlice::Borrowed(bytes) => text_num_bytes(bytes),
            CowSlice::Owned(bytes) => text_num_bytes(bytes.as_slice()),
        }
    }
}
