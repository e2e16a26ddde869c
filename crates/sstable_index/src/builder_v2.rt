// Index parts of version 2, as they are written.
ghost use Rattle.std.specs.Prelude.{◌≡◌, ◌≢◌, ◌<◌, ◌+◌, length, true, Err, IfOk, IfErr};
ghost use Rattle.owned_bytes.specs.Outside.{HasCause};
ghost use Rattle.sstable_index.specs.Building.{are_rising};
ghost use Rattle.sstable_index.specs.BuildingV2.{AreShort, SerializesV2, HasWritten, IsRunOf};

use crate::builder::{SSTableIndexBuilder, append};
use crate::key_buffer::common_prefix_len;
use crate::write_errors::SstWriteError;
use owned_bytes::{Sink, VecSink};
use sstable_blocks::{DeltaError, DeltaWriter};
use sstable_values::IndexValueWriter;

// A sink in memory fails for want of memory alone.
fn in_memory(error: DeltaError) -> SstWriteError
    ensures { error ≢ DeltaError.BlockTooLong → result ≡ SstWriteError.Memory }
{
    match error {
        DeltaError::Memory | DeltaError::Write => SstWriteError::Memory,
        DeltaError::BlockTooLong => SstWriteError::BlockTooLong,
    }
}

// Writes entry i behind the last key of the open block, and answers the last key of the block that is open then; it is
// empty in an empty block.
fn write_next<'a>(
    builder: &'a SSTableIndexBuilder,
    writer: &mut DeltaWriter<VecSink, IndexValueWriter>,
    last: &[u8],
    i: usize,
) -> Result<&'a [u8], SstWriteError>
    requires within { i < length builder.now }
    requires written { HasWritten builder.now i last.now writer.old }
    requires rising { are_rising builder.now ≡ true }
    requires short { AreShort builder.now }
    ensures ok { IfOk result (λ next. HasWritten builder.now (i + 1) next.now writer.new) }
    ensures err { IfErr result (λ e. e ≡ SstWriteError.Memory) }
{
    let key = builder.key(i);
    let keep = common_prefix_len(last, key);
    writer.write_entry(keep, &key[keep..], &builder.block_addr(i))?;
    match writer.flush_block_if_required() {
        Ok(None) => Ok(key),
        Ok(Some(_)) => Ok(&key[..0]),
        Err(e) => Err(in_memory(e)),
    }
}

// The blocks of the entries.
fn write_entries(builder: &SSTableIndexBuilder) -> Result<VecSink, SstWriteError>
    requires rising { are_rising builder.now ≡ true }
    requires short { AreShort builder.now }
    ensures ok { IfOk result (λ sink. IsRunOf builder.now sink) }
    ensures err { IfErr result (λ e. e ≡ SstWriteError.Memory) }
{
    let alloc = builder.alloc();
    let mut writer: DeltaWriter<VecSink, IndexValueWriter> = DeltaWriter::new(
        alloc,
        VecSink::new(alloc),
    );
    let mut last: &[u8] = &[];
    for i in 0..builder.len() {
        match write_next(builder, &mut writer, last, i) {
            Ok(next) => last = next,
            Err(e) => return Err(e),
        }
    }
    match writer.flush_block() {
        Ok(_) => Ok(writer.finish().finish()),
        Err(e) => Err(in_memory(e)),
    }
}

impl SSTableIndexBuilder {
    /// Appends an index part of version 2: blocks of the places with their keys, each closed once its deltas have more
    /// than 4,000 bytes, and then four zero bytes.
    pub fn serialize_v2<W: Sink>(&self, wrt: &mut W) -> Result<(), SstWriteError>
        requires { AreShort self.now }
        ensures serializes { SerializesV2 self.now (W.written wrt.old) (W.written wrt.new) result }
        ensures cause { HasCause (W.faults wrt.old) (W.faults wrt.new) (result ≡ Err SstWriteError.Write) }
    {
        if !self.is_rising() {
            return Err(SstWriteError::Unsorted);
        }
        let mut bytes = match write_entries(self) {
            Ok(sink) => sink.into_bytes(),
            Err(e) => return Err(e),
        };
        bytes.extend_from_slice(&[0; 4])?;
        append(wrt, bytes.as_slice())
    }
}
