// The bytes of an index file before its table.
ghost use Rattle.std.specs.Prelude.{◌≡◌, ◌≢◌, ◌≤◌, ◌<◌, ◌^◌, ◌++◌, Err, OnOk, IsOk, length};
ghost use Rattle.tantivy_bitpacker.specs.Packed.{packed, FitWidth};
ghost use Rattle.index_writing.specs.Emitting.{numbers_of_all, header_bytes, PacksAll};

use owned_bytes::{Ids, Key, Sink, SinkError, VecSink};
use std::alloc::{AllocError, Global};
use tantivy_bitpacker::BitPacker;

// A sink in memory fails for want of memory alone.
fn in_memory(written: Result<(), SinkError>) -> Result<(), AllocError>
    requires { written ≢ Err SinkError.Failed }
    ensures { OnOk result (IsOk written) }
{
    match written {
        Ok(()) => Ok(()),
        Err(SinkError::Memory) => Err(AllocError),
        Err(SinkError::Failed) => unreachable!(),
    }
}

/// Appends how many documents there are, and how many numbers.
pub(crate) fn write_header(documents: u32, count: u64, sink: &mut VecSink) -> Result<(), AllocError>
    ensures { OnOk result (sink.new ≡ sink.old ++ header_bytes documents count) }
{
    let [a, b, c, d] = documents.to_le_bytes();
    let [e, f, g, h, i, j, k, l] = count.to_le_bytes();
    in_memory(sink.write_all(&[a, b, c, d, e, f, g, h, i, j, k, l]))?;
    Ok(())
}

/// How many numbers all keys have.
pub(crate) fn count_of_numbers(postings: &[(Key, Ids)]) -> u64
    requires { length (numbers_of_all postings.now) < 2 ^ 64 }
    ensures { result ≡ length (numbers_of_all postings.now) }
{
    let mut count = 0u64;
    for posting in postings {
        count += posting.1.len() as u64;
    }
    count
}

// Packs the numbers behind those that were packed before.
fn pack_list(
    numbers: &[u32],
    width: u8,
    packer: &mut BitPacker,
    sink: &mut VecSink,
) -> Result<(), AllocError>
    requires width { width ≤ 64 }
    requires fits { FitWidth width numbers.now }
    ensures { OnOk result (PacksAll width numbers.now packer.old packer.new sink.old sink.new) }
{
    for number in numbers {
        in_memory(packer.write(*number as u64, width, sink))?;
    }
    Ok(())
}

/// Appends the numbers of all keys, packed at this width, one list after the other.
pub(crate) fn pack_numbers(
    postings: &[(Key, Ids)],
    width: u8,
    sink: &mut VecSink,
) -> Result<(), AllocError>
    requires width { width ≤ 64 }
    requires fits { FitWidth width (numbers_of_all postings.now) }
    ensures { OnOk result (sink.new ≡ sink.old ++ packed width (numbers_of_all postings.now)) }
{
    let mut packer = BitPacker::new();
    for posting in postings {
        pack_list(posting.1.as_slice(), width, &mut packer, sink)?;
    }
    in_memory(packer.close(sink))?;
    Ok(())
}
