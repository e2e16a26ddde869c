// The numbers at a key.
ghost use Rattle.std.specs.Prelude.{◌≡◌, ◌-◌, ◌+◌, ◌*◌, ◌/◌, ◌%◌, ◌^◌, ◌<◌, ◌≤◌, ◌↔◌, IsTrue, IfOk, IfErr, IfSome, Err};
ghost use Rattle.owned_bytes.specs.Outside.{LeavesFile};
ghost use Rattle.tantivy_bitpacker.specs.Packed.{bytes_for};
ghost use Rattle.index_file.specs.Header as spec;
ghost use Rattle.index_file.specs.Header.{header_len};
ghost use Rattle.index_reading.specs.Errors.{ReadFailed};
ghost use Rattle.index_reading.specs.Opened.{LiesIn, postings_told, AreNumbers};
ghost use Rattle.index_reading.specs.LookUp.{LooksUpTold, IsLookUpError, NamesCompressed, FetchesNumbers, GivesPlaces, IsPartError, ArePlaces, ReadsNumbers};

use crate::errors::error_of_table;
use crate::unpack::numbers_in;
use crate::{IndexError, OpenIndex};
use common_wire::read_part;
use index_file::{HEADER_LEN, width_of};
use owned_bytes::{FileHandle, Ids, file_len};
use std::alloc::Global;
use std::ops::Range;

impl OpenIndex {
    /// The ascending numbers of the documents at a key; `None` where the key is not there. It reads at most one part of the
    /// table and one part of the packed numbers.
    pub fn numbers_at<H: FileHandle>(
        &self,
        alloc: Global,
        handle: &mut H,
        key: &[u8],
    ) -> Result<Option<Ids>, IndexError>
        requires { LiesIn self.now (H.state handle.old).size }
        ensures found { LooksUpTold (postings_told self.now (H.state handle.old).contents) key.now result }
        ensures numbers { IfOk result (λ found. IfSome found (AreNumbers self.now.documents)) }
        ensures error { IfErr result IsLookUpError }
        ensures compressed { IfErr result (NamesCompressed (H.state handle.old).contents) }
        ensures file { LeavesFile (H.state handle.old) (H.state handle.new) (result ≡ Err IndexError.Read) }
        ensures reads { (H.state handle.new).reads ≤ (H.state handle.old).reads + 2 }
        ensures fetched { FetchesNumbers self.now key.now (H.state handle.old) (H.state handle.new) }
    {
        let places = match self.dictionary.get(alloc, handle, key) {
            Ok(Some(places)) => places,
            Ok(None) => return Ok(None),
            Err(e) => return Err(error_of_table(e, self.blocks_range().start)),
        };
        match self.numbers_of(alloc, handle, places.start, places.end) {
            Ok(numbers) => Ok(Some(numbers)),
            Err(e) => Err(e),
        }
    }

    // Where the table's blocks are in the file.
    fn blocks_range(&self) -> Range<usize>
        ensures start { result.start ≡ self.now.dictionary.blocks_range.start }
        ensures end { result.end ≡ self.now.dictionary.blocks_range.end }
        ensures small { result.end < 2 ^ 64 }
    {
        self.dictionary.sstable_slice.range()
    }

    // The numbers from one place to another.
    fn numbers_of<H: FileHandle>(
        &self,
        alloc: Global,
        handle: &mut H,
        start: u64,
        end: u64,
    ) -> Result<Ids, IndexError>
        requires { LiesIn self.now (H.state handle.old).size }
        ensures given { IfSome (H.state handle.old).contents (GivesPlaces self.now start end result) }
        ensures numbers { IfOk result (AreNumbers self.now.documents) }
        ensures error { IfErr result IsPartError }
        ensures reads { ReadsNumbers self.now (end - start) (H.state handle.old) (H.state handle.new) (ReadFailed result) }
    {
        if !are_places(start, end, self.count, self.documents) {
            return Err(IndexError::Corrupt);
        }
        let width = packed_width(self.documents);
        let count = (end - start) as u32;
        let range = packed_part(width, start, count, file_len(handle));
        let part = match read_part(alloc, handle, range) {
            Ok(part) => part,
            Err(e) => return Err(IndexError::from(e)),
        };
        let first = (start % 8) as u32;
        numbers_in(alloc, width, first, count, self.documents, part.as_slice())
    }
}

// Whether there are such places among so many numbers, and no more of them than documents.
fn are_places(start: u64, end: u64, count: u64, documents: u32) -> bool
    ensures { IsTrue result ↔ ArePlaces start end count documents }
{
    start <= end && end <= count && end - start <= documents as u64
}

// The bits that each number is packed in.
fn packed_width(documents: u32) -> u8
    ensures width { result ≡ spec.width_of documents }
    ensures few { result ≤ 32 }
{
    width_of(documents)
}

// Where so many numbers from the place `start` on are packed in a file of so many bytes, from a group of eight on.
fn packed_part(width: u8, start: u64, count: u32, size: usize) -> Range<usize>
    requires { header_len + bytes_for ((start + count) * width) ≤ size }
    ensures start { result.start ≡ header_len + start / 8 * width }
    ensures end { result.end ≡ header_len + start / 8 * width + bytes_for ((start % 8 + count) * width) }
{
    let from = HEADER_LEN + (start / 8) as usize * width as usize;
    let bits = ((start % 8) as u128 + count as u128) * width as u128;
    from..(from as u128 + (bits + 7) / 8).min(size as u128) as usize
}
