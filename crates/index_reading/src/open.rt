// Opening an index file.
ghost use Rattle.std.specs.Prelude.{◌≡◌, ◌<◌, ◌≤◌, ◌+◌, length, IfOk, IfErr, IfSome, IfNone, Err};
ghost use Rattle.owned_bytes.specs.Outside.{LeavesFile, ReadsFile};
ghost use Rattle.index_file.specs.Header.{header_len, packed_length};
ghost use Rattle.index_reading.specs.Errors.{IsReadError, ReadFailed};
ghost use Rattle.index_reading.specs.Opened.{LiesIn};
ghost use Rattle.index_reading.specs.Opening.{OpensTold, FetchesOpening};
ghost use Rattle.index_reading.specs.Steps.{ReadsVersion, HasHead, HasTable, ReadsTable};

use crate::IndexError;
use crate::errors::error_of_table;
use common_wire::{FileSlice, read_part};
use index_file::{HEADER_LEN, width_of};
use owned_bytes::{FileHandle, OwnedBytes, file_len};
use sstable_format::{FOOTER_LEN, VERSION_LEN, is_known, version_of};
use std::alloc::Global;
use tantivy_sstable::{Dictionary, RangeSSTable};

/// An index file that was opened.
#[derive(Drop)]
pub struct OpenIndex {
    /// The number of documents.
    pub documents: u32,
    /// How many numbers of documents are packed behind the header.
    pub count: u64,
    /// The keys, each with the range of its places among the numbers.
    pub dictionary: Dictionary<RangeSSTable>,
}

impl OpenIndex {
    /// Opens the index that the whole file is. It reads the last 20 bytes of the file, or all of a shorter one, then the
    /// first 12, and then what opening the table reads.
    pub fn open<H: FileHandle>(alloc: Global, handle: &mut H) -> Result<OpenIndex, IndexError>
        ensures opens { OpensTold (H.state handle.old).contents result }
        ensures lies { IfOk result (λ index. LiesIn index (H.state handle.old).size) }
        ensures short { (H.state handle.old).size < 4 → result ≡ Err IndexError.Corrupt }
        ensures file { LeavesFile (H.state handle.old) (H.state handle.new) (result ≡ Err IndexError.Read) }
        ensures reads { (H.state handle.new).reads ≤ (H.state handle.old).reads + 4 }
        ensures fetched { FetchesOpening (H.state handle.old) (H.state handle.new) }
    {
        let size = file_len(handle);
        if size < VERSION_LEN {
            return Err(IndexError::Corrupt);
        }
        match check_version(alloc, handle) {
            Ok(()) => {}
            Err(e) => return Err(e),
        }
        if size < HEADER_LEN {
            return Err(IndexError::Corrupt);
        }
        let head = match read_head(alloc, handle) {
            Ok(head) => head,
            Err(e) => return Err(e),
        };
        match table_start(head.documents, head.count, size) {
            Some(start) => open_table(alloc, handle, head, start),
            None => Err(IndexError::Corrupt),
        }
    }
}

// What the first bytes of a file tell.
#[derive(Clone, Copy)]
struct Head {
    documents: u32,
    count: u64,
}

// Reads the end of the file, and answers `Ok` where its version is known.
fn check_version<H: FileHandle>(alloc: Global, handle: &mut H) -> Result<(), IndexError>
    requires { VERSION_LEN ≤ (H.state handle.old).size }
    ensures told { IfSome (H.state handle.old).contents (ReadsVersion result) }
    ensures reads { ReadsFile (H.state handle.old) (H.state handle.new) (ReadFailed result) 1 FOOTER_LEN }
{
    let size = file_len(handle);
    let ending = match read_part(alloc, handle, size - size.min(FOOTER_LEN)..size) {
        Ok(ending) => ending,
        Err(e) => return Err(IndexError::from(e)),
    };
    let version = version_of(ending.as_slice());
    if !is_known(version) {
        return Err(IndexError::Version(version));
    }
    Ok(())
}

// Reads the first bytes of the file.
fn read_head<H: FileHandle>(alloc: Global, handle: &mut H) -> Result<Head, IndexError>
    requires { HEADER_LEN ≤ (H.state handle.old).size }
    ensures told { IfOk result (λ head. IfSome (H.state handle.old).contents (HasHead head.documents head.count)) }
    ensures error { IfErr result IsReadError }
    ensures reads { ReadsFile (H.state handle.old) (H.state handle.new) (ReadFailed result) 1 HEADER_LEN }
{
    match read_part(alloc, handle, 0..HEADER_LEN) {
        Ok(front) => Ok(head_of(front)),
        Err(e) => Err(IndexError::from(e)),
    }
}

// The numbers of the first bytes.
fn head_of(mut bytes: OwnedBytes) -> Head
    requires { length bytes ≡ header_len }
    ensures { HasHead result.documents result.count bytes }
{
    Head {
        documents: bytes.read_u32(),
        count: bytes.read_u64(),
    }
}

// Where the table begins in a file of so many bytes, if it does.
fn table_start(documents: u32, count: u64, size: usize) -> Option<usize>
    requires { HEADER_LEN ≤ size }
    ensures some { IfSome result (λ start. start ≡ header_len + packed_length documents count) }
    ensures fits { IfSome result (λ start. start ≤ size) }
    ensures none { IfNone result (size < header_len + packed_length documents count) }
{
    let packed = (count as u128 * width_of(documents) as u128 + 7) / 8;
    if packed > (size - HEADER_LEN) as u128 {
        return None;
    }
    Some(HEADER_LEN + packed as usize)
}

// The part of a file from a place on.
fn part_from(start: usize, size: usize) -> FileSlice
    requires { start ≤ size }
    ensures start { result.start ≡ start }
    ensures end { result.end ≡ size }
{
    FileSlice::new_with_num_bytes(size).slice_from(start)
}

// Opens the table that begins at `start`.
fn open_table<H: FileHandle>(
    alloc: Global,
    handle: &mut H,
    head: Head,
    start: usize,
) -> Result<OpenIndex, IndexError>
    requires begins { start ≡ header_len + packed_length head.documents head.count }
    requires fits { start ≤ (H.state handle.old).size }
    requires told { IfSome (H.state handle.old).contents (HasTable head.documents head.count start) }
    ensures opens { OpensTold (H.state handle.old).contents result }
    ensures lies { IfOk result (λ index. LiesIn index (H.state handle.old).size) }
    ensures reads { ReadsTable (H.state handle.old) (H.state handle.new) (ReadFailed result) }
{
    let size = file_len(handle);
    match Dictionary::<RangeSSTable>::open(alloc, handle, part_from(start, size)) {
        Ok(dictionary) => Ok(OpenIndex {
            documents: head.documents,
            count: head.count,
            dictionary,
        }),
        Err(e) => Err(error_of_table(e, start)),
    }
}
