// Tables that are looked up.
ghost use Rattle.std.specs.Prelude.{◌≡◌, ◌≢◌, ◌≤◌, ◌+◌, ◌-◌, ◌<◌, ◌^◌, ℕ, List, length, min, true, IfOk, IfErr, Err};
ghost use Rattle.owned_bytes.specs.Outside.{ReadsFile};
ghost use Rattle.common_wire.specs.Slices.{span_len};
ghost use Rattle.sstable_format.specs.Ending.{IsEnding};
ghost use Rattle.sstable_format.specs.Version as versions;
ghost use Rattle.sstable_index.specs.Errors.{ReadFailed};
ghost use Rattle.sstable_index.specs.Shown.{IsWhole};
ghost use Rattle.tantivy_sstable.specs.Opening.{Opens, OpensAt, TellsAt, LiesWithin, ReadsEnds, without_file};
ghost use Rattle.tantivy_sstable.specs.Opened.{ReadsBlocks};
ghost use Rattle.tantivy_sstable.specs.Finding.{FindsIn, IsReadingError, TellsPlaceAt, IsBlockAt, FailsToRead};
ghost use Rattle.tantivy_sstable.specs.Steps.{ReadsFooter, ReadsIndexAt, part_len};

use crate::lookup::value_in;
use crate::{BlockAddr, SSTable, SSTableIndex, SstError, Writer};
use common_wire::FileSlice;
use owned_bytes::{BytesFile, FileHandle, HasLen, OwnedBytes, Sink};
use sstable_format::{FOOTER_LEN, Footer, VERSION_LEN, is_known, version_of};
use std::alloc::Global;
use std::marker::{Model, PhantomData};

/// A sorted map from byte strings to values in a file, which is read as it is looked up.
///
/// It keeps the index of the table's blocks. The file is lent to each call that reads.
#[derive(Drop)]
pub struct Dictionary<S: SSTable> {
    /// The table's bytes before its index part.
    pub sstable_slice: FileSlice,
    /// Where the table's blocks are.
    pub sstable_index: SSTableIndex,
    num_terms: u64,
    phantom: PhantomData<S>,
}

impl<S: SSTable> Model for Dictionary<S> {
    ghost use Rattle.std.specs.Prelude.{◌-◌};
    ghost use Rattle.tantivy_sstable.specs.Opened.{Opened};

    ghost Value = { Opened };

    ghost use Rattle.sstable_index.specs.Shown.{shown_index, IsWhole};

    ghost view = { λ d. record { blocks_range = d.sstable_slice; index = shown_index d.sstable_index; num_terms = d.num_terms } };

    ghost invariant = { λ d. IsWhole d.sstable_index (d.sstable_slice.end - d.sstable_slice.start) };
}

impl<S: SSTable> Dictionary<S> {
    /// How many keys there are.
    pub fn num_terms(&self) -> usize
        ensures { result ≡ self.now.num_terms }
    {
        self.num_terms as usize
    }
}

impl<S: SSTable> Dictionary<S> {
    ghost use Rattle.sstable_tables.specs.Making.{Begins};

    /// A writer of a table that is appended to what the sink has.
    pub fn builder<W: Sink>(alloc: Global, wrt: W) -> Writer<W, S::ValueWriter>
        ensures { Begins result wrt }
    {
        Writer::new(alloc, wrt)
    }
}

impl<S: SSTable> Dictionary<S> {
    /// Opens the table that stands at `file`. It reads its last 20 bytes, and then its index part.
    pub fn open<H: FileHandle>(
        alloc: Global,
        handle: &mut H,
        file: FileSlice,
    ) -> Result<Self, SstError>
        requires { file.end ≤ (H.state handle.old).size }
        ensures opened { OpensAt S.ValueReader.codec (H.state handle.old).contents file result }
        ensures within { IfOk result (λ opened. LiesWithin opened.blocks_range file) }
        ensures short { span_len file < VERSION_LEN → result ≡ Err SstError.Corrupt }
        ensures reads { ReadsEnds (H.state handle.old) (H.state handle.new) file (ReadFailed result) }
    {
        if file.len() < VERSION_LEN {
            return Err(SstError::Corrupt);
        }
        let footer = match read_footer(alloc, handle, file) {
            Ok(footer) => footer,
            Err(e) => return Err(e),
        };
        let sstable_index = match read_index(alloc, handle, file, &footer) {
            Ok(sstable_index) => sstable_index,
            Err(e) => return Err(e),
        };
        Ok(Dictionary {
            sstable_slice: file.slice_to(footer.index_offset as usize),
            sstable_index,
            num_terms: footer.num_terms,
            phantom: PhantomData,
        })
    }

    /// Opens the table that these bytes are, and keeps them in a file beside the dictionary.
    pub fn from_bytes(alloc: Global, bytes: OwnedBytes) -> Result<(Self, BytesFile), SstError>
        ensures opened { Opens S.ValueReader.codec bytes bytes (without_file result) }
        ensures within { IfOk result (λ both. both.0.blocks_range.end ≤ length bytes) }
        ensures file { IfOk result (λ both. both.1.contents ≡ bytes) }
        ensures short { length bytes < VERSION_LEN → result ≡ Err SstError.Corrupt }
        ensures error { IfErr result (λ e. e ≢ SstError.Read) }
    {
        let mut file = BytesFile::new(bytes);
        let slice = FileSlice::new(&file);
        match Dictionary::open(alloc, &mut file, slice) {
            Ok(dictionary) => Ok((dictionary, file)),
            Err(e) => Err(e),
        }
    }

    /// The value at a key; `None` where the key is not there. It reads one block.
    pub fn get<H: FileHandle>(
        &self,
        alloc: Global,
        handle: &mut H,
        key: &[u8],
    ) -> Result<Option<S::Value>, SstError>
        requires { self.now.blocks_range.end ≤ (H.state handle.old).size }
        ensures found { FindsIn S.ValueReader.codec S.Value.shown self.now (H.state handle.old).contents key.now result }
        ensures error { IfErr result IsReadingError }
        ensures compressed { IfErr result (TellsPlaceAt (H.state handle.old).contents self.now.blocks_range) }
        ensures reads { ReadsBlocks S.ValueReader.codec self.now (H.state handle.old) (H.state handle.new) (ReadFailed result) }
    {
        let block = match self.sstable_index.get_block_with_key(key) {
            Some(block) => block,
            None => return Ok(None),
        };
        match read_block(alloc, handle, self.sstable_slice, &block) {
            Ok(bytes) => value_in::<S>(alloc, bytes, block.byte_range.start as u64, key),
            Err(e) => Err(e),
        }
    }
}

// Reads a block of a table whose blocks stand at the slice.
fn read_block<H: FileHandle>(
    alloc: Global,
    handle: &mut H,
    slice: FileSlice,
    block: &BlockAddr,
) -> Result<OwnedBytes, SstError>
    requires { slice.end ≤ (H.state handle.old).size }
    ensures part { IfOk result (IsBlockAt (H.state handle.old) slice block.now) }
    ensures error { IfErr result (FailsToRead slice block.now) }
    ensures reads { ReadsFile (H.state handle.old) (H.state handle.new) (ReadFailed result) 1 (min (block.now.end - block.now.start) (span_len slice)) }
{
    let start = block.byte_range.start;
    let end = block.byte_range.end;
    if end < start || slice.len() < end {
        return Err(SstError::Corrupt);
    }
    match slice.read_bytes_slice(alloc, handle, start..end) {
        Ok(bytes) => Ok(bytes),
        Err(e) => Err(SstError::from(e)),
    }
}

// Reads the end of a table, and answers its footer.
fn read_footer<H: FileHandle>(
    alloc: Global,
    handle: &mut H,
    file: FileSlice,
) -> Result<Footer, SstError>
    requires room { VERSION_LEN ≤ span_len file }
    requires within { file.end ≤ (H.state handle.old).size }
    ensures told { TellsAt (H.state handle.old).contents file (ReadsFooter result) }
    ensures known { IfOk result (λ footer. versions.is_known footer.version ≡ true) }
    ensures fits { IfOk result (λ footer. footer.index_offset + FOOTER_LEN ≤ span_len file) }
    ensures few { IfOk result (λ footer. footer.num_terms < 2 ^ 64) }
    ensures reads { ReadsFile (H.state handle.old) (H.state handle.new) (ReadFailed result) 1 FOOTER_LEN }
{
    let ending = file.slice_from_end(file.len().min(FOOTER_LEN));
    match ending.read_bytes(alloc, handle) {
        Ok(bytes) => footer_of(bytes, file.len()),
        Err(e) => Err(SstError::from(e)),
    }
}

// Reads the index part before a table's footer, and answers the index.
fn read_index<H: FileHandle>(
    alloc: Global,
    handle: &mut H,
    file: FileSlice,
    footer: &Footer,
) -> Result<SSTableIndex, SstError>
    requires known { versions.is_known footer.now.version ≡ true }
    requires fits { footer.now.index_offset + FOOTER_LEN ≤ span_len file }
    requires within { file.end ≤ (H.state handle.old).size }
    ensures told { TellsAt (H.state handle.old).contents file (ReadsIndexAt footer.now result) }
    ensures whole { IfOk result (λ index. IsWhole index footer.now.index_offset) }
    ensures reads { ReadsFile (H.state handle.old) (H.state handle.new) (ReadFailed result) 1 (part_len footer.now file) }
{
    let part = file.slice(footer.index_offset as usize..file.len() - FOOTER_LEN);
    match part.read_bytes(alloc, handle) {
        Ok(bytes) => SSTableIndex::load(alloc, footer, bytes),
        Err(e) => Err(SstError::from(e)),
    }
}

// The footer of a table of so many bytes, by its last bytes.
fn footer_of(ending: OwnedBytes, len: usize) -> Result<Footer, SstError>
    requires room { VERSION_LEN ≤ len }
    requires ending { length ending ≡ min len FOOTER_LEN }
    ensures told { (table : List ℕ) → length table ≡ len → IsEnding table ending → ReadsFooter result table }
    ensures known { IfOk result (λ footer. versions.is_known footer.version ≡ true) }
    ensures fits { IfOk result (λ footer. footer.index_offset + FOOTER_LEN ≤ len) }
    ensures few { IfOk result (λ footer. footer.num_terms < 2 ^ 64) }
    ensures error { IfErr result (λ e. e ≢ SstError.Read) }
{
    let version = version_of(ending.as_slice());
    if !is_known(version) {
        return Err(SstError::Version(version));
    }
    if len < FOOTER_LEN {
        return Err(SstError::Corrupt);
    }
    let footer = Footer::read(ending);
    if footer.index_offset > (len - FOOTER_LEN) as u64 {
        return Err(SstError::Corrupt);
    }
    Ok(footer)
}
