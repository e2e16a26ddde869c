// Slices of files.
ghost use Rattle.std.specs.Prelude.{◌≡◌, ◌+◌, ◌-◌, ◌≤◌, IfOk};
ghost use Rattle.owned_bytes.specs.Outside.{FileFailed, IsRead};
ghost use Rattle.common_wire.specs.Slices.{span_len, part_of, next_len, IsPiece, ReadsPart};

use crate::ByteCount;
use owned_bytes::{FileHandle, HandleError, HasLen, OwnedBytes, WrapFile, file_len};
use std::alloc::Global;
use std::fs::File;
use std::marker::Model;
use std::ops::Range;
use std::rt::Files;

// The size of a piece of `FileChunks`.
const PIECE_LEN: usize = 1_048_576;

/// A range of a file. It holds no file: a handle is passed to each call that reads.
#[derive(Clone, Copy)]
pub struct FileSlice {
    start: usize,
    end: usize,
}

impl Model for FileSlice {
    ghost use Rattle.std.specs.Prelude.{◌≤◌};
    ghost use Rattle.common_wire.specs.Slices.{Span};

    ghost Value = { Span };

    ghost view = { λ s. record { start = s.start; end = s.end } };

    ghost invariant = { λ s. s.start ≤ s.end };

    ghost inverse = { λ s. record { start = s.start; end = s.end } };
}

impl HasLen for FileSlice {
    ghost size = { span_len };

    fn len(&self) -> usize {
        self.end - self.start
    }
}

impl FileSlice {
    /// The whole file.
    pub fn new<H: FileHandle>(handle: &H) -> FileSlice
        ensures start { result.start ≡ 0 }
        ensures end { result.end ≡ (H.state handle.now).size }
    {
        FileSlice::new_with_num_bytes(file_len(handle))
    }

    /// The first so many bytes.
    pub fn new_with_num_bytes(num_bytes: usize) -> FileSlice
        ensures start { result.start ≡ 0 }
        ensures end { result.end ≡ num_bytes }
    {
        FileSlice {
            start: 0,
            end: num_bytes,
        }
    }

    /// Opens the file, and gives a handle of it and the whole of it. Failed where it can't be opened or measured.
    pub fn open<R: Files<File = File>>(
        files: &R,
        path: &str,
    ) -> Result<(WrapFile, FileSlice), HandleError>
        ensures start { IfOk result (λ opened. opened.1.start ≡ 0) }
        ensures end { IfOk result (λ opened. opened.1.end ≡ (⟦<WrapFile as FileHandle>⟧.state opened.0).size) }
    {
        match File::open(files, path) {
            Ok(file) => {
                let handle = WrapFile::new(file)?;
                let slice = FileSlice::new(&handle);
                Ok((handle, slice))
            }
            Err(_) => Err(HandleError::Failed),
        }
    }

    /// No bytes.
    pub fn empty() -> FileSlice
        ensures start { result.start ≡ 0 }
        ensures end { result.end ≡ 0 }
    {
        FileSlice::new_with_num_bytes(0)
    }

    /// How many bytes it has.
    pub fn num_bytes(&self) -> ByteCount
        ensures { result ≡ span_len self.now }
    {
        ByteCount::from(self.len())
    }

    /// The places in the file.
    pub fn range(&self) -> Range<usize>
        ensures start { result.start ≡ self.now.start }
        ensures end { result.end ≡ self.now.end }
        ensures ordered { result.start ≤ result.end }
    {
        self.start..self.end
    }

    /// The part of the range, which counts from the slice's start.
    pub fn slice(&self, byte_range: Range<usize>) -> FileSlice
        requires ordered { byte_range.start ≤ byte_range.end }
        requires within { byte_range.end ≤ span_len self.now }
        ensures { result ≡ part_of self.now byte_range.start byte_range.end }
    {
        FileSlice {
            start: self.start + byte_range.start,
            end: self.start + byte_range.end,
        }
    }

    /// All but the first so many bytes.
    pub fn slice_from(&self, from_offset: usize) -> FileSlice
        requires { from_offset ≤ span_len self.now }
        ensures { result ≡ part_of self.now from_offset (span_len self.now) }
    {
        self.slice(from_offset..self.len())
    }

    /// The last so many bytes.
    pub fn slice_from_end(&self, from_offset: usize) -> FileSlice
        requires { from_offset ≤ span_len self.now }
        ensures { result ≡ part_of self.now (span_len self.now - from_offset) (span_len self.now) }
    {
        self.slice(self.len() - from_offset..self.len())
    }

    /// The first so many bytes.
    pub fn slice_to(&self, to_offset: usize) -> FileSlice
        requires { to_offset ≤ span_len self.now }
        ensures { result ≡ part_of self.now 0 to_offset }
    {
        self.slice(0..to_offset)
    }

    /// The first so many bytes, and those after them.
    pub fn split(self, left_len: usize) -> (FileSlice, FileSlice)
        requires { left_len ≤ span_len self }
        ensures left { result.0 ≡ part_of self 0 left_len }
        ensures right { result.1 ≡ part_of self left_len (span_len self) }
    {
        (self.slice_to(left_len), self.slice_from(left_len))
    }

    /// The bytes before the last so many, and these.
    pub fn split_from_end(self, right_len: usize) -> (FileSlice, FileSlice)
        requires { right_len ≤ span_len self }
        ensures left { result.0 ≡ part_of self 0 (span_len self - right_len) }
        ensures right { result.1 ≡ part_of self (span_len self - right_len) (span_len self) }
    {
        let left_len = self.len() - right_len;
        self.split(left_len)
    }

    /// The slice's bytes. An empty slice doesn't touch the handle; another is one read.
    pub fn read_bytes<H: FileHandle>(
        &self,
        alloc: Global,
        handle: &mut H,
    ) -> Result<OwnedBytes, HandleError>
        requires { self.now.end ≤ (H.state handle.old).size }
        ensures part { IfOk result (IsRead (H.state handle.old) self.now.start self.now.end) }
        ensures reads { ReadsPart (H.state handle.old) (H.state handle.new) (FileFailed result) (span_len self.now) }
    {
        read_part(alloc, handle, self.range())
    }

    /// The bytes of a part of the slice.
    pub fn read_bytes_slice<H: FileHandle>(
        &self,
        alloc: Global,
        handle: &mut H,
        range: Range<usize>,
    ) -> Result<OwnedBytes, HandleError>
        requires handle { self.now.end ≤ (H.state handle.old).size }
        requires ordered { range.start ≤ range.end }
        requires within { range.end ≤ span_len self.now }
        ensures part { IfOk result (IsRead (H.state handle.old) (self.now.start + range.start) (self.now.start + range.end)) }
        ensures reads { ReadsPart (H.state handle.old) (H.state handle.new) (FileFailed result) (range.end - range.start) }
    {
        let part = FileSlice {
            start: self.start + range.start,
            end: self.start + range.end,
        };
        part.read_bytes(alloc, handle)
    }

    /// The slice in pieces of 1,048,576 bytes, the last of which may be shorter.
    pub fn stream_file_chunks(&self) -> FileChunks
        ensures { result ≡ self.now }
    {
        FileChunks { rest: *self }
    }
}

/// The bytes of the file at these places. Nothing is read where there are none.
pub fn read_part<H: FileHandle>(
    alloc: Global,
    handle: &mut H,
    range: Range<usize>,
) -> Result<OwnedBytes, HandleError>
    requires ordered { range.start ≤ range.end }
    requires within { range.end ≤ (H.state handle.old).size }
    ensures part { IfOk result (IsRead (H.state handle.old) range.start range.end) }
    ensures reads { ReadsPart (H.state handle.old) (H.state handle.new) (FileFailed result) (range.end - range.start) }
{
    if range.start == range.end {
        return Ok(OwnedBytes::empty(alloc)?);
    }
    handle.read_bytes(alloc, range)
}

/// The rest of a slice, which is read piece by piece. Contracts see what is left of it.
#[derive(Drop)]
pub struct FileChunks {
    rest: FileSlice,
}

impl Model for FileChunks {
    ghost use Rattle.common_wire.specs.Slices.{Span};

    ghost Value = { Span };

    ghost view = { λ chunks. chunks.rest };
}

impl FileChunks {
    /// The next piece, and None exactly at the end. After an error the next call gives the next piece.
    pub fn next_chunk<H: FileHandle>(
        &mut self,
        alloc: Global,
        handle: &mut H,
    ) -> Result<Option<OwnedBytes>, HandleError>
        requires { self.old.end ≤ (H.state handle.old).size }
        ensures moves { self.new ≡ part_of self.old (next_len self.old) (span_len self.old) }
        ensures piece { IfOk result (IsPiece (H.state handle.old) self.old) }
        ensures reads { ReadsPart (H.state handle.old) (H.state handle.new) (FileFailed result) (next_len self.old) }
    {
        let len = self.rest.len();
        let (piece, rest) = self.rest.split(len.min(PIECE_LEN));
        self.rest = rest;
        if len == 0 {
            return Ok(None);
        }
        Ok(Some(piece.read_bytes(alloc, handle)?))
    }
}
