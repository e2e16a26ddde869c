// Files over bytes in memory, with counts.
ghost use Rattle.std.specs.Prelude.{◌≡◌, ◌-◌, ◌≤◌, length, Err, IfOk, IfErr, refl};
ghost use Rattle.std.specs.Bool.{OnTrue, OnFalse};
ghost use Rattle.owned_bytes.specs.Outside.{RisesAtMost, FileFailed, ReadsFile, IsRead};
ghost use Rattle.owned_bytes.specs.InMemory.{fails_next, after_call, at_first, after_read, of_counted, of_failing};

use crate::failing::FailingCalls;
use crate::{FileHandle, HandleError, HasLen, OwnedBytes};
use std::alloc::Global;
use std::marker::Model;
use std::ops::Range;

/// Tells its bytes, counts its reads, and never fails but for memory.
#[derive(Drop)]
pub struct BytesFile {
    bytes: OwnedBytes,
    reads: u64,
    fetched: u64,
}

impl Model for BytesFile {
    ghost use Rattle.owned_bytes.specs.InMemory.{Counted};

    ghost Value = { Counted };

    ghost view = { λ file. record { contents = file.bytes; reads = file.reads; fetched = file.fetched } };
}

impl BytesFile {
    /// The bytes as a file, before any read.
    pub fn new(bytes: OwnedBytes) -> BytesFile
        ensures contents { result.contents ≡ bytes }
        ensures reads { result.reads ≡ 0 }
        ensures fetched { result.fetched ≡ 0 }
    {
        BytesFile {
            bytes,
            reads: 0,
            fetched: 0,
        }
    }

    /// How many reads were made, up to the greatest `u64`.
    pub fn reads(&self) -> u64
        ensures { result ≡ self.now.reads }
    {
        self.reads
    }

    /// How many bytes the reads asked for, up to the greatest `u64`.
    pub fn fetched(&self) -> u64
        ensures { result ≡ self.now.fetched }
    {
        self.fetched
    }

    // Counts one read of so many bytes.
    fn count_read(&mut self, count: usize)
        ensures counts { self.new ≡ after_read count self.old }
        ensures reads { RisesAtMost self.old.reads self.new.reads 1 }
        ensures fetched { RisesAtMost self.old.fetched self.new.fetched count }
    {
        self.reads = self.reads.saturating_add(1);
        self.fetched = self.fetched.saturating_add(count as u64);
    }
}

impl HasLen for BytesFile {
    ghost size = { λ file. length file.contents };

    fn len(&self) -> usize {
        self.bytes.len()
    }
}

impl FileHandle for BytesFile {
    ghost state = { of_counted };

    ghost size_is = { λ _. refl };

    ghost contents_len = { λ _. refl };

    fn read_bytes(&mut self, alloc: Global, range: Range<usize>) -> Result<OwnedBytes, HandleError>
        requires ordered { range.start ≤ range.end }
        requires within { range.end ≤ length self.old.contents }
        ensures part { IfOk result (IsRead (of_counted self.old) range.start range.end) }
        ensures reads { ReadsFile (of_counted self.old) (of_counted self.new) (FileFailed result) 1 (range.end - range.start) }
        ensures counts { self.new ≡ after_read (range.end - range.start) self.old }
        ensures memory { IfErr result (λ e. e ≡ HandleError.Memory) }
    {
        self.count_read(range.end - range.start);
        Ok(self.bytes.slice(alloc, range)?)
    }
}

/// Tells its bytes, counts its reads, and fails at each call whose number, from 1 on, stands in a list.
#[derive(Drop)]
pub struct MemFile {
    file: BytesFile,
    failing: FailingCalls,
}

impl Model for MemFile {
    ghost use Rattle.owned_bytes.specs.InMemory.{FailingCounted};

    ghost Value = { FailingCounted };

    ghost view = { λ it. record { file = it.file; failing = it.failing } };
}

impl MemFile {
    /// The bytes as a file, before any read, and which of its reads shall fail.
    pub fn new(bytes: OwnedBytes, fails: Vec<u64>) -> MemFile
        ensures contents { result.file.contents ≡ bytes }
        ensures reads { result.file.reads ≡ 0 }
        ensures fetched { result.file.fetched ≡ 0 }
        ensures failing { result.failing ≡ at_first fails.items }
    {
        MemFile {
            file: BytesFile::new(bytes),
            failing: FailingCalls::new(fails),
        }
    }

    /// How many reads were made, those that failed too, up to the greatest `u64`.
    pub fn reads(&self) -> u64
        ensures { result ≡ self.now.file.reads }
    {
        self.file.reads()
    }

    /// How many bytes the reads asked for, up to the greatest `u64`.
    pub fn fetched(&self) -> u64
        ensures { result ≡ self.now.file.fetched }
    {
        self.file.fetched()
    }
}

impl HasLen for MemFile {
    ghost size = { λ it. length it.file.contents };

    fn len(&self) -> usize {
        self.file.len()
    }
}

impl FileHandle for MemFile {
    ghost state = { of_failing };

    ghost size_is = { λ _. refl };

    ghost contents_len = { λ _. refl };

    fn read_bytes(&mut self, alloc: Global, range: Range<usize>) -> Result<OwnedBytes, HandleError>
        requires ordered { range.start ≤ range.end }
        requires within { range.end ≤ length self.old.file.contents }
        ensures part { IfOk result (IsRead (of_failing self.old) range.start range.end) }
        ensures reads { ReadsFile (of_failing self.old) (of_failing self.new) (FileFailed result) 1 (range.end - range.start) }
        ensures counts { self.new.file ≡ after_read (range.end - range.start) self.old.file }
        ensures calls { self.new.failing ≡ after_call self.old.failing }
        ensures fails { OnTrue (fails_next self.old.failing) (result ≡ Err HandleError.Failed) }
        ensures memory { OnFalse (fails_next self.old.failing) (IfErr result (λ e. e ≡ HandleError.Memory)) }
    {
        if self.failing.fails_now() {
            self.file.count_read(range.end - range.start);
            return Err(HandleError::Failed);
        }
        self.file.read_bytes(alloc, range)
    }
}
