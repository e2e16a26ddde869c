// A file handle over a std file.
ghost use Rattle.std.specs.Prelude.{◌≡◌, ◌+◌, ◌≤◌, ◌^◌, ◌<◌, length, IfOk};

use crate::standard::is_interrupted;
use crate::{FileHandle, HandleError, HasLen, OwnedBytes};
use std::alloc::Global;
use std::fs::File;
use std::ops::Range;
use std::os::unix::fs::FileExt;

/// A std file, read at offsets. Its length is taken once, when it is made.
#[derive(Drop)]
pub struct WrapFile {
    file: File,
    len: usize,
    reads: u64,
    fetched: u64,
    faults: u64,
}

impl WrapFile {
    /// Failed where the file's length can't be taken.
    pub fn new(file: File) -> Result<WrapFile, HandleError>
        ensures faults { IfOk result (λ it. (⟦<WrapFile as FileHandle>⟧.state it).faults ≡ 0) }
        ensures reads { IfOk result (λ it. (⟦<WrapFile as FileHandle>⟧.state it).reads ≡ 0) }
        ensures fetched { IfOk result (λ it. (⟦<WrapFile as FileHandle>⟧.state it).fetched ≡ 0) }
    {
        match file.metadata() {
            Ok(metadata) => Ok(WrapFile {
                file,
                len: metadata.len() as usize,
                reads: 0,
                fetched: 0,
                faults: 0,
            }),
            Err(_) => Err(HandleError::Failed),
        }
    }

    /// How many reads were made, up to the greatest `u64`.
    pub fn reads(&self) -> u64
        ensures { result ≡ (⟦<WrapFile as FileHandle>⟧.state self.now).reads }
    {
        self.reads
    }

    /// How many bytes the reads asked for, up to the greatest `u64`.
    pub fn fetched(&self) -> u64
        ensures { result ≡ (⟦<WrapFile as FileHandle>⟧.state self.now).fetched }
    {
        self.fetched
    }
}

impl HasLen for WrapFile {
    ghost size = { λ it. it.len };

    fn len(&self) -> usize {
        self.len
    }
}

// Fills the buffer with the file's bytes from the offset on. False where the file ends before or a read fails.
fn fill_at(file: &File, buf: &mut [u8], offset: usize) -> bool
    requires { offset + length buf.old < 2 ^ 64 }
{
    let mut at = 0;
    for _ in 0..u64::MAX {
        if at >= buf.len() {
            return true;
        }
        match file.read_at(&mut buf[at..], (offset + at) as u64) {
            Ok(0) => return false,
            Ok(count) => at += count,
            Err(e) if is_interrupted(&e) => {}
            Err(_) => return false,
        }
    }
    false
}

impl FileHandle for WrapFile {
    ghost use Rattle.std.specs.Prelude.{None, refl};

    ghost state = { λ it. record { contents = None; size = it.len; faults = it.faults; reads = it.reads; fetched = it.fetched } };

    ghost size_is = { λ _. refl };

    ghost contents_len = { λ _. tt };

    /// An empty range answers empty bytes without a read.
    fn read_bytes(
        &mut self,
        alloc: Global,
        range: Range<usize>,
    ) -> Result<OwnedBytes, HandleError> {
        let count = range.end - range.start;
        if count == 0 {
            return Ok(OwnedBytes::empty(alloc)?);
        }
        self.reads = self.reads.saturating_add(1);
        self.fetched = self.fetched.saturating_add(count as u64);
        let mut buf = vec![in alloc; 0u8; count]?;
        if !fill_at(&self.file, &mut buf, range.start) {
            self.faults = self.faults.saturating_add(1);
            return Err(HandleError::Failed);
        }
        Ok(OwnedBytes::new(alloc, buf)?)
    }
}
