// A part of a file as a file of its own.
ghost use Rattle.std.specs.Prelude.{◌≡◌, ◌-◌, ◌≤◌, refl};
ghost use Rattle.common_wire.specs.Slices.{part_state};
ghost use Rattle.common_wire.specs.SliceLaws.{part_told-length};

use crate::FileSlice;
use owned_bytes::{FileHandle, HandleError, HasLen, OwnedBytes};
use std::alloc::Global;
use std::ops::Range;

/// A slice of a file, as a file handle over that part. Its counts are those of the whole file.
#[derive(Drop)]
pub struct SliceHandle<'a, H: FileHandle> {
    handle: &'a mut H,
    start: usize,
    end: usize,
    ghost ordered: { start ≤ end },
    ghost within: { end ≤ (H.state handle.now).size },
}

impl<'a, H: FileHandle> SliceHandle<'a, H> {
    /// The part of the file that the slice covers.
    pub fn new(handle: &'a mut H, slice: FileSlice) -> SliceHandle<'a, H>
        requires { slice.end ≤ (H.state handle.old).size }
        ensures { ⟦<SliceHandle<'a, H> as FileHandle>⟧.state result ≡ part_state slice.start slice.end (H.state handle.old) }
    {
        let range = slice.range();
        SliceHandle {
            handle,
            start: range.start,
            end: range.end,
        }
    }
}

impl<'a, H: FileHandle> HasLen for SliceHandle<'a, H> {
    ghost size = { λ it. it.end - it.start };

    fn len(&self) -> usize {
        self.end - self.start
    }
}

impl<'a, H: FileHandle> FileHandle for SliceHandle<'a, H> {
    ghost state = { λ it. part_state it.start it.end (H.state it.handle.now) };

    ghost size_is = { λ _. refl };

    ghost contents_len = { λ it. part_told-length it.start it.end (H.state it.handle.now).size (H.state it.handle.now).contents it.ordered it.within (H.contents_len it.handle.now) };

    fn read_bytes(
        &mut self,
        alloc: Global,
        range: Range<usize>,
    ) -> Result<OwnedBytes, HandleError> {
        self.handle
            .read_bytes(alloc, self.start + range.start..self.start + range.end)
    }
}
