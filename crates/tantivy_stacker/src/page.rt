// The pages of an arena.
ghost use Rattle.std.specs.Prelude.{◌≡◌, ℕ, ◌+◌, ◌-◌, ◌≤◌, List, ◌++◌, length, take, drop, replicate, slice_range, OnOk, OnErr, IfOk};
ghost use Rattle.std.specs.Borrow.{sem};
ghost use Rattle.tantivy_stacker.specs.Arena.{page_bytes, put_on_page};

use std::alloc::{AllocError, Global};
use std::marker::Model;

// The bytes of a page, 1 MiB.
pub(crate) const PAGE_SIZE: usize = 1048576;

// A page: the bytes that were handed out on it. Its memory is all there from the start.
#[derive(Drop)]
pub(crate) struct Page {
    bytes: Vec<u8>,
}

impl Model for Page {
    ghost use Rattle.std.specs.Prelude.{ℕ, List, ◌≤◌};
    ghost use Rattle.std.specs.Vec.{vec_len};
    ghost use Rattle.tantivy_stacker.specs.Arena.{page_bytes};

    ghost Value = { List ℕ };

    ghost view = { λ p. p.bytes.items };

    ghost invariant = { λ p. vec_len p.bytes ≤ page_bytes };
}

impl Page {
    ghost use Rattle.tantivy_stacker.specs.PageLending.{LendsPart};

    // A page of which `len` bytes are handed out.
    pub(crate) fn new(alloc: Global, len: usize) -> Result<Page, AllocError>
        requires { len ≤ page_bytes }
        ensures { IfOk result (λ p. p ≡ replicate len 0) }
    {
        let mut bytes = Vec::with_capacity(alloc, PAGE_SIZE)?;
        bytes.resize(len, 0)?;
        Ok(Page { bytes })
    }

    // How many bytes were handed out.
    pub(crate) fn len(&self) -> usize
        ensures value { result ≡ length self.now }
        ensures bound { result ≤ page_bytes }
    {
        self.bytes.len()
    }

    // Hands out `len` more bytes.
    pub(crate) fn grow(&mut self, len: usize) -> Result<(), AllocError>
        requires { length self.old + len ≤ page_bytes }
        ensures grown { OnOk result (self.new ≡ self.old ++ replicate len 0) }
        ensures unchanged { OnErr result (self.new ≡ self.old) }
    {
        let grown = self.bytes.len() + len;
        self.bytes.resize(grown, 0)
    }

    // The `len` handed-out bytes from a place on.
    pub(crate) fn slice(&self, place: usize, len: usize) -> &[u8]
        requires { place + len ≤ length self.now }
        ensures bytes { result.now ≡ take len (drop place self.now) }
        ensures len { length result.now ≡ len }
    {
        let bytes = self.bytes.as_slice();
        &bytes[place..place + len]
    }

    // The handed-out bytes from a place on.
    pub(crate) fn slice_from(&self, place: usize) -> &[u8]
        requires { place ≤ length self.now }
        ensures { result.now ≡ drop place self.now }
    {
        let bytes = self.bytes.as_slice();
        &bytes[place..]
    }

    // The `len` handed-out bytes from a place on, for writing.
    #[inline]
    pub(crate) fn slice_mut(&mut self, place: usize, len: usize) -> &mut [u8]
        requires { place + len ≤ length self.old }
        ensures* writes_back { sem 𝓛 (LendsPart self.entry place result) }
        ensures bytes { result.now ≡ take len (drop place self.old) }
        ensures len { length result.now ≡ len }
    {
        self.bytes.slice_mut(place..place + len)
    }
}
