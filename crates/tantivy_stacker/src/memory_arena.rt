// The arena: pages of memory whose places are handed out one after the other.
ghost use Rattle.std.specs.Prelude.{◌≡◌, ℕ, ◌+◌, ◌-◌, ◌*◌, ◌/◌, ◌%◌, ◌<◌, ◌≤◌, ◌==◌, ◌↔◌, List, [], ◌∷◌, ◌++◌, length, drop, IfOk, OnOk, OnErr, IfErr, IsTrue};
ghost use Rattle.std.specs.Borrow.{sem};
ghost use Rattle.tantivy_stacker.specs.Arena.{page_bytes, most_pages, new_arena, page, last_page, Lies, bytes_at, top, spent, IsFull, next_place, with_space, with_slice, HasNoSpace, HandsOut, Writes, IsAtLimitFrom};

use crate::page::{PAGE_SIZE, Page};
use crate::{Addr, ArenaError, ArenaItem, fast_short_slice_copy, load};
use std::alloc::{AllocError, Global};
use std::marker::Model;

// The most pages that an arena may have.
const MOST_PAGES: u32 = 4096;

/// Pages of 1 MiB, whose bytes are handed out from front to back.
#[derive(Drop)]
pub struct MemoryArena {
    pages: Vec<Page>,
    limit: usize,
    alloc: Global,
}

impl Model for MemoryArena {
    ghost use Rattle.std.specs.Prelude.{◌≤◌, length};
    ghost use Rattle.tantivy_stacker.specs.Arena.{Arena, most_pages};

    ghost Value = { Arena };

    ghost view = { λ a. record { limit = a.limit; pages = a.pages.items } };

    ghost invariant = { λ a. (1 ≤ length a.pages.items) × (length a.pages.items ≤ a.limit) × (a.limit ≤ most_pages) };
}

impl MemoryArena {
    ghost use Rattle.tantivy_stacker.specs.Lending.{LendsBytes};

    /// An arena of at most 4,096 pages, which has one.
    pub fn new(alloc: Global) -> Result<MemoryArena, AllocError>
        ensures empty { IfOk result (λ a. a ≡ new_arena most_pages) }
        ensures unspent { IfOk result (λ a. spent a ≡ 0) }
        ensures full { IfOk result (λ a. (m : ℕ) → IsFull a m) }
    {
        MemoryArena::with_page_limit(alloc, MOST_PAGES)
    }

    /// An arena of at most so many pages, which has one.
    #[tactic(auto, unfolding(crate::specs::Arena::spent, crate::specs::Arena::IsFull))]
    pub fn with_page_limit(alloc: Global, pages: u32) -> Result<MemoryArena, AllocError>
        requires some { 1 ≤ pages }
        requires bound { pages ≤ most_pages }
        ensures empty { IfOk result (λ a. a ≡ new_arena pages) }
        ensures unspent { IfOk result (λ a. spent a ≡ 0) }
        ensures full { IfOk result (λ a. (m : ℕ) → IsFull a m) }
    {
        let first = Page::new(alloc, 0)?;
        let mut list = Vec::new(alloc);
        list.push(first)?;
        Ok(MemoryArena {
            pages: list,
            limit: pages as usize,
            alloc,
        })
    }

    /// Hands out `len` bytes, which are 0: on the last page where it has room, else at the front of a new page.
    #[inline]
    pub fn allocate_space(&mut self, len: usize) -> Result<Addr, ArenaError>
        requires some { 1 ≤ len }
        requires bound { len ≤ page_bytes }
        ensures place { IfOk result (λ addr. addr ≡ next_place self.old len) }
        ensures space { OnOk result (self.new ≡ with_space self.old len) }
        ensures laws { IfOk result (λ addr. HandsOut self.old self.new addr len) }
        ensures pages { length self.old.pages ≤ most_pages }
        ensures pages_after { length self.new.pages ≤ most_pages }
        ensures unchanged { OnErr result (self.new ≡ self.old) }
        ensures full { (result ≡ Err ArenaError.ArenaFull) ↔ HasNoSpace self.old len }
        ensures at_limit { IfErr result (λ e. e ≡ ArenaError.ArenaFull → IsAtLimitFrom len self.old) }
    {
        self.hand_out(len)
    }

    // `allocate_space`, but for the laws that follow.
    #[inline]
    #[tactic(auto, unfolding(crate::specs::Arena::next_place, crate::specs::Arena::with_space, crate::specs::Arena::top))]
    fn hand_out(&mut self, len: usize) -> Result<Addr, ArenaError>
        requires some { 1 ≤ len }
        requires bound { len ≤ page_bytes }
        ensures first { 1 ≤ length self.old.pages }
        ensures pages { length self.old.pages ≤ most_pages }
        ensures pages_after { length self.new.pages ≤ most_pages }
        ensures last { length (page self.old (last_page self.old)) ≤ page_bytes }
        ensures place { IfOk result (λ addr. addr ≡ next_place self.old len) }
        ensures space { OnOk result (self.new ≡ with_space self.old len) }
        ensures unchanged { OnErr result (self.new ≡ self.old) }
        ensures full { (result ≡ Err ArenaError.ArenaFull) ↔ HasNoSpace self.old len }
        ensures at_limit { IfErr result (λ e. e ≡ ArenaError.ArenaFull → IsAtLimitFrom len self.old) }
    {
        let last = self.pages.len() - 1;
        let place = self.pages[last].len();
        if place + len > PAGE_SIZE {
            return self.add_page(len);
        }
        let addr = (last * PAGE_SIZE + place) as u32;
        if addr == u32::MAX {
            return Err(ArenaError::ArenaFull);
        }
        self.pages[last].grow(len)?;
        Ok(Addr::from_number(addr))
    }

    /// The `len` bytes from an address on.
    #[inline]
    #[tactic(auto, unfolding(crate::specs::Arena::bytes_at))]
    pub fn slice(&self, addr: Addr, len: usize) -> &[u8]
        requires { Lies self.now addr len }
        ensures bytes { result.now ≡ bytes_at self.now addr len }
        ensures len { length result.now ≡ len }
        ensures pages { length self.now.pages ≤ most_pages }
    {
        let number = addr.number() as usize;
        self.pages[number / PAGE_SIZE].slice(number % PAGE_SIZE, len)
    }

    /// The handed-out bytes of the address's page from the address on.
    #[inline]
    pub fn slice_from(&self, addr: Addr) -> &[u8]
        requires { Lies self.now addr 0 }
        ensures { result.now ≡ drop (addr % page_bytes) (page self.now (addr / page_bytes)) }
    {
        let number = addr.number() as usize;
        self.pages[number / PAGE_SIZE].slice_from(number % PAGE_SIZE)
    }

    /// The `len` bytes from an address on, for writing.
    #[inline]
    pub fn slice_mut(&mut self, addr: Addr, len: usize) -> &mut [u8]
        requires { Lies self.old addr len }
        ensures* writes_back { sem 𝓛 (LendsBytes self.entry addr result) }
        ensures bytes { result.now ≡ bytes_at self.old addr len }
        ensures len { length result.now ≡ len }
        ensures pages { length self.old.pages ≤ most_pages }
        ensures writes { (w : List ℕ) → length w ≡ len → Writes self.old (with_slice self.old addr w) addr w }
    {
        let number = addr.number() as usize;
        let page = &mut self.pages[number / PAGE_SIZE];
        page.slice_mut(number % PAGE_SIZE, len)
    }

    /// The handed-out bytes of the address's page from the address on, for writing.
    #[inline]
    pub fn slice_from_mut(&mut self, addr: Addr) -> &mut [u8]
        requires { Lies self.old addr 0 }
        ensures* writes_back { sem 𝓛 (LendsBytes self.entry addr result) }
        ensures bytes { result.now ≡ drop (addr % page_bytes) (page self.old (addr / page_bytes)) }
        ensures writes { (w : List ℕ) → length w ≡ length result.now → Writes self.old (with_slice self.old addr w) addr w }
    {
        let number = addr.number() as usize;
        let page = &mut self.pages[number / PAGE_SIZE];
        let place = number % PAGE_SIZE;
        let len = page.len() - place;
        page.slice_mut(place, len)
    }

    // Writes bytes from an address on.
    #[inline]
    pub(crate) fn write(&mut self, addr: Addr, new: &[u8])
        requires { Lies self.old addr (length new.now) }
        ensures written { Writes self.old self.new addr new.now }
        ensures pages { length self.old.pages ≤ most_pages }
    {
        fast_short_slice_copy(new, self.slice_mut(addr, new.len()));
    }

    /// The item whose bytes stand from an address on.
    #[inline]
    pub fn read<Item: ArenaItem>(&self, addr: Addr) -> Item
        requires { Lies self.now addr Item.SIZE }
        ensures item { result ≡ Item.item (bytes_at self.now addr Item.SIZE) }
        ensures pages { length self.now.pages ≤ most_pages }
    {
        load(self.slice(addr, Item::SIZE))
    }

    /// Writes an item's bytes from an address on.
    #[inline]
    pub fn write_at<Item: ArenaItem>(&mut self, addr: Addr, val: Item)
        requires { Lies self.old addr Item.SIZE }
        ensures written { Writes self.old self.new addr (Item.bytes val) }
        ensures size { length (Item.bytes val) ≡ Item.SIZE }
        ensures again { Item.item (Item.bytes val) ≡ val }
    {
        val.to_bytes(self.slice_mut(addr, Item::SIZE));
    }

    /// 2^20 for each page but the last, and the bytes that were handed out on the last.
    #[tactic(auto, unfolding(crate::specs::Arena::top))]
    pub fn len(&self) -> usize
        ensures { result ≡ top self.now }
    {
        let last = self.pages.len() - 1;
        last * PAGE_SIZE + self.pages[last].len()
    }

    /// Whether nothing was handed out on the first page, which is the only one.
    #[tactic(auto, unfolding(crate::specs::Arena::top))]
    pub fn is_empty(&self) -> bool
        ensures { result ≡ (top self.now == 0) }
    {
        self.len() == 0
    }

    /// The bytes of all pages.
    pub fn mem_usage(&self) -> usize
        ensures { result ≡ length self.now.pages * page_bytes }
    {
        self.pages.len() * PAGE_SIZE
    }

    // Hands out the first `len` bytes of a new page.
    #[tactic(auto, unfolding(crate::specs::Arena::next_place, crate::specs::Arena::with_space, crate::specs::Arena::top))]
    fn add_page(&mut self, len: usize) -> Result<Addr, ArenaError>
        requires some { 1 ≤ len }
        requires bound { len ≤ page_bytes }
        requires no_room { page_bytes < length (page self.old (last_page self.old)) + len }
        ensures pages_after { length self.new.pages ≤ most_pages }
        ensures place { IfOk result (λ addr. addr ≡ next_place self.old len) }
        ensures space { OnOk result (self.new ≡ with_space self.old len) }
        ensures unchanged { OnErr result (self.new ≡ self.old) }
        ensures full { (result ≡ Err ArenaError.ArenaFull) ↔ HasNoSpace self.old len }
    {
        let number = self.pages.len();
        if number == self.limit {
            return Err(ArenaError::ArenaFull);
        }
        let page = Page::new(self.alloc, len)?;
        self.pages.push(page)?;
        Ok(Addr::from_number((number * PAGE_SIZE) as u32))
    }
}
