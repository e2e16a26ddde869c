// Byte lists in an arena.
ghost use Rattle.std.specs.Prelude.{◌≡◌, ◌≢◌, ℕ, ◌+◌, ◌-◌, ◌^◌, ◌<◌, ◌≤◌, min, List, [], ◌++◌, length, take, drop, IfOk, OnOk, OnErr, IfErr};
ghost use Rattle.common_wire.specs.Wire.{vint_bytes};
ghost use Rattle.tantivy_stacker.specs.Arena.{IsAtLimitFrom};
ghost use Rattle.tantivy_stacker.specs.Lists.{block_size as size_of_block, largest_block, IsLaidOut, IsHeld, list_bytes, HasNewBlock, Extends, Appends, IsEmptyList};

use crate::{Addr, ArenaError, ArenaItem, MemoryArena};
use common_wire::serialize_vint_u32;
use std::alloc::AllocError;

// The number of the block before the first, so that block number n has 2^n bytes, up to 2^15.
const FIRST_BLOCK_NUM: u32 = 2;

/// A list of bytes in an arena: a chain of blocks, each of twice as many bytes as the one before it, up to 32,768.
/// Behind the bytes of a block stands the address of the next one.
#[derive(Clone, Copy)]
pub struct ExpUnrolledLinkedList {
    remaining_cap: u16,
    block_num: u32,
    head: Addr,
    tail: Addr,
}

impl Default for ExpUnrolledLinkedList {
    ghost is_default = { IsEmptyList };

    #[tactic(auto, unfolding(crate::specs::Lists::IsEmptyList))]
    fn default() -> Self {
        ExpUnrolledLinkedList {
            remaining_cap: 0,
            block_num: FIRST_BLOCK_NUM,
            head: Addr::null_pointer(),
            tail: Addr::null_pointer(),
        }
    }
}

// The bytes that a block holds.
#[inline]
#[tactic(auto, unfolding(crate::specs::Lists::block_size))]
fn block_size(block_num: u32) -> usize
    ensures value { result ≡ size_of_block block_num }
    ensures bound { result ≤ 32768 }
    ensures some { 1 ≤ result }
{
    1usize << block_num.min(15)
}

// The size of the block after this one.
#[inline]
#[tactic(auto, unfolding(crate::specs::Lists::block_size))]
fn next_block_size(block_num: u32) -> usize
    ensures value { result ≡ size_of_block (block_num + 1) }
    ensures bound { result ≤ 32768 }
    ensures some { 1 ≤ result }
{
    1usize << (block_num.min(14) + 1)
}

impl ExpUnrolledLinkedList {
    // Adds the next block.
    fn add_block(&mut self, arena: &mut MemoryArena) -> Result<(), ArenaError>
        requires laid_out { IsLaidOut arena.old self.old }
        requires no_rest { self.old.remaining_cap ≡ 0 }
        ensures extended { OnOk result (Extends arena.old arena.new self.old self.new []) }
        ensures rest { OnOk result (1 ≤ self.new.remaining_cap) }
        ensures unchanged { OnErr result (self.new ≡ self.old) }
        ensures arena { OnErr result (arena.new ≡ arena.old) }
        ensures at_limit { IfErr result (λ e. e ≡ ArenaError.ArenaFull → IsAtLimitFrom largest_block arena.old) }
    {
        let size = next_block_size(self.block_num);
        let addr = match arena.allocate_space(size + 4) {
            Ok(addr) => addr,
            Err(error) => return Err(error),
        };
        if self.block_num == FIRST_BLOCK_NUM {
            self.begin_block(addr, addr, size);
            return Ok(());
        }
        arena.write_at(self.tail, addr);
        self.begin_block(self.head, addr, size);
        Ok(())
    }

    // Goes on in a new block of `size` bytes at `addr`.
    fn begin_block(&mut self, head: Addr, addr: Addr, size: usize)
        requires number { self.old.block_num + 1 < 2 ^ 32 }
        requires size { size ≡ size_of_block (self.old.block_num + 1) }
        requires bound { size ≤ 32768 }
        requires some { 1 ≤ size }
        ensures new { HasNewBlock self.old self.new head addr }
        ensures rest { 1 ≤ self.new.remaining_cap }
    {
        self.block_num += 1;
        self.remaining_cap = size as u16;
        self.head = head;
        self.tail = addr;
    }

    // Adds a block where the last one is full.
    #[inline]
    fn ensure_capacity(&mut self, arena: &mut MemoryArena) -> Result<(), ArenaError>
        requires laid_out { IsLaidOut arena.old self.old }
        ensures extended { OnOk result (Extends arena.old arena.new self.old self.new []) }
        ensures rest { OnOk result (1 ≤ self.new.remaining_cap) }
        ensures unchanged { OnErr result (self.new ≡ self.old) }
        ensures arena { OnErr result (arena.new ≡ arena.old) }
        ensures no_rest { OnErr result (self.old.remaining_cap ≡ 0) }
        ensures at_limit { IfErr result (λ e. e ≡ ArenaError.ArenaFull → IsAtLimitFrom largest_block arena.old) }
    {
        if self.remaining_cap == 0 {
            return self.add_block(arena);
        }
        Ok(())
    }

    // Writes bytes into the free part of the last block, as many as it takes.
    #[inline]
    fn fill(&mut self, arena: &mut MemoryArena, buf: &[u8]) -> usize
        requires laid_out { IsLaidOut arena.old self.old }
        requires rest { 1 ≤ self.old.remaining_cap }
        requires some { 1 ≤ length buf.now }
        ensures taken { 1 ≤ result }
        ensures bound { result ≤ length buf.now }
        ensures extended { Extends arena.old arena.new self.old self.new (take result buf.now) }
        ensures in_use { self.new.remaining_cap < size_of_block self.new.block_num }
    {
        let taken = buf.len().min(self.remaining_cap as usize);
        arena.write(self.tail, &buf[..taken]);
        self.remaining_cap -= taken as u16;
        self.tail = self.tail.offset(taken as u32);
        taken
    }

    // Writes the first bytes of `buf`, at least one, and answers how many.
    #[inline]
    fn extend_once(&mut self, arena: &mut MemoryArena, buf: &[u8]) -> Result<usize, ArenaError>
        requires laid_out { IsLaidOut arena.old self.old }
        requires some { 1 ≤ length buf.now }
        ensures taken { IfOk result (λ taken. 1 ≤ taken) }
        ensures bound { IfOk result (λ taken. taken ≤ length buf.now) }
        ensures extended { IfOk result (λ taken. Extends arena.old arena.new self.old self.new (take taken buf.now)) }
        ensures in_use { OnOk result (self.new.remaining_cap < size_of_block self.new.block_num) }
        ensures unchanged { OnErr result (self.new ≡ self.old) }
        ensures arena { OnErr result (arena.new ≡ arena.old) }
        ensures no_rest { OnErr result (self.old.remaining_cap ≡ 0) }
        ensures at_limit { IfErr result (λ e. e ≡ ArenaError.ArenaFull → IsAtLimitFrom largest_block arena.old) }
    {
        match self.ensure_capacity(arena) {
            Ok(()) => Ok(self.fill(arena, buf)),
            Err(error) => Err(error),
        }
    }

    /// Lends the list and its arena to a writer.
    pub fn writer<'a>(&'a mut self, arena: &'a mut MemoryArena) -> ExpUnrolledLinkedListWriter<'a>
        ensures list { result.eull.ghost_name ≡ self.entry.ghost_name }
        ensures arena { result.arena.ghost_name ≡ arena.entry.ghost_name }
        ensures list_value { result.eull.now ≡ self.old }
        ensures arena_value { result.arena.now ≡ arena.old }
    {
        ExpUnrolledLinkedListWriter { eull: self, arena }
    }

    /// Appends bytes. After an error the list is as it was; the arena may have handed out space that nothing uses.
    pub fn append(&mut self, arena: &mut MemoryArena, buf: &[u8]) -> Result<(), ArenaError>
        requires { IsHeld arena.old self.old }
        ensures { Appends arena.old arena.new self.old self.new buf.now result }
    {
        let before = *self;
        let mut rest = buf;
        while !rest.is_empty() {
            match self.extend_once(arena, rest) {
                Ok(taken) => rest = &rest[taken..],
                Err(error) => {
                    *self = before;
                    return Err(error);
                }
            }
        }
        Ok(())
    }

    /// Appends the list's bytes to `output`. After an error `output` has a part of them behind what it held.
    pub fn read_to_end(&self, arena: &MemoryArena, output: &mut Vec<u8>) -> Result<(), AllocError>
        requires { IsHeld arena.now self.now }
        ensures bytes { OnOk result (output.new.items ≡ output.old.items ++ list_bytes arena.now self.now) }
        ensures kept { (part : List ℕ) × (output.new.items ≡ output.old.items ++ part) }
    {
        if self.block_num == FIRST_BLOCK_NUM {
            return Ok(());
        }
        let mut addr = self.head;
        for block_num in FIRST_BLOCK_NUM + 1..self.block_num {
            let size = block_size(block_num);
            output.extend_from_slice(arena.slice(addr, size))?;
            addr = arena.read(addr.offset(size as u32));
        }
        let used = block_size(self.block_num) - self.remaining_cap as usize;
        output.extend_from_slice(arena.slice(addr, used))
    }
}

/// Writes to a list of an arena.
#[derive(Drop)]
pub struct ExpUnrolledLinkedListWriter<'a> {
    eull: &'a mut ExpUnrolledLinkedList,
    arena: &'a mut MemoryArena,
}

impl ExpUnrolledLinkedListWriter<'_> {
    ghost use Rattle.tantivy_stacker.specs.Writers.{WriterAppends};

    /// Appends bytes, as `append` of the list does.
    pub fn extend_from_slice(&mut self, buf: &[u8]) -> Result<(), ArenaError>
        requires { IsHeld self.old.arena.now self.old.eull.now }
        ensures list { self.new.eull.ghost_name ≡ self.old.eull.ghost_name }
        ensures arena { self.new.arena.ghost_name ≡ self.old.arena.ghost_name }
        ensures appends { WriterAppends self.old self.new buf.now result }
    {
        self.eull.append(self.arena, buf)
    }

    /// Appends the bytes of `VInt`, as `extend_from_slice` does.
    pub fn write_u32_vint(&mut self, val: u32) -> Result<(), ArenaError>
        requires { IsHeld self.old.arena.now self.old.eull.now }
        ensures list { self.new.eull.ghost_name ≡ self.old.eull.ghost_name }
        ensures arena { self.new.arena.ghost_name ≡ self.old.arena.ghost_name }
        ensures appends { WriterAppends self.old self.new (vint_bytes val) result }
    {
        let mut buf = [0u8; 8];
        let bytes = serialize_vint_u32(val, &mut buf);
        self.extend_from_slice(bytes)
    }
}

impl ArenaItem for ExpUnrolledLinkedList {
    ghost use Rattle.tantivy_stacker.specs.Lists.{list_item, list_of_item};

    ghost SIZE = { 14 };

    ghost bytes = { λ l. list_item l };

    ghost item = { λ bs. list_of_item bs };

    const SIZE: usize = 14;

    fn to_bytes(&self, dest: &mut [u8]) {
        self.remaining_cap.to_bytes(&mut dest[..2]);
        self.block_num.to_bytes(&mut dest[2..6]);
        self.head.to_bytes(&mut dest[6..10]);
        self.tail.to_bytes(&mut dest[10..]);
    }

    fn from_bytes(src: &[u8]) -> Self {
        ExpUnrolledLinkedList {
            remaining_cap: u16::from_bytes(&src[..2]),
            block_num: u32::from_bytes(&src[2..6]),
            head: Addr::from_bytes(&src[6..10]),
            tail: Addr::from_bytes(&src[10..14]),
        }
    }

    ghost use Rattle.std.proofs.Common.{rules};

    ghost small = { Prim.search rules };

    ghost some = { Prim.search rules };
}
