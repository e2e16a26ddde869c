// Hash maps that own their arena.
ghost use Rattle.std.specs.Prelude.{Option, ◌≡◌, ℕ, ◌+◌, ◌-◌, ◌*◌, ◌^◌, ◌≤◌, ◌==◌, List, length, min, IfOk};
ghost use Rattle.tantivy_stacker.specs.Arena.{Lies, bytes_at, spent, IsFull, page_bytes, most_pages, new_arena};
ghost use Rattle.tantivy_stacker.specs.Maps.{first_places, IsHeldMap, Finds, IsEmptyMap, IsTableSize, CanBeRead, AreEntries, entries_in, cut_key, table_bytes};
ghost use Rattle.tantivy_stacker.specs.Mutations.{MayUpdate, MutatesOwn};

use crate::{Addr, ArenaError, ArenaItem, Iter, MemoryArena, SharedArenaHashMap};
use std::alloc::{AllocError, Global};
use std::marker::Model;

// The places of the table of a new map.
const FIRST_PLACES: usize = 4;

/// A map from bytes to values, with the arena that its entries stand in.
#[derive(Drop)]
pub struct ArenaHashMap<V> {
    shared_arena_hashmap: SharedArenaHashMap<V>,
    memory_arena: MemoryArena,
}

impl<V> Model for ArenaHashMap<V> {
    ghost use Rattle.tantivy_stacker.specs.Maps.{OwnMap};

    ghost Value = { OwnMap };

    ghost view = { λ m. record { arena = m.memory_arena; table = m.shared_arena_hashmap } };
}

impl<V: ArenaItem> ArenaHashMap<V> {
    /// An empty map of four places, in an arena of at most 4,096 pages.
    pub fn new(alloc: Global) -> Result<Self, AllocError>
        ensures empty { IfOk result (λ m. IsEmptyMap m.table) }
        ensures places { IfOk result (λ m. length m.table.places ≡ first_places) }
        ensures held { IfOk result (λ m. IsHeldMap V.SIZE m.arena m.table) }
        ensures arena { IfOk result (λ m. m.arena ≡ new_arena most_pages) }
        ensures unspent { IfOk result (λ m. spent m.arena ≡ 0) }
        ensures full { IfOk result (λ m. (k : ℕ) → IsFull m.arena k) }
    {
        ArenaHashMap::with_capacity(alloc, FIRST_PLACES)
    }

    /// An empty map, whose table has the greatest power of two of places at most `table_size`, but at least two. Its arena has at
    /// most 4,096 pages.
    pub fn with_capacity(alloc: Global, table_size: usize) -> Result<Self, AllocError>
        requires some { 1 ≤ table_size }
        requires bound { table_size ≤ 2 ^ 31 }
        ensures empty { IfOk result (λ m. IsEmptyMap m.table) }
        ensures places { IfOk result (λ m. IsTableSize table_size (length m.table.places)) }
        ensures held { IfOk result (λ m. IsHeldMap V.SIZE m.arena m.table) }
        ensures arena { IfOk result (λ m. m.arena ≡ new_arena most_pages) }
        ensures unspent { IfOk result (λ m. spent m.arena ≡ 0) }
        ensures full { IfOk result (λ m. (k : ℕ) → IsFull m.arena k) }
    {
        let shared_arena_hashmap = SharedArenaHashMap::with_capacity(alloc, table_size)?;
        let memory_arena = MemoryArena::new(alloc)?;
        Ok(ArenaHashMap {
            shared_arena_hashmap,
            memory_arena,
        })
    }

    /// The item whose bytes stand from an address on.
    pub fn read<Item: ArenaItem>(&self, addr: Addr) -> Item
        requires { Lies self.now.arena addr Item.SIZE }
        ensures { result ≡ Item.item (bytes_at self.now.arena addr Item.SIZE) }
    {
        self.memory_arena.read(addr)
    }

    /// The value at a key.
    pub fn get(&self, key: &[u8]) -> Option<V>
        requires { IsHeldMap V.SIZE self.now.arena self.now.table }
        ensures { Finds V.SIZE V.item self.now.arena self.now.table key.now result }
    {
        self.shared_arena_hashmap.get(key, &self.memory_arena)
    }

    /// Gives a key, cut to 65,535 bytes, the value that the updater makes of the value before.
    pub fn mutate_or_create<F: FnOnce(Option<V>) -> V>(
        &mut self,
        key: &[u8],
        updater: F,
    ) -> Result<V, ArenaError>
        requires held { IsHeldMap V.SIZE self.old.arena self.old.table }
        requires callable { MayUpdate V.SIZE V.item self.old.arena self.old.table (cut_key key.now) (F.pre updater) }
        ensures { MutatesOwn V.SIZE V.item self.old self.new (cut_key key.now) (F.post updater) result }
    {
        self.shared_arena_hashmap
            .mutate_or_create(key, &mut self.memory_arena, updater)
    }

    /// Each key once, with the address of its value, in no stated order.
    pub fn iter(&self) -> Iter<'_>
        requires { IsHeldMap V.SIZE self.now.arena self.now.table }
        ensures places { result.places.now ≡ self.now.table.places }
        ensures arena { result.memory_arena.now ≡ self.now.arena }
        ensures readable { CanBeRead result.memory_arena.now result.places.now }
        ensures entries { AreEntries V.SIZE V.item self.now.arena self.now.table (entries_in self.now.arena self.now.table) }
    {
        self.shared_arena_hashmap.iter(&self.memory_arena)
    }

    /// The bytes of the table and of all pages, or the greatest `usize` where they are more.
    pub fn mem_usage(&self) -> usize
        ensures { result ≡ min (table_bytes self.now.table + length self.now.arena.pages * page_bytes) (2 ^ 64 - 1) }
    {
        self.shared_arena_hashmap
            .mem_usage()
            .saturating_add(self.memory_arena.mem_usage())
    }

    /// How many keys the map has.
    pub fn len(&self) -> usize
        ensures { result ≡ self.now.table.count }
    {
        self.shared_arena_hashmap.len()
    }

    /// Whether the map has no key.
    pub fn is_empty(&self) -> bool
        ensures { result ≡ (self.now.table.count == 0) }
    {
        self.shared_arena_hashmap.is_empty()
    }
}
