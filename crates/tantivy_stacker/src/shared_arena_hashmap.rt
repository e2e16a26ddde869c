// Hash maps whose entries stand in an arena that they share with others.
ghost use Rattle.std.specs.Prelude.{Option, replicate, min, max, ◌⊎◌, List, Some, None, ◌≡◌, ◌≢◌, ℕ, ◌+◌, ◌-◌, ◌*◌, ◌%◌, ◌^◌, ◌<◌, ◌≤◌, ◌==◌, ◌↔◌, IsTrue, length, take, count_by, IfOk, OnOk, OnErr, IfErr};
ghost use Rattle.tantivy_stacker.specs.Arena.{Arena, null_address, most_pages, Lies, spent, IsFull, StaysFull, IsAtLimitFrom};
ghost use Rattle.tantivy_stacker.specs.Hashing.{hash_of};
ghost use Rattle.tantivy_stacker.specs.Maps.{least_doubled, is_taken, IsTaken, key_length, key_at, key_in, longest_key, table_bytes, IsHeldMap, Finds, EntryWritten, MapPuts, MapWrite, AreUnique, Rehashes, RehashesAll, IsFiledAnew, cut_key, IsTableSize, IsEmptyMap, CanBeRead, AreEntries, entries_in};
ghost use Rattle.tantivy_stacker.specs.Mutations.{entry_bytes, MayUpdate, IsUpdated, DoublesWhereDue, Mutates};
ghost use Rattle.tantivy_stacker.specs.Probes.{ProbeIs, IsSearchable, IsFreeFor, IsAbsent};

use crate::hash::get_hash;
use crate::map_iter::Iter;
use crate::table::{KeyValue, free_place, home, next_bucket};
use crate::{Addr, ArenaError, ArenaItem, MemoryArena, fast_short_slice_compare};
use std::alloc::{AllocError, Global};
use std::marker::{Model, PhantomData};

// The most bytes that a key has.
const LONGEST_KEY: usize = 65535;

// The fewest places that a table has once it doubled.
const LEAST_DOUBLED: usize = 8;

// What a search for a key found: the place that its entry takes, or the free place where it belongs.
enum Probe {
    Taken(usize),
    Free(usize),
}

// The key of the entry at an address.
#[inline]
pub(crate) fn entry_key(arena: &MemoryArena, addr: Addr) -> &[u8]
    requires { Lies arena.now addr (2 + key_length arena.now addr + 1) }
    ensures key { result.now ≡ key_at arena.now addr }
    ensures pages { length arena.now.pages ≤ most_pages }
{
    let len = usize::from(arena.read::<u16>(addr));
    arena.slice(addr.offset(2), len)
}

// The address of the value of the entry at an address.
#[inline]
pub(crate) fn value_addr(arena: &MemoryArena, addr: Addr) -> Addr
    requires { Lies arena.now addr (2 + key_length arena.now addr + 1) }
    ensures { result ≡ addr + (2 + key_length arena.now addr) }
{
    let len = arena.read::<u16>(addr);
    addr.offset(2 + u32::from(len))
}

// Whether the entry of a place has this key. Only where the hashes agree are the keys compared.
#[inline]
fn has_key(arena: &MemoryArena, taken: KeyValue, key: &[u8], hash: u32) -> bool
    requires lies { Lies arena.now taken.0 (2 + key_length arena.now taken.0 + 1) }
    requires hashed { taken.1 ≡ hash_of (key_at arena.now taken.0) }
    requires hash { hash ≡ hash_of key.now }
    ensures { IsTrue result ↔ key_at arena.now taken.0 ≡ key.now }
{
    taken.hash() == hash && fast_short_slice_compare(entry_key(arena, taken.addr()), key)
}

// Searches for a key: the places from the home of its hash on, up to the first free one.
#[inline]
fn find(places: &[KeyValue], arena: &MemoryArena, key: &[u8], hash: u32) -> Probe
    requires table { IsSearchable arena.now places.now }
    requires hash { hash ≡ hash_of key.now }
    ensures { ProbeIs arena.now places.now key.now hash result }
{
    let mut bucket = home(places.len(), hash);
    for _step in 0..places.len() {
        let taken = places[bucket];
        if taken.is_free() {
            return Probe::Free(bucket);
        }
        if has_key(arena, taken, key, hash) {
            return Probe::Taken(bucket);
        }
        bucket = next_bucket(bucket, places.len());
    }
    unreachable!()
}

// The first 65,535 bytes of a key, or all where it has fewer.
#[inline]
fn cut(key: &[u8]) -> &[u8]
    ensures value { result.now ≡ cut_key key.now }
    ensures short { length result.now ≤ longest_key }
{
    if key.len() > LONGEST_KEY {
        &key[..LONGEST_KEY]
    } else {
        key
    }
}

// Writes an entry: the length of its key as `u16`, the key and the value.
#[inline]
fn write_entry<V: ArenaItem>(arena: &mut MemoryArena, addr: Addr, key: &[u8], value: V)
    requires lies { Lies arena.old addr (2 + length key.now + V.SIZE) }
    requires short { length key.now ≤ longest_key }
    requires pages { length arena.old.pages ≤ most_pages }
    ensures { EntryWritten V.SIZE V.item arena.old arena.new addr key.now value }
{
    let len = key.len() as u16;
    arena.write(addr, &len.to_le_bytes());
    arena.write(addr.offset(2), key);
    arena.write_at(addr.offset(2 + u32::from(len)), value);
}

// Files each taken place of one table in another, which is empty.
fn fill_from(table: &mut Vec<KeyValue>, places: &[KeyValue])
    requires empty { table.old.items ≡ replicate (length table.old.items) (null_address, 0) }
    requires unique { AreUnique places.now }
    requires room { count_by is_taken places.now < length table.old.items }
    ensures rehashed { Rehashes places.now table.new.items (length places.now) }
    ensures len { length table.new.items ≡ length table.old.items }
{
    for taken in places {
        file(table, *taken);
    }
}

// Files a taken place in a table.
#[inline]
fn file(table: &mut Vec<KeyValue>, taken: KeyValue)
    requires { count_by is_taken table.old.items < length table.old.items }
    ensures free { taken.0 ≡ null_address → table.new.items ≡ table.old.items }
    ensures filed { taken.0 ≢ null_address → IsFiledAnew table.old.items table.new.items taken }
{
    if taken.is_free() {
        return;
    }
    let bucket = free_place(table.as_slice(), taken.hash());
    table[bucket] = taken;
}

/// Maps from bytes to values, in an arena. Each entry is the key's length as `u16`, the key and the value.
#[derive(Drop)]
pub struct SharedArenaHashMap<V> {
    table: Vec<KeyValue>,
    len: usize,
    alloc: Global,
    value: PhantomData<V>,
}

impl<V> Model for SharedArenaHashMap<V> {
    ghost use Rattle.tantivy_stacker.specs.Maps.{Table};

    ghost Value = { Table };

    ghost view = { λ m. record { places = m.table.items; count = m.len } };
}

/// The bytes of a table of so many places.
pub fn compute_table_memory_size(capacity: usize) -> usize
    requires { capacity * 8 < 2 ^ 64 }
    ensures { result ≡ capacity * 8 }
{
    capacity * 8
}

// The greatest power of two at most `size`, but at least 2.
#[tactic(auto, unfolding(crate::specs::Maps::IsTableSize))]
fn table_len(size: usize) -> usize
    requires some { 1 ≤ size }
    requires bound { size ≤ 2 ^ 31 }
    ensures len { IsTableSize size result }
    ensures at_least { 2 ≤ result }
{
    let mut len = 2;
    while len <= size / 2 {
        len *= 2;
    }
    len
}

impl<V: ArenaItem> SharedArenaHashMap<V> {
    /// An empty map, whose table has the greatest power of two of places at most `table_size`, but at least two.
    pub fn with_capacity(alloc: Global, table_size: usize) -> Result<Self, AllocError>
        requires some { 1 ≤ table_size }
        requires bound { table_size ≤ 2 ^ 31 }
        ensures places { IfOk result (λ m. IsTableSize table_size (length m.places)) }
        ensures empty { IfOk result IsEmptyMap }
        ensures held { IfOk result (λ m. (a : Arena) → IsHeldMap V.SIZE a m) }
    {
        let mut table = Vec::new(alloc);
        table.resize(table_len(table_size), KeyValue::free())?;
        Ok(SharedArenaHashMap {
            table,
            len: 0,
            alloc,
            value: PhantomData,
        })
    }

    /// The bytes of the table, or the greatest `usize` where they are more.
    pub fn mem_usage(&self) -> usize
        ensures { result ≡ min (table_bytes self.now) (2 ^ 64 - 1) }
    {
        self.table.len().saturating_mul(8)
    }

    /// The value at a key.
    #[inline]
    pub fn get(&self, key: &[u8], arena: &MemoryArena) -> Option<V>
        requires { IsHeldMap V.SIZE arena.now self.now }
        ensures { Finds V.SIZE V.item arena.now self.now key.now result }
    {
        match find(self.table.as_slice(), arena, key, get_hash(key)) {
            Probe::Taken(bucket) => Some(arena.read(value_addr(arena, self.table[bucket].addr()))),
            Probe::Free(_) => None,
        }
    }

    /// Each key once, with the address of its value, in no stated order.
    pub fn iter<'a>(&'a self, memory_arena: &'a MemoryArena) -> Iter<'a>
        requires { IsHeldMap V.SIZE memory_arena.now self.now }
        ensures places { result.places.now ≡ self.now.places }
        ensures arena { result.memory_arena.now ≡ memory_arena.now }
        ensures readable { CanBeRead result.memory_arena.now result.places.now }
        ensures entries { AreEntries V.SIZE V.item memory_arena.now self.now (entries_in memory_arena.now self.now) }
    {
        Iter::over(self.table.as_slice(), memory_arena)
    }

    /// How many keys the map has.
    pub fn len(&self) -> usize
        ensures { result ≡ self.now.count }
    {
        self.len
    }

    /// Whether the map has no key.
    pub fn is_empty(&self) -> bool
        ensures { result ≡ (self.now.count == 0) }
    {
        self.len == 0
    }

    // Gives the entry at a place the value that the updater makes of its value.
    #[inline]
    fn update<F: FnOnce(Option<V>) -> V>(
        &self,
        bucket: usize,
        arena: &mut MemoryArena,
        updater: F,
    ) -> V
        requires held { IsHeldMap V.SIZE arena.old self.now }
        requires taken { IsTaken self.now.places bucket }
        requires callable { MayUpdate V.SIZE V.item arena.old self.now (key_in arena.old self.now bucket) (F.pre updater) }
        ensures write { MapWrite V.SIZE arena.old arena.new self.now self.now }
        ensures puts { MapPuts V.SIZE V.item arena.old arena.new self.now self.now (key_in arena.old self.now bucket) result }
        ensures called { IsUpdated V.SIZE V.item arena.old self.now (key_in arena.old self.now bucket) (F.post updater) result }
        ensures spends { spent arena.new ≡ spent arena.old }
        ensures full { (m : ℕ) → IsFull arena.old m → IsFull arena.new m }
    {
        let addr = value_addr(arena, self.table[bucket].addr());
        let value = updater(Some(arena.read(addr)));
        arena.write_at(addr, value);
        value
    }

    // Adds an entry at a free place.
    #[inline]
    fn create<F: FnOnce(Option<V>) -> V>(
        &mut self,
        bucket: usize,
        key: &[u8],
        hash: u32,
        arena: &mut MemoryArena,
        updater: F,
    ) -> Result<V, ArenaError>
        requires held { IsHeldMap V.SIZE arena.old self.old }
        requires free { IsFreeFor arena.old self.old.places key.now hash bucket }
        requires hash { hash ≡ hash_of key.now }
        requires short { length key.now ≤ longest_key }
        requires room { self.old.count + 1 < length self.old.places }
        requires callable { F.pre updater None }
        ensures write { OnOk result (MapWrite V.SIZE arena.old arena.new self.old self.new) }
        ensures puts { IfOk result (λ v. MapPuts V.SIZE V.item arena.old arena.new self.old self.new key.now v) }
        ensures called { IfOk result (λ v. F.post updater None v) }
        ensures spends { OnOk result (spent arena.new ≡ spent arena.old + entry_bytes V.SIZE key.now) }
        ensures full { OnOk result (StaysFull (entry_bytes V.SIZE key.now) arena.old arena.new) }
        ensures count { OnOk result (self.new.count ≡ self.old.count + 1) }
        ensures places { OnOk result (length self.new.places ≡ length self.old.places) }
        ensures unchanged { OnErr result (self.new ≡ self.old) }
        ensures arena { OnErr result (arena.new ≡ arena.old) }
        ensures at_limit { IfErr result (λ e. e ≡ ArenaError.ArenaFull → IsAtLimitFrom (entry_bytes V.SIZE key.now) arena.old) }
    {
        let addr = match arena.allocate_space(2 + key.len() + V::SIZE) {
            Ok(addr) => addr,
            Err(error) => return Err(error),
        };
        let value = updater(None);
        write_entry(arena, addr, key, value);
        self.table[bucket] = KeyValue::new(addr, hash);
        self.len += 1;
        Ok(value)
    }

    // Doubles the table, to at least 8 places.
    fn resize(&mut self) -> Result<(), AllocError>
        requires unique { AreUnique self.old.places }
        requires counted { count_by is_taken self.old.places ≡ self.old.count }
        requires room { self.old.count < length self.old.places }
        ensures some { OnOk result (2 ≤ length self.new.places) }
        ensures rehashed { OnOk result (RehashesAll self.old.places self.new.places) }
        ensures size { OnOk result (length self.new.places ≡ max (length self.old.places * 2) least_doubled) }
        ensures room { OnOk result (self.new.count * 2 < length self.new.places) }
        ensures count { self.new.count ≡ self.old.count }
        ensures unchanged { OnErr result (self.new ≡ self.old) }
    {
        let len = (self.table.len() * 2).max(LEAST_DOUBLED);
        let mut table = Vec::new(self.alloc);
        table.resize(len, KeyValue::free())?;
        fill_from(&mut table, self.table.as_slice());
        self.table = table;
        Ok(())
    }

    // Doubles the table where its places are at most twice its entries.
    #[inline]
    fn make_room(&mut self) -> Result<(), AllocError>
        requires unique { AreUnique self.old.places }
        requires counted { count_by is_taken self.old.places ≡ self.old.count }
        requires room { self.old.count < length self.old.places }
        requires some { 2 ≤ length self.old.places }
        ensures some { OnOk result (2 ≤ length self.new.places) }
        ensures rehashed { OnOk result ((self.new ≡ self.old) ⊎ RehashesAll self.old.places self.new.places) }
        ensures doubles { OnOk result (DoublesWhereDue self.old self.new) }
        ensures room { OnOk result (self.new.count * 2 < length self.new.places) }
        ensures count { self.new.count ≡ self.old.count }
        ensures unchanged { OnErr result (self.new ≡ self.old) }
    {
        if self.table.len() <= self.len * 2 {
            return self.resize();
        }
        Ok(())
    }

    /// Gives a key, cut to 65,535 bytes, the value that the updater makes of the value before. All memory is found before
    /// the updater is called. After an error the map holds what it held.
    #[inline]
    pub fn mutate_or_create<F: FnOnce(Option<V>) -> V>(
        &mut self,
        key: &[u8],
        arena: &mut MemoryArena,
        updater: F,
    ) -> Result<V, ArenaError>
        requires held { IsHeldMap V.SIZE arena.old self.old }
        requires callable { MayUpdate V.SIZE V.item arena.old self.old (cut_key key.now) (F.pre updater) }
        ensures { Mutates V.SIZE V.item arena.old arena.new self.old self.new (cut_key key.now) (F.post updater) result }
    {
        match self.make_room() {
            Ok(()) => {}
            Err(_) => return Err(ArenaError::Memory),
        }
        self.put(cut(key), arena, updater)
    }

    // `mutate_or_create`, of a map that has room.
    #[inline]
    fn put<F: FnOnce(Option<V>) -> V>(
        &mut self,
        key: &[u8],
        arena: &mut MemoryArena,
        updater: F,
    ) -> Result<V, ArenaError>
        requires held { IsHeldMap V.SIZE arena.old self.old }
        requires room { self.old.count + 1 < length self.old.places }
        requires short { length key.now ≤ longest_key }
        requires callable { MayUpdate V.SIZE V.item arena.old self.old key.now (F.pre updater) }
        ensures write { OnOk result (MapWrite V.SIZE arena.old arena.new self.old self.new) }
        ensures puts { IfOk result (λ v. MapPuts V.SIZE V.item arena.old arena.new self.old self.new key.now v) }
        ensures called { IfOk result (IsUpdated V.SIZE V.item arena.old self.old key.now (F.post updater)) }
        ensures unchanged { OnErr result (self.new ≡ self.old) }
        ensures arena { OnErr result (arena.new ≡ arena.old) }
        ensures space { spent arena.new ≤ spent arena.old + entry_bytes V.SIZE key.now }
        ensures there { (IsAbsent arena.old self.old.places key.now → ⊥) → spent arena.new ≡ spent arena.old }
        ensures full { StaysFull (entry_bytes V.SIZE key.now) arena.old arena.new }
        ensures places { length self.new.places ≡ length self.old.places }
        ensures one_more { OnOk result (IsAbsent arena.old self.old.places key.now → self.new.count ≡ self.old.count + 1) }
        ensures same_count { (IsAbsent arena.old self.old.places key.now → ⊥) → self.new.count ≡ self.old.count }
        ensures absent { OnErr result (IsAbsent arena.old self.old.places key.now) }
        ensures at_limit { IfErr result (λ e. e ≡ ArenaError.ArenaFull → IsAtLimitFrom (entry_bytes V.SIZE key.now) arena.old) }
    {
        let hash = get_hash(key);
        match find(self.table.as_slice(), arena, key, hash) {
            Probe::Taken(bucket) => Ok(self.update(bucket, arena, updater)),
            Probe::Free(bucket) => self.create(bucket, key, hash, arena, updater),
        }
    }
}
