// Pairs of a key and a number, gathered by the arena's map and lists, and by std's map.
ghost use Rattle.std.specs.Prelude.{◌≡◌, IfOk};
ghost use Rattle.tantivy_stacker.specs.Maps.{IsHeldMap};
ghost use Rattle.tantivy_stacker.specs.Tenants.{AreTenants};

use std::alloc::{AllocError, Global};
use std::collections::HashMap;
use std::time::{Clock, Instant};
use tantivy_stacker::{ArenaError, ArenaHashMap, ExpUnrolledLinkedList, MemoryArena, tenant_laws};

const KEYS: u32 = 106_000;

/// The keys of so many pairs, in the order in which they come.
fn keys(alloc: Global, count: u32) -> Result<Vec<String>, AllocError> {
    let mut found = Vec::with_capacity(alloc, count as usize)?;
    for number in 0..count {
        let key = number.wrapping_mul(2_654_435_761) % KEYS;
        found.push(format!(in alloc; "title\0word{key}")?)?;
    }
    Ok(found)
}

/// The numbers of each key, as a list of an arena. A map of its own says which list is a key's.
#[derive(Drop)]
struct Gathered {
    map: ArenaHashMap<u32>,
    arena: MemoryArena,
    lists: Vec<ExpUnrolledLinkedList>,
}

impl Gathered {
    fn new(alloc: Global) -> Result<Gathered, AllocError>
        ensures map { IfOk result (λ g. IsHeldMap 4 g.map.arena g.map.table) }
        ensures lists { IfOk result (λ g. AreTenants g.arena g.lists.items) }
    {
        tenant_laws();
        Ok(Gathered {
            map: ArenaHashMap::new(alloc)?,
            arena: MemoryArena::new(alloc)?,
            lists: Vec::new(alloc),
        })
    }

    /// The place of a key's list, which is a new one where the key is.
    fn place_of(&mut self, key: &[u8]) -> Result<usize, ArenaError>
        requires map { IsHeldMap 4 self.old.map.arena self.old.map.table }
        ensures map { IsHeldMap 4 self.new.map.arena self.new.map.table }
        ensures arena { self.new.arena ≡ self.old.arena }
        ensures lists { self.new.lists ≡ self.old.lists }
    {
        let next = u32::try_from(self.lists.len()).unwrap_or(u32::MAX);
        let place = self
            .map
            .mutate_or_create(key, |found: Option<u32>| found.unwrap_or(next))?;
        Ok(place as usize)
    }

    /// Adds an empty list where there is none at this place yet.
    fn grow(&mut self, place: usize) -> Result<(), ArenaError>
        requires lists { AreTenants self.old.arena self.old.lists.items }
        ensures map { self.new.map ≡ self.old.map }
        ensures lists { AreTenants self.new.arena self.new.lists.items }
    {
        tenant_laws();
        if place >= self.lists.len() {
            self.lists.push(ExpUnrolledLinkedList::default())?;
        }
        Ok(())
    }

    /// Appends a number to the list at a place.
    fn append(&mut self, place: usize, number: u32) -> Result<(), ArenaError>
        requires lists { AreTenants self.old.arena self.old.lists.items }
        ensures map { self.new.map ≡ self.old.map }
        ensures lists { AreTenants self.new.arena self.new.lists.items }
    {
        tenant_laws();
        if place < self.lists.len() {
            self.lists[place].append(&mut self.arena, &number.to_le_bytes())?;
        }
        Ok(())
    }

    fn add(&mut self, key: &[u8], number: u32) -> Result<(), ArenaError>
        requires map { IsHeldMap 4 self.old.map.arena self.old.map.table }
        requires lists { AreTenants self.old.arena self.old.lists.items }
        ensures map { IsHeldMap 4 self.new.map.arena self.new.map.table }
        ensures lists { AreTenants self.new.arena self.new.lists.items }
    {
        let place = self.place_of(key)?;
        self.grow(place)?;
        self.append(place, number)
    }
}

fn gather(alloc: Global, keys: &[String]) -> Result<usize, ArenaError> {
    let mut gathered = Gathered::new(alloc)?;
    let mut number = 0u32;
    for key in keys {
        gathered.add(key.as_bytes(), number)?;
        number = number.wrapping_add(1);
    }
    Ok(gathered.lists.len())
}

fn gather_in_std(alloc: Global, keys: &[String]) -> Result<usize, AllocError> {
    let mut lists: HashMap<&str, Vec<u32>> = HashMap::new(alloc);
    let mut number = 0u32;
    for key in keys {
        match lists.get_mut(key.as_str()) {
            Some(list) => list.push(number)?,
            None => {
                lists.insert(key.as_str(), vec![in alloc; number; 1]?)?;
            }
        }
        number = number.wrapping_add(1);
    }
    Ok(lists.len())
}

/// Prints how long gathering so many pairs takes.
pub fn time<R: Clock + Print + AllocGlobal>(rt: &R, count: u32) -> anyhow::Result<()> {
    let alloc = rt.alloc();
    let keys = keys(alloc, count)?;
    let start = Instant::now(rt)?;
    let found = gather(alloc, keys.as_slice())?;
    let arena = start.elapsed(rt)?.as_micros();
    let start = Instant::now(rt)?;
    let also = gather_in_std(alloc, keys.as_slice())?;
    let map = start.elapsed(rt)?.as_micros();
    println!(rt;
        "gather: {count} pairs, {found} and {also} keys: arena {arena} us, std's map {map} us"
    )?;
    Ok(())
}
