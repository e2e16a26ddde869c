// Going over the entries of a map.
ghost use Rattle.std.specs.Prelude.{◌≡◌, ℕ, ◌+◌, ◌<◌, ◌≤◌, length, filter, drop, option_map};
ghost use Rattle.std.specs.Iterator.{at_most};
ghost use Rattle.tantivy_stacker.specs.Maps.{is_taken, IsTaken, CanBeRead, GivesEntry};

use crate::shared_arena_hashmap::{entry_key, value_addr};
use crate::table::KeyValue;
use crate::{Addr, MemoryArena};

/// Each entry of a map once: its key, and the address of its value. The order is that of the table's places.
#[derive(Drop)]
pub struct Iter<'a> {
    places: &'a [KeyValue],
    memory_arena: &'a MemoryArena,
}

// The first place that is taken, or the number of places where none is.
fn first_taken(places: &[KeyValue]) -> usize
    ensures bound { result ≤ length places.now }
    ensures taken { result < length places.now → IsTaken places.now result }
    ensures free { filter is_taken places.now ≡ filter is_taken (drop result places.now) }
{
    for (i, place) in places.iter().enumerate() {
        if !place.is_free() {
            return i;
        }
    }
    places.len()
}

impl<'a> Iter<'a> {
    // Goes over the entries of these places.
    pub(crate) fn over(places: &'a [KeyValue], memory_arena: &'a MemoryArena) -> Iter<'a>
        ensures places { result.places.now ≡ places.now }
        ensures arena { result.memory_arena.now ≡ memory_arena.now }
    {
        Iter {
            places,
            memory_arena,
        }
    }
}

impl<'a> Iterator for Iter<'a> {
    type Item = (&'a [u8], Addr);

    ghost can_next = { λ s. CanBeRead s.memory_arena.now s.places.now };

    ghost next_gives = { λ s r t. (t.memory_arena.now ≡ s.memory_arena.now) × GivesEntry s.memory_arena.now s.places.now (option_map (λ x. (x.0.now, x.1)) r) t.places.now };

    ghost remaining = { λ s. at_most (length s.places.now) };

    fn next(&mut self) -> Option<(&'a [u8], Addr)> {
        let places = self.places;
        let found = first_taken(places);
        if found == places.len() {
            self.places = &places[found..];
            return None;
        }
        let addr = places[found].addr();
        self.places = &places[found + 1..];
        Some((
            entry_key(self.memory_arena, addr),
            value_addr(self.memory_arena, addr),
        ))
    }
}
