// A sorted map as bytes.
ghost use Rattle.std.specs.Prelude.{◌≡◌, ◌∷◌, [], ◌++◌, length, take, true, Some, IfOk, IfErr, OnOk, OnErr};
ghost use Rattle.std.specs.Int.{w64, to_le_bytes};
ghost use Rattle.fst_map.specs.Map.{map_of, last_key, may_follow};
ghost use Rattle.fst_map.specs.Refused.{RefusesKey};

use std::alloc::{AllocError, AllocFailed, Global};
use std::cmp::Ordering;
use std::marker::Model;
use thiserror::Error;

/// Why a map isn't built or opened.
#[derive(Clone, Copy, Debug, PartialEq, Eq, Error)]
pub enum MapError {
    #[error("out of memory")]
    Memory,
    #[error("the keys don't rise")]
    Unsorted,
    #[error("the bytes are no map")]
    Corrupt,
}

impl From<AllocError> for MapError {
    ghost use Rattle.std.specs.Prelude.{◌≡◌};
    ghost use Rattle.fst_map.specs.declared.map.MapError.TheVariants.{Memory};

    ghost from_gives = { λ _ e. e ≡ Memory };

    fn from(_error: AllocError) -> Self {
        MapError::Memory
    }
}

/// Builds a map of keys that rise. Contracts see the entries that were inserted.
///
/// The bytes are the number of keys (`u64`), for each key its end in the key area and its value (`u64` each), and the
/// key area, in which the keys stand one after the other.
#[derive(Drop)]
pub struct MapBuilder {
    alloc: Global,
    table: Vec<u8>,
    keys: Vec<u8>,
    len: u64,
    last_start: usize,
}

impl Model for MapBuilder {
    ghost use Rattle.std.specs.Prelude.{List, ℕ};

    ghost Value = { List (List ℕ × ℕ) };

    ghost use Rattle.fst_map.specs.Built.{built, IsBuilt};

    ghost view = { λ b. built b.len b.table.items b.keys.items };

    ghost invariant = { λ b. IsBuilt b.len b.last_start b.table.items b.keys.items };
}

// Appends a key's end and its value. An error leaves what stood there, and may leave more behind it.
fn push_entry(table: &mut Vec<u8>, end: u64, value: u64) -> Result<(), AllocError>
    ensures ok { OnOk result (table.new.items ≡ table.old.items ++ (to_le_bytes w64 end ++ to_le_bytes w64 value)) }
    ensures err { OnErr result (take (length table.old.items) table.new.items ≡ table.old.items) }
{
    table.extend_from_slice(&end.to_le_bytes())?;
    table.extend_from_slice(&value.to_le_bytes())
}

impl MapBuilder {
    /// The map without keys.
    pub fn new(alloc: Global) -> MapBuilder
        ensures { result ≡ [] }
    {
        MapBuilder {
            alloc,
            table: Vec::new(alloc),
            keys: Vec::new(alloc),
            len: 0,
            last_start: 0,
        }
    }

    // Whether the key comes after the last one.
    fn accepts(&self, key: &[u8]) -> bool
        ensures { result ≡ may_follow (last_key self.now) key.now }
    {
        self.len == 0 || self.keys[self.last_start..].cmp(key) == Ordering::Less
    }

    /// Adds a key above the last one. An error changes nothing.
    pub fn insert(&mut self, key: &[u8], value: u64) -> Result<(), MapError>
        ensures ok { OnOk result (self.new ≡ self.old ++ (key.now, value) ∷ []) }
        ensures after { OnOk result (may_follow (last_key self.old) key.now ≡ true) }
        ensures refused { IfErr result (RefusesKey self.old key.now) }
        ensures err { OnErr result (self.new ≡ self.old) }
    {
        if !self.accepts(key) {
            return Err(MapError::Unsorted);
        }
        let start = self.keys.len();
        self.keys.extend_from_slice(key)?;
        let len = self.table.len();
        if push_entry(&mut self.table, self.keys.len() as u64, value).is_err() {
            self.table.truncate(len);
            self.keys.truncate(start);
            return Err(MapError::Memory);
        }
        self.len += 1;
        self.last_start = start;
        Ok(())
    }

    /// The bytes of the map.
    pub fn into_inner(self) -> Result<Vec<u8>, MapError>
        ensures ok { IfOk result (λ bytes. map_of bytes.items ≡ Some self) }
        ensures err { IfErr result (λ e. e ≡ MapError.Memory) }
    {
        let MapBuilder {
            alloc,
            table,
            keys,
            len,
            last_start: _,
        } = self;
        let capacity = table.len().saturating_add(keys.len()).saturating_add(8);
        let mut bytes = Vec::with_capacity(alloc, capacity)?;
        bytes.extend_from_slice(&len.to_le_bytes())?;
        bytes.extend_from_slice(table.as_slice())?;
        bytes.extend_from_slice(keys.as_slice())?;
        Ok(bytes)
    }
}
