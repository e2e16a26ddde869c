// The table of a hash map: where the search for a hash begins, and how it goes on.
ghost use Rattle.std.specs.Prelude.{◌≡◌, ◌≢◌, ℕ, ◌+◌, ◌-◌, ◌<◌, ◌≤◌, ◌==◌, length, count_by, if◌then◌else◌};
ghost use Rattle.tantivy_stacker.specs.Arena.{null_address};
ghost use Rattle.tantivy_stacker.specs.Maps.{place, is_taken, home as home_of, Leads};

use crate::Addr;
use std::marker::Model;

// A place of a table: the address of an entry, or the null address, and the hash of its key.
#[derive(Clone, Copy)]
pub(crate) struct KeyValue {
    key_value_addr: Addr,
    hash: u32,
}

impl Model for KeyValue {
    ghost use Rattle.std.specs.Prelude.{ℕ};

    ghost Value = { ℕ × ℕ };

    ghost view = { λ k. (k.key_value_addr, k.hash) };

    ghost inverse = { λ p. record { key_value_addr = p.0; hash = p.1 } };
}

impl KeyValue {
    // A place that no entry takes.
    pub(crate) fn free() -> KeyValue
        ensures { result ≡ (null_address, 0) }
    {
        KeyValue {
            key_value_addr: Addr::null_pointer(),
            hash: 0,
        }
    }

    // The place of an entry.
    pub(crate) fn new(key_value_addr: Addr, hash: u32) -> KeyValue
        ensures { result ≡ (key_value_addr, hash) }
    {
        KeyValue {
            key_value_addr,
            hash,
        }
    }

    // Whether no entry takes it.
    #[inline]
    pub(crate) fn is_free(self) -> bool
        ensures { result ≡ (self.0 == null_address) }
    {
        self.key_value_addr.is_null()
    }

    // The address of the entry, or the null address.
    #[inline]
    pub(crate) fn addr(self) -> Addr
        ensures { result ≡ self.0 }
    {
        self.key_value_addr
    }

    // The hash of the entry's key.
    #[inline]
    pub(crate) fn hash(self) -> u32
        ensures { result ≡ self.1 }
    {
        self.hash
    }
}

// Where the search for a hash begins, in a table of so many places.
#[inline]
#[tactic(auto, unfolding(crate::specs::Maps::home), using(crate::proofs::Tables::and_below))]
pub(crate) fn home(len: usize, hash: u32) -> usize
    requires { 1 ≤ len }
    ensures value { result ≡ home_of len hash }
    ensures bound { result < len }
{
    hash as usize & (len - 1)
}

// The place after this one: the first follows on the last.
#[inline]
pub(crate) fn next_bucket(bucket: usize, len: usize) -> usize
    requires { bucket < len }
    ensures { result ≡ (if bucket + 1 == len then 0 else bucket + 1) }
{
    let next = bucket + 1;
    if next == len { 0 } else { next }
}

// The first free place that a search for a hash meets.
#[inline]
pub(crate) fn free_place(places: &[KeyValue], hash: u32) -> usize
    requires { count_by is_taken places.now < length places.now }
    ensures leads { Leads places.now hash result }
    ensures free { (place places.now result).0 ≡ null_address }
    ensures bound { result < length places.now }
{
    let mut bucket = home(places.len(), hash);
    for _step in 0..places.len() {
        if places[bucket].is_free() {
            return bucket;
        }
        bucket = next_bucket(bucket, places.len());
    }
    unreachable!()
}
