// A sorted map that is read in its bytes.
ghost use Rattle.std.specs.Prelude.{◌≡◌, ◌+◌, ◌-◌, ◌*◌, ◌^◌, ◌<◌, ◌≤◌, ◌||◌, Some, None, IfOk, IfErr, MatchOption, length, map, true, is_some};
ghost use Rattle.std.specs.Ordering.{nat_cmp};
ghost use Rattle.std.specs.Cmp.Lexicographic.{slice_cmp};
ghost use Rattle.owned_bytes.specs.Keys.{is_below, is_rising};
ghost use Rattle.fst_map.specs.Map.{map_of, entry_at, first_at_or_above};
ghost use Rattle.fst_map.specs.Opened.{number_in, end_in, start_in, value_in, HasTable, IsMap};

use crate::counting::Steps;
use crate::map::MapError;
use crate::walking::Walk;
use owned_bytes::OwnedBytes;
use std::alloc::Global;
use std::cmp::Ordering;
use std::marker::{Brand, Model};
use std::sync::ledger::{Blank, Ledger};

/// A sorted map that is read in its bytes, which are kept as they are. Contracts see the list of its entries, each a
/// key and its value.
#[derive(Drop)]
pub struct Fst {
    bytes: OwnedBytes,
    len: usize,
}

impl Model for Fst {
    ghost use Rattle.std.specs.Prelude.{List, ℕ};

    ghost Value = { List (List ℕ × ℕ) };

    ghost use Rattle.fst_map.specs.Opened.{entries_of, IsMap};

    ghost view = { λ f. entries_of f.bytes };

    ghost invariant = { λ f. IsMap f.len f.bytes };
}

impl Fst {
    /// The map that the bytes spell, in the layout of `MapBuilder`. One pass over them tests all of it, and nothing is
    /// copied.
    pub fn open(alloc: Global, bytes: OwnedBytes) -> Result<Fst, MapError>
        ensures ok { IfOk result (λ fst. map_of bytes ≡ Some fst) }
        ensures corrupt { IfErr result (λ e. (e ≡ MapError.Corrupt) × (map_of bytes ≡ None)) }
    {
        let _ = alloc;
        match map_len(bytes.as_slice()) {
            Some(len) => Ok(Fst { bytes, len }),
            None => Err(MapError::Corrupt),
        }
    }

    /// How many keys there are. They rise.
    #[inline]
    pub fn len(&self) -> usize
        ensures count { result ≡ length self.now }
        ensures rising { is_rising (map (λ entry. entry.0) self.now) ≡ true }
    {
        self.len
    }

    /// Key `i`, of which part of the bytes is lent.
    #[inline]
    pub fn key(&self, i: usize) -> &[u8]
        requires { i < length self.now }
        ensures { result.now ≡ (entry_at self.now i).0 }
    {
        let bytes = self.bytes.as_slice();
        let keys = &bytes[8 + 16 * self.len..];
        let start = start_at(bytes, i);
        let end = end_at(bytes, i);
        &keys[start..end]
    }

    /// The value of key `i`.
    #[inline]
    pub fn value(&self, i: usize) -> u64
        requires { i < length self.now }
        ensures { result ≡ (entry_at self.now i).1 }
    {
        let bytes = self.bytes.as_slice();
        number_at(bytes, 16 + 16 * i)
    }

    /// How key `i` compares with the key. The count rises by one.
    pub fn compare_at<L: Ledger>(&self, i: usize, key: &[u8], steps: &mut Steps<L>) -> Ordering
        requires { i < length self.now }
        ensures order { result ≡ slice_cmp nat_cmp (entry_at self.now i).0 key.now }
        ensures steps { steps.new ≡ steps.old + 1 }
    {
        steps.tick();
        self.key(i).cmp(key)
    }

    /// The place of the first key that is not below the key, where there is one. It makes the comparisons of
    /// `first_at_or_above_counted`, and counts nothing.
    pub fn first_at_or_above(&self, key: &[u8]) -> Option<usize>
        ensures { result ≡ first_at_or_above key.now self.now }
    {
        self.sought::<Brand>(key, Blank::new(1))
    }

    /// What `first_at_or_above` answers. Of `n` keys it compares so many with the key that 2 to the power of their
    /// number is at most `2 * n + 1`.
    pub fn first_at_or_above_counted<L: Ledger>(
        &self,
        key: &[u8],
        steps: &mut Steps<L>,
    ) -> Option<usize>
        ensures place { result ≡ first_at_or_above key.now self.now }
        ensures rise { steps.old ≤ steps.new }
        ensures few { 2 ^ (steps.new - steps.old) ≤ 2 * length self.now + 1 }
    {
        let len = self.len();
        let mut low = 0;
        let mut high = len;
        while low < high {
            let middle = low + (high - low) / 2;
            if self.is_below_at(middle, key, steps) {
                low = middle + 1;
            } else {
                high = middle;
            }
        }
        if low < len { Some(low) } else { None }
    }

    /// The entries in the order of their keys.
    pub fn walk(&self) -> Walk<'_>
        ensures { result ≡ self.now }
    {
        Walk::new(self)
    }

    // The search with a count that nothing reads.
    fn sought<L: Ledger>(&self, key: &[u8], blank: Blank) -> Option<usize>
        requires name { blank.name ≡ L.name }
        requires parts { blank.parts ≡ L.parts }
        requires shared { 0 < blank.parts }
        ensures { result ≡ first_at_or_above key.now self.now }
    {
        let mut steps = Steps::<L>::new(blank);
        self.first_at_or_above_counted(key, &mut steps)
    }

    // Whether key `i` is below the key.
    #[inline]
    fn is_below_at<L: Ledger>(&self, i: usize, key: &[u8], steps: &mut Steps<L>) -> bool
        requires { i < length self.now }
        ensures below { result ≡ is_below (entry_at self.now i).0 key.now }
        ensures steps { steps.new ≡ steps.old + 1 }
    {
        self.compare_at(i, key, steps) == Ordering::Less
    }
}

// The number of eight bytes at a place.
#[inline]
fn number_at(bytes: &[u8], place: usize) -> u64
    requires { place + 8 ≤ length bytes.now }
    ensures { result ≡ number_in bytes.now place }
{
    match bytes[place..].first_chunk::<8>() {
        Some(word) => u64::from_le_bytes(*word),
        None => unreachable!(),
    }
}

// Where key `i` ends in the key area.
#[inline]
fn end_at(bytes: &[u8], i: usize) -> usize
    requires { 16 + 16 * i ≤ length bytes.now }
    ensures { result ≡ end_in bytes.now i }
{
    number_at(bytes, 8 + 16 * i) as usize
}

// Where key `i` begins in the key area.
#[inline]
fn start_at(bytes: &[u8], i: usize) -> usize
    requires { 16 + 16 * i ≤ length bytes.now }
    ensures { result ≡ start_in bytes.now i }
{
    if i == 0 { 0 } else { end_at(bytes, i - 1) }
}

// How many keys the bytes are a map of, where they are one.
fn map_len(bytes: &[u8]) -> Option<usize>
    ensures { MatchOption result (map_of bytes.now ≡ None) (λ len. IsMap len bytes.now) }
{
    let len = table_len(bytes)?;
    if are_keys(bytes, len) {
        Some(len)
    } else {
        None
    }
}

// How many keys the bytes say that there are, where they have an end and a value for each.
fn table_len(bytes: &[u8]) -> Option<usize>
    ensures { MatchOption result (map_of bytes.now ≡ None) (λ len. HasTable len bytes.now) }
{
    if bytes.len() < 8 {
        return None;
    }
    let len = number_at(bytes, 0);
    if len <= ((bytes.len() - 8) / 16) as u64 {
        Some(len as usize)
    } else {
        None
    }
}

// Whether the keys of so many ends rise and are all of the key area.
fn are_keys(bytes: &[u8], len: usize) -> bool
    requires { HasTable len bytes.now }
    ensures { result ≡ is_some (map_of bytes.now) }
{
    let keys = &bytes[8 + 16 * len..];
    let mut start = 0;
    let mut before: &[u8] = &keys[..0];
    for i in 0..len {
        let end = end_at(bytes, i);
        if end < start || keys.len() < end {
            return false;
        }
        let key = &keys[start..end];
        if !may_follow(i == 0, before, key) {
            return false;
        }
        start = end;
        before = key;
    }
    start == keys.len()
}

// Whether the key is the first or comes after the one before.
fn may_follow(is_first: bool, before: &[u8], key: &[u8]) -> bool
    ensures { result ≡ (is_first || is_below before.now key.now) }
{
    is_first || before.cmp(key) == Ordering::Less
}
