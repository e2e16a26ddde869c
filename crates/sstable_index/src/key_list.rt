// Keys that are read one after the other.
ghost use Rattle.std.specs.Prelude.{◌≡◌, ◌<◌, ◌≤◌, ◌+◌, ◌++◌, [], ◌∷◌, length, take, drop, slice_index_or, unwrap_or, OnOk, OnErr, not, true};
ghost use Rattle.std.specs.List.{position};
ghost use Rattle.owned_bytes.specs.Keys.{is_below, is_rising};
ghost use Rattle.sstable_index.specs.Building.{end_of};
ghost use Rattle.sstable_index.specs.Loaded.{last_of, BeginsLast};

use crate::key_buffer::{comes_before, cut};
use std::alloc::{AllocError, Global};
use std::marker::Model;

// Keys one after the other in a buffer. Contracts see the list of them.
#[derive(Drop)]
pub(crate) struct KeyList {
    // the keys, and where each begins
    bytes: Vec<u8>,
    starts: Vec<usize>,
}

impl Model for KeyList {
    ghost use Rattle.std.specs.Prelude.{List};
    ghost use Rattle.owned_bytes.specs.Keys.{Key};
    ghost use Rattle.sstable_index.specs.Built.{keys_at};
    ghost use Rattle.sstable_index.specs.Loaded.{AreKept};

    ghost Value = { List Key };

    ghost view = { λ l. keys_at l.starts.items l.bytes.items };

    ghost invariant = { λ l. AreKept l.bytes.items l.starts.items (keys_at l.starts.items l.bytes.items) };
}

// Where the last key of so many bytes begins, or else where a first key would.
fn last_start(starts: &[usize], len: usize) -> usize
    ensures { BeginsLast starts.now len result }
{
    let count = starts.len();
    if count == 0 { len } else { starts[count - 1] }
}

// Appends bytes of the buffer itself, and then others. An error changes nothing.
fn push_bytes(
    bytes: &mut Vec<u8>,
    start: usize,
    keep: usize,
    suffix: &[u8],
) -> Result<(), AllocError>
    requires { start + keep ≤ length bytes.old.items }
    ensures ok { OnOk result (bytes.new.items ≡ bytes.old.items ++ (take keep (drop start bytes.old.items) ++ suffix.now)) }
    ensures err { OnErr result (bytes.new.items ≡ bytes.old.items) }
{
    let len = bytes.len();
    bytes.extend_from_within(start..start + keep)?;
    let pushed = bytes.extend_from_slice(suffix);
    if pushed.is_err() {
        bytes.truncate(len);
    }
    pushed
}

impl KeyList {
    // No keys.
    pub(crate) fn new(alloc: Global) -> Self
        ensures { result ≡ [] }
    {
        KeyList {
            bytes: Vec::new(alloc),
            starts: Vec::new(alloc),
        }
    }

    // How many keys there are.
    pub(crate) fn len(&self) -> usize
        ensures { result ≡ length self.now }
    {
        self.starts.len()
    }

    // Where key i ends in the buffer.
    fn end(&self, i: usize) -> usize
        requires { i < length self.now }
        ensures { result ≡ end_of self.now i }
    {
        let len = self.starts.len();
        if i + 1 < len {
            self.starts[i + 1]
        } else {
            self.bytes.len()
        }
    }

    // Key i.
    pub(crate) fn key(&self, i: usize) -> &[u8]
        requires { i < length self.now }
        ensures { result.now ≡ slice_index_or self.now i [] }
    {
        cut(self.bytes.as_slice(), self.starts[i], self.end(i))
    }

    // The last key, and the empty one where there is none.
    pub(crate) fn last(&self) -> &[u8]
        ensures { result.now ≡ unwrap_or (last_of self.now) [] }
    {
        let len = self.bytes.len();
        let start = last_start(self.starts.as_slice(), len);
        cut(self.bytes.as_slice(), start, len)
    }

    // Adds a key that has so many bytes of the last one at its front, and then others.
    pub(crate) fn push(&mut self, keep: usize, suffix: &[u8]) -> Result<(), AllocError>
        requires { keep ≤ length (unwrap_or (last_of self.old) []) }
        ensures { OnOk result (self.new ≡ self.old ++ (take keep (unwrap_or (last_of self.old) []) ++ suffix.now) ∷ []) }
    {
        let len = self.bytes.len();
        let start = last_start(self.starts.as_slice(), len);
        push_bytes(&mut self.bytes, start, keep, suffix)?;
        match self.starts.push(len) {
            Ok(()) => Ok(()),
            Err(_) => {
                self.bytes.truncate(len);
                Err(AllocError)
            }
        }
    }

    // The number of the first of the keys, which rise, that isn't below the key.
    pub(crate) fn first_at_or_above(&self, key: &[u8]) -> Option<usize>
        requires { is_rising self.now ≡ true }
        ensures { result ≡ position (λ other. not (is_below other key.now)) self.now }
    {
        let len = self.len();
        let mut low = 0;
        let mut high = len;
        'halve: while low < high {
            let middle = low + (high - low) / 2;
            if comes_before(self.key(middle), key) {
                low = middle + 1;
            } else {
                high = middle;
            }
        }
        if low < len { Some(low) } else { None }
    }
}
