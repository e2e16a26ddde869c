// Sources in memory.
ghost use Rattle.std.specs.Prelude.{◌≡◌, [], ◌+◌, ◌-◌, ◌≤◌, ◌++◌, min, length, take, drop, Some, Ok, Err, IsErr, IsOk};
ghost use Rattle.std.specs.Bool.{OnTrue, OnFalse};
ghost use Rattle.std.specs.Io.{ReadsAtMost};
ghost use Rattle.std.specs.Io.KnownBytes.{ReadConsumes};
ghost use Rattle.owned_bytes.specs.Outside.{HasCause, CountsTaken};
ghost use Rattle.owned_bytes.specs.InMemory.{raised, fails_next, after_call, at_first};

use crate::failing::FailingCalls;
use crate::{Source, SourceFault};
use std::marker::Model;

/// Tells its bytes, and never fails.
#[derive(Drop)]
pub struct SliceSource<'a> {
    rest: &'a [u8],
    taken: u64,
}

impl<'a> Model for SliceSource<'a> {
    ghost use Rattle.owned_bytes.specs.InMemory.{Unread};

    ghost Value = { Unread };

    ghost view = { λ source. record { left = source.rest.now; taken = source.taken } };
}

impl<'a> SliceSource<'a> {
    /// A source of the bytes.
    pub fn new(bytes: &'a [u8]) -> SliceSource<'a>
        ensures left { result.left ≡ bytes.now }
        ensures taken { result.taken ≡ 0 }
    {
        SliceSource {
            rest: bytes,
            taken: 0,
        }
    }

    /// The bytes that are left.
    pub fn rest(&self) -> &'a [u8]
        ensures { result.now ≡ self.now.left }
    {
        self.rest
    }
}

impl<'a> Source for SliceSource<'a> {
    ghost left = { λ source. Some source.left };

    ghost taken = { λ source. source.taken };

    ghost faults = { λ _. 0 };

    fn read(&mut self, buf: &mut [u8]) -> Result<usize, SourceFault>
        ensures bound { ReadsAtMost result buf.new }
        ensures bytes { ReadConsumes (Some self.old.left) (Some self.new.left) result buf.new }
        ensures taken { CountsTaken self.old.taken self.new.taken result }
        ensures cause { HasCause 0 0 (IsErr result) }
        ensures ok { result ≡ Ok (min (length self.old.left) (length buf.old)) }
    {
        let (count, rest) = read_front(self.rest, buf);
        self.rest = rest;
        self.taken = self.taken.saturating_add(count as u64);
        Ok(count)
    }
}

// Copies as many bytes as both have, and gives how many, and the bytes after them.
fn read_front<'a>(bytes: &'a [u8], buf: &mut [u8]) -> (usize, &'a [u8])
    ensures count { result.0 ≡ min (length bytes.now) (length buf.old) }
    ensures copied { buf.new ≡ take result.0 bytes.now ++ drop result.0 buf.old }
    ensures rest { result.1.now ≡ drop result.0 bytes.now }
{
    let count = bytes.len().min(buf.len());
    let (front, rest) = bytes.split_at(count);
    buf[..count].copy_from_slice(front);
    (count, rest)
}

/// Tells its bytes, and fails at each call whose number, from 1 on, stands in a list.
#[derive(Drop)]
pub struct MemSource<'a> {
    rest: &'a [u8],
    taken: u64,
    failing: FailingCalls,
}

impl<'a> Model for MemSource<'a> {
    ghost use Rattle.owned_bytes.specs.InMemory.{FailingUnread};

    ghost Value = { FailingUnread };

    ghost view = { λ source. record { left = source.rest.now; taken = source.taken; failing = source.failing } };
}

impl<'a> MemSource<'a> {
    /// A source of the bytes, and which of its reads shall fail.
    pub fn new(bytes: &'a [u8], fails: Vec<u64>) -> MemSource<'a>
        ensures left { result.left ≡ bytes.now }
        ensures taken { result.taken ≡ 0 }
        ensures failing { result.failing ≡ at_first fails.items }
    {
        MemSource {
            rest: bytes,
            taken: 0,
            failing: FailingCalls::new(fails),
        }
    }
}

impl<'a> Source for MemSource<'a> {
    ghost left = { λ source. Some source.left };

    ghost taken = { λ source. source.taken };

    ghost faults = { λ source. source.failing.faults };

    fn read(&mut self, buf: &mut [u8]) -> Result<usize, SourceFault>
        ensures bound { ReadsAtMost result buf.new }
        ensures bytes { ReadConsumes (Some self.old.left) (Some self.new.left) result buf.new }
        ensures taken { CountsTaken self.old.taken self.new.taken result }
        ensures cause { HasCause self.old.failing.faults self.new.failing.faults (IsErr result) }
        ensures counts { self.new.failing ≡ after_call self.old.failing }
        ensures fails { OnTrue (fails_next self.old.failing) (IsErr result) }
        ensures reads { OnFalse (fails_next self.old.failing)
            (result ≡ Ok (min (length self.old.left) (length buf.old))) }
    {
        if self.failing.fails_now() {
            return Err(SourceFault);
        }
        let (count, rest) = read_front(self.rest, buf);
        self.rest = rest;
        self.taken = self.taken.saturating_add(count as u64);
        Ok(count)
    }
}
