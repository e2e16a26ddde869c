// Sinks in memory.
ghost use Rattle.std.specs.Prelude.{◌≡◌, [], ◌++◌, Some, IsOk, IfErr, OnOk, OnErr};
ghost use Rattle.std.specs.Bool.{OnTrue, OnFalse};
ghost use Rattle.std.specs.Io.KnownBytes.{Keeps};
ghost use Rattle.owned_bytes.specs.Outside.{HasCause, WritesAll, SinkFailed};
ghost use Rattle.owned_bytes.specs.InMemory.{fails_next, after_call, at_first};

use crate::failing::FailingCalls;
use crate::{Sink, SinkError};
use std::alloc::Global;
use std::marker::Model;

/// Appends to a vector, and never fails but for memory. Contracts see the bytes.
#[derive(Drop)]
pub struct VecSink {
    bytes: Vec<u8>,
}

impl Model for VecSink {
    ghost use Rattle.std.specs.Prelude.{List, ℕ};

    ghost Value = { List ℕ };

    ghost view = { λ sink. sink.bytes.items };
}

impl VecSink {
    /// A sink that was given nothing.
    pub fn new(alloc: Global) -> VecSink
        ensures { result ≡ [] }
    {
        VecSink {
            bytes: Vec::new(alloc),
        }
    }

    /// The bytes that it was given, which are lent.
    pub fn bytes(&self) -> &[u8]
        ensures { result.now ≡ self.now }
    {
        self.bytes.as_slice()
    }

    /// The bytes that it was given.
    pub fn into_bytes(self) -> Vec<u8>
        ensures { result.items ≡ self }
    {
        let VecSink { bytes } = self;
        bytes
    }
}

impl Sink for VecSink {
    ghost written = { λ sink. Some sink };

    ghost faults = { λ _. 0 };

    /// An error leaves the sink as it was.
    fn write_all(&mut self, bytes: &[u8]) -> Result<(), SinkError>
        ensures bytes { WritesAll (Some self.old) (Some self.new) result bytes.now }
        ensures cause { HasCause 0 0 (SinkFailed result) }
        ensures ok { OnOk result (self.new ≡ self.old ++ bytes.now) }
        ensures err { OnErr result (self.new ≡ self.old) }
        ensures memory { IfErr result (λ e. e ≡ SinkError.Memory) }
    {
        self.bytes.extend_from_slice(bytes)?;
        Ok(())
    }

    fn flush(&mut self) -> Result<(), SinkError>
        ensures bytes { Keeps (Some self.old) (Some self.new) }
        ensures cause { HasCause 0 0 (SinkFailed result) }
        ensures ok { IsOk result }
    {
        Ok(())
    }
}

/// Appends to a vector, and fails at each call of `write_all` or `flush` whose number, from 1 on, stands in a list.
#[derive(Drop)]
pub struct MemSink {
    bytes: Vec<u8>,
    failing: FailingCalls,
}

impl Model for MemSink {
    ghost use Rattle.owned_bytes.specs.InMemory.{FailingWritten};

    ghost Value = { FailingWritten };

    ghost view = { λ sink. record { written = sink.bytes.items; failing = sink.failing } };
}

impl MemSink {
    /// A sink that was given nothing, and which of its calls shall fail.
    pub fn new(alloc: Global, fails: Vec<u64>) -> MemSink
        ensures written { result.written ≡ [] }
        ensures failing { result.failing ≡ at_first fails.items }
    {
        MemSink {
            bytes: Vec::new(alloc),
            failing: FailingCalls::new(fails),
        }
    }

    /// The bytes that it was given, which are lent.
    pub fn bytes(&self) -> &[u8]
        ensures { result.now ≡ self.now.written }
    {
        self.bytes.as_slice()
    }

    /// The bytes that it was given.
    pub fn into_bytes(self) -> Vec<u8>
        ensures { result.items ≡ self.written }
    {
        let MemSink { bytes, failing } = self;
        drop(failing);
        bytes
    }
}

impl Sink for MemSink {
    ghost written = { λ sink. Some sink.written };

    ghost faults = { λ sink. sink.failing.faults };

    fn write_all(&mut self, bytes: &[u8]) -> Result<(), SinkError>
        ensures bytes { WritesAll (Some self.old.written) (Some self.new.written) result bytes.now }
        ensures cause { HasCause self.old.failing.faults self.new.failing.faults (SinkFailed result) }
        ensures counts { self.new.failing ≡ after_call self.old.failing }
        ensures fails { OnTrue (fails_next self.old.failing) (SinkFailed result) }
        ensures memory { OnFalse (fails_next self.old.failing) (IfErr result (λ e. e ≡ SinkError.Memory)) }
        ensures ok { OnOk result (self.new.written ≡ self.old.written ++ bytes.now) }
        ensures err { OnErr result (self.new.written ≡ self.old.written) }
    {
        if self.failing.fails_now() {
            return Err(SinkError::Failed);
        }
        self.bytes.extend_from_slice(bytes)?;
        Ok(())
    }

    fn flush(&mut self) -> Result<(), SinkError>
        ensures bytes { Keeps (Some self.old.written) (Some self.new.written) }
        ensures cause { HasCause self.old.failing.faults self.new.failing.faults (SinkFailed result) }
        ensures counts { self.new.failing ≡ after_call self.old.failing }
        ensures fails { OnTrue (fails_next self.old.failing) (SinkFailed result) }
        ensures flushes { OnFalse (fails_next self.old.failing) (IsOk result) }
    {
        if self.failing.fails_now() {
            return Err(SinkError::Failed);
        }
        Ok(())
    }
}
