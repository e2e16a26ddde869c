// A sink that counts what goes through it.
ghost use Rattle.std.specs.Prelude.{◌≡◌, length};
ghost use Rattle.std.specs.Io.KnownBytes.{Keeps};
ghost use Rattle.owned_bytes.specs.Outside.{HasCause, WritesAll, SinkFailed};
ghost use Rattle.common_wire.specs.Counting.{inner_sink, bytes_counted, CountsBytes};

use crate::{AntiCallToken, TerminatingWrite};
use owned_bytes::{Sink, SinkError};

/// Passes bytes on to a sink, and counts those of the calls that answered Ok.
#[derive(Drop)]
pub struct CountingWriter<W> {
    underlying: W,
    written_bytes: u64,
}

impl<W: Sink> CountingWriter<W> {
    /// A writer to the sink, which has counted nothing.
    pub fn wrap(underlying: W) -> Self
        ensures sink { inner_sink result ≡ underlying }
        ensures count { bytes_counted result ≡ 0 }
    {
        CountingWriter {
            underlying,
            written_bytes: 0,
        }
    }

    /// The bytes of the calls that answered Ok, up to the greatest `u64`.
    pub fn written_bytes(&self) -> u64
        ensures { result ≡ bytes_counted self.now }
    {
        self.written_bytes
    }

    /// The sink that it wrote to.
    pub fn finish(self) -> W
        ensures { result ≡ inner_sink self }
    {
        let CountingWriter { underlying, .. } = self;
        underlying
    }
}

impl<W: Sink> Sink for CountingWriter<W> {
    ghost written = { λ writer. W.written (inner_sink writer) };

    ghost faults = { λ writer. W.faults (inner_sink writer) };

    fn write_all(&mut self, bytes: &[u8]) -> Result<(), SinkError>
        ensures bytes { WritesAll (W.written (inner_sink self.old)) (W.written (inner_sink self.new)) result bytes.now }
        ensures cause { HasCause (W.faults (inner_sink self.old)) (W.faults (inner_sink self.new)) (SinkFailed result) }
        ensures count { CountsBytes (bytes_counted self.old) (bytes_counted self.new) result (length bytes.now) }
    {
        self.underlying.write_all(bytes)?;
        self.written_bytes = self.written_bytes.saturating_add(bytes.len() as u64);
        Ok(())
    }

    fn flush(&mut self) -> Result<(), SinkError>
        ensures bytes { Keeps (W.written (inner_sink self.old)) (W.written (inner_sink self.new)) }
        ensures cause { HasCause (W.faults (inner_sink self.old)) (W.faults (inner_sink self.new)) (SinkFailed result) }
        ensures count { bytes_counted self.new ≡ bytes_counted self.old }
    {
        self.underlying.flush()
    }
}

impl<W: TerminatingWrite> TerminatingWrite for CountingWriter<W> {
    /// Ends the sink inside. The count stays.
    fn terminate(self) -> (Self, Result<(), SinkError>)
        ensures bytes { Keeps (W.written (inner_sink self)) (W.written (inner_sink result.0)) }
        ensures cause { HasCause (W.faults (inner_sink self)) (W.faults (inner_sink result.0)) (SinkFailed result.1) }
        ensures count { bytes_counted result.0 ≡ bytes_counted self }
    {
        let mut writer = self;
        let answer = writer.terminate_ref(AntiCallToken(()));
        (writer, answer)
    }

    fn terminate_ref(&mut self, token: AntiCallToken) -> Result<(), SinkError>
        ensures bytes { Keeps (W.written (inner_sink self.old)) (W.written (inner_sink self.new)) }
        ensures cause { HasCause (W.faults (inner_sink self.old)) (W.faults (inner_sink self.new)) (SinkFailed result) }
        ensures count { bytes_counted self.new ≡ bytes_counted self.old }
    {
        self.underlying.terminate_ref(token)
    }
}
