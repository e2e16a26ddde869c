// Sinks that are closed.
ghost use Rattle.std.specs.Prelude.{◌≡◌};
ghost use Rattle.std.specs.Io.KnownBytes.{Keeps};
ghost use Rattle.owned_bytes.specs.Outside.{HasCause, SinkFailed};

use owned_bytes::{Sink, SinkError, VecSink};

/// Can't be made outside this crate, so that `terminate_ref` is called by `terminate` alone.
#[derive(Drop)]
pub struct AntiCallToken(pub(crate) ());

/// A sink that is told its end.
pub trait TerminatingWrite: Sink {
    /// Ends the sink, and hands it back beside the answer. Nothing is appended.
    fn terminate(self) -> (Self, Result<(), SinkError>)
    where
        Self: Sized,
        ensures bytes { Keeps (Self.written self) (Self.written result.0) }
        ensures cause { HasCause (Self.faults self) (Self.faults result.0) (SinkFailed result.1) }
    {
        let mut sink = self;
        let answer = sink.terminate_ref(AntiCallToken(()));
        (sink, answer)
    }

    /// Ends the sink. Nothing is appended.
    fn terminate_ref(&mut self, token: AntiCallToken) -> Result<(), SinkError>
        ensures bytes { Keeps (Self.written self.old) (Self.written self.new) }
        ensures cause { HasCause (Self.faults self.old) (Self.faults self.new) (SinkFailed result) };
}

impl TerminatingWrite for VecSink {
    fn terminate_ref(&mut self, token: AntiCallToken) -> Result<(), SinkError> {
        drop(token);
        self.flush()
    }
}

impl<W: TerminatingWrite> TerminatingWrite for Box<W> {
    fn terminate_ref(&mut self, token: AntiCallToken) -> Result<(), SinkError> {
        self.as_mut().terminate_ref(token)
    }
}
