// A sink behind a reference or in a box: a call goes to the sink inside.
use crate::{Sink, SinkError};

impl<W: Sink> Sink for &mut W {
    ghost written = { λ w. W.written w.now };

    ghost faults = { λ w. W.faults w.now };

    fn write_all(&mut self, bytes: &[u8]) -> Result<(), SinkError> {
        Sink::write_all(&mut **self, bytes)
    }

    fn flush(&mut self) -> Result<(), SinkError> {
        Sink::flush(&mut **self)
    }
}

impl<W: Sink> Sink for Box<W> {
    ghost written = { λ b. W.written b.value };

    ghost faults = { λ b. W.faults b.value };

    fn write_all(&mut self, bytes: &[u8]) -> Result<(), SinkError> {
        self.as_mut().write_all(bytes)
    }

    fn flush(&mut self) -> Result<(), SinkError> {
        self.as_mut().flush()
    }
}
