// Values as bytes.
ghost use Rattle.std.specs.Prelude.{◌≡◌, ◌≢◌, ◌-◌, ◌^◌, ◌≤◌, ◌++◌, ℕ, List, length, min, Some, IfErr};
ghost use Rattle.owned_bytes.specs.Outside.{HasCause, WritesAll, SinkFailed};
ghost use Rattle.common_wire.specs.Taking.{Taking, Value};
ghost use Rattle.common_wire.specs.Serialized.{SourceFailed, IsTaking, Takes};

use crate::WireError;
use owned_bytes::{Sink, SinkError, SliceSource, Source};
use std::alloc::Global;

/// A value that is written as bytes and read again.
pub trait BinarySerializable: Sized {
    /// What contracts see of a value, which is nothing of where it lies in memory.
    type Shown;

    /// What contracts see of this value.
    ghost shown: { Self → Self.Shown };

    /// The value is one of the type's: a number is in its range, say.
    ghost is_value: { Self.Shown → Type 0 };

    /// It may be written: no text or list in it is longer than 4,294,967,295.
    ghost can_write: { Self.Shown → Type 0 };

    /// The value as it is written.
    ghost as_written: { Self.Shown → Self.Shown };

    /// The shortest bytes that spell a value.
    ghost wire: { Self.Shown → List ℕ };

    /// The value at the front of bytes.
    ghost taking: { Taking Self.Shown };

    /// Appends the value's bytes.
    fn serialize<W: Sink>(&self, writer: &mut W) -> Result<(), SinkError>
        requires { can_write (shown self.now) }
        ensures bytes { WritesAll (W.written writer.old) (W.written writer.new) result (wire (as_written (shown self.now))) }
        ensures cause { HasCause (W.faults writer.old) (W.faults writer.new) (SinkFailed result) };

    /// Takes the value at the front of what the source has left.
    fn deserialize<R: Source>(alloc: Global, reader: &mut R) -> Result<Self, WireError>
        ensures bytes { Takes shown taking (R.left reader.old) (R.left reader.new) result }
        ensures cause { HasCause (R.faults reader.old) (R.faults reader.new) (SourceFailed result) }
        ensures taken { R.taken reader.old ≤ R.taken reader.new };

    /// The number of bytes that `serialize` appends, up to the greatest `u64`.
    fn num_bytes(&self) -> u64
        requires { can_write (shown self.now) }
        ensures { result ≡ min (length (wire (as_written (shown self.now)))) (2 ^ 64 - 1) };

    /// A value is spelled by a front of the bytes, and what follows that front changes nothing.
    ghost is_taking: { IsTaking taking };

    /// What was written is read again, whatever follows.
    ghost again: { (v : Self.Shown) (rest : List ℕ) → is_value v → can_write v → taking (wire (as_written v) ++ rest) ≡ Value (as_written v) rest };
}

/// A value whose bytes are always so many.
pub trait FixedSize: BinarySerializable {
    /// The number of bytes.
    ghost SIZE_IN_BYTES: { ℕ };

    /// The number of bytes, up to the greatest `usize`.
    const SIZE_IN_BYTES: usize;

    /// Each value has so many bytes.
    ghost size: { (v : Self.Shown) → min (length (Self.wire (Self.as_written v))) (2 ^ 64 - 1) ≡ SIZE_IN_BYTES };
}

/// A value off the front of bytes, which then begin after it.
pub trait DeserializeFrom<T: BinarySerializable> {
    /// The bytes that are left.
    ghost front: { Self → List ℕ };

    /// Takes the value at the front.
    fn deserialize(&mut self, alloc: Global) -> Result<T, WireError>
        ensures bytes { Takes T.shown T.taking (Some (front self.old)) (Some (front self.new)) result }
        ensures no_fault { IfErr result (λ e. e ≢ WireError.Failed) };
}

impl<T: BinarySerializable> DeserializeFrom<T> for &[u8] {
    ghost front = { λ bytes. bytes.now };

    fn deserialize(&mut self, alloc: Global) -> Result<T, WireError> {
        let mut source = SliceSource::new(*self);
        let result = T::deserialize(alloc, &mut source);
        *self = source.rest();
        result
    }
}
