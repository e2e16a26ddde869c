// Numbers of variable length.
ghost use Rattle.std.specs.Prelude.{◌≡◌, ◌≢◌, IfErr, ℕ, ◌≤◌, ◌<◌, ◌^◌, ◌++◌, length, take, OnOk, OnErr};
ghost use Rattle.owned_bytes.specs.Outside.{HasCause, WritesAll, SinkFailed};
ghost use Rattle.common_wire.specs.Wire.{vint, vint_bytes, vint128, vint128_bytes};
ghost use Rattle.common_wire.specs.Serialized.{SourceFailed, Takes};

use crate::groups::{put_groups, read_groups};
use crate::{BinarySerializable, WireError};
use owned_bytes::{Sink, SinkError, Source};
use std::alloc::{AllocError, Global};

// The most bytes that spell a `VInt`.
const VINT_LEN: usize = 10;

// The most bytes that spell a `VIntU128`.
const VINT_U128_LEN: usize = 19;

/// A number that is spelled in groups of seven bits, the lowest group first. The last byte, and only it, has bit 128 set.
/// The shortest spelling is written; a longer one of at most ten bytes is read too.
#[derive(Clone, Copy, Debug, PartialEq, Eq)]
pub struct VInt(pub u64);

impl VInt {
    /// The number.
    pub fn val(&self) -> u64
        ensures { result ≡ self.now.0 }
    {
        self.0
    }

    /// Writes the number's bytes to the front of the buffer, and gives their count.
    pub fn serialize_into(&self, buffer: &mut [u8; 10]) -> usize
        ensures within { result ≤ 10 }
        ensures written { take result buffer.new ≡ vint_bytes self.now.0 }
        ensures len { result ≡ length (vint_bytes self.now.0) }
    {
        put_groups(self.0, buffer)
    }

    /// Appends the number's bytes. An error leaves the bytes as they were.
    pub fn serialize_into_vec(&self, output: &mut Vec<u8>) -> Result<(), AllocError>
        ensures ok { OnOk result (output.new.items ≡ output.old.items ++ vint_bytes self.now.0) }
        ensures err { OnErr result (output.new.items ≡ output.old.items) }
    {
        let mut buffer = [0u8; VINT_LEN];
        let len = self.serialize_into(&mut buffer);
        output.extend_from_slice(&buffer[..len])
    }

    /// Reads a number. It takes no memory.
    pub fn deserialize_u64<R: Source>(reader: &mut R) -> Result<u64, WireError>
        ensures bytes { Takes (λ (n : ℕ). n) vint (R.left reader.old) (R.left reader.new) result }
        ensures cause { HasCause (R.faults reader.old) (R.faults reader.new) (SourceFailed result) }
        ensures taken { R.taken reader.old ≤ R.taken reader.new }
        ensures no_memory { IfErr result (λ e. e ≢ WireError.Memory) }
    {
        match read_groups(9, 2, reader) {
            Ok(val) => Ok(val as u64),
            Err(e) => Err(e),
        }
    }
}

impl BinarySerializable for VInt {
    ghost use Rattle.std.specs.Prelude.{⊤};
    ghost use Rattle.common_wire.specs.GroupLaws.{IsTaking-vint, vint-again};

    type Shown = u64;

    ghost shown = { λ v. v.0 };

    ghost is_value = { λ v. v < 2 ^ 64 };

    ghost can_write = { λ _. ⊤ };

    ghost as_written = { λ v. v };

    ghost wire = { vint_bytes };

    ghost taking = { vint };

    ghost is_taking = { IsTaking-vint };

    ghost again = { λ v rest fits can. vint-again v rest fits };

    fn serialize<W: Sink>(&self, writer: &mut W) -> Result<(), SinkError> {
        let mut buffer = [0u8; VINT_LEN];
        let len = self.serialize_into(&mut buffer);
        writer.write_all(&buffer[..len])
    }

    fn deserialize<R: Source>(alloc: Global, reader: &mut R) -> Result<Self, WireError> {
        let _ = alloc;
        match VInt::deserialize_u64(reader) {
            Ok(val) => Ok(VInt(val)),
            Err(e) => Err(e),
        }
    }

    fn num_bytes(&self) -> u64 {
        let mut buffer = [0u8; VINT_LEN];
        self.serialize_into(&mut buffer) as u64
    }
}

/// Appends the bytes of `VInt`.
pub fn write_u32_vint<W: Sink>(val: u32, writer: &mut W) -> Result<(), SinkError>
    ensures bytes { WritesAll (W.written writer.old) (W.written writer.new) result (vint_bytes val) }
    ensures cause { HasCause (W.faults writer.old) (W.faults writer.new) (SinkFailed result) }
{
    VInt(val as u64).serialize(writer)
}

/// Writes the bytes of `VInt` to the front of the buffer, and lends them.
pub fn serialize_vint_u32(val: u32, buf: &mut [u8; 8]) -> &[u8]
    ensures { result.now ≡ vint_bytes val }
{
    let len = put_groups(val as u64, buf);
    &buf[..len]
}

/// A number that is spelled as a `VInt` is, in at most nineteen bytes.
#[derive(Clone, Copy, Debug, PartialEq, Eq)]
pub struct VIntU128(pub u128);

// Writes the number's bytes to the front of the buffer, and gives their count.
fn serialize_into128(val: u128, buffer: &mut [u8; 19]) -> usize
    ensures within { result ≤ 19 }
    ensures written { take result buffer.new ≡ vint128_bytes val }
    ensures len { result ≡ length (vint128_bytes val) }
{
    put_groups(val, buffer)
}

/// Appends the bytes of `VIntU128`. An error leaves the bytes as they were.
pub fn serialize_vint_u128(val: u128, output: &mut Vec<u8>) -> Result<(), AllocError>
    ensures ok { OnOk result (output.new.items ≡ output.old.items ++ vint128_bytes val) }
    ensures err { OnErr result (output.new.items ≡ output.old.items) }
{
    let mut buffer = [0u8; VINT_U128_LEN];
    let len = serialize_into128(val, &mut buffer);
    output.extend_from_slice(&buffer[..len])
}

impl BinarySerializable for VIntU128 {
    ghost use Rattle.std.specs.Prelude.{⊤};
    ghost use Rattle.common_wire.specs.GroupLaws.{IsTaking-vint128, vint128-again};

    type Shown = u128;

    ghost shown = { λ v. v.0 };

    ghost is_value = { λ v. v < 2 ^ 128 };

    ghost can_write = { λ _. ⊤ };

    ghost as_written = { λ v. v };

    ghost wire = { vint128_bytes };

    ghost taking = { vint128 };

    ghost is_taking = { IsTaking-vint128 };

    ghost again = { λ v rest fits can. vint128-again v rest fits };

    fn serialize<W: Sink>(&self, writer: &mut W) -> Result<(), SinkError> {
        let mut buffer = [0u8; VINT_U128_LEN];
        let len = serialize_into128(self.0, &mut buffer);
        writer.write_all(&buffer[..len])
    }

    fn deserialize<R: Source>(alloc: Global, reader: &mut R) -> Result<Self, WireError> {
        let _ = alloc;
        match read_groups(18, 4, reader) {
            Ok(val) => Ok(VIntU128(val)),
            Err(e) => Err(e),
        }
    }

    fn num_bytes(&self) -> u64 {
        let mut buffer = [0u8; VINT_U128_LEN];
        serialize_into128(self.0, &mut buffer) as u64
    }
}
