// Values of a fixed size.
ghost use Rattle.std.specs.Prelude.{◌≡◌, ◌<◌, ◌^◌, ◌++◌, [], ◌∷◌, ⊤, FitsSigned, refl};
ghost use Rattle.std.specs.Int.{w16, w32, w64, w128, to_le_bytes, cast_unsigned};
ghost use Rattle.common_wire.specs.Taking.{byte, give};
ghost use Rattle.common_wire.specs.Wire.{number, signed, flag, flag_bytes};

use crate::reading::{read_array, read_byte};
use crate::{BinarySerializable, FixedSize, WireError};
use owned_bytes::{Sink, SinkError, Source};
use std::alloc::Global;

impl BinarySerializable for u8 {
    ghost use Rattle.common_wire.specs.TakingLaws.{IsTaking-byte};

    type Shown = u8;

    ghost shown = { λ v. v };

    ghost is_value = { λ v. v < 2 ^ 8 };

    ghost can_write = { λ _. ⊤ };

    ghost as_written = { λ v. v };

    ghost wire = { λ v. v ∷ [] };

    ghost taking = { byte };

    ghost is_taking = { IsTaking-byte };

    ghost again = { λ v rest fits can. refl };

    fn serialize<W: Sink>(&self, writer: &mut W) -> Result<(), SinkError> {
        writer.write_all(&[*self])
    }

    fn deserialize<R: Source>(alloc: Global, reader: &mut R) -> Result<Self, WireError> {
        let _ = alloc;
        read_byte(reader)
    }

    fn num_bytes(&self) -> u64 {
        1
    }
}

impl FixedSize for u8 {
    ghost SIZE_IN_BYTES = { 1 };

    const SIZE_IN_BYTES: usize = 1;

    ghost size = { λ v. refl };
}

impl BinarySerializable for u16 {
    ghost use Rattle.common_wire.specs.NumberLaws.{IsTaking-number, u16-again};

    type Shown = u16;

    ghost shown = { λ v. v };

    ghost is_value = { λ v. v < 2 ^ 16 };

    ghost can_write = { λ _. ⊤ };

    ghost as_written = { λ v. v };

    ghost wire = { to_le_bytes w16 };

    ghost taking = { number w16 };

    ghost is_taking = { IsTaking-number w16 };

    ghost again = { λ v rest fits can. u16-again v rest fits };

    fn serialize<W: Sink>(&self, writer: &mut W) -> Result<(), SinkError> {
        writer.write_all(&self.to_le_bytes())
    }

    fn deserialize<R: Source>(alloc: Global, reader: &mut R) -> Result<Self, WireError> {
        let _ = alloc;
        Ok(u16::from_le_bytes(read_array(reader)?))
    }

    fn num_bytes(&self) -> u64 {
        2
    }
}

impl FixedSize for u16 {
    ghost SIZE_IN_BYTES = { 2 };

    const SIZE_IN_BYTES: usize = 2;

    ghost size = { λ v. refl };
}

impl BinarySerializable for u32 {
    ghost use Rattle.common_wire.specs.NumberLaws.{IsTaking-number, u32-again};

    type Shown = u32;

    ghost shown = { λ v. v };

    ghost is_value = { λ v. v < 2 ^ 32 };

    ghost can_write = { λ _. ⊤ };

    ghost as_written = { λ v. v };

    ghost wire = { to_le_bytes w32 };

    ghost taking = { number w32 };

    ghost is_taking = { IsTaking-number w32 };

    ghost again = { λ v rest fits can. u32-again v rest fits };

    fn serialize<W: Sink>(&self, writer: &mut W) -> Result<(), SinkError> {
        writer.write_all(&self.to_le_bytes())
    }

    fn deserialize<R: Source>(alloc: Global, reader: &mut R) -> Result<Self, WireError> {
        let _ = alloc;
        Ok(u32::from_le_bytes(read_array(reader)?))
    }

    fn num_bytes(&self) -> u64 {
        4
    }
}

impl FixedSize for u32 {
    ghost SIZE_IN_BYTES = { 4 };

    const SIZE_IN_BYTES: usize = 4;

    ghost size = { λ v. refl };
}

impl BinarySerializable for u64 {
    ghost use Rattle.common_wire.specs.NumberLaws.{IsTaking-number, u64-again};

    type Shown = u64;

    ghost shown = { λ v. v };

    ghost is_value = { λ v. v < 2 ^ 64 };

    ghost can_write = { λ _. ⊤ };

    ghost as_written = { λ v. v };

    ghost wire = { to_le_bytes w64 };

    ghost taking = { number w64 };

    ghost is_taking = { IsTaking-number w64 };

    ghost again = { λ v rest fits can. u64-again v rest fits };

    fn serialize<W: Sink>(&self, writer: &mut W) -> Result<(), SinkError> {
        writer.write_all(&self.to_le_bytes())
    }

    fn deserialize<R: Source>(alloc: Global, reader: &mut R) -> Result<Self, WireError> {
        let _ = alloc;
        Ok(u64::from_le_bytes(read_array(reader)?))
    }

    fn num_bytes(&self) -> u64 {
        8
    }
}

impl FixedSize for u64 {
    ghost SIZE_IN_BYTES = { 8 };

    const SIZE_IN_BYTES: usize = 8;

    ghost size = { λ v. refl };
}

impl BinarySerializable for u128 {
    ghost use Rattle.common_wire.specs.NumberLaws.{IsTaking-number, u128-again};

    type Shown = u128;

    ghost shown = { λ v. v };

    ghost is_value = { λ v. v < 2 ^ 128 };

    ghost can_write = { λ _. ⊤ };

    ghost as_written = { λ v. v };

    ghost wire = { to_le_bytes w128 };

    ghost taking = { number w128 };

    ghost is_taking = { IsTaking-number w128 };

    ghost again = { λ v rest fits can. u128-again v rest fits };

    fn serialize<W: Sink>(&self, writer: &mut W) -> Result<(), SinkError> {
        writer.write_all(&self.to_le_bytes())
    }

    fn deserialize<R: Source>(alloc: Global, reader: &mut R) -> Result<Self, WireError> {
        let _ = alloc;
        Ok(u128::from_le_bytes(read_array(reader)?))
    }

    fn num_bytes(&self) -> u64 {
        16
    }
}

impl FixedSize for u128 {
    ghost SIZE_IN_BYTES = { 16 };

    const SIZE_IN_BYTES: usize = 16;

    ghost size = { λ v. refl };
}

impl BinarySerializable for i64 {
    ghost use Rattle.common_wire.specs.NumberLaws.{IsTaking-signed, signed-again};

    type Shown = i64;

    ghost shown = { λ v. v };

    ghost is_value = { λ v. FitsSigned w64 v };

    ghost can_write = { λ _. ⊤ };

    ghost as_written = { λ v. v };

    ghost wire = { λ v. to_le_bytes w64 (cast_unsigned w64 v) };

    ghost taking = { signed };

    ghost is_taking = { IsTaking-signed };

    ghost again = { λ v rest fits can. signed-again v rest fits };

    fn serialize<W: Sink>(&self, writer: &mut W) -> Result<(), SinkError> {
        self.cast_unsigned().serialize(writer)
    }

    fn deserialize<R: Source>(alloc: Global, reader: &mut R) -> Result<Self, WireError> {
        let bits = u64::deserialize(alloc, reader)?;
        Ok(bits.cast_signed())
    }

    fn num_bytes(&self) -> u64 {
        8
    }
}

impl FixedSize for i64 {
    ghost SIZE_IN_BYTES = { 8 };

    const SIZE_IN_BYTES: usize = 8;

    ghost size = { λ v. refl };
}

impl BinarySerializable for bool {
    ghost use Rattle.common_wire.specs.NumberLaws.{IsTaking-flag, flag-again};

    type Shown = bool;

    ghost shown = { λ v. v };

    ghost is_value = { λ _. ⊤ };

    ghost can_write = { λ _. ⊤ };

    ghost as_written = { λ v. v };

    ghost wire = { flag_bytes };

    ghost taking = { flag };

    ghost is_taking = { IsTaking-flag };

    ghost again = { λ v rest fits can. flag-again v rest };

    fn serialize<W: Sink>(&self, writer: &mut W) -> Result<(), SinkError> {
        let byte: u8 = if *self { 1 } else { 0 };
        writer.write_all(&[byte])
    }

    fn deserialize<R: Source>(alloc: Global, reader: &mut R) -> Result<Self, WireError> {
        let _ = alloc;
        let byte = read_byte(reader)?;
        if byte < 2 {
            Ok(byte == 1)
        } else {
            Err(WireError::Invalid)
        }
    }

    fn num_bytes(&self) -> u64 {
        1
    }
}

impl FixedSize for bool {
    ghost SIZE_IN_BYTES = { 1 };

    const SIZE_IN_BYTES: usize = 1;

    ghost size = { λ v. refl };
}

impl BinarySerializable for () {
    ghost use Rattle.common_wire.specs.TakingLaws.{IsTaking-give};

    type Shown = ();

    ghost shown = { λ v. v };

    ghost is_value = { λ _. ⊤ };

    ghost can_write = { λ _. ⊤ };

    ghost as_written = { λ v. v };

    ghost wire = { λ _. [] };

    ghost taking = { give tt };

    ghost is_taking = { IsTaking-give tt };

    ghost again = { λ v rest fits can. refl };

    fn serialize<W: Sink>(&self, writer: &mut W) -> Result<(), SinkError> {
        let _ = writer;
        Ok(())
    }

    fn deserialize<R: Source>(alloc: Global, reader: &mut R) -> Result<Self, WireError> {
        let _ = alloc;
        let _ = reader;
        Ok(())
    }

    fn num_bytes(&self) -> u64 {
        0
    }
}

impl FixedSize for () {
    ghost SIZE_IN_BYTES = { 0 };

    const SIZE_IN_BYTES: usize = 0;

    ghost size = { λ v. refl };
}

impl<A: BinarySerializable + Drop, B: BinarySerializable> BinarySerializable for (A, B) {
    ghost use Rattle.common_wire.specs.Wire.{pair};
    ghost use Rattle.common_wire.specs.PairLaws.{IsTaking-pair, pair-again};

    type Shown = (A::Shown, B::Shown);

    ghost shown = { λ v. record { 0 = A.shown v.0; 1 = B.shown v.1 } };

    ghost is_value = { λ v. A.is_value v.0 × B.is_value v.1 };

    ghost can_write = { λ v. A.can_write v.0 × B.can_write v.1 };

    ghost as_written = { λ v. record { 0 = A.as_written v.0; 1 = B.as_written v.1 } };

    ghost wire = { λ v. A.wire v.0 ++ B.wire v.1 };

    ghost taking = { pair A.taking B.taking };

    ghost is_taking = { IsTaking-pair A.taking B.taking A.is_taking B.is_taking };

    ghost again = { λ v rest fits can. pair-again A.taking B.taking (A.wire (A.as_written v.0)) (B.wire (B.as_written v.1)) (A.as_written v.0) (B.as_written v.1) rest
        (λ more. A.again v.0 more fits.0 can.0) (λ more. B.again v.1 more fits.1 can.1) };

    /// The first, and then the second.
    fn serialize<W: Sink>(&self, writer: &mut W) -> Result<(), SinkError> {
        self.0.serialize(writer)?;
        self.1.serialize(writer)
    }

    fn deserialize<R: Source>(alloc: Global, reader: &mut R) -> Result<Self, WireError> {
        let first = A::deserialize(alloc, reader)?;
        let second = B::deserialize(alloc, reader)?;
        Ok((first, second))
    }

    fn num_bytes(&self) -> u64 {
        self.0.num_bytes().saturating_add(self.1.num_bytes())
    }
}

impl<A: FixedSize + Drop, B: FixedSize> FixedSize for (A, B) {
    ghost use Rattle.std.specs.Prelude.{◌+◌, ◌-◌, ◌^◌, min};
    ghost use Rattle.common_wire.specs.PairLaws.{pair-size};

    ghost SIZE_IN_BYTES = { min (A.SIZE_IN_BYTES + B.SIZE_IN_BYTES) (2 ^ 64 - 1) };

    const SIZE_IN_BYTES: usize = if A::SIZE_IN_BYTES <= usize::MAX - B::SIZE_IN_BYTES {
        A::SIZE_IN_BYTES + B::SIZE_IN_BYTES
    } else {
        usize::MAX
    };

    ghost size = { λ v. pair-size (A.wire (A.as_written v.0)) (B.wire (B.as_written v.1)) A.SIZE_IN_BYTES B.SIZE_IN_BYTES (A.size v.0) (B.size v.1) };
}
