// The laws of serialization, as calls that do nothing.
ghost use Rattle.std.specs.Prelude.{◌≡◌, ◌<◌, ◌^◌, ◌++◌, ◌↔◌, List, ℕ, ℤ, ◌<ℤ◌, FitsSigned};
ghost use Rattle.std.specs.Int.{w64};
ghost use Rattle.common_wire.specs.Taking.{Value};
ghost use Rattle.common_wire.specs.Serialized.{IsReadAgain, BeginsNoOther};
ghost use Rattle.common_wire.specs.Wire.{vint, vint32, vint_bytes};
ghost use Rattle.common_wire.specs.Numbers.{shifted_up};

use crate::BinarySerializable;

/// What was written is read again, whatever follows.
pub fn written_is_read_again<T: BinarySerializable>()
    ensures { (v : T.Shown) → T.is_value v → T.can_write v → IsReadAgain T.taking T.wire T.as_written v }
{}

/// No spelling of a value begins another spelling.
pub fn no_spelling_begins_another<T: BinarySerializable>()
    ensures { BeginsNoOther T.taking }
{}

/// What `write_u32_vint` wrote is read again by the `u32` calls, whatever follows, and where they read a number, a `VInt`
/// reads the same.
pub fn u32_vint_is_a_vint()
    ensures again { (n : ℕ) (rest : List ℕ) → n < 2 ^ 32 → vint32 (vint_bytes n ++ rest) ≡ Value n rest }
    ensures same { (n : ℕ) (bytes rest : List ℕ) → vint32 bytes ≡ Value n rest → vint bytes ≡ Value n rest }
{}

/// `i64_to_u64` gives each number another one, in the same order, so `u64_to_i64` undoes it.
pub fn signed_numbers_keep_their_order()
    ensures apart { (a b : ℤ) → FitsSigned w64 a → FitsSigned w64 b → shifted_up a ≡ shifted_up b → a ≡ b }
    ensures order { (a b : ℤ) → FitsSigned w64 a → FitsSigned w64 b → (a <ℤ b) ↔ (shifted_up a < shifted_up b) }
{}
