// Numbers in groups of seven bits, the lowest group first.
ghost use Rattle.std.specs.Prelude.{◌≡◌, ◌≢◌, ℕ, ◌*◌, ◌/◌, ◌%◌, ◌≤◌, ◌<◌, length, take, IfOk, IfErr};
ghost use Rattle.std.specs.Bool.{OnTrue, OnFalse};
ghost use Rattle.owned_bytes.specs.Outside.{HasCause};
ghost use Rattle.common_wire.specs.Wire.{group_bytes, groups_below};
ghost use Rattle.common_wire.specs.Serialized.{SourceFailed, Takes, limit};

use crate::WireError;
use crate::reading::read_byte;
use owned_bytes::Source;

// A number of any width.
pub(crate) trait Grouped: Copy {
    // The number.
    ghost number: { Self → ℕ };

    // The lowest group.
    fn low(self) -> u8
        ensures { result ≡ number self % 128 };

    // The number without its lowest group.
    fn high(self) -> Self
        ensures { number result ≡ number self / 128 };

    // Whether one group is not enough.
    fn is_long(self) -> bool
        ensures yes { OnTrue result (128 ≤ number self) }
        ensures no { OnFalse result (number self < 128) };
}

impl Grouped for u64 {
    ghost number = { λ n. n };

    fn low(self) -> u8 {
        (self % 128) as u8
    }

    fn high(self) -> u64 {
        self / 128
    }

    fn is_long(self) -> bool {
        self >= 128
    }
}

impl Grouped for u128 {
    ghost number = { λ n. n };

    fn low(self) -> u8 {
        (self % 128) as u8
    }

    fn high(self) -> u128 {
        self / 128
    }

    fn is_long(self) -> bool {
        self >= 128
    }
}

// Writes the fewest groups of the number to the front of the buffer, and gives their count.
pub(crate) fn put_groups<N: Grouped>(val: N, buffer: &mut [u8]) -> usize
    requires some { 0 < length buffer.old }
    requires fits { N.number val < limit (length buffer.old) }
    ensures within { result ≤ length buffer.old }
    ensures written { take result buffer.new ≡ group_bytes (length buffer.old) (N.number val) }
    ensures len { result ≡ length (group_bytes (length buffer.old) (N.number val)) }
{
    let mut rest = val;
    let mut len: usize = 0;
    while rest.is_long() {
        buffer[len] = rest.low();
        rest = rest.high();
        len += 1;
    }
    buffer[len] = rest.low() + 128;
    len + 1
}

// Reads a number of at most so many groups and one more, which is below `top`.
pub(crate) fn read_groups<R: Source>(more: u8, top: u8, reader: &mut R) -> Result<u128, WireError>
    requires groups { more ≤ 18 }
    requires some { 0 < top }
    requires fits { top ≤ 4 }
    ensures bytes { Takes (λ (n : ℕ). n) (groups_below more top) (R.left reader.old) (R.left reader.new) result }
    ensures cause { HasCause (R.faults reader.old) (R.faults reader.new) (SourceFailed result) }
    ensures taken { R.taken reader.old ≤ R.taken reader.new }
    ensures no_memory { IfErr result (λ e. e ≢ WireError.Memory) }
    ensures bound { IfOk result (λ n. n < limit more * top) }
{
    let mut value: u128 = 0;
    let mut scale: u128 = 1;
    for turn in 0..more {
        let _ = turn;
        let group = read_byte(reader)?;
        if group >= 128 {
            return Ok(value + scale * (group - 128) as u128);
        }
        value += scale * group as u128;
        scale *= 128;
    }
    let last = read_byte(reader)?;
    if last < 128 {
        return Err(WireError::Invalid);
    }
    let high = last - 128;
    if high >= top {
        return Err(WireError::Invalid);
    }
    Ok(value + scale * high as u128)
}
