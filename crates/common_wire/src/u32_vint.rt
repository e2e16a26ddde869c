// Numbers of 32 bits, spelled as a `VInt` is, in at most five bytes.
ghost use Rattle.std.specs.Prelude.{◌≡◌, ◌<◌, ◌≤◌, ◌^◌, ◌↔◌, length, drop, IsTrue, IfSome, IfNone};
ghost use Rattle.common_wire.specs.Taking.{Value, HasValue};
ghost use Rattle.common_wire.specs.Wire.{vint32};

// The most bytes that spell a number of 32 bits.
const U32_VINT_LEN: usize = 5;

// The number at the front, and how many bytes spell it.
fn u32_vint_at(bytes: &[u8]) -> Option<(u32, usize)>
    ensures found { IfSome result (λ f. (f.1 ≤ length bytes.now) × (vint32 bytes.now ≡ Value f.0 (drop f.1 bytes.now))) }
    ensures none { IfNone result (¬ HasValue (vint32 bytes.now)) }
{
    let mut value: u64 = 0;
    let mut scale: u64 = 1;
    for i in 0..U32_VINT_LEN {
        if i >= bytes.len() {
            return None;
        }
        let group = bytes[i];
        if group >= 128 {
            return fitting(value + scale * (group - 128) as u64, i + 1);
        }
        value += scale * group as u64;
        scale *= 128;
    }
    None
}

// The number with the count of its bytes, where it is one of 32 bits.
fn fitting(value: u64, len: usize) -> Option<(u32, usize)>
    ensures some { IfSome result (λ f. (f.0 ≡ value) × (f.1 ≡ len) × (value < 2 ^ 32)) }
    ensures none { IfNone result ((2 ^ 32) ≤ value) }
{
    if value <= u32::MAX as u64 {
        Some((value as u32, len))
    } else {
        None
    }
}

/// A front of at most five bytes spells a `u32`.
pub fn is_u32_vint(bytes: &[u8]) -> bool
    ensures { IsTrue result ↔ HasValue (vint32 bytes.now) }
{
    match u32_vint_at(bytes) {
        Some(_) => true,
        None => false,
    }
}

/// The number at the front of the bytes, and how many bytes spell it. `is_u32_vint` tells whether there is one.
pub fn read_u32_vint_no_advance(bytes: &[u8]) -> (u32, usize)
    requires { HasValue (vint32 bytes.now) }
    ensures within { result.1 ≤ length bytes.now }
    ensures value { vint32 bytes.now ≡ Value result.0 (drop result.1 bytes.now) }
{
    match u32_vint_at(bytes) {
        Some(found) => found,
        None => (0, 0),
    }
}

/// Takes the number off the front of the bytes. `is_u32_vint` tells whether there is one.
pub fn read_u32_vint(bytes: &mut &[u8]) -> u32
    requires { HasValue (vint32 bytes.old.now) }
    ensures { vint32 bytes.old.now ≡ Value result bytes.new.now }
{
    let (value, len) = read_u32_vint_no_advance(*bytes);
    *bytes = &bytes[len..];
    value
}
