//! Numbers in groups of seven bits, the lowest group first. Each byte but the last has bit 128 set.
ghost use Rattle.std.specs.Prelude.{◌≡◌, ℕ, ◌+◌, ◌*◌, ◌<◌, ◌≤◌, ◌^◌, List, [], ◌∷◌, ◌++◌, length, take, drop, Option, Some, None, OnOk, OnErr, IfSome, IfNone};
ghost use Rattle.sstable_values.specs.Vint.{vint, vint_at, SpellsVint, SpellNone};

use std::alloc::AllocError;

/// Writes the shortest spelling at the front of the buffer, and answers its length.
pub fn serialize(val: u64, buffer: &mut [u8]) -> usize
    requires { 10 ≤ length buffer.old }
    ensures within { result ≤ 10 }
    ensures written { take result buffer.new ≡ vint val }
    ensures others { drop result buffer.new ≡ drop result buffer.old }
{
    let mut rest = val;
    let mut len: usize = 0;
    while rest >= 128 {
        buffer[len] = 128 + (rest % 128) as u8;
        rest /= 128;
        len += 1;
    }
    buffer[len] = rest as u8;
    len + 1
}

/// Appends the shortest spelling. An error changes nothing.
pub fn serialize_into_vec(val: u64, buffer: &mut Vec<u8>) -> Result<(), AllocError>
    ensures ok { OnOk result (buffer.new.items ≡ buffer.old.items ++ vint val) }
    ensures err { OnErr result (buffer.new.items ≡ buffer.old.items) }
{
    let mut encoded = [0u8; 10];
    let len = serialize(val, &mut encoded);
    buffer.extend_from_slice(&encoded[..len])?;
    Ok(())
}

/// The number of bytes and the number that a front of at most ten bytes spells, in the shortest form or a longer one.
pub fn deserialize_read(buf: &[u8]) -> Option<(usize, u64)>
    ensures within { IfSome result (λ found. (1 ≤ found.0) × (found.0 ≤ length buf.now)) }
    ensures found { IfSome result (λ found. vint_at buf.now ≡ Some (found.1, drop found.0 buf.now)) }
    ensures none { IfNone result (vint_at buf.now ≡ None) }
    ensures spelled { IfSome result (λ found. SpellsVint (take found.0 buf.now) found.1) }
    ensures no_front { IfNone result (SpellNone buf.now) }
{
    let mut value: u64 = 0;
    let mut scale: u64 = 1;
    let mut i: usize = 0;
    while i < 9 {
        if i >= buf.len() {
            return None;
        }
        let group = buf[i];
        if group < 128 {
            return Some((i + 1, value + scale * group as u64));
        }
        value += scale * (group - 128) as u64;
        scale *= 128;
        i += 1;
    }
    if buf.len() < 10 {
        return None;
    }
    let group = buf[9];
    if group < 2 {
        Some((10, value + scale * group as u64))
    } else {
        None
    }
}
