// Numbers at the end of bytes.
ghost use Rattle.std.specs.Prelude.{◌≡◌, ◌≤◌, ◌-◌, length, drop};
ghost use Rattle.std.specs.Int.{w32, w64, from_le_bytes};

/// The number in the last four bytes.
pub fn last_u32(bytes: &[u8]) -> u32
    requires { 4 ≤ length bytes.now }
    ensures { result ≡ from_le_bytes w32 (drop (length bytes.now - 4) bytes.now) }
{
    let (_, last) = bytes.split_at(bytes.len() - 4);
    u32::from_le_bytes([last[0], last[1], last[2], last[3]])
}

/// The number in the last eight bytes.
pub fn last_u64(bytes: &[u8]) -> u64
    requires { 8 ≤ length bytes.now }
    ensures { result ≡ from_le_bytes w64 (drop (length bytes.now - 8) bytes.now) }
{
    let (_, last) = bytes.split_at(bytes.len() - 8);
    u64::from_le_bytes([
        last[0], last[1], last[2], last[3], last[4], last[5], last[6], last[7],
    ])
}
