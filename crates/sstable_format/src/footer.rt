// The last bytes of a table.
ghost use Rattle.std.specs.Prelude.{◌≡◌, length, take, drop};
ghost use Rattle.std.specs.Int.{w32, w64, from_le_bytes};

use owned_bytes::OwnedBytes;

/// How many bytes a footer has.
pub const FOOTER_LEN: usize = 20;

/// What a table's last 20 bytes say.
#[derive(Clone, Copy)]
pub struct Footer {
    /// Where the index part begins.
    pub index_offset: u64,
    /// How many keys there are.
    pub num_terms: u64,
    /// The version of the format.
    pub version: u32,
}

impl Footer {
    /// The footer that 20 bytes are.
    pub fn read(mut bytes: OwnedBytes) -> Footer
        requires { length bytes ≡ FOOTER_LEN }
        ensures offset { result.index_offset ≡ from_le_bytes w64 (take 8 bytes) }
        ensures count { result.num_terms ≡ from_le_bytes w64 (take 8 (drop 8 bytes)) }
        ensures version { result.version ≡ from_le_bytes w32 (take 4 (drop 16 bytes)) }
    {
        Footer {
            index_offset: bytes.read_u64(),
            num_terms: bytes.read_u64(),
            version: bytes.read_u32(),
        }
    }
}
