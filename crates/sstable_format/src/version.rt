// The versions of the format.
ghost use Rattle.std.specs.Prelude.{◌≡◌, ◌≤◌, length, Some};
ghost use Rattle.sstable_format.specs.Version as spec;

use owned_bytes::last_u32;

/// How many bytes the version takes, the last ones of a table.
pub const VERSION_LEN: usize = 4;

/// The version that a table's last bytes tell.
pub fn version_of(ending: &[u8]) -> u32
    requires { VERSION_LEN ≤ length ending.now }
    ensures { spec.version_of ending.now ≡ Some result }
{
    last_u32(ending)
}

/// Whether a table of this version can be read: 2 or 3.
pub fn is_known(version: u32) -> bool
    ensures { result ≡ spec.is_known version }
{
    version == 2 || version == 3
}
