// The last key of a writer, or nothing where it isn't asked for.
ghost use Rattle.std.specs.Prelude.{◌≡◌, ◌++◌, List, ℕ, Option, [], take, OnOk, OnErr};
ghost use Rattle.common_wire.specs.Tracking.{Tracks, TracksNext, TracksPrefix};

use std::alloc::{AllocError, Global};

/// What keeps the last key.
pub trait KeyTracking: Sized {
    /// The key that is kept, where one is.
    ghost tracked: { Self → Option (List ℕ) };

    /// The empty key.
    fn make_default(alloc: Global) -> Self
        ensures { Tracks (tracked result) [] };

    /// An error leaves the last key.
    fn set_key(&mut self, key: &[u8]) -> Result<(), AllocError>
        ensures { TracksNext (tracked self.old) (tracked self.new) result key.now };

    /// The first bytes of the last key, or all where it has fewer, and then the suffix. An error leaves the last key.
    fn update_with_prefix(
        &mut self,
        common_prefix_len: usize,
        suffix: &[u8],
    ) -> Result<(), AllocError>
        ensures { TracksPrefix (tracked self.old) (tracked self.new) result common_prefix_len suffix.now };
}

/// Keeps no key.
#[derive(Clone, Copy, Debug, Default)]
pub struct WithoutKeys;

impl KeyTracking for WithoutKeys {
    ghost use Rattle.std.specs.Prelude.{None};

    ghost tracked = { λ _. None };

    fn make_default(alloc: Global) -> Self {
        let _ = alloc;
        WithoutKeys
    }

    fn set_key(&mut self, _key: &[u8]) -> Result<(), AllocError> {
        Ok(())
    }

    fn update_with_prefix(
        &mut self,
        _common_prefix_len: usize,
        _suffix: &[u8],
    ) -> Result<(), AllocError> {
        Ok(())
    }
}

impl KeyTracking for Vec<u8> {
    ghost use Rattle.std.specs.Prelude.{Some};

    ghost tracked = { λ key. Some key.items };

    fn make_default(alloc: Global) -> Self {
        Vec::new(alloc)
    }

    fn set_key(&mut self, key: &[u8]) -> Result<(), AllocError> {
        replace_from(self, 0, key)
    }

    fn update_with_prefix(
        &mut self,
        common_prefix_len: usize,
        suffix: &[u8],
    ) -> Result<(), AllocError> {
        replace_from(self, common_prefix_len, suffix)
    }
}

// What stands from the place on gives way to the suffix. An error leaves the bytes as they were.
fn replace_from(bytes: &mut Vec<u8>, place: usize, suffix: &[u8]) -> Result<(), AllocError>
    ensures ok { OnOk result (bytes.new.items ≡ take place bytes.old.items ++ suffix.now) }
    ensures err { OnErr result (bytes.new.items ≡ bytes.old.items) }
{
    bytes.reserve(suffix.len())?;
    bytes.truncate(place);
    bytes.extend_from_slice(suffix).unwrap();
    Ok(())
}
