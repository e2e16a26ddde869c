// Addresses in an arena.
ghost use Rattle.std.specs.Prelude.{◌≡◌, ℕ, ◌+◌, ◌%◌, ◌^◌, ◌<◌, ◌==◌};
ghost use Rattle.tantivy_stacker.specs.Arena.{null_address};

use std::marker::Model;

/// A place in an arena: the number of its page times 2^20, plus the place on the page.
#[derive(Clone, Copy, Debug)]
pub struct Addr(u32);

impl Model for Addr {
    ghost Value = { ℕ };

    ghost view = { λ a. a.0 };

    ghost invariant = { λ a. a.0 < 2 ^ 32 };

    ghost inverse = { λ p. record { 0 = p } };
}

impl Addr {
    /// The address that no space has.
    pub fn null_pointer() -> Addr
        ensures { result ≡ null_address }
    {
        Addr(u32::MAX)
    }

    /// The address so many bytes further, which wraps around at 2^32.
    pub fn offset(self, offset: u32) -> Addr
        ensures { result ≡ (self + offset) % 2 ^ 32 }
    {
        Addr(self.0.wrapping_add(offset))
    }

    /// Whether this is the address that no space has.
    pub fn is_null(self) -> bool
        ensures { result ≡ (self == null_address) }
    {
        self.0 == u32::MAX
    }

    // The address of this number.
    pub(crate) fn from_number(number: u32) -> Addr
        ensures { result ≡ number }
    {
        Addr(number)
    }

    // The number of the page times 2^20, plus the place on the page.
    pub(crate) fn number(self) -> u32
        ensures { result ≡ self }
    {
        self.0
    }
}
