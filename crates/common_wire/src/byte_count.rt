// Numbers of bytes.
ghost use Rattle.std.specs.Prelude.{◌≡◌, ◌+◌, ◌-◌, ◌*◌, ◌/◌, ◌<◌, ◌≤◌, ◌^◌, sum, IfOk, IfNone, IfSome, string_bytes};
ghost use Rattle.common_wire.specs.ByteText.{byte_text, unit_of, unit_name, hundredths};

use std::alloc::{AllocError, Global};
use std::fmt;
use std::marker::Model;
use std::ops::{Add, AddAssign};

/// A number of bytes. Debug and Display print it as `human_readable` gives it.
#[derive(Clone, Copy, Default, PartialEq, Eq, PartialOrd, Ord)]
pub struct ByteCount(u64);

impl Model for ByteCount {
    ghost use Rattle.std.specs.Prelude.{ℕ};

    ghost Value = { ℕ };

    ghost view = { λ b. b.0 };

    ghost inverse = { λ n. record { 0 = n } };
}

impl ByteCount {
    /// The number.
    pub fn get_bytes(&self) -> u64
        ensures { result ≡ self.now }
    {
        self.0
    }

    /// The sum, and None exactly where it passes the greatest `u64`.
    pub fn total(items: &[ByteCount]) -> Option<ByteCount>
        ensures some { IfSome result (λ total. total ≡ sum items.now) }
        ensures none { IfNone result ((2 ^ 64) ≤ sum items.now) }
    {
        let mut total: u64 = 0;
        for item in items {
            match total.checked_add(item.0) {
                Some(more) => total = more,
                None => return None,
            }
        }
        Some(ByteCount(total))
    }
}

impl From<u64> for ByteCount {
    ghost from_gives = { λ n b. b ≡ n };

    fn from(n: u64) -> ByteCount {
        ByteCount(n)
    }
}

impl From<usize> for ByteCount {
    ghost from_gives = { λ n b. b ≡ n };

    fn from(n: usize) -> ByteCount {
        ByteCount(n as u64)
    }
}

impl Add for ByteCount {
    type Output = ByteCount;

    ghost can_add = { λ a b. a + b < 2 ^ 64 };

    ghost add_gives = { λ a b c. c ≡ a + b };

    fn add(self, other: ByteCount) -> ByteCount {
        ByteCount(self.0 + other.0)
    }
}

impl AddAssign for ByteCount {
    ghost can_add_assign = { λ a b. a + b < 2 ^ 64 };

    ghost add_assign_gives = { λ a b c. c ≡ a + b };

    fn add_assign(&mut self, other: ByteCount) {
        self.0 += other.0;
    }
}

// The greatest unit that isn't above the number.
fn unit(n: u64) -> u64
    ensures value { result ≡ unit_of n }
    ensures some { 1000 ≤ result }
    ensures bound { result ≤ 10 ^ 15 }
{
    if n < 1_000_000 {
        1_000
    } else if n < 1_000_000_000 {
        1_000_000
    } else if n < 1_000_000_000_000 {
        1_000_000_000
    } else if n < 1_000_000_000_000_000 {
        1_000_000_000_000
    } else {
        1_000_000_000_000_000
    }
}

// The name of that unit.
fn name(n: u64) -> &'static str
    ensures { result.now ≡ unit_name n }
{
    if n < 1_000_000 {
        "KB"
    } else if n < 1_000_000_000 {
        "MB"
    } else if n < 1_000_000_000_000 {
        "GB"
    } else if n < 1_000_000_000_000_000 {
        "TB"
    } else {
        "PB"
    }
}

#[tactic(auto, unfolding(crate::specs::ByteText::byte_text))]
impl fmt::Display for ByteCount {
    ghost use Rattle.std.specs.Prelude.{Some};
    ghost use Rattle.common_wire.specs.ByteText.{byte_text};

    ghost output = { λ b. Some (byte_text b) };

    fn fmt<W: fmt::Write>(&self, f: &mut fmt::Formatter<W>) -> fmt::Result {
        let n = self.0;
        if n < 1000 {
            return write!(f, "{n} B");
        }
        let unit = unit(n);
        let hundredths = n / unit * 100 + (n % unit * 100 + unit / 2) / unit;
        let whole = hundredths / 100;
        let tenth = hundredths / 10 % 10;
        let last = hundredths % 10;
        let name = name(n);
        write!(f, "{whole}.{tenth}{last} {name}")
    }
}

impl fmt::Debug for ByteCount {
    ghost use Rattle.std.specs.Prelude.{Some};
    ghost use Rattle.common_wire.specs.ByteText.{byte_text};

    ghost debug_output = { λ b. Some (byte_text b) };

    fn fmt<W: fmt::Write>(&self, f: &mut fmt::Formatter<W>) -> fmt::Result {
        fmt::Display::fmt(self, f)
    }
}

impl ByteCount {
    /// The text below 1,000 is the number and `B`. From there on it is two decimals, rounded half up, of the greatest of
    /// `KB`, `MB`, `GB`, `TB` and `PB`, powers of 1,000, that isn't above the number.
    pub fn human_readable(&self, alloc: Global) -> Result<String, AllocError>
        ensures { IfOk result (λ text. string_bytes text ≡ byte_text self.now) }
    {
        let count = *self;
        format!(in alloc; "{count}")
    }
}
