// Readers and writers of a block's values.
ghost use Rattle.std.specs.Prelude.{◌≡◌, ℕ, ◌++◌, Some, IfErr, OnOk, OnErr, IsTrue};
ghost use Rattle.std.specs.Io.{StartsWith};
ghost use Rattle.sstable_values.specs.Values.{Values, HasPlace, Gains, value_at, count_of};
ghost use Rattle.sstable_values.specs.Codec.{Codec, no_values, rising_numbers, rising_numbers_at, never_falls};
ghost use Rattle.sstable_values.specs.Reads.{Took, ReadsAgain};
ghost use Rattle.sstable_values.specs.Writes.{RefusesValue, AreReadAgain};

use crate::errors::{BlockError, ValueError};
use crate::vint;
use std::alloc::{AllocError, Global};
use std::ops::Range;

/// A value that tables store.
pub trait StoredValue {
    /// What contracts see of it, which is nothing of where it lies in memory.
    type Shown;

    /// What contracts see of a value.
    ghost shown: { Self → Self.Shown };
}

impl StoredValue for () {
    type Shown = ();

    ghost shown = { λ v. v };
}

impl StoredValue for u64 {
    type Shown = u64;

    ghost shown = { λ n. n };
}

impl StoredValue for Range<u64> {
    type Shown = Range<u64>;

    ghost shown = { λ range. range };
}

/// Reads the values of a block.
pub trait ValueReader: Sized {
    /// The values that it reads.
    type Value: StoredValue;

    /// How the values are stored.
    ghost codec: { Codec Self.Value.Shown };

    /// The values that the last load gave.
    ghost loaded: { Self → Values Self.Value.Shown };

    /// A reader before its first load.
    fn new(alloc: Global) -> Self
        ensures { loaded result ≡ no_values codec };

    /// The value at a place of the block.
    fn value(&self, idx: usize) -> &Self::Value
        requires { HasPlace (loaded self.now) idx }
        ensures { value_at (loaded self.now) idx ≡ Some (Self.Value.shown result.now) };

    /// How many values there are; `None` where every place has one.
    fn count(&self) -> Option<usize>
        ensures { result ≡ count_of (loaded self.now) };

    /// Reads the values at the front of a block's content, and answers how many bytes they take. After an error it stands
    /// as before its first load.
    fn load(&mut self, content: &[u8]) -> Result<usize, BlockError>
        ensures took { Took result codec.values_of content.now (loaded self.new) }
        ensures err { OnErr result (loaded self.new ≡ no_values codec) };
}

/// Gathers the values of a block.
pub trait ValueWriter: Sized {
    /// The values that it gathers.
    type Value: StoredValue;

    /// How the values are stored.
    ghost codec: { Codec Self.Value.Shown };

    /// The values written since the writer was made or cleared.
    ghost written: { Self → Values Self.Value.Shown };

    /// A writer before its first value.
    fn new(alloc: Global) -> Self
        ensures { written result ≡ no_values codec };

    /// Whether `write` would take the value.
    fn accepts(&self, val: &Self::Value) -> bool
        ensures { result ≡ codec.accepts (written self.now) (Self.Value.shown val.now) };

    /// Takes a value. An error changes nothing.
    fn write(&mut self, val: &Self::Value) -> Result<(), ValueError>
        ensures ok { OnOk result (Gains (written self.old) (Self.Value.shown val.now) (written self.new)) }
        ensures accepted { OnOk result (IsTrue (codec.accepts (written self.old) (Self.Value.shown val.now))) }
        ensures refused { IfErr result (RefusesValue codec (written self.old) (Self.Value.shown val.now)) }
        ensures err { OnErr result (written self.new ≡ written self.old) };

    /// Appends the values' bytes. After an error the output may have more behind what it held.
    fn serialize_block(&self, output: &mut Vec<u8>) -> Result<(), AllocError>
        ensures ok { OnOk result (output.new.items ≡ output.old.items ++ codec.spelled (written self.now)) }
        ensures again { OnOk result (AreReadAgain codec (written self.now)) }
        ensures err { OnErr result (StartsWith output.new.items output.old.items) };

    /// Forgets the values.
    fn clear(&mut self)
        ensures { written self.new ≡ no_values codec };
}

// Appends numbers that don't fall: how many, and the difference of each from the one before it.
pub(crate) fn write_rising(numbers: &[u64], output: &mut Vec<u8>) -> Result<(), AllocError>
    requires { IsTrue (never_falls 0 numbers.now) }
    ensures ok { OnOk result (output.new.items ≡ output.old.items ++ rising_numbers numbers.now) }
    ensures again { OnOk result (ReadsAgain rising_numbers_at (rising_numbers numbers.now) numbers.now) }
    ensures err { OnErr result (StartsWith output.new.items output.old.items) }
{
    vint::serialize_into_vec(numbers.len() as u64, output)?;
    let mut before: u64 = 0;
    for number in numbers {
        vint::serialize_into_vec(*number - before, output)?;
        before = *number;
    }
    Ok(())
}
