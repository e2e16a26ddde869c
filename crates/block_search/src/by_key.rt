// Looking for a key without making the keys.
ghost use Rattle.std.specs.Prelude.{◌<◌, ◌^◌, ℕ, IfErr};
ghost use Rattle.sstable_blocks.specs.Slices.{bytes_left};
ghost use Rattle.block_search.specs.ByKey.{LooksForKey};
ghost use Rattle.block_search.specs.Standing.{StandsWhereFound, TellsCompressed};

use sstable_blocks::{BlockError, DeltaKeyComparator, DeltaReader, ValueReader};
use std::cmp::Ordering;

/// Where a key stands among entries. The number is that of the keys below it.
#[derive(Clone, Copy, Debug, PartialEq, Eq)]
pub enum KeyHit {
    /// An entry has the key.
    Exact(u64),
    /// No entry has the key.
    Next(u64),
}

/// Looks for a key among the entries of one block or more, of which the reader gave none yet. At `Exact` the reader stands
/// at the entry of the key. It fails for want of memory, and where the bytes are no blocks.
pub fn find_key<T: ValueReader>(
    reader: &mut DeltaReader<T>,
    key: &[u8],
) -> Result<KeyHit, BlockError>
    requires { bytes_left reader.old < 2 ^ 64 }
    ensures found { LooksForKey T.codec reader.old reader.new key.now result }
    ensures stands { StandsWhereFound reader.new result }
    ensures compressed { IfErr result (TellsCompressed reader.old) }
{
    let mut comparator = DeltaKeyComparator::new();
    let mut below: u64 = 0;
    'entries: loop {
        match reader.advance() {
            Ok(true) => {}
            Ok(false) => return Ok(KeyHit::Next(below)),
            Err(e) => return Err(e),
        }
        match comparator.compare(key, reader.common_prefix_len(), reader.suffix()) {
            Ordering::Less => below += 1,
            Ordering::Equal => return Ok(KeyHit::Exact(below)),
            Ordering::Greater => return Ok(KeyHit::Next(below)),
        }
    }
}
