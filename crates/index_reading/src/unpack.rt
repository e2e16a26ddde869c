// Numbers of documents from packed bytes.
ghost use Rattle.std.specs.Prelude.{◌≤◌, ◌+◌, ◌*◌, ◌↔◌, length, IsTrue};
ghost use Rattle.tantivy_bitpacker.specs.Packed.{unpacked_from};
ghost use Rattle.index_reading.specs.Opened.{AreNumbers};
ghost use Rattle.index_reading.specs.Numbers.{GivesNumbers};

use crate::IndexError;
use owned_bytes::Ids;
use std::alloc::Global;
use tantivy_bitpacker::BitUnpacker;

// Whether the values are numbers of so many documents, in rising order.
fn are_numbers(values: &[u32], documents: u32) -> bool
    ensures { IsTrue result ↔ AreNumbers documents values.now }
{
    let mut least = 0u64;
    for &value in values {
        if (value as u64) < least || value >= documents {
            return false;
        }
        least = value as u64 + 1;
    }
    true
}

// The numbers from the place `first` on, which shall be rising numbers of documents.
pub(crate) fn numbers_in(
    alloc: Global,
    width: u8,
    first: u32,
    count: u32,
    documents: u32,
    bytes: &[u8],
) -> Result<Ids, IndexError>
    requires narrow { width ≤ 32 }
    requires within { (first + count) * width ≤ 8 * length bytes.now }
    ensures { GivesNumbers documents (unpacked_from first count width bytes.now) result }
{
    let numbers = BitUnpacker::new(width).numbers_u32(alloc, first, count, bytes)?;
    if !are_numbers(numbers.as_slice(), documents) {
        return Err(IndexError::Corrupt);
    }
    Ok(Ids::from_vec(numbers))
}
