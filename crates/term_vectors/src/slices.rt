// Slices that are compared and copied by the fast calls as by the plain ones, at all lengths that these tell apart.
ghost use Rattle.std.specs.Prelude.{◌≡◌, IfOk, length};

use std::alloc::{AllocError, Global};
use std::test::Fail;
use tantivy_stacker::{fast_nbyte_slice_compare, fast_short_slice_compare, fast_short_slice_copy};

// So many bytes, of which the one at a place is another where there is one.
fn bytes_but_at(alloc: Global, len: usize, place: usize) -> Result<Vec<u8>, AllocError>
    ensures { IfOk result (λ bytes. length bytes.items ≡ len) }
{
    let mut bytes = vec![in alloc; 7u8; len]?;
    if place < len {
        bytes[place] = 8;
    }
    Ok(bytes)
}

// Whether the fast comparisons answer as the plain one.
fn agree(left: &[u8], right: &[u8]) -> bool {
    let plain = left == right;
    if left.len() != right.len() || left.len() < 4 {
        return fast_short_slice_compare(left, right) == plain;
    }
    fast_nbyte_slice_compare::<4>(left, right) == plain
        && fast_short_slice_compare(left, right) == plain
}

#[test]
fn slices_of_one_length(rt: HostRuntime) -> Result<(), Fail> {
    for row in 0..40 * 40 {
        let same = bytes_but_at(rt.alloc(), row / 40, 40)?;
        let other = bytes_but_at(rt.alloc(), row / 40, row % 40)?;
        assert!(rt; agree(same.as_slice(), other.as_slice()), "{row}");
    }
    Ok(())
}

#[test]
fn slices_of_two_lengths(rt: HostRuntime) -> Result<(), Fail> {
    for row in 0..40 * 40 {
        let left = bytes_but_at(rt.alloc(), row / 40, 40)?;
        let right = bytes_but_at(rt.alloc(), row % 40, 40)?;
        assert!(rt; agree(left.as_slice(), right.as_slice()), "{row}");
    }
    Ok(())
}

#[test]
fn copies(rt: HostRuntime) -> Result<(), Fail> {
    for row in 0..40 * 40 {
        let source = bytes_but_at(rt.alloc(), row / 40, row % 40)?;
        let mut copy = bytes_but_at(rt.alloc(), row / 40, 40)?;
        fast_short_slice_copy(source.as_slice(), copy.as_mut_slice());
        assert_eq!(rt; copy.as_slice(), source.as_slice());
    }
    Ok(())
}
