// A bound of keys, and how the last key stands against it.
ghost use Rattle.std.specs.Prelude.{◌≡◌, Some, None, IfSome, IfNone, []};
ghost use Rattle.sstable_streams.specs.Between as between;
ghost use Rattle.sstable_streams.specs.Bounds.{bound_key};

use sstable_blocks::DeltaKeyComparator;
use std::cmp::Ordering;
use std::ops::Bound;

// The key that a bound is at, where it is at one.
fn target_of(bound: &Bound<Vec<u8>>) -> Option<&[u8]>
    ensures some { IfSome result (λ target. between.target_of (bound_key bound.now) ≡ Some target.now) }
    ensures none { IfNone result (between.target_of (bound_key bound.now) ≡ None) }
{
    match bound {
        Bound::Included(target) | Bound::Excluded(target) => Some(target.as_slice()),
        Bound::Unbounded => None,
    }
}

/// A bound of keys that are told by what each keeps of the one before and what it adds.
#[derive(Drop)]
pub(crate) struct Edge {
    bound: Bound<Vec<u8>>,
    comparator: DeltaKeyComparator,
    // of the last key against the bound's
    order: Ordering,
}

impl Edge {
    ghost use Rattle.sstable_streams.specs.Knowing.{IsBeside, GoesBeside, TellsAbove, TellsBelow};
    ghost use Rattle.sstable_streams.specs.Places.{beside_of};

    /// A bound before the first key.
    pub fn new(bound: Bound<Vec<u8>>) -> Self
        ensures bound { (beside_of result).bound ≡ bound_key bound }
        ensures beside { IsBeside (beside_of result) [] }
    {
        let mut comparator = DeltaKeyComparator::new();
        let order = match target_of(&bound) {
            Some(target) => comparator.compare_prefix_and_suffix(target, b"", b""),
            None => Ordering::Less,
        };
        Edge {
            bound,
            comparator,
            order,
        }
    }

    /// Goes to the next key. One behind a key above the bound's lies above it too.
    pub fn follow(&mut self, keep: usize, suffix: &[u8])
        ensures bound { self.new.bound ≡ self.old.bound }
        ensures beside { GoesBeside (beside_of self.old) (beside_of self.new) keep suffix.now }
    {
        if self.order == Ordering::Greater {
            return;
        }
        if let Some(target) = target_of(&self.bound) {
            self.order = self.comparator.compare(target, keep, suffix);
        }
    }

    /// Whether the last key lies above this, which is a lower bound.
    pub fn is_above_lower(&self) -> bool
        ensures { TellsAbove (beside_of self.now) result }
    {
        match &self.bound {
            Bound::Included(_) => self.order != Ordering::Less,
            Bound::Excluded(_) => self.order == Ordering::Greater,
            Bound::Unbounded => true,
        }
    }

    /// Whether the last key lies below this, which is an upper bound.
    pub fn is_below_upper(&self) -> bool
        ensures { TellsBelow (beside_of self.now) result }
    {
        match &self.bound {
            Bound::Included(_) => self.order != Ordering::Greater,
            Bound::Excluded(_) => self.order == Ordering::Less,
            Bound::Unbounded => true,
        }
    }
}
