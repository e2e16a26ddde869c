// Comparing keys with a target without making the keys.
ghost use Rattle.std.specs.Prelude.{◌≡◌, ◌≤◌, ◌++◌, ℕ, [], length};
ghost use Rattle.owned_bytes.specs.Keys.{Key, shared};
ghost use Rattle.sstable_blocks.specs.Comparing.{order, Follows, Compares, ComparesBehind, ComparesNext};

use std::cmp::Ordering;
use std::marker::Model;

// How many bytes two byte strings have in common from the front on, and their order. No byte is looked at twice.
fn compare_bytes(left: &[u8], right: &[u8]) -> (usize, Ordering)
    ensures common { result.0 ≡ shared left.now right.now }
    ensures order { result.1 ≡ order left.now right.now }
    ensures within { result.0 ≤ length right.now }
{
    let most = left.len().min(right.len());
    for i in 0..most {
        let found = left[i].cmp(&right[i]);
        if found != Ordering::Equal {
            return (i, found);
        }
    }
    (most, left.len().cmp(&right.len()))
}

// Compares the key that begins with the target's first bytes, as many as are matched, and goes on with the suffix. It
// answers how many are matched then.
fn compare_behind(matched: usize, target: &[u8], suffix: &[u8]) -> (usize, Ordering)
    ensures { ComparesBehind matched result.0 target.now suffix.now result.1 }
{
    if target.len() < matched {
        return (matched, Ordering::Greater);
    }
    let (more, answer) = compare_bytes(suffix, &target[matched..]);
    (matched + more, answer)
}

// Compares the key after the last one, which has so many bytes in common with the target.
fn compare_next(matched: usize, target: &[u8], keep: usize, suffix: &[u8]) -> (usize, Ordering)
    ensures { ComparesNext matched result.0 target.now keep suffix.now result.1 }
{
    if keep == 0 {
        return compare_behind(0, target, suffix);
    }
    match keep.cmp(&matched) {
        // It differs from the last key where that agrees with the target.
        Ordering::Less => (keep, Ordering::Greater),
        Ordering::Equal => compare_behind(matched, target, suffix),
        // It differs from the target where the last key did.
        Ordering::Greater => (matched, Ordering::Less),
    }
}

/// Compares keys with one target. Each key is given by how many bytes it keeps of the key before it, and the bytes that
/// follow them; no key is made. Contracts see how many bytes the last key has in common with the target.
#[derive(Drop)]
pub struct DeltaKeyComparator {
    matched: usize,
}

impl Model for DeltaKeyComparator {
    ghost Value = { ℕ };

    ghost view = { λ comparator. comparator.matched };
}

impl DeltaKeyComparator {
    /// A comparator before the first key: it is as after the empty key.
    pub fn new() -> Self
        ensures { (target : Key) → Follows result target [] }
    {
        DeltaKeyComparator { matched: 0 }
    }

    /// The order of the next key against the target.
    pub fn compare(&mut self, target: &[u8], common_prefix_len: usize, suffix: &[u8]) -> Ordering
        ensures { ComparesNext self.old self.new target.now common_prefix_len suffix.now result }
    {
        let (matched, answer) = compare_next(self.matched, target, common_prefix_len, suffix);
        self.matched = matched;
        answer
    }

    /// The order of the next key against the target, as `compare` gives it.
    pub fn compare_across_blocks(
        &mut self,
        target: &[u8],
        common_prefix_len: usize,
        suffix: &[u8],
    ) -> Ordering
        ensures { ComparesNext self.old self.new target.now common_prefix_len suffix.now result }
    {
        self.compare(target, common_prefix_len, suffix)
    }

    /// The order of a whole key against the target, which is given in two parts. What keys came before doesn't matter.
    pub fn compare_prefix_and_suffix(
        &mut self,
        target: &[u8],
        prefix: &[u8],
        suffix: &[u8],
    ) -> Ordering
        ensures { Compares target.now (prefix.now ++ suffix.now) result self.new }
    {
        let (matched, answer) = compare_behind(0, target, prefix);
        self.matched = matched;
        if answer == Ordering::Greater {
            return answer;
        }
        if suffix.is_empty() {
            return answer;
        }
        self.compare(target, prefix.len(), suffix)
    }
}
