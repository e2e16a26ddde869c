// The law of groups, as a call that does nothing.
ghost use Rattle.common_groups.specs.Runs.{GroupsAreRuns, GivesItsSource};

use crate::GroupByIterator;

/// Groups that are each read to their end, until there is none, are the maximal runs of equal keys, where the key depends on the
/// item alone. Their items are all that the source gave, in its order.
pub fn groups_are_runs<I: Iterator, F: FnMut(&I::Item) -> K, K: Copy + Eq>(
    _groups: &GroupByIterator<I, F, K>,
)
where
    I::Item: Drop,
    ensures runs { GroupsAreRuns I.can_next F.IsAlwaysCallable I.remaining I.next_gives F.FnMut K.eq _groups.now }
    ensures all { GivesItsSource I.next_gives _groups.now }
{}
