// Groups of the items of an iterator.
ghost use Rattle.std.specs.Prelude.{◌≡◌, None, IfSome, IfNone, false, []};
ghost use Rattle.std.specs.Option.{option_map};
ghost use Rattle.common_groups.specs.Groups.{source, has_ended, key_of, held, held_key, IsReady, KeysAre, Gives, CanRead, KeepsLeft, IsLast, without_held};
ghost use Rattle.common_groups.specs.Steps.{Begins, groups_name, group_key};

/// The items of an iterator in groups.
pub trait GroupByIteratorExtended: Iterator {
    /// Groups the items by the key that `key` gives: items that follow each other and have equal keys are of one group.
    final fn group_by<K: Copy + PartialEq, F: FnMut(&Self::Item) -> K>(
        self,
        key: F,
    ) -> GroupByIterator<Self, F, K>
    where
        Self: Sized,
        Self::Item: Drop,
        ensures source { source result ≡ self }
        ensures ended { has_ended result ≡ false }
        ensures key { key_of result ≡ key }
        ensures held { held result ≡ None }
    {
        GroupByIterator {
            items: self,
            ended: false,
            held: None,
            key,
        }
    }
}

impl<I: Iterator> GroupByIteratorExtended for I {}

/// The groups of an iterator's items, lent one by one.
#[derive(Drop)]
pub struct GroupByIterator<I: Iterator, F, K>
where
    I::Item: Drop,
{
    items: I,
    ended: bool,
    // The next item and its key, where it was read already.
    held: Option<(K, I::Item)>,
    key: F,
}

impl<I: Iterator, F: FnMut(&I::Item) -> K, K: Copy + PartialEq + Drop> GroupByIterator<I, F, K>
where
    I::Item: Drop,
{
    /// The next group, with its key: the next item is of it. What is left of the last group is in this one.
    pub fn next_group(&mut self) -> Option<(K, GroupIterator<'_, I, F, K>)>
        requires { CanRead I.can_next F.IsAlwaysCallable self.old }
        ensures same_reference { IfSome result (λ p. groups_name p ≡ self.entry.ghost_name) }
        ensures key { IfSome result (λ p. group_key p.1 ≡ p.0) }
        ensures begins { IfSome result (Begins I.can_next F.IsAlwaysCallable I.remaining I.next_gives F.FnMut self.old) }
        ensures none { IfNone result (IsLast I.can_next F.IsAlwaysCallable I.remaining I.next_gives F.FnMut self.old) }
    {
        let key = self.fill()?;
        Some((key, GroupIterator { groups: self, key }))
    }

    // Reads the next item, where it is not read already, and gives its key.
    fn fill(&mut self) -> Option<K>
        requires { CanRead I.can_next F.IsAlwaysCallable self.old }
        ensures can_read { CanRead I.can_next F.IsAlwaysCallable self.new }
        ensures gives { Gives I.next_gives self.old [] self.new }
        ensures keys { (h : I.Item → K) → KeysAre F.FnMut h self.old → KeysAre F.FnMut h self.new }
        ensures key { held_key self.new ≡ result }
        ensures ready { IsReady self.new }
        ensures stays { IsReady self.old → self.new ≡ self.old }
        ensures kept { KeepsLeft I.remaining self.old self.new }
    {
        match &self.held {
            Some((key, _)) => return Some(*key),
            None => {}
        }
        if self.ended {
            return None;
        }
        match self.items.next() {
            Some(item) => {
                let key = (self.key)(&item);
                self.held = Some((key, item));
                Some(key)
            }
            None => {
                self.ended = true;
                None
            }
        }
    }

    // Gives the item that is read already.
    fn take(&mut self) -> Option<I::Item>
        ensures item { result ≡ option_map (λ p. p.1) (held self.old) }
        ensures rest { self.new ≡ without_held self.old }
    {
        let (_, item) = self.held.take()?;
        Some(item)
    }
}

/// The items of a group.
#[derive(Drop)]
pub struct GroupIterator<'a, I: Iterator, F, K>
where
    I::Item: Drop,
{
    groups: &'a mut GroupByIterator<I, F, K>,
    key: K,
}

impl<I: Iterator, F: FnMut(&I::Item) -> K, K: Copy + PartialEq> Iterator
    for GroupIterator<'_, I, F, K>
where
    I::Item: Drop,
{
    type Item = I::Item;

    ghost use Rattle.std.specs.Prelude.{◌≡◌};
    ghost use Rattle.common_groups.specs.Steps.{group_can, group_steps, group_left};

    ghost can_next = { group_can I.can_next F.IsAlwaysCallable };

    ghost next_gives = { group_steps I.next_gives F.FnMut K.eq };

    ghost remaining = { group_left I.remaining };

    fn next(&mut self) -> Option<I::Item> {
        let key = self.groups.fill()?;
        if self.key == key {
            return self.groups.take();
        }
        None
    }
}
