// Going over the entries of a map.
ghost use Rattle.std.specs.Prelude.{◌≡◌};
ghost use Rattle.std.specs.Iterator.{YieldsFirstBy, item_count};

use crate::opened::Fst;
use std::marker::Model;

/// The entries of a map in the order of their keys. Contracts see the list of those that are left; at its end it stays.
#[derive(Drop)]
pub struct Walk<'a> {
    fst: &'a Fst,
    next: usize,
}

impl<'a> Model for Walk<'a> {
    ghost use Rattle.std.specs.Prelude.{List, ℕ, ◌≤◌, drop, length};

    ghost Value = { List (List ℕ × ℕ) };

    ghost view = { λ w. drop w.next w.fst.now };

    ghost invariant = { λ w. w.next ≤ length w.fst.now };
}

impl<'a> Walk<'a> {
    pub(crate) fn new(fst: &'a Fst) -> Walk<'a>
        ensures { result ≡ fst.now }
    {
        Walk { fst, next: 0 }
    }
}

impl<'a> Iterator for Walk<'a> {
    type Item = (&'a [u8], u64);

    ghost next_gives = { YieldsFirstBy (λ entry. (entry.0.now, entry.1)) (λ left. left) };

    ghost remaining = { item_count (λ left. left) };

    fn next(&mut self) -> Option<(&'a [u8], u64)> {
        let fst = self.fst;
        let i = self.next;
        if i == fst.len() {
            return None;
        }
        self.next = i + 1;
        Some((fst.key(i), fst.value(i)))
    }
}
