// The blocks of an index that an automaton may need, one after the other.
ghost use Rattle.std.specs.Prelude.{◌≡◌, ◌<◌, length, slice_get, IfSome};
ghost use Rattle.std.specs.Iterator.{YieldsFirstBy, item_count};
ghost use Rattle.chosen_blocks.specs.Chosen.{IndexOf, blocks_for};
ghost use Rattle.chosen_blocks.specs.Blocks.{TellsNeeded, FindsNext};

use fst_map::{Automaton, may_take_within};
use std::marker::Model;

/// An index of blocks, in their order: for each block its index key and its address. A block's keys lie above the index
/// key of the block before, where there is one, and not above its own.
pub trait BlockIndex {
    /// Where a block stands.
    type Address;

    /// The index keys and the addresses.
    ghost blocks: { Self → IndexOf Self.Address };

    /// How many blocks there are.
    fn num_blocks(&self) -> usize
        ensures { result ≡ length (blocks self.now) };

    /// The index key of a block.
    fn block_key(&self, number: usize) -> &[u8]
        requires { number < length (blocks self.now) }
        ensures { IfSome (slice_get (blocks self.now) number) (λ block. result.now ≡ block.0) };

    /// The address of a block.
    fn block_address(&self, number: usize) -> Self::Address
        requires { number < length (blocks self.now) }
        ensures { IfSome (slice_get (blocks self.now) number) (λ block. result ≡ block.1) };
}

// Whether the automaton may take a key that lies above the index key before the block, and not above its own.
fn is_needed<I: BlockIndex, A: Automaton>(index: &I, automaton: &A, number: usize) -> bool
    requires { number < length (I.blocks index.now) }
    ensures { TellsNeeded (A.machine automaton.now) (I.blocks index.now) number result }
{
    if number == 0 {
        return may_take_within(automaton, None, index.block_key(0));
    }
    may_take_within(
        automaton,
        Some(index.block_key(number - 1)),
        index.block_key(number),
    )
}

// The number of the first needed block from a number on.
fn next_needed<I: BlockIndex, A: Automaton>(index: &I, automaton: &A, from: usize) -> Option<usize>
    ensures { FindsNext (A.machine automaton.now) (I.blocks index.now) from result }
{
    for number in from..index.num_blocks() {
        if is_needed(index, automaton, number) {
            return Some(number);
        }
    }
    None
}

/// The blocks of an index that an automaton may need, each with its number. Contracts see those that are still to come.
#[derive(Drop)]
pub struct BlocksForAutomaton<'a, I: BlockIndex, A: Automaton> {
    index: &'a I,
    automaton: &'a A,
    number: usize,
}

impl<'a, I: BlockIndex, A: Automaton> Model for BlocksForAutomaton<'a, I, A> {
    ghost use Rattle.std.specs.Prelude.{ℕ, List};
    ghost use Rattle.chosen_blocks.specs.Blocks.{rest_from};

    ghost Value = { List (ℕ × I.Address) };

    ghost view = { λ s. rest_from (A.machine s.automaton.now) (I.blocks s.index.now) s.number };
}

impl<'a, I: BlockIndex, A: Automaton> BlocksForAutomaton<'a, I, A> {
    /// All blocks of the index that the automaton may need.
    pub fn new(index: &'a I, automaton: &'a A) -> Self
        ensures { result ≡ blocks_for (A.machine automaton.now) (I.blocks index.now) }
    {
        BlocksForAutomaton {
            index,
            automaton,
            number: 0,
        }
    }
}

impl<'a, I: BlockIndex, A: Automaton> Iterator for BlocksForAutomaton<'a, I, A> {
    type Item = (u64, I::Address);

    ghost next_gives = { YieldsFirstBy (λ block. block) (λ left. left) };

    ghost remaining = { item_count (λ left. left) };

    fn next(&mut self) -> Option<(u64, I::Address)> {
        let len = self.index.num_blocks();
        let Some(number) = next_needed(self.index, self.automaton, self.number) else {
            self.number = len;
            return None;
        };
        self.number = number + 1;
        Some((number as u64, self.index.block_address(number)))
    }
}
