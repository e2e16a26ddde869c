// What is known of the last key: the states of an automaton along it, how it stands against two bounds, and the key
// itself where it is kept.
ghost use Rattle.std.specs.Prelude.{◌≡◌, ◌+◌, take, OnOk, IfOk};
ghost use Rattle.sstable_streams.specs.Bounds.{bound_key};
ghost use Rattle.sstable_streams.specs.States.{IsLastState, FollowsStates};

use crate::edge::Edge;
use common_wire::KeyTracking;
use fst_map::Automaton;
use std::alloc::{AllocError, Global};
use std::ops::Bound;

// The states after the first bytes of a key, as many as these, stay.
fn keep_front<St: Drop>(states: &mut Vec<St>, keep: usize)
    ensures { states.new.items ≡ take (keep + 1) states.old.items }
{
    if keep < states.len() {
        states.truncate(keep + 1);
    }
}

// The state after a whole key.
fn last_state<A: Automaton>(automaton: &A, states: &[A::State]) -> A::State
    ensures { IsLastState (A.machine automaton.now) states.now result }
{
    match states.last() {
        Some(state) => *state,
        None => automaton.start(),
    }
}

// The states along a key become those along its first bytes and a suffix.
fn follow_states<A: Automaton>(
    automaton: &A,
    states: &mut Vec<A::State>,
    keep: usize,
    suffix: &[u8],
) -> Result<(), AllocError>
    ensures { OnOk result (FollowsStates (A.machine automaton.now) states.old.items states.new.items keep suffix.now) }
{
    keep_front(states, keep);
    let mut state = last_state(automaton, states.as_slice());
    for byte in suffix {
        state = automaton.accept(&state, *byte);
        states.push(state)?;
    }
    Ok(())
}

/// What is known of the last key.
#[derive(Drop)]
pub(crate) struct Trail<A, K, St> {
    automaton: A,
    lower: Edge,
    upper: Edge,
    // after each front of the key
    states: Vec<St>,
    pub key: K,
}

impl<A: Automaton + Drop, K: KeyTracking> Trail<A, K, A::State> {
    ghost use Rattle.sstable_streams.specs.Places.{BeginsTrail};

    /// Before the first key.
    pub fn new(
        alloc: Global,
        automaton: A,
        lower: Bound<Vec<u8>>,
        upper: Bound<Vec<u8>>,
    ) -> Result<Self, AllocError>
        ensures { IfOk result (BeginsTrail A.machine K.tracked automaton (bound_key lower) (bound_key upper)) }
    {
        let mut states = Vec::new(alloc);
        states.push(automaton.start())?;
        Ok(Trail {
            automaton,
            lower: Edge::new(lower),
            upper: Edge::new(upper),
            states,
            key: K::make_default(alloc),
        })
    }
}

impl<A: Automaton, K: KeyTracking> Trail<A, K, A::State> {
    ghost use Rattle.sstable_streams.specs.Knowing.{TellsUnder, TellsMatch, TellsTaken};
    ghost use Rattle.sstable_streams.specs.Places.{known_of, AsksForSame, GoesWith};

    /// Goes to the next key, which keeps so much of the last one and adds a suffix.
    pub fn follow(&mut self, keep: usize, suffix: &[u8]) -> Result<(), AllocError>
        ensures same { OnOk result (AsksForSame A.machine K.tracked self.old self.new) }
        ensures knows { OnOk result (GoesWith A.machine K.tracked self.old self.new keep suffix.now) }
    {
        follow_states(&self.automaton, &mut self.states, keep, suffix)?;
        self.key.update_with_prefix(keep, suffix)?;
        self.lower.follow(keep, suffix);
        self.upper.follow(keep, suffix);
        Ok(())
    }

    /// Whether the key lies below the upper bound.
    pub fn is_below_upper(&self) -> bool
        ensures { TellsUnder (known_of A.machine K.tracked self.now) result }
    {
        self.upper.is_below_upper()
    }

    /// Whether the key lies above the lower bound, and the automaton takes it.
    pub fn is_taken(&self) -> bool
        ensures { TellsTaken (known_of A.machine K.tracked self.now) result }
    {
        self.lower.is_above_lower() && self.is_match()
    }

    // Whether the automaton takes the key.
    fn is_match(&self) -> bool
        ensures { TellsMatch (known_of A.machine K.tracked self.now) result }
    {
        let state = last_state(&self.automaton, self.states.as_slice());
        self.automaton.is_match(&state)
    }
}
