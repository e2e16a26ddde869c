// Machines that read byte strings byte by byte.
ghost use Rattle.std.specs.Prelude.{◌≡◌};
ghost use Rattle.fst_map.specs.Automaton.{Machine, IsLawful, IsTight, IsTightWithBoth, Takes, TakesEither, every_key, only, beginning_with, always, exact, prefixed, joint};

/// A machine that reads a byte string byte by byte, and says which it takes.
pub trait Automaton {
    type State: Copy;

    /// The machine as contracts see it.
    ghost machine: { Self → Machine Self.State };

    /// The state before the first byte.
    fn start(&self) -> Self::State
        ensures { result ≡ (machine self.now).start };

    /// The bytes read so far are taken.
    fn is_match(&self, state: &Self::State) -> bool
        ensures { result ≡ (machine self.now).is_match state.now };

    /// False only where neither this state nor any after it is a match. One that does not know answers true.
    fn can_match(&self, state: &Self::State) -> bool
        ensures { result ≡ (machine self.now).can_match state.now };

    /// True only where this state and each one after it are matches. One that does not know answers false.
    fn will_always_match(&self, state: &Self::State) -> bool
        ensures { result ≡ (machine self.now).will_always_match state.now };

    /// The state after one more byte.
    fn accept(&self, state: &Self::State, byte: u8) -> Self::State
        ensures { result ≡ (machine self.now).accept state.now byte };

    ghost lawful: { (automaton : Self) → IsLawful (machine automaton) };
}

/// Takes every key.
#[derive(Clone, Copy, Debug)]
pub struct AlwaysMatch;

/// The laws of `AlwaysMatch`, which has no constructor: it takes every key, and is tight.
pub fn always_match_laws(automaton: &AlwaysMatch)
    ensures language { Takes (⟦<AlwaysMatch as Automaton>⟧.machine automaton.now) every_key }
    ensures tight { IsTight (⟦<AlwaysMatch as Automaton>⟧.machine automaton.now) }
{
    let _ = automaton;
}

impl Automaton for AlwaysMatch {
    ghost use Rattle.fst_map.specs.Machines.{always-lawful};

    type State = ();

    ghost machine = { λ _. always };

    ghost lawful = { λ _. always-lawful };

    fn start(&self) {}

    fn is_match(&self, _state: &()) -> bool {
        true
    }

    fn can_match(&self, _state: &()) -> bool {
        true
    }

    fn will_always_match(&self, _state: &()) -> bool {
        true
    }

    fn accept(&self, _state: &(), _byte: u8) {}
}

/// Takes one key.
#[derive(Clone, Copy, Debug)]
pub struct Exact<'a> {
    key: &'a [u8],
}

impl<'a> Exact<'a> {
    /// Takes this key.
    pub fn new(key: &'a [u8]) -> Exact<'a>
        ensures language { Takes (⟦<Exact<'a> as Automaton>⟧.machine result) (only key.now) }
        ensures tight { IsTight (⟦<Exact<'a> as Automaton>⟧.machine result) }
    {
        Exact { key }
    }
}

impl Automaton for Exact<'_> {
    ghost use Rattle.fst_map.specs.Machines.{exact-lawful};

    /// How many bytes of the key were read; none where another byte came.
    type State = Option<usize>;

    ghost machine = { λ automaton. exact automaton.key.now };

    ghost lawful = { λ automaton. exact-lawful automaton.key.now };

    fn start(&self) -> Option<usize> {
        Some(0)
    }

    fn is_match(&self, state: &Option<usize>) -> bool {
        match state {
            Some(place) => self.key.len() <= *place,
            None => false,
        }
    }

    fn can_match(&self, state: &Option<usize>) -> bool {
        state.is_some()
    }

    fn will_always_match(&self, _state: &Option<usize>) -> bool {
        false
    }

    fn accept(&self, state: &Option<usize>, byte: u8) -> Option<usize> {
        match state {
            Some(place) if *place < self.key.len() && self.key[*place] == byte => Some(*place + 1),
            _ => None,
        }
    }
}

/// Takes the keys that begin with a prefix.
#[derive(Clone, Copy, Debug)]
pub struct StartsWith<'a> {
    prefix: &'a [u8],
}

impl<'a> StartsWith<'a> {
    /// Takes the keys that begin with this prefix.
    pub fn new(prefix: &'a [u8]) -> StartsWith<'a>
        ensures language { Takes (⟦<StartsWith<'a> as Automaton>⟧.machine result) (beginning_with prefix.now) }
        ensures tight { IsTight (⟦<StartsWith<'a> as Automaton>⟧.machine result) }
    {
        StartsWith { prefix }
    }
}

impl Automaton for StartsWith<'_> {
    ghost use Rattle.fst_map.specs.Machines.{prefixed-lawful};

    /// How many bytes of the prefix were read; none where another byte came.
    type State = Option<usize>;

    ghost machine = { λ automaton. prefixed automaton.prefix.now };

    ghost lawful = { λ automaton. prefixed-lawful automaton.prefix.now };

    fn start(&self) -> Option<usize> {
        Some(0)
    }

    fn is_match(&self, state: &Option<usize>) -> bool {
        match state {
            Some(place) => self.prefix.len() <= *place,
            None => false,
        }
    }

    fn can_match(&self, state: &Option<usize>) -> bool {
        state.is_some()
    }

    fn will_always_match(&self, state: &Option<usize>) -> bool {
        self.is_match(state)
    }

    fn accept(&self, state: &Option<usize>, byte: u8) -> Option<usize> {
        match state {
            None => None,
            Some(place) if self.prefix.len() <= *place => Some(*place),
            Some(place) if self.prefix[*place] == byte => Some(*place + 1),
            Some(_) => None,
        }
    }
}

/// Takes what one of two automata takes.
#[derive(Clone, Copy, Debug)]
pub struct Union<A, B> {
    left: A,
    right: B,
}

impl<A: Automaton, B: Automaton> Union<A, B> {
    /// Takes what `left` or `right` takes.
    pub fn new(left: A, right: B) -> Union<A, B>
        ensures language { TakesEither (A.machine left) (B.machine right) (⟦<Union<A, B> as Automaton>⟧.machine result) }
        ensures tight { IsTightWithBoth (A.machine left) (B.machine right) (⟦<Union<A, B> as Automaton>⟧.machine result) }
    {
        Union { left, right }
    }
}

impl<A: Automaton, B: Automaton> Automaton for Union<A, B> {
    ghost use Rattle.fst_map.specs.Machines.{joint-lawful};

    type State = (A::State, B::State);

    ghost machine = { λ automaton. joint (A.machine automaton.left) (B.machine automaton.right) };

    ghost lawful = { λ automaton. joint-lawful (A.machine automaton.left) (B.machine automaton.right) (A.lawful automaton.left) (B.lawful automaton.right) };

    fn start(&self) -> (A::State, B::State) {
        (self.left.start(), self.right.start())
    }

    fn is_match(&self, state: &(A::State, B::State)) -> bool {
        self.left.is_match(&state.0) || self.right.is_match(&state.1)
    }

    fn can_match(&self, state: &(A::State, B::State)) -> bool {
        self.left.can_match(&state.0) || self.right.can_match(&state.1)
    }

    fn will_always_match(&self, state: &(A::State, B::State)) -> bool {
        self.left.will_always_match(&state.0) || self.right.will_always_match(&state.1)
    }

    fn accept(&self, state: &(A::State, B::State), byte: u8) -> (A::State, B::State) {
        (
            self.left.accept(&state.0, byte),
            self.right.accept(&state.1, byte),
        )
    }
}
