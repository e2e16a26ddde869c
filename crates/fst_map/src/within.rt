// Whether an automaton may take a key between two others.
ghost use Rattle.std.specs.Prelude.{◌≡◌, ◌≤◌, Some};
ghost use Rattle.std.specs.Option.{option_copied};
ghost use Rattle.fst_map.specs.Within.{MissesNone, NeedsEach, leads_on, may_take_up_to, may_take_above, may_take_apart, may_take_between, may_take_within};

use crate::automaton::Automaton;

// Whether a byte from `first` on and before `end` leads from the state to one that can match.
fn leads_on<A: Automaton>(automaton: &A, state: &A::State, first: u16, end: u16) -> bool
    requires { end ≤ 256 }
    ensures { result ≡ leads_on (A.machine automaton.now) state.now first end }
{
    for byte in first..end {
        if automaton.can_match(&automaton.accept(state, byte as u8)) {
            return true;
        }
    }
    false
}

// Whether the automaton may go on from the state to a key that is not above `upper`.
fn may_take_up_to<A: Automaton>(automaton: &A, from: A::State, upper: &[u8]) -> bool
    ensures { result ≡ may_take_up_to (A.machine automaton.now) from upper.now }
{
    let mut state = from;
    for byte in upper {
        if !automaton.can_match(&state) {
            return false;
        }
        if automaton.is_match(&state) || leads_on(automaton, &state, 0, *byte as u16) {
            return true;
        }
        state = automaton.accept(&state, *byte);
    }
    automaton.is_match(&state)
}

// Whether the automaton may go on from the state to a key above `lower`.
fn may_take_above<A: Automaton>(automaton: &A, from: A::State, lower: &[u8]) -> bool
    ensures { result ≡ may_take_above (A.machine automaton.now) from lower.now }
{
    let mut state = from;
    for byte in lower {
        if !automaton.can_match(&state) {
            return false;
        }
        if leads_on(automaton, &state, *byte as u16 + 1, 256) {
            return true;
        }
        state = automaton.accept(&state, *byte);
    }
    automaton.can_match(&state) && leads_on(automaton, &state, 0, 256)
}

// Whether the automaton may go on from the state to a key between two that have no first byte in common.
fn may_take_apart<A: Automaton>(automaton: &A, state: &A::State, lower: &[u8], upper: &[u8]) -> bool
    ensures { result ≡ may_take_apart (A.machine automaton.now) state.now lower.now upper.now }
{
    let Some((end, after_end)) = upper.split_first() else {
        return false;
    };
    if !automaton.can_match(state) {
        return false;
    }
    let Some((first, after_first)) = lower.split_first() else {
        return leads_on(automaton, state, 0, *end as u16)
            || may_take_up_to(automaton, automaton.accept(state, *end), after_end);
    };
    first < end
        && (leads_on(automaton, state, *first as u16 + 1, *end as u16)
            || may_take_above(automaton, automaton.accept(state, *first), after_first)
            || may_take_up_to(automaton, automaton.accept(state, *end), after_end))
}

// Whether the automaton may take a key above `lower` and not above `upper`.
fn may_take_between<A: Automaton>(automaton: &A, lower: &[u8], upper: &[u8]) -> bool
    ensures answer { result ≡ may_take_between (A.machine automaton.now) (A.machine automaton.now).start lower.now upper.now }
    ensures complete { MissesNone (A.machine automaton.now) (Some lower.now) upper.now result }
    ensures tight { NeedsEach (A.machine automaton.now) (Some lower.now) upper.now result }
{
    let mut state = automaton.start();
    let mut place = 0;
    while place < lower.len() && place < upper.len() && lower[place] == upper[place] {
        state = automaton.accept(&state, lower[place]);
        place += 1;
    }
    may_take_apart(automaton, &state, &lower[place..], &upper[place..])
}

/// Whether a block may hold a key that the automaton takes, by the index key before the block, none for the first one,
/// and its own index key: a key above `lower` and not above `upper`. It makes at most 256 steps of the automaton for each
/// byte of the two keys.
pub fn may_take_within<A: Automaton>(automaton: &A, lower: Option<&[u8]>, upper: &[u8]) -> bool
    ensures answer { result ≡ may_take_within (A.machine automaton.now) (option_copied lower.entry) upper.now }
    ensures complete { MissesNone (A.machine automaton.now) (option_copied lower.entry) upper.now result }
    ensures tight { NeedsEach (A.machine automaton.now) (option_copied lower.entry) upper.now result }
{
    match lower {
        None => may_take_up_to(automaton, automaton.start(), upper),
        Some(above) => may_take_between(automaton, above, upper),
    }
}
