// What automata take.
use fst_map::{AlwaysMatch, Automaton, Exact, StartsWith, Union, always_match_laws};
use std::test::Fail;

// Whether the automaton takes the key.
fn takes<A: Automaton>(automaton: &A, key: &[u8]) -> bool {
    let mut state = automaton.start();
    for byte in key {
        state = automaton.accept(&state, *byte);
    }
    automaton.is_match(&state)
}

#[test]
fn keys_are_taken(rt: HostRuntime) -> Result<(), Fail> {
    let both = Union::new(Exact::new(b"ab"), StartsWith::new(b"b"));
    always_match_laws(&AlwaysMatch);
    let rows: [(&[u8], bool); 6] = [
        (b"", false),
        (b"a", false),
        (b"ab", true),
        (b"abb", false),
        (b"b", true),
        (b"ba", true),
    ];
    for (key, answer) in rows {
        assert_eq!(rt; takes(&both, key), answer);
        assert!(rt; takes(&AlwaysMatch, key));
    }
    Ok(())
}

// `can_match` is false where no longer key is taken, and `will_always_match` true where each is.
#[test]
fn states_look_ahead(rt: HostRuntime) -> Result<(), Fail> {
    let prefix = StartsWith::new(b"a");
    let taken = prefix.accept(&prefix.start(), b'a');
    let lost = prefix.accept(&prefix.start(), b'b');
    assert!(rt; prefix.will_always_match(&taken));
    assert!(rt; !prefix.will_always_match(&prefix.start()));
    assert!(rt; prefix.can_match(&prefix.start()));
    assert!(rt; !prefix.can_match(&lost));
    Ok(())
}
