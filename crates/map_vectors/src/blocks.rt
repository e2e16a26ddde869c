// Which blocks may hold a key that an automaton takes, by their index keys.
use fst_map::{AlwaysMatch, Automaton, Exact, StartsWith, Union, may_take_within};
use std::test::Fail;

// The answers for blocks up to 0 1 2, 0 2 2 and 0 3 2.
fn in_blocks<A: Automaton>(automaton: &A) -> [bool; 3] {
    [
        may_take_within(automaton, None, &[0, 1, 2]),
        may_take_within(automaton, Some(&[0, 1, 2]), &[0, 2, 2]),
        may_take_within(automaton, Some(&[0, 2, 2]), &[0, 3, 2]),
    ]
}

#[test]
fn blocks_of_keys(rt: HostRuntime) -> Result<(), Fail> {
    let rows: [(&[u8], [bool; 3]); 6] = [
        (&[0, 2, 1], [false, true, false]),
        (&[0, 4, 1], [false, false, false]),
        (&[], [true, false, false]),
        (&[0, 1, 2], [true, false, false]),
        (&[0, 1, 2, 0], [false, true, false]),
        (&[0, 2, 255], [false, false, true]),
    ];
    for (key, answer) in rows {
        assert_eq!(rt; in_blocks(&Exact::new(key)), answer);
    }
    Ok(())
}

#[test]
fn blocks_of_many_keys(rt: HostRuntime) -> Result<(), Fail> {
    let both = Union::new(Exact::new(&[0, 1, 1]), Exact::new(&[0, 3, 1]));
    assert_eq!(rt; in_blocks(&both), [true, false, true]);
    assert_eq!(rt; in_blocks(&StartsWith::new(&[0, 2])), [false, true, true]);
    assert_eq!(rt;
        in_blocks(&StartsWith::new(&[0, 1, 255])),
        [false, true, false]
    );
    assert_eq!(rt; in_blocks(&AlwaysMatch), [true, true, true]);
    Ok(())
}
