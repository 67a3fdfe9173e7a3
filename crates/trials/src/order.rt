// Which of several clashes is named.
use crate::trial::Answer::*;
use crate::trial::Call::*;
use crate::trial::{UNWRITTEN, at, run};
use answers::refusal::Refusal;
use kinds::atoms::Atoms;
use std::test::*;

// A clash of values is named before a leaf with an attribute, though the leaf's node comes first.
#[test]
fn values_before_leaves(rt: HostRuntime) -> Result<(), Fail> {
    let trail = run(
        &rt,
        rt.alloc(),
        Atoms,
        &[
            (Declare, Variable(0)),
            (Declare, Variable(1)),
            (Is(at(0, &[0]), 5), Accepted),
            (Equals(at(1, &[0, 2]), at(1, &[0, 2])), Accepted),
            (Is(at(0, &[1]), 1), Accepted),
            (Is(at(1, &[1]), 2), Accepted),
            (
                Equals(at(0, &[]), at(1, &[])),
                Refused(Refusal::ValueClash(0, 1)),
            ),
        ],
    )?;
    assert_eq!(rt; trail[0], 1);
    assert_eq!(rt; trail[1], UNWRITTEN);
    Ok(())
}

// The clash at the first node is named: that of 0.0, though 2.0 and 3.0 are joined before.
#[test]
fn the_first_node(rt: HostRuntime) -> Result<(), Fail> {
    let trail = run(
        &rt,
        rt.alloc(),
        Atoms,
        &[
            (Declare, Variable(0)),
            (Declare, Variable(1)),
            (Declare, Variable(2)),
            (Declare, Variable(3)),
            (Is(at(2, &[0]), 5), Accepted),
            (Is(at(3, &[0]), 6), Accepted),
            (Equals(at(2, &[1]), at(0, &[])), Accepted),
            (Equals(at(3, &[1]), at(1, &[])), Accepted),
            (Is(at(0, &[0]), 1), Accepted),
            (Is(at(1, &[0]), 2), Accepted),
            (
                Equals(at(2, &[]), at(3, &[])),
                Refused(Refusal::ValueClash(0, 1)),
            ),
        ],
    )?;
    assert_eq!(rt; trail[0], 0);
    assert_eq!(rt; trail[1], UNWRITTEN);
    Ok(())
}
