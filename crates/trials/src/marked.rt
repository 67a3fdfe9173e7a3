// Small cases in which a session is easily wrong.
use crate::trial::Answer::*;
use crate::trial::Call::*;
use crate::trial::{UNWRITTEN, at, run};
use answers::refusal::Refusal;
use kinds::atoms::Atoms;
use std::test::*;

#[test]
fn one_value_on_two_nodes(rt: HostRuntime) -> Result<(), Fail> {
    let trail = run(
        &rt,
        rt.alloc(),
        Atoms,
        &[
            (Declare, Variable(0)),
            (Declare, Variable(1)),
            (Is(at(0, &[]), 5), Accepted),
            (Is(at(1, &[]), 5), Accepted),
            (Same(at(0, &[]), at(1, &[])), Truth(false)),
            // a leaf has no attributes, and the refusal leaves all as it was
            (Is(at(0, &[1]), 6), Refused(Refusal::LeafClash(0, 0))),
            (Value(at(0, &[1])), Found(None)),
            (Value(at(0, &[])), Found(Some(5))),
            (Equals(at(0, &[]), at(1, &[])), Accepted),
            (Same(at(0, &[]), at(1, &[])), Truth(true)),
        ],
    )?;
    assert_eq!(rt; trail[0], UNWRITTEN);
    Ok(())
}

// Values below two variables clash once the variables are one.
#[test]
fn values_below_joined_variables(rt: HostRuntime) -> Result<(), Fail> {
    let trail = run(
        &rt,
        rt.alloc(),
        Atoms,
        &[
            (Declare, Variable(0)),
            (Declare, Variable(1)),
            (Is(at(0, &[1]), 5), Accepted),
            (Is(at(1, &[1]), 6), Accepted),
            (
                Equals(at(0, &[]), at(1, &[])),
                Refused(Refusal::ValueClash(0, 1)),
            ),
            (Same(at(0, &[]), at(1, &[])), Truth(false)),
        ],
    )?;
    assert_eq!(rt; trail[0], 1);
    assert_eq!(rt; trail[1], UNWRITTEN);
    Ok(())
}

// A term that denotes nothing is on no node with itself, until it denotes one.
#[test]
fn a_term_apart_from_itself(rt: HostRuntime) -> Result<(), Fail> {
    let trail = run(
        &rt,
        rt.alloc(),
        Atoms,
        &[
            (Declare, Variable(0)),
            (Same(at(0, &[1]), at(0, &[1])), Truth(false)),
            (Apart(at(0, &[1]), at(0, &[1])), Accepted),
            (Is(at(0, &[1]), 5), Refused(Refusal::ApartClash(0))),
            (
                Apart(at(0, &[]), at(0, &[])),
                Refused(Refusal::ApartClash(1)),
            ),
        ],
    )?;
    assert_eq!(rt; trail[0], UNWRITTEN);
    Ok(())
}

// Six steps round and four steps round make two steps round.
#[test]
fn rings(rt: HostRuntime) -> Result<(), Fail> {
    run(
        &rt,
        rt.alloc(),
        Atoms,
        &[
            (Declare, Variable(0)),
            (Equals(at(0, &[1; 6]), at(0, &[])), Accepted),
            (Same(at(0, &[1; 2]), at(0, &[])), Truth(false)),
            (Equals(at(0, &[1; 4]), at(0, &[])), Accepted),
            (Same(at(0, &[1; 2]), at(0, &[])), Truth(true)),
            (Same(at(0, &[1]), at(0, &[])), Truth(false)),
        ],
    )?;
    Ok(())
}
