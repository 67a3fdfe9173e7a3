// Each limit: what it still lets through, and what it refuses.
use crate::trial::Answer::*;
use crate::trial::Call::*;
use crate::trial::{Answer, Trial, at, run};
use answers::refusal::{Refusal, Side};
use kinds::atoms::Atoms;
use std::alloc::Global;
use std::process::Abort;
use std::test::*;

// 64 variables, each with three nodes below it.
fn full(rt: &impl Abort, heap: Global) -> Result<Trial<Atoms>, Fail> {
    let mut trial = Trial::open(heap, Atoms)?;
    for i in 0..64 {
        assert_eq!(rt; trial.ask(Declare), Variable(i));
        assert_eq!(rt; trial.ask(Is(at(i, &[0, 1, 2]), 5)), Accepted);
    }
    Ok(trial)
}

// A statement is refused only if too many nodes are left after joining.
#[test]
fn nodes(rt: HostRuntime) -> Result<(), Fail> {
    let mut trial = full(&rt, rt.alloc())?;
    trial.run(
        &rt,
        &[
            (Declare, Refused(Refusal::VariablesFull)),
            (
                Equals(at(0, &[3]), at(0, &[3])),
                Refused(Refusal::NodesFull),
            ),
            (Equals(at(2, &[3]), at(3, &[])), Accepted),
            (
                Equals(at(0, &[3]), at(0, &[3])),
                Refused(Refusal::NodesFull),
            ),
            (Equals(at(0, &[]), at(1, &[])), Accepted),
            (Equals(at(0, &[3]), at(0, &[3])), Accepted),
            (Same(at(1, &[3]), at(0, &[3])), Truth(true)),
            (Declare, Refused(Refusal::VariablesFull)),
        ],
    )
}

#[test]
fn terms(rt: HostRuntime) -> Result<(), Fail> {
    run(
        &rt,
        rt.alloc(),
        Atoms,
        &[
            (
                Value(at(0, &[32])),
                Refused(Refusal::Undeclared(Side::Left)),
            ),
            (Declare, Variable(0)),
            (
                Same(at(0, &[32]), at(1, &[])),
                Refused(Refusal::NoAttribute(Side::Left, 0)),
            ),
            (
                Same(at(0, &[31]), at(1, &[])),
                Refused(Refusal::Undeclared(Side::Right)),
            ),
            (Is(at(0, &[31; 8]), 65_536), Refused(Refusal::NoSuchValue)),
            (Is(at(0, &[31; 8]), 65_535), Accepted),
            (
                Is(at(0, &[32; 9]), 65_536),
                Refused(Refusal::LongTerm(Side::Left)),
            ),
            (
                Value(at(0, &[31; 9])),
                Refused(Refusal::LongTerm(Side::Left)),
            ),
            (
                Same(at(0, &[]), at(0, &[31, 32])),
                Refused(Refusal::NoAttribute(Side::Right, 1)),
            ),
            (Value(at(0, &[31; 8])), Found(Some(65_535))),
        ],
    )?;
    Ok(())
}

#[test]
fn trails(rt: HostRuntime) -> Result<(), Fail> {
    let mut trial = Trial::open(rt.alloc(), Atoms)?;
    assert_eq!(rt; trial.ask(Declare), Variable(0));
    let top = at(0, &[]);
    assert_eq!(rt;
        trial.session.is(top, 5, &mut [0; 271]),
        Err(Refusal::ShortTrail)
    );
    assert_eq!(rt; trial.ask(Value(top)), Found(Some(0)));
    assert_eq!(rt; trial.session.is(top, 5, &mut [0; 272]), Ok(()));
    Ok(())
}

#[test]
fn aparts(rt: HostRuntime) -> Result<(), Fail> {
    let mut trial = Trial::open(rt.alloc(), Atoms)?;
    assert_eq!(rt; trial.ask(Declare), Variable(0));
    for _ in 0..128 {
        assert_eq!(rt; trial.ask(Apart(at(0, &[]), at(0, &[1]))), Accepted);
    }
    trial.run(
        &rt,
        &[
            (Apart(at(0, &[]), at(0, &[])), Refused(Refusal::ApartsFull)),
            (
                Equals(at(0, &[1]), at(0, &[])),
                Refused(Refusal::ApartClash(0)),
            ),
        ],
    )
}
