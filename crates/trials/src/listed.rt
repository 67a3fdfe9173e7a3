// The bytes of a listing.
use crate::trial::Answer::*;
use crate::trial::Call::*;
use crate::trial::{Trial, at};
use answers::refusal::Refusal;
use kinds::atoms::Atoms;
use std::test::*;

#[test]
fn a_new_session(rt: HostRuntime) -> Result<(), Fail> {
    let mut trial = Trial::open(rt.alloc(), Atoms)?;
    let mut out = [9; 9];
    assert_eq!(rt; trial.session.list(&mut out), Ok(8));
    assert_eq!(rt; out, [0, 0, 0, 0, 0, 0, 0, 0, 9]);
    Ok(())
}

// One node leads to itself.
#[test]
fn a_loop(rt: HostRuntime) -> Result<(), Fail> {
    let mut trial = Trial::open(rt.alloc(), Atoms)?;
    trial.run(
        &rt,
        &[
            (Declare, Variable(0)),
            (Equals(at(0, &[1]), at(0, &[])), Accepted),
            (Same(at(0, &[1, 1, 1]), at(0, &[])), Truth(true)),
        ],
    )?;
    let mut short = [9; 21];
    assert_eq!(rt;
        trial.session.list(&mut short),
        Err(Refusal::ShortBuffer(22))
    );
    assert_eq!(rt; short, [9; 21]);
    let mut out = [9; 22];
    assert_eq!(rt; trial.session.list(&mut out), Ok(22));
    let mut expected = [0; 22];
    // one attribute, 1, to node 0; the root 0; one node, one variable; the roots from byte 12 on
    expected[8] = 1;
    expected[9] = 1;
    expected[14] = 1;
    expected[16] = 1;
    expected[18] = 12;
    assert_eq!(rt; out, expected);
    Ok(())
}
