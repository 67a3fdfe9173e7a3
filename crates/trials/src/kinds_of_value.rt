// Values that meet at one term, over value sets and over types.
use crate::trial::Answer::*;
use crate::trial::Call::*;
use crate::trial::{at, run};
use answers::refusal::Refusal;
use kinds::types::{Link, Types};
use kinds::value_sets::ValueSets;
use std::test::*;

#[test]
fn sets_meet_in_what_they_share(rt: HostRuntime) -> Result<(), Fail> {
    run(
        &rt,
        rt.alloc(),
        ValueSets,
        &[
            (Declare, Variable(0)),
            (Value(at(0, &[])), Found(Some(u64::MAX))),
            (Is(at(0, &[]), 0), Refused(Refusal::NoSuchValue)),
            (Is(at(0, &[]), 3), Accepted),
            (Is(at(0, &[]), 6), Accepted),
            (Value(at(0, &[])), Found(Some(2))),
            (Is(at(0, &[]), 4), Refused(Refusal::ValueClash(0, 0))),
            (Value(at(0, &[])), Found(Some(2))),
        ],
    )?;
    Ok(())
}

fn link(subtype: u16, supertype: u16) -> Link {
    Link { subtype, supertype }
}

// 1 and 2 are under 0, and the leaf 3 under both.
#[test]
fn types_meet_in_a_leaf(rt: HostRuntime) -> Result<(), Fail> {
    let mut types = Types::fresh();
    types.fill(4, &[link(1, 0), link(2, 0), link(3, 1), link(3, 2)], 0b1000)?;
    run(
        &rt,
        rt.alloc(),
        types,
        &[
            (Declare, Variable(0)),
            (Is(at(0, &[]), 4), Refused(Refusal::NoSuchValue)),
            (Is(at(0, &[]), 1), Accepted),
            (Is(at(0, &[]), 2), Accepted),
            (Value(at(0, &[])), Found(Some(3))),
            (Is(at(0, &[7]), 0), Refused(Refusal::LeafClash(0, 0))),
        ],
    )?;
    Ok(())
}
