// Examples of hierarchies that are filled and that are refused.
use crate::kind::Kind;
use crate::types::crossing::fill_crossed;
use crate::types::{Link, Misfit, Types};
use std::array;

fn link(subtype: u16, supertype: u16) -> Link {
    Link { subtype, supertype }
}

// Types 1 to 63, each right below 0.
fn flat() -> [Link; 63] {
    array::from_fn(|i| link(i as u16 + 1, 0))
}

#[test]
fn crossed_types_are_refused(rt: HostRuntime) {
    let mut types = Types::fresh();
    assert_eq!(rt; fill_crossed(&mut types, 0), Err(Misfit::NoGreatest(1, 2)));
    assert!(rt; types.is_value(0) && !types.is_value(1) && !types.is_leaf(0));
}

#[test]
fn one_to_64_types_are_filled(rt: HostRuntime) {
    let mut types = Types::fresh();
    let links = flat();
    assert_eq!(rt; types.fill(0, &[], 0), Err(Misfit::WrongCount));
    assert_eq!(rt; types.fill(65, &links, 0), Err(Misfit::WrongCount));
    assert_eq!(rt; types.fill(1, &[], 0), Ok(()));
    assert_eq!(rt; types.fill(64, &links, 1 << 63), Ok(()));
    assert!(rt;
        types.is_leaf(63) && !types.is_leaf(62) && types.is_value(63) && !types.is_value(64)
    );
    assert_eq!(rt; types.meet(0, 63), Some(63));
    assert_eq!(rt; types.meet(62, 63), None);
}

#[test]
fn links_go_up(rt: HostRuntime) {
    let mut types = Types::fresh();
    assert_eq!(rt;
        types.fill(2, &[link(1, 0), link(1, 1)], 0),
        Err(Misfit::WrongLink(1))
    );
    assert_eq!(rt; types.fill(3, &[link(2, 0)], 0), Err(Misfit::Unlinked(1)));
    assert_eq!(rt; types.fill(2, &[link(1, 0), link(1, 0)], 0), Ok(()));
    assert_eq!(rt; types.meet(1, 0), Some(1));
}

#[test]
fn marks_are_whole(rt: HostRuntime) {
    let mut types = Types::fresh();
    let chain = [link(1, 0), link(2, 1)];
    assert_eq!(rt; types.fill(3, &chain, 0b010), Err(Misfit::WrongMark(2)));
    assert_eq!(rt; types.fill(3, &chain, 0b100010), Err(Misfit::WrongMark(2)));
    assert_eq!(rt; types.fill(3, &chain, 0b100100), Err(Misfit::WrongMark(5)));
    assert_eq!(rt; types.fill(3, &chain, 0b111), Err(Misfit::WrongMark(0)));
    assert_eq!(rt; types.fill(3, &chain, 0b110), Ok(()));
}
