// Lines and names.
use crate::line::Lines;
use crate::named::{name_at, position_of};
use std::process::Abort;
use std::test::Fail;

#[test]
fn lines_count_from_1(rt: HostRuntime) -> Result<(), Fail> {
    let mut lines = Lines::of(" a b # c\n\n#\r\nd");
    for (number, text) in [(1, "a b"), (2, ""), (3, ""), (4, "d")] {
        let line = lines.next();
        assert!(&rt; line.is_some_and(|line| line.number == number && line.text == text));
    }
    assert!(&rt; lines.next().is_none());
    Ok(())
}

#[test]
fn names_by_position(rt: HostRuntime) -> Result<(), Fail> {
    let heap = rt.alloc();
    let mut names = Vec::new(heap);
    for name in ["a", "b", "a"] {
        names.push(String::from_str(heap, name)?)?;
    }
    let names = names.as_slice();
    assert_eq!(&rt; position_of(names, "a"), Some(0));
    assert_eq!(&rt; position_of(names, "b"), Some(1));
    assert_eq!(&rt; position_of(names, "c"), None);
    assert_eq!(&rt; name_at(names, 1), "b");
    assert_eq!(&rt; name_at(names, 3), "?");
    Ok(())
}
