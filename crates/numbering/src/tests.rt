// A small graph numbered, the trail of its last row, and its table arranged.
use crate::numbers::Numbers;
use std::test::Fail;
use tables::table::Table;

#[test]
fn rows_are_numbered_breadth_first(rt: HostRuntime) -> Result<(), Fail> {
    let mut table = Table::new(rt.alloc())?;
    assert_eq!(rt; table.add_variable(7), 0);
    let end = table.grow(0, &[4, 2], 7);
    let near = table.grow(0, &[9], 7);
    let mut numbers = Numbers::new(rt.alloc())?;
    let mut waiting = [0; 272];
    numbers.number(&table, &mut waiting);
    assert_eq!(rt; numbers.listed.len(), 4);
    assert_eq!(rt; numbers.listed[2].row, near);
    assert_eq!(rt; numbers.listed[3].row, end);
    let mut path = [0; 272];
    assert_eq!(rt; numbers.trail(3, &mut path), (0, 2));
    assert_eq!(rt; path[0], 4);
    assert_eq!(rt; path[1], 2);
    Ok(())
}
