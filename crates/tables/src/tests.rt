// A table grown and copied, and attributes walked.
use crate::node::Node;
use crate::table::Table;
use std::test::Fail;

#[test]
fn attributes_come_from_the_lowest_up(rt: HostRuntime) {
    let mut node = Node::bare(0);
    assert_eq!(rt; node.edges().next(), None);
    node.present = 0x8000_0020;
    let mut edges = node.edges();
    assert_eq!(rt; edges.next(), Some((5, 0)));
    assert_eq!(rt; edges.next(), Some((31, 0)));
    assert_eq!(rt; edges.next(), None);
}

#[test]
fn a_grown_path_is_found_in_a_copy(rt: HostRuntime) -> Result<(), Fail> {
    let mut table = Table::new(rt.alloc())?;
    let mut copy = Table::new(rt.alloc())?;
    assert_eq!(rt; table.add_variable(7), 0);
    let end = table.grow(0, &[3, 31], 7);
    assert_eq!(rt; end, 2);
    copy.copy_from(&table);
    assert_eq!(rt; copy.find(0, &[3, 31]), Some(end));
    assert_eq!(rt; copy.find(0, &[3, 4]), None);
    Ok(())
}
