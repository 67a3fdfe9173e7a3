// Listings written by hand.
ghost use Rattle.std.specs.Prelude.{◌<◌, vec_len};
ghost use Rattle.tables.specs.Views.{Sound};

use crate::writer::{Short, write};
use std::test::Fail;
use tables::table::Table;

// Lets an attribute lead from one node to another.
fn link(table: &mut Table, from: u16, attribute: u16, target: u16)
    requires sound { Sound table.old }
    requires from { from < vec_len table.old.rows }
    requires attribute { attribute < 32 }
    requires target { target < vec_len table.old.rows }
    ensures { Sound table.new }
{
    table.rows[from as usize].lead(attribute, target);
}

#[test]
fn no_node_and_no_variable(rt: HostRuntime) -> Result<(), Fail> {
    let table = Table::new(rt.alloc())?;
    let mut out = [7; 9];
    assert_eq!(rt; write(&table, &mut out), Ok(8));
    assert_eq!(rt; out, [0, 0, 0, 0, 0, 0, 0, 0, 7]);
    Ok(())
}

#[test]
fn two_nodes_in_a_cycle(rt: HostRuntime) -> Result<(), Fail> {
    let mut table = Table::new(rt.alloc())?;
    assert_eq!(rt; table.add_variable(0x0102), 0);
    let next = table.step_or_add(0, 3, 0);
    link(&mut table, next, 0, 0);
    let mut short = [7; 33];
    assert_eq!(rt; write(&table, &mut short), Err(Short { needed: 34 }));
    assert_eq!(rt; short, [7; 33]);
    let mut out = [7; 36];
    assert_eq!(rt; write(&table, &mut out), Ok(34));
    let first = b"\x02\x01\0\0\0\0\0\0\x01\x03\x01\0";
    let second = b"\0\0\0\0\0\0\0\0\x01\0\0\0";
    assert_eq!(rt; &out[0..12], first.as_slice());
    assert_eq!(rt; &out[12..24], second.as_slice());
    assert_eq!(rt;
        &out[24..36],
        b"\0\0\x02\0\x01\0\x18\0\0\0\x07\x07".as_slice()
    );
    Ok(())
}
