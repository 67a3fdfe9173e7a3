// The parts of a listing.
ghost use Rattle.std.specs.Prelude.{◌<◌, ◌≤◌, ◌∷◌, length};
ghost use Rattle.buffers.specs.Writing.{room, Wrote};
ghost use Rattle.features.specs.Listing.{little};
ghost use Rattle.listings.specs.Parts.{entries_of, bytes_of};

use buffers::Writer;
use tables::node::Node;

// The lowest bytes of a number, the lowest first.
pub fn put_number<const WIDTH: usize>(writer: &mut Writer, n: u64)
    requires width { WIDTH ≤ 8 }
    requires fits { WIDTH ≤ room writer.old }
    ensures { Wrote (little WIDTH n) writer.old writer.new }
{
    writer.put(&n.to_le_bytes()[..WIDTH]);
}

// An attribute and the node that it leads to.
fn put_entry(writer: &mut Writer, attribute: u16, target: u16)
    requires fits { 3 ≤ room writer.old }
    requires small { attribute < 32 }
    ensures { Wrote (attribute ∷ little 2 target) writer.old writer.new }
{
    put_number::<1>(writer, u64::from(attribute));
    put_number::<2>(writer, u64::from(target));
}

// The attributes of a node, from the lowest up.
fn put_entries(writer: &mut Writer, node: &Node)
    requires { length (entries_of node.now) ≤ room writer.old }
    ensures { Wrote (entries_of node.now) writer.old writer.new }
{
    for (attribute, target) in node.edges() {
        put_entry(writer, attribute, target);
    }
}

// A node: its value, how many attributes it has, and these.
pub fn put_node(writer: &mut Writer, node: &Node)
    requires { length (bytes_of node.now) ≤ room writer.old }
    ensures { Wrote (bytes_of node.now) writer.old writer.new }
{
    put_number::<8>(writer, node.value);
    put_number::<1>(writer, u64::from(node.degree()));
    put_entries(writer, node);
}
