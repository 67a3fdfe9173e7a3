// The listing of a table's graph, with the nodes as the table numbers them.
ghost use Rattle.std.specs.Prelude.{◌≡◌, ◌+◌, ◌≤◌, [], length, MatchResult};
ghost use Rattle.buffers.specs.Writing.{so_far, room, Wrote};
ghost use Rattle.features.specs.Listing.{written};
ghost use Rattle.tables.specs.Views.{graph, Sound};
ghost use Rattle.listings.specs.Buffers.{Fitted, TooShort};
ghost use Rattle.listings.specs.Parts.{first_nodes, first_variables};

use crate::parts::{put_node, put_number};
use buffers::Writer;
use tables::table::Table;

// The buffer is shorter than the listing, which has the needed number of bytes.
#[derive(Clone, Copy, PartialEq, Eq, Debug)]
pub struct Short {
    pub needed: usize,
}

// How many bytes the nodes have.
fn size_of_nodes(table: &Table) -> usize
    requires { Sound table.now }
    ensures { result ≡ length (first_nodes (graph table.now) (graph table.now).nodes) }
{
    table
        .rows
        .iter()
        .map(|node| 9 + 3 * node.degree() as usize)
        .sum()
}

// How many bytes the listing has.
pub fn size(table: &Table) -> usize
    requires { Sound table.now }
    ensures { result ≡ length (written (graph table.now)) }
{
    size_of_nodes(table) + 2 * table.roots.len() + 8
}

// The nodes, by number.
fn put_nodes(writer: &mut Writer, table: &Table)
    requires sound { Sound table.now }
    requires fits { length (first_nodes (graph table.now) (graph table.now).nodes) ≤ room writer.old }
    ensures { Wrote (first_nodes (graph table.now) (graph table.now).nodes) writer.old writer.new }
{
    for node in &table.rows {
        put_node(writer, node);
    }
}

// The nodes of the variables, by variable.
fn put_variables(writer: &mut Writer, table: &Table)
    requires sound { Sound table.now }
    requires fits { length (first_variables (graph table.now) (graph table.now).vars) ≤ room writer.old }
    ensures { Wrote (first_variables (graph table.now) (graph table.now).vars) writer.old writer.new }
{
    for root in &table.roots {
        put_number::<2>(writer, u64::from(*root));
    }
}

// The whole listing, with nothing before it.
fn put_listing(writer: &mut Writer, table: &Table)
    requires sound { Sound table.now }
    requires first { so_far writer.old ≡ [] }
    requires fits { length (written (graph table.now)) ≤ room writer.old }
    ensures { Wrote (written (graph table.now)) writer.old writer.new }
{
    put_nodes(writer, table);
    let variables = writer.count();
    put_variables(writer, table);
    put_number::<2>(writer, table.rows.len() as u64);
    put_number::<2>(writer, table.roots.len() as u64);
    put_number::<4>(writer, variables as u64);
}

// Writes the listing at the front of the buffer, and answers its length. A buffer that is too short stays as it is.
pub fn write(table: &Table, out: &mut [u8]) -> Result<usize, Short>
    requires { Sound table.now }
    ensures { MatchResult result (λ n. Fitted (written (graph table.now)) out.old out.new n) (λ e. TooShort (written (graph table.now)) out.old out.new e.needed) }
{
    let needed = size(table);
    if out.len() < needed {
        return Err(Short { needed });
    }
    put_listing(&mut Writer::over(out), table);
    Ok(needed)
}
