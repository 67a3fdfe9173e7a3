// The memory of a table, and one row of it.
ghost use Rattle.std.specs.Prelude.{◌≡◌, ℕ, ◌<◌, IfOk, vec_len};
ghost use Rattle.std.specs.Borrow.{sem, follows};
ghost use Rattle.std.specs.Vec.{with_item};
ghost use Rattle.tables.specs.contracts.table.Table.{the_row as the_table};
ghost use Rattle.tables.specs.contracts.node.Node.{the_row as the_node};
ghost use Rattle.tables.specs.Views.{row as row_of, Sound};

use crate::node::Node;
use crate::table::Table;
use std::alloc::{AllocError, Global};

// Room for 256 nodes of a graph and the 16 that the two terms of a statement can add.
pub const CAPACITY: usize = 272;

// As many variables as a graph can have.
pub const VARIABLES: usize = 64;

impl Table {
    // A table with all its memory, and neither a node nor a variable.
    pub fn new(heap: Global) -> Result<Table, AllocError>
        ensures { IfOk result (λ t. Sound t × (vec_len t.rows ≡ 0) × (vec_len t.roots ≡ 0)) }
    {
        let rows = Vec::with_capacity(heap, CAPACITY)?;
        let roots = Vec::with_capacity(heap, VARIABLES)?;
        Ok(Table { rows, roots })
    }

    // One row, lent to change its value or its targets.
    pub fn row(&mut self, i: usize) -> &mut Node
        requires { i < vec_len self.old.rows }
        ensures read { result.now ≡ row_of self.old.rows.items i }
        ensures* lent { sem 𝓛 (follows the_table the_node self.entry.ghost_name result.ghost_name (λ w. record { rows = with_item self.old.rows i w; roots = self.old.roots })) }
    {
        &mut self.rows[i]
    }
}
