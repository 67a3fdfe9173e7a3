// The memory of a workspace.
ghost use Rattle.std.specs.Prelude.{◌≡◌, IfOk, vec_len};

use crate::workspace::Workspace;
use std::alloc::{AllocError, Global};
use tables::storage::CAPACITY;
use tables::table::Table;

impl Workspace {
    // A workspace with all its memory, and neither a node nor a variable.
    pub fn new(heap: Global) -> Result<Workspace, AllocError>
        ensures { IfOk result (λ w. (vec_len w.table.rows ≡ 0) × (vec_len w.table.roots ≡ 0)) }
    {
        let table = Table::new(heap)?;
        let class = vec![in heap; 0; CAPACITY]?;
        let void = vec![in heap; false; CAPACITY]?;
        Ok(Workspace {
            table,
            class,
            void,
            joins: 0,
        })
    }
}
