// A workspace takes up a table in which nothing is joined.
ghost use Rattle.std.specs.Prelude.{◌≡◌, ℕ, ◌<◌, ◌≤◌, length, slice_index};
ghost use Rattle.std.proofs.Math.Option.{some as stands_value};
ghost use Rattle.tables.specs.Copying.{Copied};
ghost use Rattle.tables.specs.Views.{graph, Sound};
ghost use Rattle.joining.specs.Workspaces.{rep, state};

use crate::workspace::Workspace;
use tables::table::Table;

// Every row represents itself.
pub fn separate(class: &mut [u16])
    requires { length class.old ≤ 65536 }
    ensures { (x : ℕ) → x < length class.old → slice_index class.new x ≡ x }
{
    for (row, c) in class.iter_mut().enumerate() {
        *c = row as u16;
    }
}

impl Workspace {
    // Holds the graph of the table; every row represents itself, and its own value stands on it.
    pub fn begin(&mut self, from: &Table)
        requires { Sound from.now }
        ensures copied { Copied from.now self.new.table }
        ensures separate { (x : ℕ) → x < 272 → rep self.new x ≡ x }
        ensures values { (x : ℕ) → x < 272 → state self.new x ≡ stands_value ((graph self.new.table).value x) }
        ensures joins { self.new.joins ≡ 0 }
    {
        self.table.copy_from(from);
        separate(&mut self.class);
        self.void.fill(false);
        self.joins = 0;
    }
}
