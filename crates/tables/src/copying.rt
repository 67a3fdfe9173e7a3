// One table made a copy of another.
ghost use Rattle.tables.specs.Copying.{Copied};
ghost use Rattle.tables.specs.Views.{Sound};

use crate::table::Table;

impl Table {
    // Holds the graph of the other table from now on.
    pub fn copy_from(&mut self, other: &Table)
        requires own { Sound self.old }
        requires others { Sound other.now }
        ensures { Copied other.now self.new }
    {
        self.rows.clear();
        self.rows.extend_from_slice(&other.rows).unwrap();
        self.roots.clear();
        self.roots.extend_from_slice(&other.roots).unwrap();
    }
}
