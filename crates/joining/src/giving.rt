// A value comes to a row.
ghost use Rattle.std.specs.Prelude.{◌≡◌, ◌<◌, vec_len};
ghost use Rattle.growth.specs.Changes.{Given};
ghost use Rattle.tables.specs.Views.{graph};
ghost use Rattle.joining.specs.Workspaces.{state};

use crate::workspace::Workspace;
use kinds::kind::Kind;

impl Workspace {
    // The row has the greatest value at or below the one that comes and what stood there, or nothing stands on it any more.
    pub fn give<K: Kind>(&mut self, kind: &K, row: u16, value: u64)
        requires { row < vec_len self.old.table.rows }
        ensures given { Given (K.meaning kind.now) row value (graph self.old.table) (state self.old) (graph self.new.table) (state self.new) }
        ensures classes { self.new.class ≡ self.old.class }
        ensures joins { self.new.joins ≡ self.old.joins }
    {
        self.meet_state(kind, row, Some(value));
    }
}
