// Two rows are joined, and what lies beneath them.
ghost use Rattle.std.specs.Prelude.{◌≡◌, ℕ, ◌+◌, ◌<◌, ◌≤◌, length, vec_len};
ghost use Rattle.growth.specs.Joins.{Representatives};
ghost use Rattle.tables.specs.Views.{graph};
ghost use Rattle.joining.specs.Uniting.{representatives};
ghost use Rattle.joining.specs.Workspaces.{rep, state, Valued};

use crate::workspace::{Pair, Workspace};
use kinds::kind::Kind;
use queue::Queue;

impl Workspace {
    // Joins two rows and all that lies beneath them, and nothing else, where values of the kind stand on the rows. It goes on after
    // values that have none in common.
    // `joins` is then how many rows have another for a representative.
    pub fn settle<K: Kind>(&mut self, kind: &K, left: u16, right: u16, buffer: &mut [Pair])
        requires own { (x : ℕ) → x < vec_len self.old.table.rows → rep self.old x ≡ x }
        requires left { left < vec_len self.old.table.rows }
        requires right { right < vec_len self.old.table.rows }
        requires buffer { 8705 ≤ length buffer.old }
        ensures joined { Valued (K.meaning kind.now) self.old → Representatives (K.meaning kind.now) left right (graph self.old.table) (state self.old) (rep self.new) (graph self.new.table) (state self.new) }
        ensures joins { self.new.joins + representatives (rep self.new) (vec_len self.old.table.rows) ≡ vec_len self.old.table.rows }
    {
        self.joins = 0;
        let mut queue = Queue::over(buffer);
        queue.push(Pair { left, right });
        while let Some(pair) = queue.pop() {
            let to = self.class[pair.left as usize];
            let from = self.class[pair.right as usize];
            if to != from {
                self.unite(kind, &mut queue, to, from);
            }
        }
        self.resolve();
    }
}
