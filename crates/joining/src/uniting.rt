// The class of one row becomes part of the class of another.
ghost use Rattle.std.specs.Prelude.{◌≡◌, ◌+◌, ◌<◌, ◌≤◌, length, vec_len, ◌≢◌};
ghost use Rattle.queue.specs.Waiting.{waiting, capacity};
ghost use Rattle.tables.specs.Views.{graph};
ghost use Rattle.joining.specs.Uniting.{Takes, Relabels, Meeting};
ghost use Rattle.joining.specs.Workspaces.{rep, state, Waits, SameTable};

use crate::attributes::take_attributes;
use crate::classes::relabel;
use crate::workspace::{Pair, Workspace};
use kinds::kind::Kind;
use queue::Queue;

impl Workspace {
    // Joins two representatives: `to` stands for both, and has the values and the attributes of both.
    pub fn unite<K: Kind>(&mut self, kind: &K, queue: &mut Queue<Pair>, to: u16, from: u16)
        requires to { to < vec_len self.old.table.rows }
        requires from { from < vec_len self.old.table.rows }
        requires two { to ≢ from }
        requires few { self.old.joins < 272 }
        requires room { length (waiting queue.old) + 32 ≤ capacity queue.old }
        ensures relabels { Relabels 272 (rep self.old) to from (rep self.new) }
        ensures meeting { Meeting (K.meaning kind.now) (state self.old) to from (state self.new) }
        ensures takes { Takes (graph self.old.table).edge (Waits (waiting queue.old)) to from (graph self.new.table).edge (Waits (waiting queue.new)) }
        ensures same { SameTable self.old.table self.new.table }
        ensures joins { self.new.joins ≡ self.old.joins + 1 }
        ensures longer { length (waiting queue.new) ≤ length (waiting queue.old) + 32 }
        ensures room { capacity queue.new ≡ capacity queue.old }
    {
        relabel(&mut self.class, to, from);
        let other = self.state_of(from);
        self.meet_state(kind, to, other);
        take_attributes(&mut self.table, queue, to, from);
        self.joins += 1;
    }
}
