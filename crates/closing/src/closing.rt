// Statements that change the graph.
ghost use Rattle.std.specs.Prelude.{◌≡◌, ◌+◌, ◌≤◌, vec_len};
ghost use Rattle.kinds.specs.Meaning.{Meaning};
ghost use Rattle.features.specs.Holding.{Sound as ProperTerm};
ghost use Rattle.features.specs.Terms.{equals as equation, is as assignment};
ghost use Rattle.tables.specs.Growing.{GrownTable};
ghost use Rattle.tables.specs.Views.{graph, Sound};
ghost use Rattle.terms.specs.Terms.{term_of};
ghost use Rattle.closing.specs.Closings.{Arranged, Closes, Lists};

use crate::closer::Closer;
use crate::term::Term;
use kinds::kind::Kind;
use tables::table::Table;

// The node at the end of a term, which is grown from its variable's node: the nodes that it lacks are added, with the value.
fn grow(table: &mut Table, p: Term<'_>, top: u64) -> u16
    requires sound { Sound table.old }
    requires proper { ProperTerm (vec_len table.old.roots) (term_of p) }
    requires rows_left { vec_len table.old.rows + 8 ≤ 272 }
    ensures { GrownTable top ((graph table.old).root p.entry.var) p.entry.path.now table.old table.new result }
{
    let root = table.roots[p.var as usize];
    table.grow(root, p.path, top)
}

impl Closer {
    // p equals q: both are grown from their variables' nodes, and their ends are joined with all that lies beneath.
    pub fn close_equation<K: Kind>(&mut self, kind: &K, table: &Table, p: Term<'_>, q: Term<'_>)
        requires sound { Sound table.now }
        requires few { vec_len table.now.rows ≤ 256 }
        requires left { ProperTerm (vec_len table.now.roots) (term_of p) }
        requires right { ProperTerm (vec_len table.now.roots) (term_of q) }
        ensures { Closes (K.meaning kind.now) table.now (equation (term_of p.entry) (term_of q.entry)) self.new }
    {
        let top = kind.top();
        self.work.begin(table);
        let left = grow(&mut self.work.table, p, top);
        let right = grow(&mut self.work.table, q, top);
        self.work.settle(kind, left, right, &mut self.pairs);
        self.arrange();
    }

    // p is v: it is grown from its variable's node, and v comes to its end.
    pub fn close_value<K: Kind>(&mut self, kind: &K, table: &Table, p: Term<'_>, value: u64)
        requires sound { Sound table.now }
        requires few { vec_len table.now.rows ≤ 256 }
        requires left { ProperTerm (vec_len table.now.roots) (term_of p) }
        ensures { Closes (K.meaning kind.now) table.now (assignment (term_of p.entry) value) self.new }
    {
        self.work.begin(table);
        let end = grow(&mut self.work.table, p, kind.top());
        self.work.give(kind, end, value);
        self.arrange();
    }

    // The table as it is, in listing order.
    pub fn list(&mut self, table: &Table)
        requires sound { Sound table.now }
        ensures { (m : Meaning) → Lists m table.now self.new }
    {
        self.work.begin(table);
        self.arrange();
    }

    // The rows that are left are put in listing order.
    fn arrange(&mut self)
        ensures arranged { Arranged self.new }
        ensures work { self.new.work ≡ self.old.work }
    {
        self.numbers.number(&self.work.table, &mut self.waiting);
        self.numbers.arrange(&self.work.table, &mut self.next);
    }
}
