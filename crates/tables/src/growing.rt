// One node or variable more in a table.
ghost use Rattle.std.specs.Prelude.{◌≡◌, ◌+◌, ◌<◌, ◌≤◌, length, vec_len};
ghost use Rattle.features.specs.Holding.{Small};
ghost use Rattle.growth.specs.Changes.{NewVariable};
ghost use Rattle.tables.specs.Growing.{GrownTable, Stepped};
ghost use Rattle.tables.specs.Views.{graph, values, Sound};

use crate::node::Node;
use crate::table::Table;

impl Table {
    // A new variable on a node of its own, with the value and no attribute.
    pub fn add_variable(&mut self, top: u64) -> u16
        requires sound { Sound self.old }
        requires row_left { vec_len self.old.rows < 272 }
        requires root_left { vec_len self.old.roots < 64 }
        ensures new { NewVariable top (graph self.old) (values self.old) (graph self.new) (values self.new) }
        ensures variable { result ≡ vec_len self.old.roots }
        ensures sound { Sound self.new }
    {
        let variable = self.roots.len() as u16;
        self.roots.push_reserved(self.rows.len() as u16);
        self.rows.push_reserved(Node::bare(top));
        variable
    }

    // Follows an attribute; a node that lacks it is led to a new node with the value.
    pub fn step_or_add(&mut self, from: u16, attribute: u16, top: u64) -> u16
        requires sound { Sound self.old }
        requires inside { from < vec_len self.old.rows }
        requires row_left { vec_len self.old.rows < 272 }
        requires small { attribute < 32 }
        ensures { Stepped top from attribute self.old self.new result }
    {
        if let Some(next) = self.rows[from as usize].target(attribute) {
            return next;
        }
        let added = self.rows.len() as u16;
        self.rows.push_reserved(Node::bare(top));
        self.row(from as usize).lead(attribute, added);
        added
    }

    // Follows a path, and adds the nodes with the value that it lacks; the answer is the node at its end.
    pub fn grow(&mut self, from: u16, path: &[u16], top: u64) -> u16
        requires sound { Sound self.old }
        requires inside { from < vec_len self.old.rows }
        requires rows_left { vec_len self.old.rows + length path.now ≤ 272 }
        requires small { Small path.now }
        ensures { GrownTable top from path.now self.old self.new result }
    {
        let mut node = from;
        for attribute in path {
            node = self.step_or_add(node, *attribute, top);
        }
        node
    }
}
