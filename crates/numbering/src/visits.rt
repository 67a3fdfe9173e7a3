// Rows are numbered breadth first: the variables' rows, and then, row by row as they were numbered, the targets of its attributes.
ghost use Rattle.std.specs.Prelude.{◌≡◌, ◌+◌, ◌<◌, ◌≤◌, [], length, vec_len};
ghost use Rattle.features.specs.Numbering.{by_variable, by_attribute};
ghost use Rattle.tables.specs.Views.{graph, Sound};
ghost use Rattle.queue.specs.Waiting.{waiting, capacity};
ghost use Rattle.numbering.specs.Given.{HasNumber, num};
ghost use Rattle.numbering.specs.Frontier.{Underway, Numbered};

use crate::mention::Mention;
use crate::numbers::Numbers;
use queue::Queue;
use tables::table::Table;

impl Numbers {
    // Numbers the rows of a table that terms denote. The rows that have a number and were not visited yet wait in `scratch`.
    pub fn number(&mut self, table: &Table, scratch: &mut [u16])
        requires sound { Sound table.now }
        requires space { 272 ≤ length scratch.old }
        ensures { Numbered (graph table.now) self.new }
    {
        self.listed.clear();
        let mut queue = Queue::over(scratch);
        self.roots(table, &mut queue);
        self.drain(table, &mut queue);
    }

    // The rows of the variables, in their order.
    fn roots(&mut self, table: &Table, queue: &mut Queue<u16>)
        requires sound { Sound table.now }
        requires start { Underway (graph table.now) (by_variable 0) 0 self.old (waiting queue.old) }
        requires space { 272 ≤ capacity queue.old }
        ensures numbered { Underway (graph table.now) (by_attribute 0 0) 0 self.new (waiting queue.new) }
        ensures capacity { capacity queue.new ≡ capacity queue.old }
    {
        for (x, root) in table.roots.iter().enumerate() {
            self.mention(*root, Mention::Variable(x as u16), queue);
        }
    }

    // Visits the rows that wait, until none does.
    fn drain(&mut self, table: &Table, queue: &mut Queue<u16>)
        requires sound { Sound table.now }
        requires start { Underway (graph table.now) (by_attribute 0 0) 0 self.old (waiting queue.old) }
        requires space { 272 ≤ capacity queue.old }
        ensures { Underway (graph table.now) (by_attribute (vec_len self.new.listed) 0) (vec_len self.new.listed) self.new [] }
    {
        while let Some(row) = queue.pop() {
            self.visit(table, row, queue);
        }
    }

    // Mentions the targets of a row, its attributes rising.
    fn visit(&mut self, table: &Table, row: u16, queue: &mut Queue<u16>)
        requires sound { Sound table.now }
        requires inside { row < vec_len table.now.rows }
        requires has { HasNumber self.old row }
        requires start { Underway (graph table.now) (by_attribute (num self.old row) 0) (num self.old row + 1) self.old (waiting queue.old) }
        requires space { 272 ≤ capacity queue.old }
        ensures numbered { Underway (graph table.now) (by_attribute (num self.old row + 1) 0) (num self.old row + 1) self.new (waiting queue.new) }
        ensures capacity { capacity queue.new ≡ capacity queue.old }
    {
        let giver = self.number[row as usize];
        for (attribute, target) in table.rows[row as usize].edges() {
            self.mention(target, Mention::Attribute { giver, attribute }, queue);
        }
    }
}
