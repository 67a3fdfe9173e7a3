// New variables.
ghost use Rattle.std.specs.Prelude.{◌≡◌};
ghost use Rattle.answers.specs.Answers.{declare, declares};
ghost use Rattle.answers.specs.Runs.{Step, asked};
ghost use Rattle.session.specs.Sessions.{graph, kept};

use crate::session::{NODES, Session};
use answers::refusal::Refusal;
use kinds::kind::Kind;
use tables::storage::VARIABLES;

impl<K: Kind> Session<K> {
    // One variable more, on a node of its own; the answer is its number.
    pub fn declare(&mut self) -> Result<u16, Refusal>
        ensures step { Step graph kept (K.meaning self.old.kind) self.old (asked declare (declares result)) self.new }
        ensures kind { self.new.kind ≡ self.old.kind }
    {
        if self.table.roots.len() >= VARIABLES {
            return Err(Refusal::VariablesFull);
        }
        if self.table.rows.len() >= NODES {
            return Err(Refusal::NodesFull);
        }
        let top = self.kind.top();
        Ok(self.table.add_variable(top))
    }
}
