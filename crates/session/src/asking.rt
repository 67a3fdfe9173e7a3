// Questions: they make no nodes.
ghost use Rattle.answers.specs.Answers.{ask_same, says, ask_value, gives};
ghost use Rattle.answers.specs.Runs.{Step, asked};
ghost use Rattle.terms.specs.Terms.{term_of};
ghost use Rattle.session.specs.Sessions.{graph, kept};

use crate::checks::{check, check_pair};
use crate::nodes::{node_of, on_one_node};
use crate::parts::Term;
use crate::session::Session;
use answers::refusal::{Refusal, Side};
use kinds::kind::Kind;

impl<K: Kind> Session<K> {
    // Do both terms denote one node?
    pub fn same(&self, p: Term<'_>, q: Term<'_>) -> Result<bool, Refusal>
        ensures { Step graph kept (K.meaning self.now.kind) self.now (asked (ask_same (term_of p.entry) (term_of q.entry)) (says result)) self.now }
    {
        check_pair(p, q, &self.table)?;
        Ok(on_one_node(&self.table, p, q))
    }

    // The value of a term's node, or none where it denotes nothing.
    pub fn value(&self, p: Term<'_>) -> Result<Option<u64>, Refusal>
        ensures { Step graph kept (K.meaning self.now.kind) self.now (asked (ask_value (term_of p.entry)) (gives result)) self.now }
    {
        check(p, &self.table, Side::Left)?;
        match node_of(&self.table, p) {
            Some(n) => Ok(Some(self.table.rows[n as usize].value)),
            None => Ok(None),
        }
    }
}
