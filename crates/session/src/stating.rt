// Statements that change the graph.
ghost use Rattle.std.specs.Prelude.{◌≡◌};
ghost use Rattle.features.specs.Terms.{equals as one_node, is as value_is};
ghost use Rattle.answers.specs.Answers.{state, states};
ghost use Rattle.answers.specs.Runs.{Step, asked};
ghost use Rattle.terms.specs.Terms.{term_of};
ghost use Rattle.session.specs.Sessions.{graph, kept};

use crate::checks::{check, check_pair};
use crate::parts::Term;
use crate::session::Session;
use answers::refusal::{Refusal, Side};
use kinds::kind::Kind;
use tables::storage::CAPACITY;

impl<K: Kind> Session<K> {
    // Both terms denote one node.
    pub fn equals(&mut self, p: Term<'_>, q: Term<'_>, trail: &mut [u16]) -> Result<(), Refusal>
        ensures step { Step graph kept (K.meaning self.old.kind) self.old (asked (state (one_node (term_of p.entry) (term_of q.entry)) trail.old) (states result trail.new)) self.new }
        ensures kind { self.new.kind ≡ self.old.kind }
    {
        check_pair(p, q, &self.table)?;
        if trail.len() < CAPACITY {
            return Err(Refusal::ShortTrail);
        }
        self.closer.close_equation(&self.kind, &self.table, p, q);
        self.judge(trail)?;
        std::mem::swap(&mut self.table, &mut self.closer.next);
        Ok(())
    }

    // The term denotes a node whose value is at or below the given one.
    pub fn is(&mut self, p: Term<'_>, value: u64, trail: &mut [u16]) -> Result<(), Refusal>
        ensures step { Step graph kept (K.meaning self.old.kind) self.old (asked (state (value_is (term_of p.entry) value) trail.old) (states result trail.new)) self.new }
        ensures kind { self.new.kind ≡ self.old.kind }
    {
        check(p, &self.table, Side::Left)?;
        if !self.kind.is_value(value) {
            return Err(Refusal::NoSuchValue);
        }
        if trail.len() < CAPACITY {
            return Err(Refusal::ShortTrail);
        }
        self.closer.close_value(&self.kind, &self.table, p, value);
        self.judge(trail)?;
        std::mem::swap(&mut self.table, &mut self.closer.next);
        Ok(())
    }
}
