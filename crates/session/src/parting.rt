// Terms that are to denote two nodes: kept, and tried against a graph.
ghost use Rattle.std.specs.Prelude.{◌≡◌, ℕ, ◌<◌, MatchOption};
ghost use Rattle.growth.specs.Joins.{ApartOnOne};
ghost use Rattle.tables.specs.Views.{graph as graph_of, Sound};
ghost use Rattle.features.specs.Terms.{apart as two_nodes};
ghost use Rattle.answers.specs.Answers.{state, states};
ghost use Rattle.answers.specs.Runs.{Step, asked};
ghost use Rattle.terms.specs.Terms.{term_of};
ghost use Rattle.session.specs.Sessions.{graph, kept};

use crate::checks::check_pair;
use crate::nodes::on_one_node;
use crate::parts::{Apart, Held, Term};
use crate::session::{APARTS, Session};
use answers::refusal::Refusal;
use kinds::kind::Kind;
use tables::storage::CAPACITY;
use tables::table::Table;

impl<K: Kind> Session<K> {
    // The terms are to denote two nodes, or at least one of them nothing. Nothing is written to the trail.
    pub fn apart(&mut self, p: Term<'_>, q: Term<'_>, trail: &mut [u16]) -> Result<(), Refusal>
        ensures step { Step graph kept (K.meaning self.old.kind) self.old (asked (state (two_nodes (term_of p.entry) (term_of q.entry)) trail.old) (states result trail.new)) self.new }
        ensures kind { self.new.kind ≡ self.old.kind }
    {
        check_pair(p, q, &self.table)?;
        if trail.len() < CAPACITY {
            return Err(Refusal::ShortTrail);
        }
        if self.aparts.len() >= APARTS {
            return Err(Refusal::ApartsFull);
        }
        if on_one_node(&self.table, p, q) {
            return Err(Refusal::ApartClash(self.aparts.len() as u16));
        }
        self.aparts.push_reserved(Apart {
            left: Held::of(p),
            right: Held::of(q),
        });
        Ok(())
    }

    // The first of the aparts kept whose sides denote one node of the table's graph.
    pub(crate) fn first_broken(&self, table: &Table) -> Option<u16>
        requires { Sound table.now }
        ensures { MatchOption result ((i : ℕ) → ApartOnOne (graph_of table.now) (kept self.now) i → ⊥) (λ i. ApartOnOne (graph_of table.now) (kept self.now) i × ((j : ℕ) → j < i → ApartOnOne (graph_of table.now) (kept self.now) j → ⊥)) }
    {
        for (i, apart) in self.aparts.iter().enumerate() {
            if on_one_node(table, apart.left.term(), apart.right.term()) {
                return Some(i as u16);
            }
        }
        None
    }
}
