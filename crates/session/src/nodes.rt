// The nodes that terms denote in a table's graph.
ghost use Rattle.std.specs.Prelude.{ℕ, ◌<◌, MatchBool, MatchOption, vec_len};
ghost use Rattle.features.specs.Graphs.{Denotes};
ghost use Rattle.growth.specs.Joins.{OneNode};
ghost use Rattle.tables.specs.Views.{graph, Sound};
ghost use Rattle.terms.specs.Terms.{term_of};

use crate::parts::Term;
use tables::table::Table;

// The node of a term, if there is one; a variable that is not declared has none.
pub fn node_of(table: &Table, p: Term<'_>) -> Option<u16>
    requires { Sound table.now }
    ensures { MatchOption result ((n : ℕ) → Denotes (graph table.now) (term_of p.entry) n → ⊥) (λ n. Denotes (graph table.now) (term_of p.entry) n × (n < vec_len table.now.rows)) }
{
    let root = table.roots.get(usize::from(p.var))?;
    table.find(*root, p.path)
}

// Do both terms denote one node?
pub fn on_one_node(table: &Table, p: Term<'_>, q: Term<'_>) -> bool
    requires { Sound table.now }
    ensures { MatchBool result (OneNode (graph table.now) (term_of p.entry) (term_of q.entry)) (OneNode (graph table.now) (term_of p.entry) (term_of q.entry) → ⊥) }
{
    match (node_of(table, p), node_of(table, q)) {
        (Some(a), Some(b)) => a == b,
        _ => false,
    }
}
