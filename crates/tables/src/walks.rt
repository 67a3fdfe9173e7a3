// Along the attributes of a graph.
ghost use Rattle.std.specs.Prelude.{ℕ, ◌<◌, MatchOption, vec_len};
ghost use Rattle.features.specs.Graphs.{Leads};
ghost use Rattle.tables.specs.Views.{graph, Sound};

use crate::table::Table;

impl Table {
    // The node to which a path leads, if every attribute on the way is there.
    pub fn find(&self, from: u16, path: &[u16]) -> Option<u16>
        requires sound { Sound self.now }
        requires inside { from < vec_len self.now.rows }
        ensures { MatchOption result ((n : ℕ) → Leads (graph self.now) from path.now n → ⊥) (λ n. Leads (graph self.now) from path.now n × (n < vec_len self.now.rows)) }
    {
        let mut node = from;
        for attribute in path {
            node = self.rows[node as usize].target(*attribute)?;
        }
        Some(node)
    }
}
