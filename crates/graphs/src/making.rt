// The memory of a graph.
ghost use Rattle.std.specs.Prelude.{◌≡◌, IfOk};
ghost use Rattle.graphs.specs.Held.{graph_of};

use crate::feature_graph::FeatureGraph;
use std::alloc::{AllocError, Global};
use tables::table::Table;

impl FeatureGraph {
    // The empty graph, with all the memory that it will need.
    pub fn new(heap: Global) -> Result<FeatureGraph, AllocError>
        ensures { IfOk result (λ g. ((graph_of g).nodes ≡ 0) × ((graph_of g).vars ≡ 0)) }
    {
        let table = Table::new(heap)?;
        let spare = Table::new(heap)?;
        Ok(FeatureGraph { table, spare })
    }

    // The rows that hold the graph.
    pub fn table(&self) -> &Table
        ensures { result.now ≡ self.now.table }
    {
        &self.table
    }
}
