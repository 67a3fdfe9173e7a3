// The bytes of a graph.
ghost use Rattle.std.specs.Result.{MatchResult};
ghost use Rattle.features.specs.Listing.{written};
ghost use Rattle.listings.specs.Buffers.{Fitted, TooShort};
ghost use Rattle.graphs.specs.Held.{graph_of};

use crate::feature_graph::FeatureGraph;
use listings::writer;
use listings::writer::Short;

impl FeatureGraph {
    // Writes the listing at the front of the buffer, and answers its length. A buffer that is too short stays as it is.
    pub fn write(&self, out: &mut [u8]) -> Result<usize, Short>
        ensures { MatchResult result (λ n. Fitted (written (graph_of self.now)) out.old out.new n) (λ e. TooShort (written (graph_of self.now)) out.old out.new e.needed) }
    {
        writer::write(&self.table, out)
    }
}
