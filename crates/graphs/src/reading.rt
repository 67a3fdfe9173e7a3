// Listings read back.
ghost use Rattle.std.specs.Prelude.{◌≡◌, ◌≤◌, true, is_ok, MatchResult, vec_capacity};
ghost use Rattle.features.specs.Bytes.{Written};
ghost use Rattle.features.specs.Graphs.{Graph, SameGraph};
ghost use Rattle.features.specs.Numbering.{BreadthFirst};
ghost use Rattle.features.specs.Order.{InOrder};
ghost use Rattle.tables.specs.Views.{graph, Sound};
ghost use Rattle.graphs.specs.Held.{graph_of};
ghost use Rattle.graphs.specs.Reading.{Ground};

use crate::counts::read_trailer;
use crate::feature_graph::FeatureGraph;
use crate::listing::Listing;
use crate::misread::Misread;
use crate::ordering::breadth_first;
use kinds::kind::Kind;
use std::mem;
use tables::table::Table;

// Makes the table hold the graph whose bytes these are, in listing order; otherwise it holds anything.
fn read_table<K: Kind>(kind: &K, bytes: &[u8], table: &mut Table) -> Result<(), Misread>
    requires row_room { 272 ≤ vec_capacity table.old.rows }
    requires root_room { 64 ≤ vec_capacity table.old.roots }
    ensures row_room { vec_capacity table.new.rows ≡ vec_capacity table.old.rows }
    ensures root_room { vec_capacity table.new.roots ≡ vec_capacity table.old.roots }
    ensures cases { MatchResult result (λ _. Sound table.new × Written (K.meaning kind.now) bytes.now (graph table.new) × BreadthFirst (graph table.new)) (λ e. Ground (K.meaning kind.now) bytes.now e) }
{
    let trailer = read_trailer(bytes)?;
    let listing = Listing {
        kind,
        bytes,
        trailer,
    };
    listing.read_records(&mut table.rows)?;
    listing.read_roots(&mut table.roots)?;
    if !breadth_first(table) {
        return Err(Misread::NotInOrder);
    }
    Ok(())
}

impl FeatureGraph {
    // The graph of which these are the bytes, in listing order; where there is none, the graph stays as it was.
    pub fn read<K: Kind>(&mut self, kind: &K, bytes: &[u8]) -> Result<(), Misread>
        ensures cases { MatchResult result (λ _. Written (K.meaning kind.now) bytes.now (graph_of self.new) × InOrder (graph_of self.new)) (λ e. Ground (K.meaning kind.now) bytes.now e × (graph_of self.new ≡ graph_of self.old)) }
        ensures accepted { (g : Graph) → Written (K.meaning kind.now) bytes.now g → InOrder g → (is_ok result ≡ true) × SameGraph g (graph_of self.new) }
    {
        read_table(kind, bytes, &mut self.spare)?;
        mem::swap(&mut self.table, &mut self.spare);
        Ok(())
    }
}
