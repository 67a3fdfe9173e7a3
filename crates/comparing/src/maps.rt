// Does a map lead from one graph into another?
ghost use Rattle.std.specs.Prelude.{ℕ, MatchBool};
ghost use Rattle.features.specs.Graphs.{Map};
ghost use Rattle.graphs.specs.Held.{graph_of};

use crate::images::Mapping;
use arrayvec::ArrayVec;
use graphs::feature_graph::FeatureGraph;
use kinds::kind::Kind;

// Yes exactly where a map leads from the one graph into the other: no node has more than one image that it could have.
pub fn maps<K: Kind>(kind: &K, from: &FeatureGraph, into: &FeatureGraph) -> bool
    ensures { MatchBool result ((f : ℕ → ℕ) × Map (K.meaning kind.now) (graph_of from.now) (graph_of into.now) f) ((f : ℕ → ℕ) → Map (K.meaning kind.now) (graph_of from.now) (graph_of into.now) f → ⊥) }
{
    if from.table().roots.len() > into.table().roots.len() {
        return false;
    }
    let mapping = Mapping { from, into };
    let mut images = ArrayVec::new();
    if !mapping.place_variables(&mut images) {
        return false;
    }
    for node in 0..from.table().rows.len() {
        if !mapping.place_targets(node, &mut images) {
            return false;
        }
    }
    mapping.values_below(kind, images.as_slice())
}

#[cfg(test)]
mod tests {
    use super::*;
    use kinds::atoms::Atoms;
    use std::test::Fail;

    // A node with the top, and one with the atom 7.
    #[test]
    fn the_top_leads_into_an_atom(rt: HostRuntime) -> Result<(), Fail> {
        let empty = FeatureGraph::new(rt.alloc())?;
        let mut top = FeatureGraph::new(rt.alloc())?;
        let mut seven = FeatureGraph::new(rt.alloc())?;
        assert!(rt;
            top.read(
                &Atoms,
                &[0, 0, 0, 0, 0, 0, 0, 0, 0, 0, 0, 1, 0, 1, 0, 9, 0, 0, 0],
            )
            .is_ok()
        );
        assert!(rt;
            seven
                .read(
                    &Atoms,
                    &[7, 0, 0, 0, 0, 0, 0, 0, 0, 0, 0, 1, 0, 1, 0, 9, 0, 0, 0],
                )
                .is_ok()
        );
        assert!(rt; maps(&Atoms, &top, &seven));
        assert!(rt; !maps(&Atoms, &seven, &top));
        assert!(rt; maps(&Atoms, &empty, &top));
        assert!(rt; !maps(&Atoms, &top, &empty));
        Ok(())
    }
}
