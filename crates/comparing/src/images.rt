// The image of each node, fixed by its first mention.
ghost use Rattle.std.specs.Prelude.{◌≡◌, ℕ, ◌+◌, ◌<◌, ◌≤◌, true, [], length, MatchBool, ◌≢◌, slice_index};
ghost use Rattle.arrayvec.specs.ArrayVec.{array_vec_len};
ghost use Rattle.features.specs.Numbering.{by_attribute};
ghost use Rattle.graphs.specs.Held.{graph_of};
ghost use Rattle.graphs.specs.Mentioned.{WithMention};
ghost use Rattle.comparing.specs.Images.{MappedUpTo, Apart};

use crate::below::below;
use arrayvec::ArrayVec;
use graphs::feature_graph::FeatureGraph;
use kinds::kind::Kind;

// The next node gets its image; one that has an image already keeps it, and the answer is no if it should be another.
fn place(images: &mut ArrayVec<u16, 256>, node: u16, image: u16) -> bool
    requires known { node ≤ array_vec_len images.old }
    requires room { node < 256 }
    ensures { MatchBool result (WithMention (array_vec_len images.old) node (array_vec_len images.new) × (slice_index images.new.items node ≡ image) × ((k : ℕ) → k < array_vec_len images.old → slice_index images.new.items k ≡ slice_index images.old.items k)) ((node < array_vec_len images.old) × (slice_index images.old.items node ≢ image)) }
{
    if let Some(placed) = images.get(node as usize) {
        return *placed == image;
    }
    images.push(image);
    true
}

// Two graphs, of which the first is to be mapped into the second.
#[derive(Clone, Copy)]
pub struct Mapping<'a> {
    pub from: &'a FeatureGraph,
    pub into: &'a FeatureGraph,
}

impl Mapping<'_> {
    // The images of the variables' nodes, or no where no map leads from one graph into the other.
    pub fn place_variables(&self, images: &mut ArrayVec<u16, 256>) -> bool
        requires first { images.old.items ≡ [] }
        requires variables { (graph_of self.now.from.now).vars ≤ (graph_of self.now.into.now).vars }
        ensures { MatchBool result (MappedUpTo (graph_of self.now.from.now) (graph_of self.now.into.now) (by_attribute 0 0) (array_vec_len images.new) images.new.items × (array_vec_len images.new ≤ (graph_of self.now.from.now).nodes)) (Apart (graph_of self.now.from.now) (graph_of self.now.into.now)) }
    {
        let from = self.from.table();
        let into = self.into.table();
        for (node, image) in from.roots.iter().zip(&into.roots) {
            if !place(images, *node, *image) {
                return false;
            }
        }
        true
    }

    // The images of the targets of a node's attributes, or no where no map leads from one graph into the other.
    pub fn place_targets(&self, node: usize, images: &mut ArrayVec<u16, 256>) -> bool
        requires inside { node < (graph_of self.now.from.now).nodes }
        requires most { array_vec_len images.old ≤ (graph_of self.now.from.now).nodes }
        requires mapped { MappedUpTo (graph_of self.now.from.now) (graph_of self.now.into.now) (by_attribute node 0) (array_vec_len images.old) images.old.items }
        ensures { MatchBool result (MappedUpTo (graph_of self.now.from.now) (graph_of self.now.into.now) (by_attribute (node + 1) 0) (array_vec_len images.new) images.new.items × (array_vec_len images.new ≤ (graph_of self.now.from.now).nodes)) (Apart (graph_of self.now.from.now) (graph_of self.now.into.now)) }
    {
        let image = self.into.table().rows[images.as_slice()[node] as usize];
        for (attribute, target) in self.from.table().rows[node].edges() {
            let Some(led) = image.target(attribute) else {
                return false;
            };
            if !place(images, target, led) {
                return false;
            }
        }
        true
    }

    // Is the value of each node's image at or below the node's own?
    pub fn values_below<K: Kind>(&self, kind: &K, images: &[u16]) -> bool
        requires room { (graph_of self.now.from.now).nodes ≤ length images.now }
        requires inside { (n : ℕ) → n < (graph_of self.now.from.now).nodes → slice_index images.now n < (graph_of self.now.into.now).nodes }
        ensures { MatchBool result ((n : ℕ) → n < (graph_of self.now.from.now).nodes → (K.meaning kind.now).below ((graph_of self.now.into.now).value (slice_index images.now n)) ((graph_of self.now.from.now).value n) ≡ true) (((n : ℕ) → n < (graph_of self.now.from.now).nodes → (K.meaning kind.now).below ((graph_of self.now.into.now).value (slice_index images.now n)) ((graph_of self.now.from.now).value n) ≡ true) → ⊥) }
    {
        let into = self.into.table();
        for (row, image) in self.from.table().rows.iter().zip(images) {
            if !below(kind, into.rows[*image as usize].value, row.value) {
                return false;
            }
        }
        true
    }
}
