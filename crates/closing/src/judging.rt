// The first node at fault of a closed graph.
ghost use Rattle.std.specs.Prelude.{◌≡◌, ℕ, ◌<◌, MatchOption, ◌≢◌, vec_len};
ghost use Rattle.std.proofs.Math.Option.{none as contradiction};
ghost use Rattle.growth.specs.Joins.{LeafAt};
ghost use Rattle.closing.specs.Closings.{Arranged, closed_graph, closed_state};

use crate::closer::Closer;
use kinds::kind::Kind;

impl Closer {
    // The first node, in listing order, on which no value stands.
    pub fn first_void(&self) -> Option<u16>
        requires { Arranged self.now }
        ensures { MatchOption result ((k : ℕ) → k < vec_len self.now.numbers.listed → closed_state self.now k ≢ contradiction) (λ k. (k < vec_len self.now.numbers.listed) × (closed_state self.now k ≡ contradiction) × ((j : ℕ) → j < k → closed_state self.now j ≢ contradiction)) }
    {
        for (k, listed) in self.numbers.listed.iter().enumerate() {
            if self.work.void[listed.row as usize] {
                return Some(k as u16);
            }
        }
        None
    }

    // The first node, in listing order, with a leaf and an attribute, where a value stands on every node.
    pub fn first_leaf<K: Kind>(&self, kind: &K) -> Option<u16>
        requires arranged { Arranged self.now }
        requires valued { (k : ℕ) → k < vec_len self.now.numbers.listed → closed_state self.now k ≢ contradiction }
        ensures { MatchOption result ((k : ℕ) → k < vec_len self.now.numbers.listed → LeafAt (K.meaning kind.now) (closed_graph self.now) (closed_state self.now) k → ⊥) (λ k. (k < vec_len self.now.numbers.listed) × LeafAt (K.meaning kind.now) (closed_graph self.now) (closed_state self.now) k × ((j : ℕ) → j < k → LeafAt (K.meaning kind.now) (closed_graph self.now) (closed_state self.now) j → ⊥)) }
    {
        for (k, node) in self.next.rows.iter().enumerate() {
            if node.present != 0 && kind.is_leaf(node.value) {
                return Some(k as u16);
            }
        }
        None
    }
}
