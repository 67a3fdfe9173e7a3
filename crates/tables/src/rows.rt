// What one row answers, and how it changes.
ghost use Rattle.std.specs.Prelude.{◌≡◌, ℕ, ◌<◌, MatchOption, ◌≢◌, length, slice_index};
ghost use Rattle.std.proofs.Math.Option.{some as leads_to, none as leads_nowhere, map as mapped};
ghost use Rattle.tables.specs.Views.{edge_of};

use crate::node::Node;
use kinds::masks::has_bit;

impl Node {
    // A node with a value and no attribute.
    pub fn bare(value: u64) -> Node
        ensures value { result.value ≡ value }
        ensures bare { (a : ℕ) → edge_of result a ≡ leads_nowhere }
    {
        Node {
            value,
            present: 0,
            targets: [0; 32],
        }
    }

    // Where an attribute leads, if the node has it.
    pub fn target(&self, attribute: u16) -> Option<u16>
        ensures { MatchOption result (edge_of self.now attribute ≡ leads_nowhere) (λ t. edge_of self.now attribute ≡ leads_to t) }
    {
        if attribute < 32 && has_bit(u64::from(self.present), u64::from(attribute)) {
            Some(self.targets[attribute as usize])
        } else {
            None
        }
    }

    // From now on the attribute leads to the target.
    pub fn lead(&mut self, attribute: u16, target: u16)
        requires { attribute < 32 }
        ensures value { self.new.value ≡ self.old.value }
        ensures leads { edge_of self.new attribute ≡ leads_to target }
        ensures others { (a : ℕ) → (a ≢ attribute) → edge_of self.new a ≡ edge_of self.old a }
    {
        self.present |= 1 << attribute;
        self.targets[attribute as usize] = target;
    }

    // From now on each attribute leads to what stands at the place of its target.
    pub fn redirect(&mut self, to: &[u16])
        requires { (a k : ℕ) → edge_of self.old a ≡ leads_to k → k < length to.now }
        ensures value { self.new.value ≡ self.old.value }
        ensures edges { (a : ℕ) → edge_of self.new a ≡ mapped (λ x. slice_index to.now x) (edge_of self.old a) }
    {
        let node = *self;
        for (attribute, target) in node.edges() {
            self.lead(attribute, to[target as usize]);
        }
    }
}
