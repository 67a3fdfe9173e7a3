// Leaf marks that stand or are missing where they should not.
ghost use Rattle.std.specs.Prelude.{◌≡◌, ℕ, ◌<◌, ◌≤◌, true, MatchOption};
ghost use Rattle.kinds.specs.Orders.{sets, size};
ghost use Rattle.kinds.specs.Hierarchy.{Under, Astray};
ghost use Rattle.kinds.specs.Masks.{has};
ghost use Rattle.kinds.specs.Types.{Least};

use crate::masks::{Bits, lowest_bit};
use crate::types::order::Order;

impl Order {
    // The types at or below a marked type.
    fn covered(&self, marks: u64) -> u64
        ensures only { (c : ℕ) → has result c ≡ true → (u : ℕ) × (u < size self.now) × (has marks u ≡ true) × Under (sets self.now) c u }
        ensures all { (c u : ℕ) → u < size self.now → has marks u ≡ true → Under (sets self.now) c u → has result c ≡ true }
    {
        let mut types = 0;
        for t in Bits::of(marks) {
            if let Some(set) = self.below.get(usize::from(t)) {
                types |= *set;
            }
        }
        types
    }

    // The lowest type whose mark is at fault.
    pub fn first_astray(&self, marks: u64) -> Option<u16>
        ensures { MatchOption result ((t : ℕ) → Astray (size self.now) (sets self.now) marks t → ⊥) (λ t. Least (Astray (size self.now) (sets self.now) marks) t) }
    {
        let misplaced = marks & (1 | !self.set(0));
        let missing = self.covered(marks) & !marks;
        lowest_bit(misplaced | missing)
    }
}
