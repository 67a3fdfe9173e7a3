// Pairs of types that have common types at or below them and no greatest.
ghost use Rattle.std.specs.Prelude.{ℕ, ◌<◌, ◌≤◌, MatchBool, MatchOption};
ghost use Rattle.kinds.specs.Orders.{sets, size};
ghost use Rattle.kinds.specs.Hierarchy.{UnderLowest, Parted};

use crate::masks::lowest_bit;
use crate::types::order::Order;

impl Order {
    // Is every common type of the two at or below the one with the lowest number?
    fn meets(&self, a: u16, b: u16) -> bool
        requires a_type { a < size self.now }
        requires b_type { b < size self.now }
        ensures { MatchBool result (UnderLowest (sets self.now) a b) (Parted (sets self.now) a b) }
    {
        let common = self.set(a) & self.set(b);
        match lowest_bit(common) {
            Some(lowest) => common & !self.set(lowest) == 0,
            None => true,
        }
    }

    // The lowest type above `a` that has no greatest common type with it.
    fn first_partner(&self, a: u16) -> Option<u16>
        requires { a < size self.now }
        ensures { MatchOption result ((y : ℕ) → a < y → y < size self.now → UnderLowest (sets self.now) a y) (λ b. (a < b) × (b < size self.now) × Parted (sets self.now) a b × ((y : ℕ) → a < y → y < b → UnderLowest (sets self.now) a y)) }
    {
        let count = self.count();
        (a + 1..count).find(|b| !self.meets(a, *b))
    }

    // The first two types that have no greatest common type, by the first and then the second.
    pub fn first_parted(&self) -> Option<(u16, u16)>
        ensures { MatchOption result ((x y : ℕ) → x < y → y < size self.now → UnderLowest (sets self.now) x y) (λ p. (p.0 < p.1) × (p.1 < size self.now) × Parted (sets self.now) p.0 p.1 × ((x y : ℕ) → x < p.0 → x < y → y < size self.now → UnderLowest (sets self.now) x y) × ((y : ℕ) → p.0 < y → y < p.1 → UnderLowest (sets self.now) p.0 y)) }
    {
        // A loop, since what `find_map` says of a range did not prove that the first pair is found.
        for a in 0..self.count() {
            if let Some(b) = self.first_partner(a) {
                return Some((a, b));
            }
        }
        None
    }
}
