// Value sets: the numbers of 64 bits but 0, each the set of its one-bits, ordered as sets are.
ghost use Rattle.kinds.specs.ValueSets.{value_sets};
ghost use Rattle.kinds.specs.LawfulSets.{sets_lawful};

use crate::kind::Kind;

#[derive(Clone, Copy)]
pub struct ValueSets;

const ALL: u64 = u64::MAX;

// A set with this bit is no leaf.
const OPEN: u64 = 1 << 63;

impl Kind for ValueSets {
    ghost meaning = { λ _. value_sets };

    ghost lawful = { λ k. sets_lawful };

    fn is_value(&self, v: u64) -> bool {
        v != 0
    }

    fn top(&self) -> u64 {
        ALL
    }

    fn is_leaf(&self, v: u64) -> bool {
        self.is_value(v) && v < OPEN
    }

    fn meet(&self, a: u64, b: u64) -> Option<u64> {
        let common = a & b;
        (common != 0).then_some(common)
    }
}

#[cfg(test)]
mod tests {
    use super::*;

    #[test]
    fn edges(rt: HostRuntime) {
        assert!(rt; !ValueSets.is_value(0) && ValueSets.is_value(ALL));
        assert!(rt; ValueSets.is_leaf(OPEN - 1) && !ValueSets.is_leaf(OPEN));
        assert!(rt; !ValueSets.is_leaf(0) && !ValueSets.is_leaf(ALL));
        assert_eq!(rt; ValueSets.top(), ALL);
    }

    #[test]
    fn meets(rt: HostRuntime) {
        assert_eq!(rt; ValueSets.meet(3, 6), Some(2));
        assert_eq!(rt; ValueSets.meet(2, 4), None);
        assert_eq!(rt; ValueSets.meet(ALL, OPEN), Some(OPEN));
        assert_eq!(rt; ValueSets.meet(0, ALL), None);
    }
}
