// What a type hierarchy answers as a kind of value.
ghost use Rattle.kinds.specs.Orders.{sets, size};
ghost use Rattle.kinds.specs.Types.{meaning_of};
ghost use Rattle.kinds.specs.Hierarchies.{sound_known, hierarchy_lawful};

use crate::kind::Kind;
use crate::masks::{has_bit, lowest_bit};
use crate::types::Types;

// The number of the top.
const TOP: u64 = 0;

impl Kind for Types {
    ghost meaning = { meaning_of };

    ghost lawful = { λ k. hierarchy_lawful (size k.order) (sets k.order) k.leaves (sound_known (size k.order) (sets k.order) k.leaves k.sound) };

    fn is_value(&self, v: u64) -> bool {
        v < u64::from(self.order.count())
    }

    fn top(&self) -> u64 {
        TOP
    }

    fn is_leaf(&self, v: u64) -> bool {
        has_bit(self.leaves, v)
    }

    fn meet(&self, a: u64, b: u64) -> Option<u64> {
        let below = self.order.below.as_slice();
        let common = *below.get(a as usize)? & *below.get(b as usize)?;
        lowest_bit(common).map(u64::from)
    }
}
