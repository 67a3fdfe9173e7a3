// Worked examples, proved from the contracts of the calls alone.
ghost use Rattle.std.specs.Prelude.{◌≡◌, Some, None};

use crate::kind::Kind;
use crate::value_sets::ValueSets;

// 3 and 6 share the bit 2.
pub fn overlapping_sets() -> Option<u64>
    ensures { result ≡ Some 2 }
{
    ValueSets.meet(3, 6)
}

// 2 and 4 share no bit.
pub fn disjoint_sets() -> Option<u64>
    ensures { result ≡ None }
{
    ValueSets.meet(2, 4)
}
