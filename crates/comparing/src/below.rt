// The order of a kind's values.
ghost use Rattle.std.specs.Prelude.{◌≡◌};

use kinds::kind::Kind;

// Is v at or below w? No for what is no value.
pub fn below<K: Kind>(kind: &K, v: u64, w: u64) -> bool
    ensures { result ≡ (K.meaning kind.now).below v w }
{
    match kind.meet(v, w) {
        Some(meet) => meet == v,
        None => false,
    }
}
