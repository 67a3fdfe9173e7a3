// Four types crossed under the top: 1 and 2 are right below 0, and 3 and 4 right below both of them.
ghost use Rattle.std.specs.Prelude.{◌≡◌, Err};
ghost use Rattle.kinds.specs.declared.types.misfit.Misfit.TheVariants.{NoGreatest};

use crate::types::Types;
use crate::types::links::Link;
use crate::types::misfit::Misfit;

// Such types are refused: 3 and 4 are at or below both 1 and 2, and neither is the greatest of them.
pub fn fill_crossed(types: &mut Types, leaves: u64) -> Result<(), Misfit>
    ensures answer { result ≡ Err (NoGreatest 1 2) }
    ensures kept { types.new ≡ types.old }
{
    let links = [
        Link {
            subtype: 1,
            supertype: 0,
        },
        Link {
            subtype: 2,
            supertype: 0,
        },
        Link {
            subtype: 3,
            supertype: 1,
        },
        Link {
            subtype: 3,
            supertype: 2,
        },
        Link {
            subtype: 4,
            supertype: 1,
        },
        Link {
            subtype: 4,
            supertype: 2,
        },
    ];
    types.fill(5, &links, leaves)
}
