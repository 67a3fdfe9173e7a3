// The types above a type.
ghost use Rattle.std.specs.Prelude.{vec_len};
ghost use Rattle.kinds.specs.Types.{AllUpward};
ghost use Rattle.hierarchy_text.specs.Sheets.{Supertypes, Above};

use crate::sheet::Sheet;
use kinds::types::{Link, has_bit};

impl Sheet {
    // The set of the types at or above a type, which is empty for a number that is no type.
    pub fn at_or_above(&self, t: u16) -> u64
        ensures { Above (vec_len self.now.entries.list) self.now.links.items t result }
    {
        if t as usize >= self.entries.list.len() {
            return 0;
        }
        let mut set = 1u64 << t;
        for u in (0..t + 1).rev() {
            if has_bit(set, u as u64) {
                set |= supertypes(self.links.as_slice(), u);
            }
        }
        set
    }
}

// The set of the types right above a type.
fn supertypes(links: &[Link], t: u16) -> u64
    requires { AllUpward 64 links.now }
    ensures { Supertypes links.now t result }
{
    let mut set = 0;
    for link in links {
        if link.subtype == t {
            set |= 1u64 << link.supertype;
        }
    }
    set
}
