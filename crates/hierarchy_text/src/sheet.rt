// A hierarchy as it is written.
ghost use Rattle.std.specs.Prelude.{◌≡◌, ◌<◌, ◌≤◌, ◌∷◌, [], vec_len};
ghost use Rattle.std.specs.List.{HoldsAt};
ghost use Rattle.kinds.specs.Types.{AllUpward, AllLinked};
ghost use Rattle.hierarchy_text.specs.Names.{name_of};
ghost use Rattle.hierarchy_text.specs.Sheets.{Few, Marked};

use crate::entries::Entries;
use crate::fault::Fault;
use kinds::types::Link;
use std::alloc::Global;
use texts::named::name_at;

// The types in the order of their lines, by which they are numbered from 0, the links from them up to their supertypes, and the set of the marked.
#[derive(Drop)]
pub struct Sheet {
    pub(crate) entries: Entries,
    pub(crate) links: Vec<Link>,
    pub(crate) marks: u64,
    ghost few: { Few (vec_len entries.list) },
    ghost upward: { AllUpward (vec_len entries.list) links.items },
    ghost linked: { ∥ AllLinked (vec_len entries.list) links.items ∥₁ },
    ghost marked: { ∥ Marked entries.list.items (vec_len entries.list) marks ∥₁ },
}

impl Sheet {
    // The hierarchy of a text, or its first fault: first of the lines, each by itself, and then of their supertypes.
    pub fn read(heap: Global, text: &str) -> Result<Sheet, Fault> {
        let entries = Entries::read(heap, text)?;
        let links = entries.links(heap)?;
        let marks = entries.leaf_marks();
        Ok(Sheet {
            entries,
            links,
            marks,
        })
    }

    // The name of a type, and a question mark for a number that is none.
    pub fn name(&self, t: u64) -> &str
        ensures named { t < vec_len self.now.entries.list → HoldsAt (λ e. name_of e ≡ result.now) self.now.entries.list.items t }
        ensures unnamed { vec_len self.now.entries.list ≤ t → result.now ≡ 63 ∷ [] }
    {
        name_at(self.entries.list.as_slice(), t as usize)
    }
}
