// The links from the types that are written up to their supertypes.
ghost use Rattle.std.specs.Prelude.{◌+◌, ◌<◌, vec_len, string_bytes, Some, IfOk, OnOk};
ghost use Rattle.texts.specs.Named.{FirstNamed};
ghost use Rattle.hierarchy_text.specs.Names.{name_of};
ghost use Rattle.hierarchy_text.specs.Sheets.{Written};

use crate::entries::Entries;
use crate::entry::Entry;
use crate::fault::Fault;
use kinds::types::Link;
use std::alloc::Global;
use texts::named::position_of;

impl Entries {
    // The links of all types, or the first fault of their supertypes.
    pub(crate) fn links(&self, heap: Global) -> Result<Vec<Link>, Fault>
        ensures { IfOk result (λ links. Written (vec_len self.now.list) links.items) }
    {
        let mut links = Vec::new(heap);
        for (t, entry) in self.list.iter().enumerate() {
            self.link(t, entry, &mut links)?;
        }
        Ok(links)
    }

    // Adds the links of a type. The first has none, and every other at least one.
    fn link(&self, t: usize, entry: &Entry, links: &mut Vec<Link>) -> Result<(), Fault>
        requires within { t < vec_len self.now.list }
        requires written { Written t links.old.items }
        ensures { OnOk result (Written (t + 1) links.new.items) }
    {
        if t == 0 && !entry.supertypes.is_empty() {
            return Err(Fault::TopBelow(entry.line, entry.name.clone()?));
        }
        if t != 0 && entry.supertypes.is_empty() {
            return Err(Fault::NoSupertype(entry.line, entry.name.clone()?));
        }
        for name in &entry.supertypes {
            let subtype = t as u16;
            let supertype = self.find_above(t, entry.line, name)?;
            links.push(Link { subtype, supertype })?;
        }
        Ok(())
    }

    // The number of a supertype, which stands above its subtype.
    fn find_above(&self, t: usize, line: usize, name: &String) -> Result<u16, Fault>
        requires { t < vec_len self.now.list }
        ensures { IfOk result (λ s. (s < t) × FirstNamed name_of self.now.list.items (string_bytes name.now) (Some s)) }
    {
        match position_of(self.list.as_slice(), name.as_str()) {
            Some(s) if s < t => Ok(s as u16),
            Some(s) => Err(Fault::NotAbove(line, name.clone()?, self.list[s].line)),
            None => Err(Fault::Unknown(line, name.clone()?)),
        }
    }
}
