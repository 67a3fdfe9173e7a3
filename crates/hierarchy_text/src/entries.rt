// The types that are written.
ghost use Rattle.std.specs.Prelude.{◌≤◌, vec_len, IfOk};
ghost use Rattle.hierarchy_text.specs.Sheets.{Few, Marked};

use crate::entry::Entry;
use crate::fault::Fault;
use std::alloc::Global;
use texts::line::Lines;
use texts::named::position_of;

const MOST: usize = 64;

// The types in the order of their lines, each with a name of its own.
#[derive(Drop)]
pub(crate) struct Entries {
    pub(crate) list: Vec<Entry>,
    ghost few: { vec_len list ≤ 64 },
}

impl Entries {
    // The types of a text, or its first fault, where each line is looked at by itself.
    pub(crate) fn read(heap: Global, text: &str) -> Result<Entries, Fault>
        ensures { IfOk result (λ entries. Few (vec_len entries.list)) }
    {
        let mut entries = Entries {
            list: Vec::new(heap),
        };
        for line in Lines::of(text) {
            if let Some(entry) = Entry::of(heap, line)? {
                entries.add(entry)?;
            }
        }
        if entries.list.is_empty() {
            return Err(Fault::Empty);
        }
        Ok(entries)
    }

    // Adds a type with a name of its own.
    fn add(&mut self, entry: Entry) -> Result<(), Fault> {
        if self.list.len() >= MOST {
            return Err(Fault::TooMany(entry.line));
        }
        if let Some(i) = position_of(self.list.as_slice(), entry.name.as_str()) {
            let first = self.list[i].line;
            return Err(Fault::Repeated(entry.line, entry.name, first));
        }
        self.list.push(entry)?;
        Ok(())
    }

    // The set of the marked types.
    pub(crate) fn leaf_marks(&self) -> u64
        ensures { Marked self.now.list.items (vec_len self.now.list) result }
    {
        let mut marks = 0;
        for (t, entry) in self.list.iter().enumerate() {
            if entry.leaf {
                marks |= 1u64 << t;
            }
        }
        marks
    }
}
