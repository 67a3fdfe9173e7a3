// The attributes of a record.
ghost use Rattle.std.specs.Prelude.{ℕ, ◌<◌, MatchBool};
ghost use Rattle.graphs.specs.Listings.{count_at, target_at};
ghost use Rattle.graphs.specs.Reading.{Rising};
ghost use Rattle.graphs.specs.Rows.{RowAt};

use crate::fields::number_at;
use crate::record::Record;
use tables::node::Node;

impl Record<'_> {
    // Do the attributes rise, and does none pass 31?
    pub fn attributes_rise(&self) -> bool
        ensures { MatchBool result (Rising self.now.bytes.now 0) (Rising self.now.bytes.now 0 → ⊥) }
    {
        let mut least = 0;
        for entry in self.entries() {
            let attribute = entry[0];
            if attribute < least || attribute > 31 {
                return false;
            }
            least = attribute + 1;
        }
        true
    }

    // Do they all lead to nodes?
    pub fn targets_inside(&self, nodes: usize) -> bool
        ensures { MatchBool result ((i : ℕ) → i < count_at self.now.bytes.now 0 → target_at self.now.bytes.now 0 i < nodes) (((i : ℕ) → i < count_at self.now.bytes.now 0 → target_at self.now.bytes.now 0 i < nodes) → ⊥) }
    {
        for entry in self.entries() {
            if number_at::<2>(entry, 1) as usize >= nodes {
                return false;
            }
        }
        true
    }

    // The row of the record.
    pub fn row(&self) -> Node
        requires { Rising self.now.bytes.now 0 }
        ensures { RowAt self.now.bytes.now 0 result }
    {
        let mut row = Node::bare(number_at::<8>(self.bytes, 0));
        for entry in self.entries() {
            row.lead(u16::from(entry[0]), number_at::<2>(entry, 1) as u16);
        }
        row
    }
}
