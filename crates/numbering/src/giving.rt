// Numbers are given one after another.
ghost use Rattle.std.specs.Prelude.{◌≡◌, ◌<◌, [], ◌∷◌, ◌++◌, length, vec_len, IfOk, MatchBool};
ghost use Rattle.queue.specs.Waiting.{waiting, capacity};
ghost use Rattle.numbering.specs.Given.{HasNumber, Next};

use crate::mention::Mention;
use crate::numbers::{Listed, Numbers};
use queue::Queue;
use std::alloc::{AllocError, Global};
use tables::storage::CAPACITY;

impl Numbers {
    // No row has a number.
    pub fn new(heap: Global) -> Result<Numbers, AllocError>
        ensures { IfOk result (λ n. vec_len n.listed ≡ 0) }
    {
        let listed = Vec::with_capacity(heap, CAPACITY)?;
        let number = vec![in heap; 0; CAPACITY]?;
        Ok(Numbers { listed, number })
    }

    // Whether the row has a number.
    pub fn has_number(&self, row: u16) -> bool
        requires { row < 272 }
        ensures { MatchBool result (HasNumber self.now row) (HasNumber self.now row → ⊥) }
    {
        self.listed
            .get(self.number[row as usize] as usize)
            .is_some_and(|listed| listed.row == row)
    }

    // The row gets the next number.
    fn append(&mut self, row: u16, mention: Mention)
        requires row { row < 272 }
        requires free { vec_len self.old.listed < 272 }
        ensures { Next self.old self.new row mention }
    {
        self.number[row as usize] = self.listed.len() as u16;
        self.listed.push_reserved(Listed { row, mention });
    }

    // A row is mentioned: it gets the next number and waits, unless it has one.
    pub(crate) fn mention(&mut self, row: u16, how: Mention, queue: &mut Queue<u16>)
        requires row { row < 272 }
        requires free { (HasNumber self.old row → ⊥) → (vec_len self.old.listed < 272) × (length (waiting queue.old) < capacity queue.old) }
        ensures known { HasNumber self.old row → (self.new ≡ self.old) × (waiting queue.new ≡ waiting queue.old) }
        ensures fresh { (HasNumber self.old row → ⊥) → Next self.old self.new row how × (waiting queue.new ≡ waiting queue.old ++ (row ∷ [])) }
        ensures capacity { capacity queue.new ≡ capacity queue.old }
    {
        if !self.has_number(row) {
            self.append(row, how);
            queue.push(row);
        }
    }
}
