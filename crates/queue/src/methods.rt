ghost use Rattle.std.specs.Prelude.{◌≡◌, [], ◌∷◌, ◌++◌, length, if◌then◌else◌, MatchOption, ◌==◌, nat_lt};
ghost use Rattle.queue.specs.Waiting.{waiting, capacity};

use super::Queue;

impl<'a, T: Copy> Queue<'a, T> {
    // A queue in which nothing waits.
    pub fn over(slots: &'a mut [T]) -> Queue<'a, T>
        ensures empty { waiting result ≡ [] }
        ensures room { capacity result ≡ length slots.old }
    {
        Queue {
            slots,
            head: 0,
            len: 0,
        }
    }

    // How many entries wait.
    pub fn len(&self) -> usize
        ensures { result ≡ length (waiting self.now) }
    {
        self.len
    }

    // Whether nothing waits.
    pub fn is_empty(&self) -> bool
        ensures { result ≡ (length (waiting self.now) == 0) }
    {
        self.len() == 0
    }

    // Lets `x` wait last, unless every slot is taken: then it says no, and nothing changes.
    pub fn push(&mut self, x: T) -> bool
        ensures taken { result ≡ nat_lt (length (waiting self.old)) (capacity self.old) }
        ensures after { waiting self.new ≡ (if result then waiting self.old ++ (x ∷ []) else waiting self.old) }
        ensures room { capacity self.new ≡ capacity self.old }
    {
        let room = self.slots.len() - self.head;
        if self.len == self.slots.len() {
            return false;
        }
        let free = if self.len < room {
            self.head + self.len
        } else {
            self.len - room
        };
        self.slots[free] = x;
        self.len += 1;
        true
    }

    // Takes out the entry that has waited longest, or none where nothing waits.
    pub fn pop(&mut self) -> Option<T>
        ensures first { MatchOption result ((waiting self.old ≡ []) × (waiting self.new ≡ [])) (λ x. waiting self.old ≡ x ∷ waiting self.new) }
        ensures room { capacity self.new ≡ capacity self.old }
    {
        if self.len == 0 {
            return None;
        }
        let first = if self.head < self.slots.len() {
            self.head
        } else {
            0
        };
        let x = self.slots[first];
        self.head = first + 1;
        self.len -= 1;
        Some(x)
    }
}
