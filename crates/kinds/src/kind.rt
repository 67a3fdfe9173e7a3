// What every kind of value answers.
ghost use Rattle.std.specs.Prelude.{◌≡◌};
ghost use Rattle.kinds.specs.Meaning.{Meaning, Lawful};
ghost use Rattle.kinds.specs.Meets.{MeetOfTwo};

// A kind of value. What it says is its meaning, one object, which alone fixes every answer; the laws of a partial order with one top,
// greatest common values and leaves closed downward are owed by each implementation.
pub trait Kind {
    ghost meaning: { Self → Meaning };

    // Is the number a value of this kind?
    fn is_value(&self, v: u64) -> bool
        ensures { result ≡ (meaning self.now).value v };

    // The value that all others are below.
    fn top(&self) -> u64
        ensures { result ≡ (meaning self.now).top };

    // Is the number a leaf? No for what is no value.
    fn is_leaf(&self, v: u64) -> bool
        ensures { result ≡ (meaning self.now).leaf v };

    // The greatest value at or below both, or none exactly when no value is.
    fn meet(&self, a: u64, b: u64) -> Option<u64>
        ensures { MeetOfTwo (meaning self.now) a b result };

    ghost lawful: { (k : Self) → Lawful (meaning k) };
}
