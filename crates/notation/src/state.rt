// How far a line was read.
ghost use Rattle.std.specs.Prelude.{◌≤◌, length};
ghost use Rattle.notation.specs.Readings.{within_term, within_value, text, Ranged};
ghost use Rattle.notation.specs.Known.{ranged_prop};

use crate::class::{Call, Relation};
use crate::path::Path;

// Where a term stands: alone, before a value, or at a side of a pair.
#[derive(Clone, Copy)]
pub enum Place {
    Value,
    Is,
    Left(Relation),
    Right(Relation, Path),
}

// A term that is being read: where it stands, what stands before its last point, and the number so far.
#[derive(Clone, Copy)]
pub struct Operand {
    pub place: Place,
    pub stem: Option<Path>,
    pub number: Option<u64>,
    ghost ranged: { Ranged (within_term place stem number) } by { ranged_prop (within_term place stem number) },
    ghost short: { length (text (within_term place stem number)) ≤ 120 },
}

// A value that is being read: the term that it is given to, and the number so far.
#[derive(Clone, Copy)]
pub struct Assignment {
    pub term: Path,
    pub number: Option<u64>,
    ghost ranged: { Ranged (within_value term number) } by { ranged_prop (within_value term number) },
}

#[derive(Clone, Copy)]
pub enum State {
    Start,
    // after the letter
    Named(Call),
    Term(Operand),
    Number(Assignment),
}
