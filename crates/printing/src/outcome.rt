// What comes of a line.
ghost use Rattle.std.specs.Prelude.{◌≡◌};
ghost use Rattle.printing.specs.Grounds.{number};
ghost use Rattle.printing.specs.Outcomes.{size};

use answers::refusal::Refusal;
use notation::malformed::Malformed;

// Why a line was refused: by the session, or before its call.
#[derive(Clone, Copy, PartialEq, Eq, Debug)]
pub enum Ground {
    Call(Refusal),
    Line(Malformed),
}

impl Ground {
    pub fn number(&self) -> u8
        ensures { result ≡ number self.now }
    {
        match self {
            Ground::Call(refusal) => refusal.number(),
            Ground::Line(why) => why.number(),
        }
    }
}

// A refusal, and how many bytes were printed of it.
#[derive(Clone, Copy, PartialEq, Eq, Debug)]
pub struct RefusedLine {
    pub cause: Ground,
    pub printed: usize,
}

// How many bytes were printed, refused or not.
pub fn printed(outcome: &Result<usize, RefusedLine>) -> usize
    ensures { result ≡ size outcome.now }
{
    match outcome {
        Ok(count) => *count,
        Err(refused) => refused.printed,
    }
}

// A buffer of this size has room for whatever is printed: the longest listing has 27,016 bytes in 845 lines.
pub const ROOM: usize = 54877;
