// Why a line is no call.
ghost use Rattle.std.specs.Prelude.{◌≡◌};
ghost use Rattle.notation.specs.Reads.{number};

#[derive(Clone, Copy, PartialEq, Eq, Debug)]
pub enum Malformed {
    // more than 120 bytes
    TooLong,
    // outside the notation: the length of the longest beginning that some line of the notation has
    Unfit(usize),
}

impl Malformed {
    pub fn number(&self) -> u8
        ensures { result ≡ number self.now }
    {
        match self {
            Malformed::TooLong => 21,
            Malformed::Unfit(_) => 22,
        }
    }
}
