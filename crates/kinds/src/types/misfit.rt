// Why a type hierarchy cannot be filled.
ghost use Rattle.std.specs.Prelude.{◌≡◌};
ghost use Rattle.kinds.specs.Types.{number_of};

#[derive(Clone, Copy, PartialEq, Eq, Debug)]
pub enum Misfit {
    // The count is 0 or above 64.
    WrongCount,
    // The link at this position names no type, or a supertype that is not lower than its subtype; the first such.
    WrongLink(usize),
    // This type other than 0 has no link; the lowest such.
    Unlinked(u16),
    // These two types, the lower first, have common types at or below them and no greatest; the first such pair.
    NoGreatest(u16, u16),
    // The leaf mark of this type stands on the top or on no type, or is missing below a marked type; the lowest such.
    WrongMark(u16),
}

impl Misfit {
    // The number of the ground.
    pub fn number(&self) -> u8
        ensures { result ≡ number_of self.now }
    {
        match self {
            Misfit::WrongCount => 23,
            Misfit::WrongLink(_) => 24,
            Misfit::Unlinked(_) => 25,
            Misfit::NoGreatest(_, _) => 26,
            Misfit::WrongMark(_) => 27,
        }
    }
}
