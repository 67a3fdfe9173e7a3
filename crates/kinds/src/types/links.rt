// Links from types up to others.
ghost use Rattle.std.specs.Prelude.{◌≡◌, ℕ, ◌≤◌, true, MatchBool, MatchOption};
ghost use Rattle.kinds.specs.Types.{Upward, AllUpward, NotUpward, Least};

// Says that one type is right below another.
#[derive(Clone, Copy)]
pub struct Link {
    pub subtype: u16,
    pub supertype: u16,
}

impl Link {
    // Does it name two of `count` types, the supertype with the lower number?
    fn goes_up(&self, count: u16) -> bool
        ensures { MatchBool result (Upward count self.now) (Upward count self.now → ⊥) }
    {
        self.subtype < count && self.supertype < self.subtype
    }
}

// The position of the first link that does not go up.
pub fn first_not_upward(count: u16, links: &[Link]) -> Option<usize>
    ensures { MatchOption result (AllUpward count links.now) (λ i. Least (NotUpward count links.now) i) }
{
    links.iter().position(|link| !link.goes_up(count))
}
