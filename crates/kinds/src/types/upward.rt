// Links that all go up, and the order that they make.
ghost use Rattle.std.specs.Prelude.{◌≡◌, ℕ, ◌^◌, ◌<◌, ◌≤◌, ◌⊎◌, true, length, map, MatchResult, MatchOption};
ghost use Rattle.std.specs.List.{range_with_len};
ghost use Rattle.kinds.specs.Orders.{sets, size};
ghost use Rattle.kinds.specs.Hierarchy.{Under};
ghost use Rattle.kinds.specs.Masks.{has};
ghost use Rattle.kinds.specs.Types.{Linked, Up, Counted, AllUpward, AllLinked, Orphan, Least, Refused};

use crate::masks::lowest_bit;
use crate::types::links::{Link, first_not_upward};
use crate::types::misfit::Misfit;
use crate::types::order::Order;
use arrayvec::ArrayVec;
use std::array;

// Links between `count` types, each of which leads up from a type to one with a lower number.
#[derive(Clone, Copy)]
pub struct UpwardLinks<'a> {
    count: u16,
    links: &'a [Link],
    ghost counted: { Counted count },
    ghost upward: { AllUpward count links.now },
}

impl<'a> UpwardLinks<'a> {
    // These links, or the ground on which they are refused whatever the leaf marks.
    pub fn new(count: u16, links: &'a [Link]) -> Result<UpwardLinks<'a>, Misfit>
        ensures { MatchResult result (λ made. (made.count ≡ count) × (made.links.now ≡ links.now)) (λ e. (marks : ℕ) → Refused count links.now marks e) }
    {
        if count == 0 || count > 64 {
            return Err(Misfit::WrongCount);
        }
        match first_not_upward(count, links) {
            Some(position) => Err(Misfit::WrongLink(position)),
            None => Ok(UpwardLinks { count, links }),
        }
    }

    // The set of the types that have a link.
    fn linked(&self) -> u64
        ensures only { (t : ℕ) → has result t ≡ true → (s : ℕ) × Linked self.now.links.now t s }
        ensures all { (t s : ℕ) → Linked self.now.links.now t s → has result t ≡ true }
    {
        let mut types = 0;
        for link in self.links {
            types |= 1u64 << link.subtype;
        }
        types
    }

    // The lowest type other than 0 that has no link.
    pub fn first_orphan(&self) -> Option<u16>
        ensures { MatchOption result (AllLinked self.now.count self.now.links.now) (λ t. Least (Orphan self.now.count self.now.links.now) t) }
    {
        let count = self.count;
        lowest_bit(!(self.linked() | 1)).filter(|t| *t < count)
    }

    // Adds the set of the type to those of its supertypes.
    fn raise(&self, below: &mut [u64], subtype: u16)
        requires long { length below.old ≡ self.now.count }
        requires named { subtype < self.now.count }
        ensures only { (c t : ℕ) → Under below.new c t → Under below.old c t ⊎ (Linked self.now.links.now subtype t × Under below.old c subtype) }
        ensures kept { (c t : ℕ) → Under below.old c t → Under below.new c t }
        ensures raised { (c t : ℕ) → Linked self.now.links.now subtype t → Under below.old c subtype → Under below.new c t }
    {
        let set = below[usize::from(subtype)];
        for link in self.links {
            if link.subtype == subtype {
                below[usize::from(link.supertype)] |= set;
            }
        }
    }

    // The types at or below each. Subtypes come before their supertypes, so that each set is whole before it is added to others.
    pub fn order(&self) -> Order
        ensures count { size result ≡ self.now.count }
        ensures only { (c t : ℕ) → Under (sets result) c t → Up self.now.links.now c t }
        ensures all { (c t : ℕ) → t < self.now.count → Up self.now.links.now c t → Under (sets result) c t }
    {
        let mut below = singles(self.count);
        for t in (0..self.count).rev() {
            self.raise(below.as_mut_slice(), t);
        }
        Order { below }
    }
}

// The first `count` types, each by itself.
pub fn singles(count: u16) -> ArrayVec<u64, 64>
    requires { count ≤ 64 }
    ensures { result.items ≡ map (λ t. 2 ^ t) (range_with_len 0 count) }
{
    let mut below = ArrayVec::from(array::from_fn(|t| 1u64 << t));
    below.truncate(usize::from(count));
    below
}
