// Filling a type hierarchy.
ghost use Rattle.std.specs.Prelude.{[], MatchResult};
ghost use Rattle.kinds.specs.Orders.{sets, size};
ghost use Rattle.kinds.specs.Hierarchy.{Sound, hierarchy};
ghost use Rattle.kinds.specs.Types.{Refused, Accepted, Described, Filled, Settled, meaning_of};

use crate::types::Types;
use crate::types::links::Link;
use crate::types::misfit::Misfit;
use crate::types::order::Order;
use crate::types::upward::{UpwardLinks, singles};

impl Types {
    // Type 0 alone, which is no leaf.
    pub fn fresh() -> Types
        ensures { Described 1 [] 0 (meaning_of result) }
    {
        Types {
            order: Order { below: singles(1) },
            leaves: 0,
        }
    }

    // Makes it the hierarchy of `count` types with these links and leaves, or says why there is none and leaves it as it was.
    pub fn fill(&mut self, count: u16, links: &[Link], leaves: u64) -> Result<(), Misfit>
        ensures filled { Filled count links.now leaves self.old result self.new }
        ensures settled { Settled count links.now leaves result self.new }
    {
        let order = accepted(count, links, leaves)?;
        *self = Types { order, leaves };
        Ok(())
    }
}

// The order of the types, where there is no ground to refuse.
fn accepted(count: u16, links: &[Link], marks: u64) -> Result<Order, Misfit>
    ensures { MatchResult result (λ order. Accepted count links.now marks × Sound (size order) (sets order) marks × Described count links.now marks (hierarchy (size order) (sets order) marks)) (λ e. Refused count links.now marks e) }
{
    let links = UpwardLinks::new(count, links)?;
    if let Some(t) = links.first_orphan() {
        return Err(Misfit::Unlinked(t));
    }
    let order = links.order();
    if let Some((a, b)) = order.first_parted() {
        return Err(Misfit::NoGreatest(a, b));
    }
    if let Some(t) = order.first_astray(marks) {
        return Err(Misfit::WrongMark(t));
    }
    Ok(order)
}
