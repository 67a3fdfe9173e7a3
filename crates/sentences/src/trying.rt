// The equations of a sentence in every order.
ghost use Rattle.std.specs.Prelude.{◌≤◌, ◌↔◌, vec_len, IsSome, IfOk, IfSome};

use crate::failure::Failure;
use crate::orders::{MOST, Orders};
use crate::stating::Stating;
use answers::refusal::Refusal;
use itertools::Itertools;
use manuals::equation::Equation;
use manuals::manual::Sentence;
use std::alloc::Global;

impl Orders {
    // Tries every order, where the equations are not too many.
    pub fn of(heap: Global, sentence: &Sentence) -> Result<Option<Orders>, Failure>
        ensures tried { IfOk result (λ found. IsSome found ↔ (vec_len sentence.now.equations ≤ MOST)) }
        ensures some { IfOk result (λ found. IfSome found (λ orders. orders.accepted ≤ orders.tried)) }
        ensures alike { IfOk result (λ found. IfSome found (λ orders. orders.same ≤ orders.accepted)) }
    {
        let count = sentence.equations.len();
        if count > MOST {
            return Ok(None);
        }
        let mut tally = Tally {
            orders: Orders::default(),
            first: None,
        };
        for order in sentence.equations.iter().permutations(heap, count)? {
            let mut stating = Stating::open(heap, sentence.words.count())?;
            tally.count(graph(&mut stating, order?.as_slice())?);
        }
        Ok(Some(tally.orders))
    }
}

// What came of the orders so far.
#[derive(Drop)]
struct Tally {
    orders: Orders,
    // the graph of the first that was accepted
    first: Option<Vec<u8>>,
    ghost some: { orders.accepted ≤ orders.tried },
    ghost alike: { orders.same ≤ orders.accepted },
}

impl Tally {
    // Counts an order, with its graph if it was accepted.
    fn count(&mut self, graph: Option<Vec<u8>>) {
        self.orders.tried = self.orders.tried.saturating_add(1);
        let Some(graph) = graph else {
            return;
        };
        self.orders.accepted = self.orders.accepted.saturating_add(1);
        if self.first.as_ref().is_none_or(|first| graph == *first) {
            self.orders.same = self.orders.same.saturating_add(1);
        }
        self.first.get_or_insert(graph);
    }
}

// The graph of equations in their order, as its listing, or none where one of them clashes.
fn graph(stating: &mut Stating, order: &[&Equation]) -> Result<Option<Vec<u8>>, Failure> {
    match state_all(stating, order) {
        Ok(()) => Ok(Some(stating.listing()?)),
        Err(refusal) if refusal.is_clash() => Ok(None),
        Err(refusal) => Err(Failure::Session(refusal)),
    }
}

// States equations, up to the first that is refused.
fn state_all(stating: &mut Stating, order: &[&Equation]) -> Result<(), Refusal> {
    order
        .iter()
        .try_for_each(|equation| stating.state(equation))
}
