// What is found out about a sentence.
use crate::failure::Failure;
use crate::orders::Orders;
use crate::verdict::Verdict;
use manuals::context::Context;
use std::alloc::Global;

#[derive(Drop)]
pub struct Findings {
    pub verdict: Verdict,
    // none where there are too many orders
    pub orders: Option<Orders>,
}

impl Findings {
    pub fn of(heap: Global, context: Context<'_>) -> Result<Findings, Failure> {
        Ok(Findings {
            verdict: Verdict::of(heap, context)?,
            orders: Orders::of(heap, context.sentence)?,
        })
    }
}
