// One statement more is closed: its terms are grown, its nodes joined with all that lies beneath them, and the result is put in listing order.
#![tactic(auto)]

pub mod closer;
mod closing;
mod judging;
mod opening;
pub mod term;
