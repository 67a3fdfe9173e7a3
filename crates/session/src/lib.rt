// A session: feature equations come one after another, and what follows from them is kept as a graph.
#![tactic(auto)]

mod asking;
mod checks;
mod declaring;
mod judging;
mod listing;
mod nodes;
mod opening;
mod parting;
pub mod parts;
pub mod session;
mod stating;
