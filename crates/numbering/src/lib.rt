// The nodes of a table numbered in listing order.
#![tactic(auto)]

mod arranging;
mod giving;
pub mod mention;
pub mod numbers;
#[cfg(test)]
mod tests;
mod trails;
mod visits;
