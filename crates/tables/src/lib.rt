// Rows that hold a feature graph.
#![tactic(auto)]

pub mod attributes;
pub mod copying;
pub mod growing;
pub mod node;
pub mod rows;
pub mod storage;
pub mod table;
#[cfg(test)]
mod tests;
pub mod walks;
