// The bytes of a graph, written into a buffer.
#![tactic(auto)]

pub mod parts;
#[cfg(test)]
mod tests;
pub mod writer;
